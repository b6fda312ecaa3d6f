//! What is asked of the heap.

use crate::tried::Tried;
use crate::words::Words;
use ir_ast::Cell;
use moving_heap::{AllocFault, Deny, Verdict};
use sp_ids::ObjId;
use std::alloc::{AllocError, Global};

// What is found where the heap is asked; nothing, where another is.
pub(crate) fn found(
    tried: &mut Tried,
    asked: &[u8],
    mut words: Words<'_>,
) -> Result<Option<String>, AllocError> {
    let alloc = tried.alloc;
    if asked == b"alloc".as_slice() {
        return Ok(Some(new_object(tried, words)?));
    }
    if asked == b"check".as_slice() {
        let base = words.number();
        let p = words.number();
        let kind = kind_of(words.word());
        return Ok(Some(denied(alloc, tried.heap.check(base, p, kind))?));
    }
    if asked == b"load".as_slice() {
        return Ok(Some(word_found(alloc, tried.heap.load(words.number()))?));
    }
    if asked == b"near".as_slice() {
        let p = words.number();
        let (found, _near) = tried.heap.load_near(p, words.number() as usize);
        return Ok(Some(word_found(alloc, found)?));
    }
    if asked == b"store".as_slice() {
        let p = words.number();
        return Ok(Some(denied(alloc, tried.heap.store(p, words.number()))?));
    }
    if asked == b"same".as_slice() {
        let b1 = words.number();
        let p1 = words.number();
        let b2 = words.number();
        let same = if tried.heap.same(b1, p1, b2, words.number()) {
            "yes"
        } else {
            "no"
        };
        return Ok(Some(String::from_str(alloc, same)?));
    }
    if asked == b"place".as_slice() {
        return Ok(Some(number_found(alloc, tried.heap.place(ObjId(words.number())))?));
    }
    if asked == b"object".as_slice() {
        return Ok(Some(match tried.heap.object_at(words.number()) {
            Some(ObjId(object)) => format!(in alloc; "{object}")?,
            None => String::from_str(alloc, "none")?,
        }));
    }
    if asked == b"shape".as_slice() {
        return Ok(Some(match tried.heap.shape(ObjId(words.number())) {
            Some((layout, count)) => format!(in alloc; "{layout} {count}")?,
            None => String::from_str(alloc, "none")?,
        }));
    }
    if asked == b"rank".as_slice() {
        let rank = words.number().min(4_294_967_295) as u32;
        return Ok(Some(match tried.heap.at_rank(rank) {
            Some((address, ObjId(object))) => format!(in alloc; "{object} at {address}")?,
            None => String::from_str(alloc, "none")?,
        }));
    }
    group_found(tried, asked, words)
}

// What is found where the group of moves is asked.
fn group_found(
    tried: &mut Tried,
    asked: &[u8],
    mut words: Words<'_>,
) -> Result<Option<String>, AllocError> {
    let alloc = tried.alloc;
    if asked == b"ready".as_slice() {
        let flip = if words.is_empty() {
            None
        } else {
            Some(words.number())
        };
        let verdict = tried.heap.ready(tried.group.as_slice(), flip);
        tried.group.clear();
        return Ok(Some(String::from_str(alloc, verdict_word(verdict))?));
    }
    if asked == b"moves".as_slice() {
        return Ok(Some(shown_moves(tried)?));
    }
    if asked == b"address".as_slice() {
        return Ok(Some(number_found(alloc, tried.heap.moves().new_address(words.number()))?));
    }
    if asked == b"apply".as_slice() {
        if tried.heap.moves().is_empty() {
            return Ok(Some(String::from_str(alloc, "none is pending")?));
        }
        tried.heap.apply();
        return Ok(Some(String::from_str(alloc, "done")?));
    }
    Ok(None)
}

// A new object of a layout, a count of elements and cells, spelled `i` and `p`.
fn new_object(tried: &mut Tried, mut words: Words<'_>) -> Result<String, AllocError> {
    let alloc = tried.alloc;
    let layout = words.number().min(4_294_967_295) as u32;
    let count = count_of(words.word());
    let mut cells = Vec::new(alloc);
    for letter in words.word() {
        cells.push(kind_of(&[*letter]))?;
    }
    match tried.heap.alloc(layout, cells.as_slice(), count) {
        Ok(address) => format!(in alloc; "{address}"),
        Err(AllocFault::Count) => String::from_str(alloc, "count"),
        Err(AllocFault::Full) => String::from_str(alloc, "full"),
        Err(AllocFault::Memory) => Err(AllocError),
    }
}

// A count of elements, which may be negative.
fn count_of(word: &[u8]) -> i64 {
    match word {
        [b'-', rest @ ..] => {
            let count = Words::of(rest).number();
            if count <= 9_223_372_036_854_775_807 {
                -(count as i64)
            } else {
                i64::MIN
            }
        }
        _ => Words::of(word).number().min(9_223_372_036_854_775_807) as i64,
    }
}

fn kind_of(word: &[u8]) -> Cell {
    if word == b"p".as_slice() {
        Cell::Ptr
    } else {
        Cell::I64
    }
}

fn verdict_word(verdict: Verdict) -> &'static str {
    match verdict {
        Verdict::Empty => "empty",
        Verdict::Legal => "legal",
        Verdict::Illegal => "illegal",
    }
}

fn deny_word(deny: Deny) -> &'static str {
    match deny {
        Deny::Null => "null",
        Deny::Bounds => "bounds",
        Deny::Kind => "kind",
        Deny::Poison => "poison",
    }
}

fn denied(alloc: Global, found: Result<(), Deny>) -> Result<String, AllocError> {
    match found {
        Ok(()) => String::from_str(alloc, "done"),
        Err(deny) => String::from_str(alloc, deny_word(deny)),
    }
}

fn word_found(alloc: Global, found: Result<u64, Deny>) -> Result<String, AllocError> {
    match found {
        Ok(word) => format!(in alloc; "{word}"),
        Err(deny) => String::from_str(alloc, deny_word(deny)),
    }
}

fn number_found(alloc: Global, found: Option<u64>) -> Result<String, AllocError> {
    match found {
        Some(number) => format!(in alloc; "{number}"),
        None => String::from_str(alloc, "none"),
    }
}

// The pending moves, with a space between them.
fn shown_moves(tried: &Tried) -> Result<String, AllocError> {
    let mut shown = String::new(tried.alloc);
    for (place, moved) in tried.heap.moves().as_slice().iter().enumerate() {
        if place > 0 {
            shown.push_str(" ")?;
        }
        let old = moved.old;
        let new = moved.new;
        write!(shown, "{old}>{new}")?;
    }
    if shown.is_empty() {
        shown.push_str("none")?;
    }
    Ok(shown)
}
