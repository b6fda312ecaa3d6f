//! What is asked of the stack and the map.

use crate::tried::Tried;
use crate::words::Words;
use frame_walk::{FrameChange, FrameMap, FrameRecord, LostFrame, Stack, walk};
use map_bytes::Place;
use std::alloc::{AllocError, Global};

// What is found where the stack is asked; nothing, where another is.
pub(crate) fn found(
    tried: &mut Tried,
    asked: &[u8],
    mut words: Words<'_>,
) -> Result<Option<String>, AllocError> {
    let alloc = tried.alloc;
    if asked == b"push".as_slice() {
        let count = words.number().min(4_294_967_295) as u32;
        let pushed = if tried.stack.push_frame(count, words.number()).is_ok() {
            "done"
        } else {
            "memory"
        };
        return Ok(Some(String::from_str(alloc, pushed)?));
    }
    if asked == b"pop".as_slice() {
        let count = words.number().min(4_294_967_295) as u32;
        if count as usize >= tried.stack.len() {
            return Ok(Some(String::from_str(alloc, "none")?));
        }
        let address = tried.stack.pop_frame(count);
        return Ok(Some(format!(in alloc; "{address}")?));
    }
    if asked == b"word".as_slice() {
        let index = words.number().min(4_294_967_295) as u32;
        if index as usize >= tried.stack.len() {
            return Ok(Some(String::from_str(alloc, "none")?));
        }
        let word = tried.stack.word(index);
        return Ok(Some(format!(in alloc; "{word}")?));
    }
    if asked == b"set".as_slice() {
        let index = words.number().min(4_294_967_295) as u32;
        if index as usize >= tried.stack.len() {
            return Ok(Some(String::from_str(alloc, "none")?));
        }
        tried.stack.set_word(index, words.number());
        return Ok(Some(String::from_str(alloc, "done")?));
    }
    map_found(tried, asked, words)
}

// What is found where the map is asked.
fn map_found(
    tried: &mut Tried,
    asked: &[u8],
    mut words: Words<'_>,
) -> Result<Option<String>, AllocError> {
    let alloc = tried.alloc;
    if asked == b"record".as_slice() {
        let address = words.number();
        tried.map.add(address, words.number())?;
        for _ in 0..3 {
            tried.map.add_place(located(4, 8, 0, 0))?;
        }
        return Ok(Some(String::from_str(alloc, "done")?));
    }
    if asked == b"bare".as_slice() {
        let address = words.number();
        tried.map.add(address, words.number())?;
        return Ok(Some(String::from_str(alloc, "done")?));
    }
    if asked == b"slot".as_slice() {
        let offset = words.number().min(2_147_483_647) as i32;
        tried.map.add_place(located(3, 8, 7, offset))?;
        return Ok(Some(String::from_str(alloc, "done")?));
    }
    if asked == b"location".as_slice() {
        let kind = words.number().min(255) as u8;
        let size = words.number().min(65_535) as u16;
        let register = words.number().min(65_535) as u16;
        let offset = words.number().min(4_294_967_295) as u32;
        tried
            .map
            .add_place(located(kind, size, register, signed(offset)))?;
        return Ok(Some(String::from_str(alloc, "done")?));
    }
    if asked == b"walk".as_slice() {
        let records = tried.map.lent();
        let walked = walk(
            &records,
            &mut tried.stack,
            words.number(),
            tried.heap.moves(),
        );
        return Ok(Some(match walked {
            Ok(()) => String::from_str(alloc, "done")?,
            Err(LostFrame { return_address }) => format!(in alloc; "lost {return_address}")?,
        }));
    }
    if asked == b"frames".as_slice() {
        let records = tried.map.lent();
        return Ok(Some(shown_frames(alloc, &records, &mut tried.stack, words.number())?));
    }
    if asked == b"change".as_slice() {
        let records = tried.map.lent();
        let ended = tried
            .stack
            .change_frames(&records, words.number(), &mut Raising);
        return Ok(Some(match ended {
            Some(address) => format!(in alloc; "lost {address}")?,
            None => String::from_str(alloc, "end")?,
        }));
    }
    Ok(None)
}

fn located(kind: u8, size: u16, register: u16, offset: i32) -> Place {
    Place {
        kind,
        size,
        register,
        offset,
    }
}

// The signed number that these 32 bits spell.
fn signed(bits: u32) -> i32 {
    if bits <= 2_147_483_647 {
        bits as i32
    } else {
        -1 - (4_294_967_295 - bits) as i32
    }
}

// How many words each frame has, and how the frames ended. Each lent word is raised by one on the way.
fn shown_frames<M: FrameMap>(
    alloc: Global,
    map: &M,
    stack: &mut Stack,
    address: u64,
) -> Result<String, AllocError> {
    let mut shown = String::new(alloc);
    let mut frames = stack.frames_mut(map, address);
    for (_one, words) in &mut frames {
        let count = words.len();
        raise(words);
        write!(shown, "{count} ")?;
    }
    match frames.lost() {
        Some(address) => write!(shown, "lost {address}")?,
        None => shown.push_str("end")?,
    }
    Ok(shown)
}

// Each word of a frame is raised by one.
#[derive(Drop)]
struct Raising;

impl FrameChange for Raising {
    ghost use Rattle.std.specs.Prelude.{⊤};

    ghost does = { λ _ _ _ _ _. ⊤ };

    fn change<R: FrameRecord>(&mut self, _one: &R, words: &mut [u64]) {
        raise(words);
    }
}

fn raise(words: &mut [u64]) {
    for word in words.iter_mut() {
        *word = word.wrapping_add(1);
    }
}
