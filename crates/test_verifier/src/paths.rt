//! Small functions, judged by the plainest enumeration of their paths: is a pointer fresh at its use, whichever blocks have a
//! statepoint, and is a phi the base of the phi beside it, whatever their entries are?

use crate::graphs::{ENDS, add, add_end, edges, line_after, name, next};
use crate::verdict::{Verdict, verdict_on};
use std::alloc::{AllocError, Global};
use std::{fmt, io};

// No path that tells more has more edges: it is in no block three times.
const STEPS: u8 = 6;

// Where a pointer is used: in front of the statepoint of a block, or behind it.
#[derive(Clone, Copy)]
enum Use {
    Front(u8),
    Back(u8),
}

// Which blocks have a statepoint that relocates nothing, and the use.
#[derive(Clone, Copy)]
struct Waits {
    blocks: [bool; 3],
    place: Use,
}

impl Waits {
    fn at(&self, block: u8) -> bool {
        self.blocks.get(block as usize).copied().unwrap_or(false)
    }

    fn uses(&self, block: u8, front: bool) -> bool {
        match self.place {
            Use::Front(own) => front && own == block,
            Use::Back(own) => !front && own == block,
        }
    }
}

// Whether some path of so many edges from this block comes to the use behind a statepoint.
fn is_stale(edges: &[(u8, u8)], waits: &Waits, at: u8, before: bool, steps: u8) -> bool {
    let behind = before || waits.at(at);
    if (waits.uses(at, true) && before) || (waits.uses(at, false) && behind) {
        return true;
    }
    if steps == 0 {
        return false;
    }
    for (from, next) in edges {
        if *from == at && is_stale(edges, waits, *next, behind, steps - 1) {
            return true;
        }
    }
    false
}

fn add_use(text: &mut Vec<u8>) -> Result<u32, AllocError> {
    let line = line_after(text.as_slice());
    add(text, b"%u = icmp eq ptr addrspace(1) %p, null\n")?;
    Ok(line)
}

// Adds a block, and gives the line of the use where it stands there.
fn add_waiting(
    text: &mut Vec<u8>,
    waits: &Waits,
    block: u8,
    end: (u8, u8),
) -> Result<u32, AllocError> {
    let mut line = 0;
    add(text, name(block))?;
    add(text, b":\n")?;
    if waits.uses(block, true) {
        line = add_use(text)?;
    }
    if waits.at(block) {
        add(text, b"%s")?;
        add(text, name(block))?;
        add(
            text,
            b" = call token (i64, i32, ptr, i32, i32, ...) @llvm.experimental.gc.statepoint.p0(i64 0, i32 0, ptr elementtype(void ()) @gc.safepoint_poll, i32 0, i32 0, i32 0, i32 0)\n",
        )?;
    }
    if waits.uses(block, false) {
        line = add_use(text)?;
    }
    add_end(text, end)?;
    Ok(line)
}

fn waiting_text(
    alloc: Global,
    ends: &[(u8, u8); 3],
    waits: &Waits,
) -> Result<(Vec<u8>, u32), AllocError> {
    let mut text = Vec::from_slice(
        alloc,
        b"define void @t(ptr addrspace(1) %p, i1 %c) gc \"statepoint-example\" {\n",
    )?;
    let mut found = 0;
    let mut block = 0;
    for end in ends {
        let line = add_waiting(&mut text, waits, block, *end)?;
        if line != 0 {
            found = line;
        }
        block = next(block);
    }
    add_rest(&mut text)?;
    Ok((text, found))
}

fn add_rest(text: &mut Vec<u8>) -> Result<(), AllocError> {
    add(
        text,
        b"}\ndeclare void @gc.safepoint_poll()\ndeclare void @gc_check(ptr addrspace(1), ptr addrspace(1), i64)\ndefine i64 @main() gc \"statepoint-example\" {\nret i64 0\n}\n",
    )
}

// ---- phis

// An entry of a phi: the first pointer, the second, or the phi's own value.
#[derive(Clone, Copy)]
enum Entry {
    First,
    Second,
    Own,
}

// The entries of the base phi and of the derived phi of the last block, for the edges from each block.
#[derive(Clone, Copy)]
struct Phis {
    bases: [Entry; 3],
    pointers: [Entry; 3],
}

// Whether a phi stands for the second pointer behind an edge, which may lead to another block than the phi's.
fn along(entries: &[Entry; 3], edge: (u8, u8), before: bool) -> bool {
    let (from, to) = edge;
    if to != 2 {
        return before;
    }
    match entries.get(from as usize) {
        Some(Entry::First) => false,
        Some(Entry::Second) => true,
        _ => before,
    }
}

// Whether some path of so many edges from this block comes to the last one with phis of two pointers. They stand for the second
// pointer, or else for the first.
fn differs(edges: &[(u8, u8)], phis: &Phis, at: u8, base: bool, pointer: bool, steps: u8) -> bool {
    if at == 2 && base != pointer {
        return true;
    }
    if steps == 0 {
        return false;
    }
    for (from, next) in edges {
        let next_base = along(&phis.bases, (*from, *next), base);
        let next_pointer = along(&phis.pointers, (*from, *next), pointer);
        if *from == at && differs(edges, phis, *next, next_base, next_pointer, steps - 1) {
            return true;
        }
    }
    false
}

fn add_phi(
    text: &mut Vec<u8>,
    edges: &[(u8, u8)],
    entries: &[Entry; 3],
    names: [&[u8]; 3],
) -> Result<(), AllocError> {
    let [first, second, own] = names;
    add(text, own)?;
    add(text, b" = phi ptr addrspace(1)")?;
    let mut some = false;
    for (from, to) in edges {
        if *to == 2 {
            add(text, if some { b", [ " } else { b" [ " })?;
            match entries.get(*from as usize) {
                Some(Entry::First) => add(text, first)?,
                Some(Entry::Second) => add(text, second)?,
                _ => add(text, own)?,
            }
            add(text, b", %")?;
            add(text, name(*from))?;
            add(text, b" ]")?;
            some = true;
        }
    }
    add(text, b"\n")
}

fn phi_text(
    alloc: Global,
    ends: &[(u8, u8); 3],
    edges: &[(u8, u8)],
    phis: &Phis,
) -> Result<(Vec<u8>, u32), AllocError> {
    let [entry_end, first_end, last_end] = *ends;
    let mut text = Vec::from_slice(
        alloc,
        b"define void @t(ptr addrspace(1) %p, ptr addrspace(1) %o, i1 %c) gc \"statepoint-example\" {\ne:\n%q = getelementptr i8, ptr addrspace(1) %p, i64 8\n%d = getelementptr i8, ptr addrspace(1) %o, i64 8\n",
    )?;
    add_end(&mut text, entry_end)?;
    add(&mut text, b"a:\n")?;
    add_end(&mut text, first_end)?;
    add(&mut text, b"b:\n")?;
    add_phi(&mut text, edges, &phis.bases, [b"%p", b"%o", b"%x"])?;
    add_phi(&mut text, edges, &phis.pointers, [b"%q", b"%d", b"%y"])?;
    let line = line_after(text.as_slice());
    add(
        &mut text,
        b"call void @gc_check(ptr addrspace(1) %x, ptr addrspace(1) %y, i64 0)\n",
    )?;
    add_end(&mut text, last_end)?;
    add_rest(&mut text)?;
    Ok((text, line))
}

// ---- all of them

/// Of how many functions the verdict is what their paths say.
#[derive(Clone, Copy, Debug, PartialEq, Eq)]
pub(crate) struct Tally {
    functions: u32,
    agree: u32,
}

impl Tally {
    pub(crate) fn all_agree(&self) -> bool {
        self.functions == self.agree
    }

    fn count(&mut self, agrees: bool) {
        self.functions = self.functions.saturating_add(1);
        if agrees {
            self.agree = self.agree.saturating_add(1);
        }
    }
}

impl fmt::Display for Tally {
    fn fmt<W: fmt::Write>(&self, f: &mut fmt::Formatter<W>) -> fmt::Result {
        write!(
            f,
            "{} of {} functions are judged as their paths say",
            self.agree, self.functions
        )
    }
}

// Whether the verdict on a text is this one. Where it isn't, the text is printed.
fn agrees(rt: &impl Print, alloc: Global, text: &[u8], expected: Verdict) -> io::Result<bool> {
    let found = verdict_within(alloc, text);
    if found != expected {
        println!(rt; "expected {expected}, found {found}:")?;
        rt.println(str::from_utf8(text).unwrap_or("no text"))?;
    }
    Ok(found == expected)
}

// On texts of three short blocks alone.
fn verdict_within(alloc: Global, text: &[u8]) -> Verdict {
    if text.len() <= 3000 {
        verdict_on(alloc, text)
    } else {
        Verdict::Memory
    }
}

fn fault_where(faulty: bool, line: u32, code: u8) -> Verdict {
    if faulty {
        Verdict::Faulty { line, code }
    } else {
        Verdict::Verified
    }
}

fn count_waits(
    rt: &impl Print,
    alloc: Global,
    ends: &[(u8, u8); 3],
    blocks: [bool; 3],
    tally: &mut Tally,
) -> io::Result<()> {
    let edges = edges(alloc, ends)?;
    for place in [Use::Front(1), Use::Back(2)] {
        let waits = Waits { blocks, place };
        let (text, line) = waiting_text(alloc, ends, &waits)?;
        let stale = is_stale(edges.as_slice(), &waits, 0, false, STEPS);
        tally.count(agrees(rt, alloc, text.as_slice(), fault_where(stale, line, 1))?);
    }
    Ok(())
}

fn count_phis(
    rt: &impl Print,
    alloc: Global,
    ends: &[(u8, u8); 3],
    phis: &Phis,
    tally: &mut Tally,
) -> io::Result<()> {
    let edges = edges(alloc, ends)?;
    let mut entered = false;
    for (_, to) in &edges {
        if *to == 2 {
            entered = true;
        }
    }
    if entered {
        let (text, line) = phi_text(alloc, ends, edges.as_slice(), phis)?;
        let wrong = differs(edges.as_slice(), phis, 0, false, false, STEPS);
        tally.count(agrees(rt, alloc, text.as_slice(), fault_where(wrong, line, 3))?);
    }
    Ok(())
}

const BOTH: [bool; 2] = [false, true];

// What the phis may have for the edges from the entry, from the block between, and from their own.
const FROM_ENTRY: [(Entry, Entry); 2] = [
    (Entry::First, Entry::First),
    (Entry::First, Entry::Second),
];

const FROM_BETWEEN: [(Entry, Entry); 2] = [
    (Entry::Second, Entry::Second),
    (Entry::Second, Entry::First),
];

const FROM_OWN: [(Entry, Entry); 3] = [
    (Entry::Own, Entry::Own),
    (Entry::Second, Entry::Second),
    (Entry::First, Entry::Own),
];

fn count_graph(
    rt: &impl Print,
    alloc: Global,
    ends: &[(u8, u8); 3],
    tally: &mut Tally,
) -> io::Result<()> {
    for second in BOTH {
        for third in BOTH {
            count_waits(rt, alloc, ends, [false, second, third], tally)?;
        }
    }
    for (first_base, first) in FROM_ENTRY {
        for (second_base, second) in FROM_BETWEEN {
            for (own_base, own) in FROM_OWN {
                let phis = Phis {
                    bases: [first_base, second_base, own_base],
                    pointers: [first, second, own],
                };
                count_phis(rt, alloc, ends, &phis, tally)?;
            }
        }
    }
    Ok(())
}

/// Judges each of these functions, and compares the verdict with what the function's paths say.
pub(crate) fn compare_all(rt: &impl Print, alloc: Global) -> io::Result<Tally> {
    let mut tally = Tally {
        functions: 0,
        agree: 0,
    };
    for first in ENDS {
        for second in ENDS {
            for third in ENDS {
                count_graph(rt, alloc, &[first, second, third], &mut tally)?;
            }
        }
    }
    Ok(tally)
}
