//! The edges into blocks and the entries of phis.

ghost use Rattle.std.specs.Prelude.{◌≡◌, ◌≢◌, ◌^◌, ◌<◌, ◌+◌, ◌++◌, ◌∷◌, ◌↔◌, ◌||◌, ℕ, [], false, true, not, replicate, IsTrue, map, length, take, slice_get, slice_set, slice_index_or, IfOk, OnOk};
ghost use Rattle.std.specs.List.{All};
ghost use Rattle.std.specs.List.Sorted.{IsNonDecreasing};
ghost use Rattle.ir_ast.specs.Edges.{targets, edges};
ghost use Rattle.ir_ast.specs.Faults.PhiEdges.{is_phi, PhiIsRight};
ghost use Rattle.ir_ast.specs.Funcs.{instructions_of};
ghost use Rattle.body_tables.specs.Bodies.{any_phi};
ghost use Rattle.ir_verify.specs.Founds.{FoundIn};
ghost use Rattle.ir_verify.specs.FunctionFaults.{PhiFaultAt, BlockFaultAt};
ghost use Rattle.ir_lines.specs.Notes.{Notes};
ghost use Rattle.ir_verify.specs.Phis.{times, numbers_of, AddsEdges, AreEdges, Counts, Agree, AreRight, IsWrong};

use ir_ast::{Block, Func, Inst, Op, Operand};
use ir_lines::best::First;
use sp_ids::{BlockId, Memory};
use std::alloc::Global;

// ---- edges

// Adds a number to one of the lists, where there is one of that place.
fn push_at(lists: &mut Vec<Vec<usize>>, place: usize, number: usize) -> Result<(), Memory>
    ensures { OnOk result (map (λ list. list.items) lists.new.items
        ≡ slice_set (map (λ list. list.items) lists.old.items) place (slice_index_or (map (λ list. list.items) lists.old.items) place [] ++ number ∷ [])) }
{
    if let Some(list) = lists.get_mut(place) {
        list.push(number)?;
    }
    Ok(())
}

// Adds the edges from a block to those that the labels name.
fn add_edges(labels: &[BlockId], from: usize, into: &mut Vec<Vec<usize>>) -> Result<(), Memory>
    ensures { OnOk result (AddsEdges from labels.now (map (λ list. list.items) into.old.items) (map (λ list. list.items) into.new.items)) }
{
    for label in labels {
        push_at(into, label.0 as usize, from)?;
    }
    Ok(())
}

// The labels of the terminator.
fn edges_of(block: &Block) -> &[BlockId]
    ensures { result.now ≡ targets block.now }
{
    match block.insts().last() {
        Some(inst) => inst.labels(),
        None => &[],
    }
}

// As many empty lists as there are blocks.
fn empty_lists(alloc: Global, count: usize) -> Result<Vec<Vec<usize>>, Memory>
    ensures { IfOk result (λ lists. map (λ list. list.items) lists.items ≡ replicate count []) }
{
    let mut lists = Vec::new(alloc);
    for _ in 0..count {
        lists.push(Vec::new(alloc))?;
    }
    Ok(lists)
}

/// For each block the blocks that the edges into it come from, in text order.
pub(crate) fn sources(alloc: Global, func: &Func) -> Result<Vec<Vec<usize>>, Memory>
    ensures { IfOk result (λ into. AreEdges func.now.content (map (λ list. list.items) into.items)) }
{
    let blocks = func.blocks();
    let mut into = empty_lists(alloc, blocks.len())?;
    for (from, block) in blocks.iter().enumerate() {
        add_edges(edges_of(block), from, &mut into)?;
    }
    Ok(into)
}

// ---- the entries of a phi

fn push_numbers(labels: &[BlockId], numbers: &mut Vec<usize>) -> Result<(), Memory>
    ensures { OnOk result (numbers.new.items ≡ numbers.old.items ++ numbers_of labels.now) }
{
    for label in labels {
        numbers.push(label.0 as usize)?;
    }
    Ok(())
}

// Whether the labels, counted, aren't those of these blocks, which are in ascending order; `numbers` is room to work in.
fn are_uncounted(
    labels: &[BlockId],
    into: &[usize],
    numbers: &mut Vec<usize>,
) -> Result<bool, Memory>
    requires { IsNonDecreasing into.now }
    ensures apart { IfOk result (λ wrong. IsTrue wrong → ¬ Counts into.now labels.now) }
    ensures counts { IfOk result (λ wrong. wrong ≡ false → Counts into.now labels.now) }
{
    numbers.clear();
    push_numbers(labels, numbers)?;
    numbers.sort_unstable();
    Ok(numbers.as_slice() != into)
}

fn same_label(labels: &[BlockId], one: usize, other: usize) -> bool
    ensures { IsTrue result ↔ (slice_get labels.now one ≡ slice_get labels.now other) }
{
    labels.get(one).copied() == labels.get(other).copied()
}

fn same_operand(operands: &[Operand], one: usize, other: usize) -> bool
    ensures { IsTrue result ↔ (slice_get operands.now one ≡ slice_get operands.now other) }
{
    operands.get(one).copied() == operands.get(other).copied()
}

// Whether an entry has another value than an earlier one of its block.
fn differs(labels: &[BlockId], operands: &[Operand], earlier: usize, place: usize) -> bool
    ensures apart { IsTrue result → (slice_get labels.now earlier ≡ slice_get labels.now place)
        × (slice_get operands.now earlier ≢ slice_get operands.now place) }
    ensures same { result ≡ false → earlier < place → slice_get labels.now earlier ≡ slice_get labels.now place
        → slice_get operands.now earlier ≡ slice_get operands.now place }
{
    earlier < place && same_label(labels, earlier, place) && !same_operand(operands, earlier, place)
}

// Whether entries of one block differ; `places` is room to work in, with a place for each block. What stands there at
// first doesn't matter, since a place is looked up among the labels.
fn differ(labels: &[BlockId], operands: &[Operand], places: &mut Vec<usize>) -> bool
    requires { All (λ label. label.0 < length places.old.items) labels.now }
    ensures apart { IsTrue result → ¬ Agree labels.now operands.now }
    ensures agree { result ≡ false → Agree labels.now operands.now }
    ensures size { length places.new.items ≡ length places.old.items }
{
    if labels.len() < operands.len() {
        return true;
    }
    for (place, label) in labels.iter().enumerate() {
        let block = label.0 as usize;
        let earlier = places[block];
        if differs(labels, operands, earlier, place) {
            return true;
        }
        places[block] = place;
    }
    false
}

// Room to judge phis in: the blocks of a phi's labels, and for each block a place among them.
#[derive(Drop)]
pub(crate) struct Room {
    pub(crate) numbers: Vec<usize>,
    pub(crate) places: Vec<usize>,
}

// Whether the entries of a phi are wrong, of a block that edges lead into from these, in ascending order.
fn are_wrong(inst: &Inst, into: &[usize], room: &mut Room) -> Result<bool, Memory>
    requires ascending { IsNonDecreasing into.now }
    requires inside { (from : ℕ) → 0 < times from into.now → from < length room.old.places.items }
    ensures wrong { IfOk result (λ wrong. IsTrue wrong → ¬ AreRight into.now inst.now) }
    ensures right { IfOk result (λ wrong. wrong ≡ false → AreRight into.now inst.now) }
    ensures size { OnOk result (length room.new.places.items ≡ length room.old.places.items) }
{
    let labels = inst.labels();
    let operands = inst.operands();
    let uncounted = are_uncounted(labels, into, &mut room.numbers)?;
    if uncounted {
        return Ok(true);
    }
    let different = differ(labels, operands, &mut room.places);
    Ok(different)
}

// ---- phis

fn is_phi(op: &Op) -> bool
    ensures { result ≡ is_phi op.now }
{
    matches!(op, Op::Phi)
}

// Whether an instruction that is no phi stands before what is next.
fn is_late(late: bool, inst: &Inst) -> bool
    ensures { result ≡ (late || not (is_phi inst.now.op)) }
{
    late || !is_phi(inst.op())
}

// Whether an instruction is a wrong phi, which may stand after one that is none.
fn is_wrong(inst: &Inst, late: bool, into: &[usize], room: &mut Room) -> Result<bool, Memory>
    requires ascending { IsNonDecreasing into.now }
    requires inside { (from : ℕ) → 0 < times from into.now → from < length room.old.places.items }
    ensures wrong { IfOk result (λ wrong. IsTrue wrong ↔ IsWrong late into.now inst.now) }
    ensures size { OnOk result (length room.new.places.items ≡ length room.old.places.items) }
{
    if !is_phi(inst.op()) {
        return Ok(false);
    }
    if late {
        return Ok(true);
    }
    let wrong = are_wrong(inst, into, room)?;
    Ok(wrong)
}

// Makes `sorted` the numbers in ascending order.
fn sort_into(numbers: &[usize], sorted: &mut Vec<usize>) -> Result<(), Memory>
    ensures ascending { OnOk result (IsNonDecreasing sorted.new.items) }
    ensures same { OnOk result ((one : ℕ) → times one sorted.new.items ≡ times one numbers.now) }
{
    sorted.clear();
    sorted.extend_from_slice(numbers)?;
    sorted.sort_unstable();
    Ok(())
}

// Notes the phis of a block that aren't right, whose first instruction has this place; edges lead into it from these,
// in ascending order.
fn note_block(
    func: &Func,
    block: usize,
    start: usize,
    insts: &[Inst],
    into: &[usize],
    room: &mut Room,
    first: &mut First,
) -> Result<(), Memory>
    requires ascending { IsNonDecreasing into.now }
    requires into { (from : ℕ) → times from into.now ≡ edges func.now.content from block }
    requires places { length room.old.places.items ≡ length func.now.content.blocks }
    requires few { start + length insts.now < 2 ^ 32 }
    ensures noted { OnOk result (Notes first.old.found first.new.found (FoundIn (PhiFaultAt func.now block start insts.now) insts.now)) }
    ensures size { OnOk result (length room.new.places.items ≡ length room.old.places.items) }
{
    let mut late = false;
    for (at, inst) in insts.iter().enumerate() {
        let wrong = is_wrong(inst, late, into, room)?;
        first.note_if(wrong, func.line_of((start + at) as u32), 7);
        late = is_late(late, inst);
    }
    Ok(())
}

// Notes the phis that aren't right of a function that has some.
fn note_all(alloc: Global, func: &Func, first: &mut First) -> Result<(), Memory>
    ensures { OnOk result (Notes first.old.found first.new.found (FoundIn (BlockFaultAt func.now) func.now.content.blocks)) }
{
    let into = sources(alloc, func)?;
    let mut ascending = Vec::new(alloc);
    let mut room = Room {
        numbers: Vec::new(alloc),
        places: vec![in alloc; 0; func.blocks().len()]?,
    };
    let mut start = 0;
    for (number, block) in func.blocks().iter().enumerate() {
        sort_into(into[number].as_slice(), &mut ascending)?;
        let insts = block.insts();
        note_block(
            func,
            number,
            start,
            insts,
            ascending.as_slice(),
            &mut room,
            first,
        )?;
        start += insts.len();
    }
    Ok(())
}

/// Notes the phis of a function that aren't right.
pub(crate) fn note_phis(
    alloc: Global,
    func: &Func,
    has_phi: bool,
    first: &mut First,
) -> Result<(), Memory>
    requires { has_phi ≡ any_phi (instructions_of func.now.content.blocks) }
    ensures { OnOk result (Notes first.old.found first.new.found (FoundIn (BlockFaultAt func.now) func.now.content.blocks)) }
{
    if !has_phi {
        return Ok(());
    }
    note_all(alloc, func, first)
}
