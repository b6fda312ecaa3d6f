//! The table of the values that are live across each call.

ghost use Rattle.std.specs.Prelude.{◌≡◌, ◌<◌, ◌≤◌, ◌+◌, ◌^◌, ◌++◌, [], ◌∷◌, ◌&&◌, ◌||◌, not, if◌then◌else◌, length, map, filter, take, IfOk, is_some, Some, slice_index_or, false, true};
ghost use Rattle.std.specs.List.{list_any};
ghost use Rattle.std.specs.List.Sorted.{IsStrictlySortedBy};
ghost use Rattle.std.specs.Ordering.{nat_cmp};
ghost use Rattle.std.specs.Option.{option_map};
ghost use Rattle.ir_ast.specs.Formed.{IsFormed};
ghost use Rattle.ir_ast.specs.Types.{is_pointer};
ghost use Rattle.ir_ast.specs.Values.{value_types};
ghost use Rattle.ir_cfg.specs.Graphs.{graph_of};
ghost use Rattle.object_meaning.specs.Lines.{following, numbered, insts_in};
ghost use Rattle.rewriting_forms.specs.Numbered.{is_call, pointers, lines_at};
ghost use Rattle.rewriting_forms.specs.Liveness.{lists_from, live_lists};
ghost use Rattle.live_sets.specs.Sets.{Changed, HasMembers};
ghost use Rattle.live_sets.specs.Uses.{names, uses};
ghost use Rattle.live_sets.specs.Starts.{first_of, list_at};
ghost use Rattle.live_sets.specs.Ends.{AreEnds, lives_at_end};
ghost use Rattle.live_sets.specs.Lists.{items_of, is_held, AddsList, AddsBlock};
ghost use Rattle.ir_ast.specs.Operands.{valued};

use crate::ends::ends;
use crate::numbers::{after, first_numbers};
use crate::pointer_sets::PointerSet;
use crate::uses::{go_back, put, put_bundle};
use crate::values::{is_marked, pointer_marks};
use ir_ast::{BaseTable, Func, Inst, LiveTable, Op, Operand};
use ir_cfg::Cfg;
use sp_ids::{Memory, ValueId};
use std::alloc::Global;
use std::collections::BTreeSet;

/// The pointers that are live across each call of a function that isn't a leaf, in text order: some path from behind the call
/// reaches a use of the pointer, or of one derived from it, before a definition. Each list has arguments first and then results in
/// text order, without the call's own result (Garbage Collection Safepoints in LLVM, "gc-live" operand bundle).
///
/// It takes a formed function, the graph of its edges, and the base of each of its values.
pub fn live(alloc: Global, func: &Func, cfg: &Cfg, bases: &BaseTable) -> Result<LiveTable, Memory>
    requires formed { IsFormed func.now.content }
    requires cfg { cfg.now ≡ graph_of func.now.content }
    ensures { IfOk result (λ live. live ≡ map (map valued) (live_lists func.now.content bases.now)) }
{
    let mut number = func.blocks().len();
    let table = bases.bases();
    let marks = pointer_marks(alloc, func)?;
    let firsts = first_numbers(alloc, func)?;
    let calling = calling(alloc, func)?;
    let ends = ends(
        alloc,
        func,
        cfg,
        marks.as_slice(),
        firsts.as_slice(),
        table,
        calling.as_slice(),
    )?;
    let mut set = PointerSet::of(alloc, marks.len())?;
    let mut lists = Vec::new(alloc);
    while number > 0 {
        number -= 1;
        let has_call = is_marked(calling.as_slice(), number);
        add_block(
            alloc,
            func,
            number,
            firsts[number],
            marks.as_slice(),
            table,
            has_call,
            ends[number].as_slice(),
            &mut set,
            &mut lists,
        )?;
    }
    lists.reverse();
    Ok(LiveTable::of(lists))
}

// Adds the lists of a block's calls, the last one first.
#[inline(always)]
fn add_block(
    alloc: Global,
    func: &Func,
    number: usize,
    first: usize,
    marks: &[bool],
    bases: &[Operand],
    has_call: bool,
    ends: &[ValueId],
    set: &mut PointerSet,
    lists: &mut Vec<Vec<ValueId>>,
) -> Result<(), Memory>
    requires number { number < length func.now.content.blocks }
    requires first { first ≡ first_of func.now.content number }
    requires marks { marks.now ≡ map is_pointer (value_types func.now.content) }
    requires calls { has_call ≡ list_any (λ inst. is_call inst.op) (insts_in func.now.content number) }
    requires ends { has_call ≡ true → ends.now ≡ map valued (filter (lives_at_end func.now.content bases.now number) (pointers func.now.content)) }
    ensures { IfOk result (λ _. AddsBlock func.now.content bases.now number lists.old.items lists.new.items) }
{
    if !has_call {
        return Ok(());
    }
    add_lines(alloc, func, number, first, marks, bases, ends, set, lists)?;
    Ok(())
}

// Adds the lists of the calls in a block that has some. It is a function of its own so that the loop has the registers.
#[inline(never)]
fn add_lines(
    alloc: Global,
    func: &Func,
    number: usize,
    first: usize,
    marks: &[bool],
    bases: &[Operand],
    ends: &[ValueId],
    set: &mut PointerSet,
    lists: &mut Vec<Vec<ValueId>>,
) -> Result<(), Memory>
    requires number { number < length func.now.content.blocks }
    requires first { first ≡ first_of func.now.content number }
    requires marks { marks.now ≡ map is_pointer (value_types func.now.content) }
    requires ends { ends.now ≡ map valued (filter (lives_at_end func.now.content bases.now number) (pointers func.now.content)) }
    ensures { IfOk result (λ _. AddsBlock func.now.content bases.now number lists.old.items lists.new.items) }
{
    let insts = func.blocks()[number].insts();
    fill(alloc, marks, ends, set)?;
    let mut next = after(first, insts);
    let mut place = insts.len();
    while place > 0 {
        place -= 1;
        let inst = &insts[place];
        next = before(inst, next);
        let to = result_of(inst, next);
        add_list(alloc, marks, bases, inst, to, set, lists)?;
        go_back(marks, bases, inst, to, set)?;
    }
    Ok(())
}

// A mark for each block: whether it calls a function that isn't a leaf.
fn calling(alloc: Global, func: &Func) -> Result<Vec<bool>, Memory>
    ensures { IfOk result (λ marks. marks.items ≡ map (λ block. list_any (λ inst. is_call inst.op) block.insts) func.now.content.blocks) }
{
    let mut marks = Vec::with_capacity(alloc, func.blocks().len())?;
    for block in func.blocks() {
        marks.push(has_call(block.insts()))?;
    }
    Ok(marks)
}

// Whether some instruction calls a function that isn't a leaf.
fn has_call(insts: &[Inst]) -> bool
    ensures { result ≡ list_any (λ inst. is_call inst.op) insts.now }
{
    insts.iter().any(|inst| is_call(inst.op()))
}

// Whether the operator calls a function that isn't a leaf.
fn is_call(op: &Op) -> bool
    ensures { result ≡ is_call op.now }
{
    match op {
        Op::Call { callee, .. } => !callee.is_leaf(),
        Op::Add
        | Op::Sub
        | Op::Mul
        | Op::Udiv
        | Op::Sdiv
        | Op::Urem
        | Op::Srem
        | Op::And
        | Op::Or
        | Op::Xor
        | Op::Shl
        | Op::Lshr
        | Op::Ashr
        | Op::Icmp(_)
        | Op::Trunc(_)
        | Op::Zext(_)
        | Op::Sext(_)
        | Op::Select
        | Op::Phi
        | Op::Gep { .. }
        | Op::Load
        | Op::Store
        | Op::Statepoint { .. }
        | Op::GcResult
        | Op::GcRelocate
        | Op::Br
        | Op::CondBr
        | Op::Switch
        | Op::Ret
        | Op::Unreachable => false,
    }
}

// Makes it the set of these pointers.
fn fill(
    alloc: Global,
    marks: &[bool],
    values: &[ValueId],
    set: &mut PointerSet,
) -> Result<(), Memory>
    ensures { IfOk result (λ _. HasMembers marks.now values.now set.new) }
{
    set.empty(alloc)?;
    for value in values {
        put(marks, Some(*value), set)?;
    }
    Ok(())
}

// The number of the first result from an instruction on, given the number behind it.
fn before(inst: &Inst, next: usize) -> usize
    requires { is_some inst.now.result ≡ true → 0 < next }
    ensures { following result inst.now ≡ next }
{
    match inst.result() {
        Some(_) => next - 1,
        None => next,
    }
}

// What an instruction gives.
fn result_of(inst: &Inst, number: usize) -> Option<ValueId>
    requires { number < 2 ^ 32 }
    ensures { result ≡ option_map valued (numbered number inst.now).to }
{
    match inst.result() {
        Some(_) => Some(ValueId(number as u32)),
        None => None,
    }
}

// Adds the list of a call, of what is live behind it and what its bundle uses.
#[inline(always)]
fn add_list(
    alloc: Global,
    marks: &[bool],
    bases: &[Operand],
    inst: &Inst,
    to: Option<ValueId>,
    set: &mut PointerSet,
    lists: &mut Vec<Vec<ValueId>>,
) -> Result<(), Memory>
    ensures { IfOk result (λ _. AddsList marks.now bases.now inst.now to set.old set.new lists.old.items lists.new.items) }
{
    if is_call(inst.op()) {
        add_held(alloc, marks, bases, inst, to, set, lists)?;
    }
    Ok(())
}

// The rarer part of `add_list`: few lines are such calls.
#[inline(never)]
fn add_held(
    alloc: Global,
    marks: &[bool],
    bases: &[Operand],
    inst: &Inst,
    to: Option<ValueId>,
    set: &mut PointerSet,
    lists: &mut Vec<Vec<ValueId>>,
) -> Result<(), Memory>
    requires { is_call inst.now.op ≡ true }
    ensures { IfOk result (λ _. AddsList marks.now bases.now inst.now to set.old set.new lists.old.items lists.new.items) }
{
    put_bundle(marks, bases, inst.bundle(), set)?;
    lists.push(list_of(alloc, set.set(), to)?)?;
    Ok(())
}

// The pointers of a set but for one, in order.
fn list_of(alloc: Global, set: &BTreeSet<u32>, to: Option<ValueId>) -> Result<Vec<ValueId>, Memory>
    ensures ordered { IfOk result (λ _. IsStrictlySortedBy nat_cmp set.now.keys) }
    ensures list { IfOk result (λ list. list.items ≡ map valued (filter (λ v. not (names to v)) set.now.keys)) }
{
    let mut list = Vec::with_capacity(alloc, set.len())?;
    for number in set.iter() {
        let value = ValueId(*number);
        if !is_named(to, value) {
            list.push(value)?;
        }
    }
    Ok(list)
}

fn is_named(named: Option<ValueId>, value: ValueId) -> bool
    ensures { result ≡ names named value.0 }
{
    match named {
        Some(other) => other.0 == value.0,
        None => false,
    }
}
