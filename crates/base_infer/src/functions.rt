//! Functions and modules with the base of each pointer, and the lines that carry it.

ghost use Rattle.std.specs.Prelude.{◌≡◌, ◌+◌, ◌<◌, ◌^◌, length, map, IfOk, OnOk};
ghost use Rattle.std.specs.List.{All, list_all};
ghost use Rattle.ir_ast.specs.Blocks.{EndsAtTerminator};
ghost use Rattle.ir_ast.specs.Funcs.{instructions_of, zeros_of};
ghost use Rattle.ir_ast.specs.Lines.{IsLine};
ghost use Rattle.ir_ast.specs.Faults.UnknownName.{LocalNamesAreKnown};
ghost use Rattle.object_meaning.specs.Lines.{following, after_all};
ghost use Rattle.base_forms.specs.Lines.{kept_line, based_insts, based_blocks};
ghost use Rattle.base_forms.specs.Based.{based, base_table};
ghost use Rattle.base_tables.specs.Tables.{tabled};
ghost use Rattle.base_infer.specs.Before.{stands_alone};

use crate::lines::{push_lines, stands_alone};
use crate::parts::renumber_inst;
use base_tables::Tables;
use ir_ast::{BaseTable, Block, Func, Inst, Op, Pred};
use sp_ids::Memory;
use std::alloc::Global;

/// The function with its bases and checks, and the base of each of its values. Directly before each derived phi and select
/// stands the same line over the bases, named `%sp.bN`; before each load and store a `gc_check` with base, address and kind;
/// and a compare with a derived operand is a call of `gc_same`, for `ne` named `%sp.sN` and negated (Garbage Collection
/// Safepoints in LLVM, "Base & Derived Pointers", "RewriteStatepointsForGC"). Each line has number 0. Where memory is
/// wanted the function is gone.
///
/// The lines are line forms and name values of the function, as those of a typed module are after its polls were placed.
pub fn insert(alloc: Global, func: Func) -> Result<(Func, BaseTable), Memory>
    requires lines { All IsLine (instructions_of func.content.blocks) }
    requires known { LocalNamesAreKnown func.content }
    requires few { length (instructions_of func.content.blocks) < 2 ^ 29 }
    ensures based { IfOk result (λ made. made.0.content ≡ based func.content) }
    ensures zeros { IfOk result (λ made. made.0.lines ≡ zeros_of made.0.content) }
    ensures table { IfOk result (λ made. made.1 ≡ base_table func.content) }
{
    let tables = Tables::of(alloc, &func)?;
    let table = tables.base_table(alloc)?;
    let (name, answer, args, blocks) = func.into_parts();
    let with_bases = insert_all(alloc, &tables, args.len(), blocks)?;
    Ok((Func::of(name, answer, args, with_bases), table))
}

// The blocks, of which the first result is the value `start`.
fn insert_all(
    alloc: Global,
    tables: &Tables,
    start: usize,
    blocks: Vec<Block>,
) -> Result<Vec<Block>, Memory>
    requires { start + length (instructions_of blocks.items) < 2 ^ 63 }
    ensures { IfOk result (λ after. after.items ≡ based_blocks (tabled tables.now) start blocks.items) }
{
    let mut after = Vec::with_capacity(alloc, blocks.len())?;
    let mut next = start;
    for block in blocks {
        let spare = spare_for(after.is_empty(), start);
        let (with_bases, behind) = insert_in(alloc, tables, next, spare, block)?;
        after.push(with_bases)?;
        next = behind;
    }
    Ok(after)
}

// How many lines the group of the entry's poll can put in besides: a relocate of each argument.
fn spare_for(is_entry: bool, args: usize) -> usize {
    if is_entry { args } else { 0 }
}

// The block, of which the first result is the value `next`, and the value after its results. There is room for so many lines more.
fn insert_in(
    alloc: Global,
    tables: &Tables,
    next: usize,
    spare: usize,
    block: Block,
) -> Result<(Block, usize), Memory>
    requires { next + length block.insts < 2 ^ 64 }
    ensures block { IfOk result (λ made. made.0 ≡ record block { insts = based_insts (tabled tables.now) next block.insts }) }
    ensures behind { IfOk result (λ made. made.1 ≡ after_all next block.insts) }
{
    let (name, insts) = block.into_parts();
    let (lines, behind) = all_lines(alloc, tables, next, spare, insts)?;
    Ok((Block::of(name, lines), behind))
}

fn all_lines(
    alloc: Global,
    tables: &Tables,
    start: usize,
    spare: usize,
    insts: Vec<Inst>,
) -> Result<(Vec<Inst>, usize), Memory>
    requires { start + length insts.items < 2 ^ 64 }
    ensures lines { IfOk result (λ made. made.0.items ≡ based_insts (tabled tables.now) start insts.items) }
    ensures behind { IfOk result (λ made. made.1 ≡ after_all start insts.items) }
{
    if all_alone(tables, insts.as_slice()) {
        let behind = value_after(start, insts.as_slice());
        let lines = renumbered(alloc, tables, insts)?;
        return Ok((lines, behind));
    }
    with_more_lines(alloc, tables, start, spare, insts)
}

// Whether each of these instructions is all that stands for it.
fn all_alone(tables: &Tables, insts: &[Inst]) -> bool
    ensures { result ≡ list_all (λ inst. stands_alone (tabled tables.now) inst inst.op) insts.now }
{
    for inst in insts {
        if !stands_alone(tables, inst) {
            return false;
        }
    }
    true
}

fn renumbered(alloc: Global, tables: &Tables, mut insts: Vec<Inst>) -> Result<Vec<Inst>, Memory>
    ensures { IfOk result (λ lines. lines.items ≡ map (kept_line (tabled tables.now)) insts.items) }
{
    renumber_all(alloc, tables, insts.as_mut_slice())?;
    Ok(insts)
}

fn renumber_all(alloc: Global, tables: &Tables, insts: &mut [Inst]) -> Result<(), Memory>
    ensures { OnOk result (insts.new ≡ map (kept_line (tabled tables.now)) insts.old) }
{
    for inst in insts.iter_mut() {
        renumber_inst(alloc, tables, inst)?;
    }
    Ok(())
}

fn with_more_lines(
    alloc: Global,
    tables: &Tables,
    start: usize,
    spare: usize,
    insts: Vec<Inst>,
) -> Result<(Vec<Inst>, usize), Memory>
    requires { start + length insts.items < 2 ^ 64 }
    ensures lines { IfOk result (λ made. made.0.items ≡ based_insts (tabled tables.now) start insts.items) }
    ensures behind { IfOk result (λ made. made.1 ≡ after_all start insts.items) }
{
    let room = room_for(insts.as_slice()).saturating_add(spare);
    let mut lines = Vec::with_capacity(alloc, room)?;
    let mut next = start;
    for inst in insts {
        let behind = following(next, &inst);
        push_lines(alloc, tables, next, inst, &mut lines)?;
        next = behind;
    }
    Ok((lines, next))
}

// The value after the results of these instructions.
fn value_after(start: usize, insts: &[Inst]) -> usize
    requires { start + length insts.now < 2 ^ 64 }
    ensures { result ≡ after_all start insts.now }
{
    let mut next = start;
    for inst in insts {
        next = following(next, inst);
    }
    next
}

fn following(next: usize, inst: &Inst) -> usize
    requires { next + 1 < 2 ^ 64 }
    ensures { result ≡ following next inst.now }
{
    if inst.result().is_some() {
        next + 1
    } else {
        next
    }
}

// Room for as many lines as these instructions can have at most.
fn room_for(insts: &[Inst]) -> usize {
    let mut room = insts.len();
    for inst in insts {
        if can_have_two(inst.op()) {
            room = room.saturating_add(1);
        }
    }
    room
}

fn can_have_two(op: &Op) -> bool {
    matches!(
        op,
        Op::Phi | Op::Select | Op::Load | Op::Store | Op::Icmp(Pred::Ne)
    )
}
