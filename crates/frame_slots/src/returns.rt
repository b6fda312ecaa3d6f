//! Where calls return to.
ghost use Rattle.std.specs.Prelude.{◌≡◌, ◌≤◌, ◌<◌, ◌^◌, ◌+◌, ◌++◌, length, OnOk, IfOk, count_by};
ghost use Rattle.std.specs.List.{prefix_len};
ghost use Rattle.ir_ast.specs.Blocks.{EndsAtTerminator};
ghost use Rattle.ir_ast.specs.Funcs.{instructions_of};
ghost use Rattle.ir_ast.specs.Faults.GroupShape.{is_statepoint};
ghost use Rattle.object_meaning.specs.Frames.{is_member};
ghost use Rattle.frame_forms.specs.Groups.{group_size};
ghost use Rattle.frame_forms.specs.CodeAddresses.{return_offsets, returns_from};

use ir_ast::{Block, Func, Inst, Op};
use sp_ids::Memory;

/// Adds the return offset of each instruction of a function.
pub(crate) fn add_returns(returns: &mut Vec<u32>, func: &Func) -> Result<(), Memory>
    ensures { OnOk result (returns.new.items ≡ returns.old.items ++ return_offsets func.now.content) }
{
    let mut place = 0;
    for block in func.blocks() {
        let insts = block.insts();
        add_block(returns, place, insts)?;
        place += insts.len();
    }
    Ok(())
}

// Adds the return offsets of instructions of which the first has this place.
fn add_block(returns: &mut Vec<u32>, first: usize, insts: &[Inst]) -> Result<(), Memory>
    requires { first + length insts.now < 2 ^ 30 }
    ensures { OnOk result (returns.new.items ≡ returns.old.items ++ returns_from first insts.now) }
{
    for (index, inst) in insts.iter().enumerate() {
        let behind = first + index + 1 + group_size(inst, &insts[index + 1..]);
        returns.push(4 * behind as u32)?;
    }
    Ok(())
}

/// How many of the instructions that follow a statepoint belong to it; 0 for any other instruction.
pub fn group_size(inst: &Inst, rest: &[Inst]) -> usize
    ensures value { result ≡ group_size inst.now.op rest.now }
    ensures bound { result ≤ length rest.now }
{
    if is_statepoint(inst) {
        members(rest)
    } else {
        0
    }
}

// How many results and relocates stand first.
fn members(insts: &[Inst]) -> usize
    ensures value { result ≡ prefix_len (λ inst. is_member inst.op) insts.now }
    ensures bound { result ≤ length insts.now }
{
    let mut found = 0;
    for inst in insts {
        if !is_member(inst) {
            return found;
        }
        found += 1;
    }
    found
}

pub(crate) fn is_statepoint(inst: &Inst) -> bool
    ensures { result ≡ is_statepoint inst.now.op }
{
    matches!(inst.op(), Op::Statepoint { .. })
}

// A result or a relocate.
fn is_member(inst: &Inst) -> bool
    ensures { result ≡ is_member inst.now.op }
{
    matches!(inst.op(), Op::GcResult | Op::GcRelocate)
}

/// How many statepoints the blocks have.
pub(crate) fn statepoints_of(blocks: &[Block]) -> usize
    requires { length (instructions_of blocks.now) < 2 ^ 30 }
    ensures { result ≡ count_by (λ inst. is_statepoint inst.op) (instructions_of blocks.now) }
{
    let mut found = 0;
    for block in blocks {
        found += statepoints_in(block.insts());
    }
    found
}

fn statepoints_in(insts: &[Inst]) -> usize
    ensures value { result ≡ count_by (λ inst. is_statepoint inst.op) insts.now }
    ensures bound { result ≤ length insts.now }
{
    let mut found = 0;
    for inst in insts {
        if is_statepoint(inst) {
            found += 1;
        }
    }
    found
}

/// How many instructions the blocks have.
pub(crate) fn count_of(blocks: &[Block]) -> usize
    requires { length (instructions_of blocks.now) < 2 ^ 30 }
    ensures { result ≡ length (instructions_of blocks.now) }
{
    let mut count = 0;
    for block in blocks {
        count += block.insts().len();
    }
    count
}
