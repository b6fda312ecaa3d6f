//! A block with its polls: at the entry's front, and before edges that lead back.

ghost use Rattle.std.specs.Prelude.{◌≡◌, ◌++◌, false, IfOk, nat_le};
ghost use Rattle.std.specs.Option.{option_to_list};
ghost use Rattle.std.specs.List.{flat_map, list_any};
ghost use Rattle.ir_ast.specs.Blocks.{EndsAtTerminator};
ghost use Rattle.object_meaning.specs.Lines.{retreats};
ghost use Rattle.base_forms.specs.Polls.{poll_call, front_poll, polled, placed_block};

use ir_ast::{Block, Callee, Inst, Op, Rest, Ty, Types};
use smallvec::SmallVec;
use sp_ids::{BlockId, Memory};
use std::alloc::Global;

/// The block with this number, with its polls.
pub(crate) fn place_block(alloc: Global, number: usize, block: Block) -> Result<Block, Memory>
    ensures { IfOk result (λ after. after ≡ placed_block number block) }
{
    let (name, insts) = block.into_parts();
    let before_end = with_poll_at_end(alloc, number, insts)?;
    let all = with_poll_at_front(alloc, number, before_end)?;
    Ok(Block::of(name, all))
}

// The last instruction, and no other, is a terminator.
fn with_poll_at_end(alloc: Global, number: usize, mut insts: Vec<Inst>) -> Result<Vec<Inst>, Memory>
    requires { EndsAtTerminator insts.items }
    ensures { IfOk result (λ after. after.items ≡ flat_map (polled number) insts.items) }
{
    if !ends_back(number, insts.as_slice()) {
        return Ok(insts);
    }
    let last = insts.pop();
    push_last(alloc, number, last, insts)
}

// Whether the last of these instructions leads back.
fn ends_back(number: usize, insts: &[Inst]) -> bool
    requires { EndsAtTerminator insts.now }
    ensures { result ≡ false → flat_map (polled number) insts.now ≡ insts.now }
{
    match insts.last() {
        Some(inst) => retreats(number, inst),
        None => false,
    }
}

fn push_last(
    alloc: Global,
    number: usize,
    last: Option<Inst>,
    mut insts: Vec<Inst>,
) -> Result<Vec<Inst>, Memory>
    ensures { IfOk result (λ after. after.items ≡ insts.items ++ flat_map (polled number) (option_to_list last)) }
{
    if let Some(inst) = last {
        push_polled(alloc, number, inst, &mut insts)?;
    }
    Ok(insts)
}

fn push_polled(
    alloc: Global,
    number: usize,
    inst: Inst,
    insts: &mut Vec<Inst>,
) -> Result<(), Memory>
    ensures { IfOk result (λ _. insts.new.items ≡ insts.old.items ++ polled number inst) }
{
    if retreats(number, &inst) {
        insts.push(poll(alloc))?;
    }
    insts.push(inst)?;
    Ok(())
}

fn with_poll_at_front(
    alloc: Global,
    number: usize,
    mut insts: Vec<Inst>,
) -> Result<Vec<Inst>, Memory>
    ensures { IfOk result (λ after. after.items ≡ front_poll number ++ insts.items) }
{
    if number > 0 {
        return Ok(insts);
    }
    insts.reserve_exact(1)?;
    insts.insert(0, poll(alloc))?;
    Ok(insts)
}

// `call void @gc.safepoint_poll()`
fn poll(alloc: Global) -> Inst
    ensures { result ≡ poll_call }
{
    let op = Op::Call {
        callee: Callee::Poll,
        types: Types::nothing(),
    };
    Inst::of(None, op, Ty::Void, SmallVec::new(alloc), Rest::nothing())
}

// Whether a terminator has an edge to the same or an earlier place than its block.
fn retreats(number: usize, inst: &Inst) -> bool
    ensures { result ≡ retreats number inst.now }
{
    inst.op().is_terminator() && any_up_to(inst.labels(), number)
}

fn any_up_to(labels: &[BlockId], number: usize) -> bool
    ensures { result ≡ list_any (λ label. nat_le label.0 number) labels.now }
{
    labels.iter().any(|label| label.0 as usize <= number)
}
