//! The segments of a function.

ghost use Rattle.std.specs.Prelude.{◌≡◌, ◌≤◌, ◌++◌, ◌∷◌, [], ℕ, Option, Some, None, true, false, length, IfOk, OnOk, slice_get};
ghost use Rattle.ir_ast.specs.Faults.PhiEdges.{is_phi};
ghost use Rattle.ir_ast.specs.Funcs.{Function as IrFunction};
ghost use Rattle.ir_ast.specs.Lines.{is_rewritten};
ghost use Rattle.object_meaning.specs.Lines.{numbered, retreats};
ghost use Rattle.flat_code.specs.declared.spots.Due.TheVariants as dues;
ghost use Rattle.flat_code.specs.Flats.{is_straight};
ghost use Rattle.flat_code.specs.Spots.{insts_at, lines_at, passed_spot, front_spot, entry_spot, behind_phis};
ghost use Rattle.flat_code.specs.Segments.{Calls, ExitAt, IsExit, AreChained, StartsAt, IsFront, IsFunction, starts_in};
ghost use Rattle.flat_code.specs.Opens.{IsOpen, starts_of, StandsBefore};

use crate::actions::{flat_line, is_straight};
use crate::edges::{edge_at, edges};
use crate::lines::{Exit, FlatLine, Function, Segment};
use crate::numbers::width_of;
use crate::sources::{Source, after_all, passed, register_of, retreats};
use crate::spots::{Due, Spot};
use ir_ast::{Callee, Inst, Op, Operand};
use sp_ids::Memory;
use std::alloc::Global;
use std::mem;

/// The segments so far, and the lines of the next, which begins at one spot and has come to another.
#[derive(Drop)]
pub(crate) struct Open {
    pub segments: Vec<Segment>,
    pub lines: Vec<FlatLine>,
    pub start: Spot,
    pub spot: Spot,
}

/// Decodes a function.
pub(crate) fn function(alloc: Global, source: &Source) -> Result<Function, Memory>
    ensures { IfOk result (λ func. IsFunction source.now.layouts source.now.defined func) }
{
    let mut segments = front(alloc, source)?;
    let mut starts = Vec::new(alloc);
    for block in 0..source.block_count() {
        let block = number(block)?;
        let start = begin_block(alloc, source, &mut segments, block)?;
        starts.push(start)?;
    }
    Ok(Function {
        registers: source.registers(),
        segments,
        starts,
    })
}

fn number(place: usize) -> Result<u32, Memory>
    ensures { IfOk result (λ number. number ≡ place) }
{
    if place <= u32::MAX as usize {
        Ok(place as u32)
    } else {
        Err(Memory)
    }
}

// The front of a function and its first block.
fn front(alloc: Global, source: &Source) -> Result<Vec<Segment>, Memory>
    ensures chained { IfOk result (λ segments. AreChained source.now.layouts source.now.defined segments.items None) }
    ensures front { IfOk result (λ segments. StartsAt segments.items 0 (front_spot source.now.defined)) }
    ensures entry { IfOk result (λ segments. StartsAt segments.items 1 (entry_spot source.now.defined)) }
{
    let mut draft = opened(alloc, source);
    let spot = Spot {
        due: Due::Line,
        ..draft.spot
    };
    leave(
        alloc,
        source,
        &mut draft,
        Exit::Poll,
        None,
        Vec::new(alloc),
        spot,
    )?;
    decode_block(alloc, source, draft)
}

// Nothing is decoded yet.
fn opened(alloc: Global, source: &Source) -> Open
    ensures open { IsOpen source.now.layouts source.now.defined result }
    ensures spot { result.spot ≡ front_spot source.now.defined }
    ensures starts { starts_of result ≡ front_spot source.now.defined ∷ [] }
{
    let spot = Spot {
        block: 0,
        at: 0,
        next: source.first(0),
        due: Due::Front,
    };
    Open {
        segments: Vec::new(alloc),
        lines: Vec::new(alloc),
        start: spot,
        spot,
    }
}

// The segments of a block behind its phis; the place of the first.
fn begin_block(
    alloc: Global,
    source: &Source,
    segments: &mut Vec<Segment>,
    block: u32,
) -> Result<u32, Memory>
    requires chained { AreChained source.now.layouts source.now.defined segments.old.items None }
    requires entry { StartsAt segments.old.items 1 (entry_spot source.now.defined) }
    ensures chained { OnOk result (AreChained source.now.layouts source.now.defined segments.new.items None) }
    ensures starts { IfOk result (λ place. StartsAt segments.new.items place (behind_phis source.now.defined block)) }
    ensures kept { OnOk result (IsFront (starts_in segments.old.items) (starts_in segments.new.items)) }
{
    let insts = source.insts(block);
    let at = Inst::phi_count(insts);
    if block == 0 && at == 0 {
        return Ok(1);
    }
    let place = number(segments.len())?;
    let next = after_all(source.first(block), &insts[..at])?;
    let spot = Spot {
        block,
        at,
        next,
        due: Due::Line,
    };
    let draft = Open {
        segments: mem::replace(segments, Vec::new(alloc)),
        lines: Vec::new(alloc),
        start: spot,
        spot,
    };
    *segments = decode_block(alloc, source, draft)?;
    Ok(place)
}

// The rest of a block, of which nothing was decoded.
fn decode_block(alloc: Global, source: &Source, draft: Open) -> Result<Vec<Segment>, Memory>
    requires open { IsOpen source.now.layouts source.now.defined draft }
    requires due { draft.spot.due ≡ dues.Line }
    ensures chained { IfOk result (λ segments. AreChained source.now.layouts source.now.defined segments.items None) }
    ensures starts { IfOk result (λ segments. IsFront (starts_of draft) (starts_in segments.items)) }
{
    let mut draft = draft;
    let insts = source.insts(draft.spot.block);
    for at in draft.spot.at..insts.len() {
        take(alloc, source, &mut draft, &insts[at])?;
    }
    finish(source, draft)
}

// The line at which the open segment has come.
fn take(alloc: Global, source: &Source, draft: &mut Open, inst: &Inst) -> Result<(), Memory>
    requires open { IsOpen source.now.layouts source.now.defined draft.old }
    requires due { draft.old.spot.due ≡ dues.Line }
    requires there { slice_get (insts_at source.now.defined draft.old.spot.block) draft.old.spot.at ≡ Some inst.now }
    requires source { is_rewritten inst.now.op ≡ false }
    ensures open { OnOk result (IsOpen source.now.layouts source.now.defined draft.new) }
    ensures spot { OnOk result (draft.new.spot ≡ passed_spot draft.old.spot inst.now) }
    ensures starts { OnOk result (IsFront (starts_of draft.old) (starts_of draft.new)) }
{
    take_poll(alloc, source, draft, inst)?;
    take_line(alloc, source, draft, inst)
}

// The poll before a terminator that retreats.
fn take_poll(alloc: Global, source: &Source, draft: &mut Open, inst: &Inst) -> Result<(), Memory>
    requires open { IsOpen source.now.layouts source.now.defined draft.old }
    requires due { draft.old.spot.due ≡ dues.Line }
    requires there { slice_get (insts_at source.now.defined draft.old.spot.block) draft.old.spot.at ≡ Some inst.now }
    ensures open { OnOk result (IsOpen source.now.layouts source.now.defined draft.new) }
    ensures stands { OnOk result (StandsBefore source.now.defined draft.new.spot inst.now) }
    ensures spot { OnOk result (passed_spot draft.new.spot inst.now ≡ passed_spot draft.old.spot inst.now) }
    ensures starts { OnOk result (IsFront (starts_of draft.old) (starts_of draft.new)) }
{
    if !retreats(draft.spot.block, inst) {
        return Ok(());
    }
    let spot = Spot {
        due: Due::Behind,
        ..draft.spot
    };
    leave(
        alloc,
        source,
        draft,
        Exit::Poll,
        None,
        Vec::new(alloc),
        spot,
    )
}

// The line at which the open segment stands.
fn take_line(alloc: Global, source: &Source, draft: &mut Open, inst: &Inst) -> Result<(), Memory>
    requires open { IsOpen source.now.layouts source.now.defined draft.old }
    requires stands { StandsBefore source.now.defined draft.old.spot inst.now }
    requires source { is_rewritten inst.now.op ≡ false }
    ensures open { OnOk result (IsOpen source.now.layouts source.now.defined draft.new) }
    ensures spot { OnOk result (draft.new.spot ≡ passed_spot draft.old.spot inst.now) }
    ensures starts { OnOk result (IsFront (starts_of draft.old) (starts_of draft.new)) }
{
    if inst.op().is_phi() {
        skip_phi(source, draft, inst)
    } else if is_straight(inst.op()) {
        push_line(source, draft, inst)
    } else {
        take_exit(alloc, source, draft, inst)
    }
}

// A phi, which took effect at the jump.
fn skip_phi(source: &Source, draft: &mut Open, inst: &Inst) -> Result<(), Memory>
    requires open { IsOpen source.now.layouts source.now.defined draft.old }
    requires stands { StandsBefore source.now.defined draft.old.spot inst.now }
    requires phi { is_phi inst.now.op ≡ true }
    ensures open { OnOk result (IsOpen source.now.layouts source.now.defined draft.new) }
    ensures spot { OnOk result (draft.new.spot ≡ passed_spot draft.old.spot inst.now) }
    ensures starts { OnOk result (starts_of draft.new ≡ starts_of draft.old) }
{
    draft.spot = passed(draft.spot, inst)?;
    Ok(())
}

fn push_line(source: &Source, draft: &mut Open, inst: &Inst) -> Result<(), Memory>
    requires open { IsOpen source.now.layouts source.now.defined draft.old }
    requires stands { StandsBefore source.now.defined draft.old.spot inst.now }
    requires straight { is_straight inst.now.op ≡ true }
    requires plain { is_phi inst.now.op ≡ false }
    ensures open { OnOk result (IsOpen source.now.layouts source.now.defined draft.new) }
    ensures spot { OnOk result (draft.new.spot ≡ passed_spot draft.old.spot inst.now) }
    ensures starts { OnOk result (starts_of draft.new ≡ starts_of draft.old) }
{
    let to = register_of(draft.spot.next, inst)?;
    let spot = passed(draft.spot, inst)?;
    draft.lines.push(flat_line(source.layouts(), inst, to))?;
    draft.spot = spot;
    Ok(())
}

fn take_exit(alloc: Global, source: &Source, draft: &mut Open, inst: &Inst) -> Result<(), Memory>
    requires open { IsOpen source.now.layouts source.now.defined draft.old }
    requires stands { StandsBefore source.now.defined draft.old.spot inst.now }
    requires source { is_rewritten inst.now.op ≡ false }
    requires plain { is_phi inst.now.op ≡ false }
    requires bent { is_straight inst.now.op ≡ false }
    ensures open { OnOk result (IsOpen source.now.layouts source.now.defined draft.new) }
    ensures spot { OnOk result (draft.new.spot ≡ passed_spot draft.old.spot inst.now) }
    ensures starts { OnOk result (IsFront (starts_of draft.old) (starts_of draft.new)) }
{
    let to = register_of(draft.spot.next, inst)?;
    let spot = passed(draft.spot, inst)?;
    let exit = exit_of(alloc, source, draft.spot.block, inst)?;
    let operands = Vec::from_slice(alloc, inst.operands())?;
    leave(alloc, source, draft, exit, to, operands, spot)
}

// How a straight part ends that comes to this line of a block.
fn exit_of(alloc: Global, source: &Source, block: u32, inst: &Inst) -> Result<Exit, Memory>
    requires source { is_rewritten inst.now.op ≡ false }
    requires plain { is_phi inst.now.op ≡ false }
    requires bent { is_straight inst.now.op ≡ false }
    ensures { IfOk result (λ exit. IsExit source.now.defined block inst.now exit) }
{
    match inst.op() {
        Op::Call { callee, .. } => Ok(exit_to(*callee, inst)),
        Op::Br => Ok(Exit::Jump(edge_at(alloc, source, block, inst, 0)?)),
        Op::CondBr => {
            let yes = edge_at(alloc, source, block, inst, 0)?;
            let no = edge_at(alloc, source, block, inst, 1)?;
            Ok(Exit::Branch { yes, no })
        }
        Op::Switch => Ok(Exit::Switch(edges(alloc, source, block, inst)?)),
        Op::Ret => Ok(Exit::Return(width_of(inst.ty()))),
        Op::Unreachable => Ok(Exit::Unreachable),
        _ => unreachable!(),
    }
}

fn exit_to(callee: Callee, inst: &Inst) -> Exit
    requires source { is_rewritten inst.now.op ≡ false }
    requires call { Calls callee inst.now.op }
    ensures { (defined : Option IrFunction) (from : ℕ) → IsExit defined from inst.now result }
{
    match callee {
        Callee::Fun(func) => Exit::Enter(func.0),
        Callee::New(layout) => Exit::New(layout),
        Callee::Print => Exit::Print,
        Callee::Read => Exit::Read,
        Callee::TaskStart => Exit::Start,
        Callee::Poll | Callee::Check | Callee::Same => unreachable!(),
    }
}

// The open segment ends with this exit, and the next begins at this spot.
fn leave(
    alloc: Global,
    source: &Source,
    draft: &mut Open,
    exit: Exit,
    to: Option<u32>,
    operands: Vec<Operand>,
    next: Spot,
) -> Result<(), Memory>
    requires open { IsOpen source.now.layouts source.now.defined draft.old }
    requires exit { ExitAt source.now.defined draft.old.spot exit to operands.items next }
    ensures open { OnOk result (IsOpen source.now.layouts source.now.defined draft.new) }
    ensures spot { OnOk result (draft.new.spot ≡ next) }
    ensures starts { OnOk result (starts_of draft.new ≡ starts_of draft.old ++ next ∷ []) }
{
    let lines = mem::replace(&mut draft.lines, Vec::new(alloc));
    draft.segments.push(Segment {
        start: draft.start,
        lines,
        end: draft.spot,
        to,
        operands,
        exit: Some(exit),
    })?;
    draft.start = next;
    draft.spot = next;
    Ok(())
}

// The block has no more lines.
fn finish(source: &Source, draft: Open) -> Result<Vec<Segment>, Memory>
    requires open { IsOpen source.now.layouts source.now.defined draft }
    requires over { lines_at source.now.defined draft.spot ≡ [] }
    ensures chained { IfOk result (λ segments. AreChained source.now.layouts source.now.defined segments.items None) }
    ensures starts { IfOk result (λ segments. starts_in segments.items ≡ starts_of draft) }
{
    let Open {
        segments,
        lines,
        start,
        spot,
    } = draft;
    let mut segments = segments;
    segments.push(Segment {
        start,
        lines,
        end: spot,
        to: None,
        operands: Vec::new(*segments.allocator()),
        exit: None,
    })?;
    Ok(segments)
}
