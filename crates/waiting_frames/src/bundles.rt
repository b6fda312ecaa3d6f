//! The bundle of the call at which a frame waits.

ghost use Rattle.std.specs.Prelude.{◌≡◌, drop};
ghost use Rattle.flat_code.specs.Codes.{defined_at, exit_lines};
ghost use Rattle.flat_code.specs.Spots.{insts_at, lines_due};
ghost use Rattle.object_meaning.specs.Texts.{bundle_of, function_name};
ghost use Rattle.waiting_frames.specs.Shown.{is_at_instruction};

use crate::frames::Spot;
use flat_code::{Code, Due, Spot as Place, retreats};
use ir_ast::{Inst, Operand, Ty};

/// The bundle of the line at the exit of a segment.
pub(crate) fn bundle_at<'c>(code: &'c Code, spot: Spot) -> &'c [(Ty, Operand)]
    ensures { result.now ≡ bundle_of (exit_lines code.now spot.func spot.segment) }
{
    match code.segment(spot.func, spot.segment) {
        None => &[],
        Some(segment) => bundle_due(insts_at(code, spot.func, segment.end.block), segment.end),
    }
}

// The bundle of the line at which a frame stands, in a block with these instructions.
fn bundle_due(insts: &[Inst], place: Place) -> &[(Ty, Operand)]
    ensures { result.now ≡ bundle_of (lines_due place.due place.block place.next (drop place.at insts.now)) }
{
    match insts.get(place.at) {
        None => &[],
        Some(inst) => {
            if is_at_instruction(place.due, place.block, inst) {
                inst.bundle()
            } else {
                &[]
            }
        }
    }
}

// Whether the line at which a frame stands is the instruction there, and no poll before it.
fn is_at_instruction(due: Due, block: u32, inst: &Inst) -> bool
    ensures { result ≡ is_at_instruction due block inst.now }
{
    match due {
        Due::Front => false,
        Due::Line => !retreats(block, inst),
        Due::Behind => true,
    }
}

fn insts_at<'c>(code: &'c Code, func: u32, block: u32) -> &'c [Inst]
    ensures { result.now ≡ insts_at (defined_at code.now func) block }
{
    match code.func(func) {
        None => &[],
        Some(func) => func.insts_in(block),
    }
}

/// The name of a function.
pub(crate) fn name_of<'c>(code: &'c Code, func: u32) -> &'c [u8]
    ensures { result.now ≡ function_name code.now.content func }
{
    match code.func(func) {
        None => &[],
        Some(func) => func.name().bytes(),
    }
}
