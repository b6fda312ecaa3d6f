//! Faults as marks at places, in the order in which they are found.

ghost use Rattle.std.specs.Prelude.{◌≡◌, ◌&&◌, IfOk};
ghost use Rattle.statepoint_verify.specs.Marks.{mark_of, marked_where};

use sp_ids::Memory;

/// A fault of a function: the line at this place of this block, and the code.
#[derive(Clone, Copy, PartialEq, Eq)]
pub(crate) struct Mark {
    pub(crate) block: usize,
    pub(crate) place: usize,
    pub(crate) code: u8,
}

/// A mark more, where both tests say so.
pub(crate) fn mark_where(
    one: bool,
    other: bool,
    block: usize,
    place: usize,
    code: u8,
    marks: &mut Vec<Mark>,
) -> Result<(), Memory>
    ensures { IfOk result (λ _. marks.new.items ≡ marked_where (one && other) (mark_of block place code) marks.old.items) }
{
    if one && other {
        marks.push(Mark { block, place, code })?;
        Ok(())
    } else {
        Ok(())
    }
}
