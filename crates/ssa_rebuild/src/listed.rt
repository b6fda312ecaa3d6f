//! Which values stand in a list.

ghost use Rattle.std.specs.Prelude.{◌≡◌, ℕ, ◌==◌, ◌||◌, false, map, slice_index_or, IfOk};
ghost use Rattle.std.specs.List.{list_any};
ghost use Rattle.rewriting_forms.specs.Numbered.{among};
ghost use Rattle.ssa_rebuild.specs.Rows.{group_list};
ghost use Rattle.ssa_rebuild.specs.Marks.{MarksMore};

use sp_ids::{Memory, ValueId};
use statepoint_insert::{Group, Relocate};
use std::alloc::Global;

/// Marks of the values that some group relocates.
pub(crate) fn listed(alloc: Global, groups: &[Group]) -> Result<Vec<bool>, Memory>
    ensures { IfOk result (λ marks. (v : ℕ) → slice_index_or marks.items v false ≡ list_any (among v) (map group_list groups.now)) }
{
    let mut marks = Vec::new(alloc);
    for group in groups {
        mark_all(group.relocates(), &mut marks)?;
    }
    Ok(marks)
}

fn mark_all(relocates: &[Relocate], marks: &mut Vec<bool>) -> Result<(), Memory>
    ensures { IfOk result (λ _. MarksMore marks.old.items marks.new.items (λ v. among v (map (λ relocate. relocate.value.0) relocates.now))) }
{
    for relocate in relocates {
        mark(relocate.value, marks)?;
    }
    Ok(())
}

fn mark(value: ValueId, marks: &mut Vec<bool>) -> Result<(), Memory>
    ensures { IfOk result (λ _. MarksMore marks.old.items marks.new.items (λ v. value.0 == v)) }
{
    let place = value.0 as usize;
    while marks.len() <= place {
        marks.push(false)?;
    }
    marks[place] = true;
    Ok(())
}
