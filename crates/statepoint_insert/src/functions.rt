//! A function with a group for each call that isn't a leaf.

ghost use Rattle.std.specs.Prelude.{◌≡◌, ◌<◌, ◌-◌, ◌^◌, length, map, IfOk};
ghost use Rattle.std.specs.List.{All};
ghost use Rattle.rewriting_forms.specs.Liveness.{live_lists};
ghost use Rattle.statepoint_insert.specs.Groups.{numbers_in, group_of};
ghost use Rattle.statepoint_insert.specs.Marked.{IsReady, marked_of};
ghost use Rattle.ir_ast.specs.Operands.{valued};

use crate::bounds::room_for;
use crate::groups::Group;
use crate::indices::group;
use crate::marked::Marked;
use ir_ast::{BaseTable, Func, LiveTable, Operand};
use sp_ids::{Memory, ValueId};
use std::alloc::Global;

/// The function with a statepoint group in place of each call that isn't of a leaf: the statepoint with its "gc-live" list, the call's
/// result under its old name, and one relocate for each live pointer, in the order of the list, with the index of its base. The list
/// begins with `null` where some live pointer has this base (Garbage Collection Safepoints in LLVM, "RewriteStatepointsForGC"). Where
/// memory is wanted the function is gone.
///
/// It takes the function with bases and checks, the base of each of its values, and the pointers that are live across its calls.
pub fn insert(
    alloc: Global,
    func: Func,
    live: &LiveTable,
    bases: &BaseTable,
) -> Result<Marked, Memory>
    requires ready { IsReady func.content bases.now }
    requires live { live.now ≡ map (map valued) (live_lists func.content bases.now) }
    ensures { IfOk result (λ marked. marked ≡ marked_of func.content bases.now) }
{
    let table = Vec::from_slice(alloc, bases.bases())?;
    let groups = groups(alloc, live.lists(), table.as_slice())?;
    Ok(Marked::of(func, BaseTable::of(table), groups))
}

// The groups of calls with these live lists.
fn groups(alloc: Global, lists: &[Vec<ValueId>], bases: &[Operand]) -> Result<Vec<Group>, Memory>
    requires { All (λ list. length list.items < 2 ^ 32 - 1) lists.now }
    ensures { IfOk result (λ groups. groups.items ≡ map (λ list. group_of bases.now (numbers_in list.items)) lists.now) }
{
    let mut row = vec![in alloc; 0_u32; room_for(lists)]?;
    let mut groups = Vec::with_capacity(alloc, lists.len())?;
    for list in lists {
        groups.push(group(alloc, bases, list.as_slice(), &mut row)?)?;
    }
    Ok(groups)
}
