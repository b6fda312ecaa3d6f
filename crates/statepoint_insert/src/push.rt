//! The lines of a group, put behind those before it.

ghost use Rattle.std.specs.Prelude.{◌≡◌, ◌+◌, ◌-◌, ◌<◌, ◌^◌, ◌++◌, length, IfOk};
ghost use Rattle.statepoint_insert.specs.Lines.{group_lines};

use crate::groups::Group;
use crate::texts::{Call, Counts, push_relocates, push_result, statepoint};
use ir_ast::Inst;
use sp_ids::Memory;
use std::alloc::Global;

/// Adds the lines of a group: the statepoint with the id 2882400000 over the call's operands and the "gc-live" entries, the result
/// under the call's name, and the relocates in the order of the list. The call's operands have their final numbers, `live` has the
/// numbers of the group's pointers before the call, and `token` is the statepoint's own (Garbage Collection Safepoints in LLVM,
/// "'llvm.experimental.gc.statepoint' Intrinsic").
pub fn push_group(
    alloc: Global,
    call: Call,
    group: &Group,
    live: &[u32],
    token: u32,
    counts: Counts,
    lines: &mut Vec<Inst>,
) -> Result<(), Memory>
    requires { counts.relocates + length group.now.relocates < 2 ^ 32 - 1 }
    ensures { IfOk result (λ _. lines.new.items ≡ lines.old.items ++ group_lines counts token group.now live.now call) }
{
    let Call {
        named,
        callee,
        types,
        ty,
        operands,
        bundle,
    } = call;
    lines.push(statepoint(
        alloc,
        counts.tokens,
        group.has_null(),
        live,
        callee,
        types,
        ty,
        operands,
        bundle,
    )?)?;
    push_result(alloc, token, ty, named, lines)?;
    push_relocates(alloc, token, counts.relocates, group, lines)
}
