//! A module with statepoints in place of its calls.

ghost use Rattle.std.specs.Prelude.{◌≡◌, length, map, IfOk};
ghost use Rattle.std.specs.List.{All};
ghost use Rattle.ir_ast.specs.Funcs.{content_of, lines_of};
ghost use Rattle.ir_cfg.specs.Unreached.{zeros_of};
ghost use Rattle.statepoint_insert.specs.Marked.{marked_of};
ghost use Rattle.rewrite_passes.specs.Before.{CanHaveGroups, rewritten_of};

use crate::before::Before;
use entry_groups::rebuild;
use ir_ast::Func;
use sp_ids::Memory;
use statepoint_insert::{Marked, insert};
use std::alloc::Global;

/// The rewritten functions: a statepoint with its relocates stands in place of each call that isn't of a leaf, and each use takes the
/// version of its value that stands there. Each line has number 0. Where memory is wanted the functions are gone.
pub fn with_groups(alloc: Global, all: Vec<Before>) -> Result<Vec<Func>, Memory>
    requires { All CanHaveGroups all.items }
    ensures content { IfOk result (λ after. map content_of after.items ≡ map rewritten_of all.items) }
    ensures lines { IfOk result (λ after. map lines_of after.items ≡ map zeros_of (map content_of after.items)) }
    ensures count { IfOk result (λ after. length after.items ≡ length all.items) }
{
    let mut after = Vec::with_capacity(alloc, all.len())?;
    for before in all {
        after.push(regrouped(alloc, before)?)?;
    }
    Ok(after)
}

fn regrouped(alloc: Global, before: Before) -> Result<Func, Memory>
    requires { CanHaveGroups before }
    ensures content { IfOk result (λ func. func.content ≡ rewritten_of before) }
    ensures lines { IfOk result (λ func. func.lines ≡ zeros_of func.content) }
{
    let marked = marked(alloc, before)?;
    rebuild(alloc, marked)
}

// The function with its groups. The live lists are gone.
fn marked(alloc: Global, before: Before) -> Result<Marked, Memory>
    requires { CanHaveGroups before }
    ensures { IfOk result (λ marked. marked ≡ marked_of before.func before.bases) }
{
    let (func, bases, live) = before.into_parts();
    insert(alloc, func, &live, &bases)
}
