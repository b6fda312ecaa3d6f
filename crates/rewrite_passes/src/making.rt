//! The passes before the groups, one after the other.

ghost use Rattle.std.specs.Prelude.{◌≡◌, ◌+◌, ◌<◌, ◌≤◌, ◌++◌, ◌∷◌, [], length, map, sum, IfOk, IfSome, IfNone};
ghost use Rattle.std.specs.List.{All};
ghost use Rattle.ir_ast.specs.Funcs.{content_of};
ghost use Rattle.base_forms.specs.Polls.{placed};
ghost use Rattle.rewrite_passes.specs.Before.{CanBegin, CanBeMade, made_of, relocates_of};

use crate::before::Before;
use base_infer::insert;
use ir_ast::{Func, LiveTable};
use ir_cfg::Cfg;
use live_sets::live;
use poll_place::place_func;
use sp_ids::Memory;
use sp_ids::limits::RELOCATES;
use std::alloc::Global;

/// Each of these functions with polls, bases and checks, and with the pointers that are live across its calls; or `None` where all their groups
/// together would have more than 4,194,304 relocates, which are counted before any group is made. Where memory is wanted the functions
/// are gone.
pub fn before_groups(alloc: Global, funcs: Vec<Func>) -> Result<Option<Vec<Before>>, Memory>
    requires { All (λ func. CanBegin func.content) funcs.items }
    ensures made { IfOk result (λ made. IfSome made (λ all. all.items ≡ map (λ func. made_of (placed func)) (map content_of funcs.items))) }
    ensures few { IfOk result (λ made. IfSome made (λ _. sum (map (λ func. relocates_of (placed func)) (map content_of funcs.items)) ≤ 4194304)) }
    ensures many { IfOk result (λ made. IfNone made (4194304 < sum (map (λ func. relocates_of (placed func)) (map content_of funcs.items)))) }
{
    let mut all = Vec::with_capacity(alloc, funcs.len())?;
    let mut left = RELOCATES;
    for func in funcs {
        let (made, rest) = before(alloc, func, left)?;
        match rest {
            None => return Ok(None),
            Some(rest) => left = rest,
        }
        all.push(made)?;
    }
    Ok(Some(all))
}

// The function with its polls and tables, and what its relocates leave of so many, unless they are more.
fn before(alloc: Global, func: Func, left: u64) -> Result<(Before, Option<u64>), Memory>
    requires { CanBegin func.content }
    ensures made { IfOk result (λ made. made.0 ≡ made_of (placed func.content)) }
    ensures within { IfOk result (λ made. IfSome made.1 (λ rest. rest + relocates_of (placed func.content) ≡ left)) }
    ensures past { IfOk result (λ made. IfNone made.1 (left < relocates_of (placed func.content))) }
{
    let polled = place_func(alloc, func)?;
    with_tables(alloc, polled, left)
}

// The same of a function that has its polls.
fn with_tables(alloc: Global, polled: Func, left: u64) -> Result<(Before, Option<u64>), Memory>
    requires { CanBeMade polled.content }
    ensures made { IfOk result (λ made. made.0 ≡ made_of polled.content) }
    ensures within { IfOk result (λ made. IfSome made.1 (λ rest. rest + relocates_of polled.content ≡ left)) }
    ensures past { IfOk result (λ made. IfNone made.1 (left < relocates_of polled.content)) }
{
    let (based, bases) = insert(alloc, polled)?;
    let cfg = Cfg::of(alloc, &based)?;
    let lists = live(alloc, &based, &cfg, &bases)?;
    let rest = left_after(left, &lists);
    Ok((Before::of(based, bases, lists), rest))
}

// What the sizes of these lists leave of so many, unless they are more.
fn left_after(left: u64, live: &LiveTable) -> Option<u64>
    ensures within { IfSome result (λ rest. rest + sum (map length live.now) ≡ left) }
    ensures past { IfNone result (left < sum (map length live.now)) }
{
    let mut rest = left;
    for list in live.lists() {
        let size = list.len() as u64;
        if size > rest {
            return None;
        }
        rest -= size;
    }
    Some(rest)
}
