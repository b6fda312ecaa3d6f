//! The passes: unreached blocks are dropped, polls are placed, bases and checks are put in; or the whole rewriting, or the simplifying
//! of a source module.

ghost use Rattle.std.specs.Prelude.{◌≡◌, length, IfOk};
ghost use Rattle.std.specs.List.{All};
ghost use Rattle.ir_cfg.specs.SourceModules.{IsSourceModule};
ghost use Rattle.poll_place.specs.Ready.{IsReady};

use base_infer::insert;
use ir_ast::{Func, Module};
use ir_cfg::drop_unreachable;
use ir_simplify::simplify;
use poll_place::{place, sources_are_ready};
use sp_ids::Memory;
use sp_rewrite::{RewriteFault, rewrite};
use std::alloc::Global;

/// How far a module is worked on.
#[derive(Clone, Copy)]
pub(crate) enum Pass {
    Typing,
    Dropping,
    Polls,
    Bases,
    Rewriting,
    Simplifying,
}

/// The pass of this word.
pub(crate) fn pass_of(word: &str) -> Option<Pass> {
    match word {
        "typed" => Some(Pass::Typing),
        "reached" => Some(Pass::Dropping),
        "polls" => Some(Pass::Polls),
        "bases" => Some(Pass::Bases),
        "rewritten" => Some(Pass::Rewriting),
        "simplified" => Some(Pass::Simplifying),
        _ => None,
    }
}

/// Why a pass gives no module.
pub(crate) fn why(fault: RewriteFault) -> &'static str {
    match fault {
        RewriteFault::TooManyRelocations => "too many relocates",
        RewriteFault::Memory => "out of memory",
    }
}

/// The module after this pass and those before it.
pub(crate) fn after(alloc: Global, pass: Pass, source: Module) -> Result<Module, RewriteFault>
    requires { IsSourceModule source.content }
{
    Ok(match pass {
        Pass::Typing => source,
        Pass::Dropping => drop_unreachable(alloc, source)?,
        Pass::Polls => with_polls(alloc, source)?,
        Pass::Bases => with_bases(alloc, source)?,
        Pass::Rewriting => rewrite(alloc, source)?.into_module(),
        Pass::Simplifying => simplify(alloc, source)?,
    })
}

// The module without its unreached blocks, with its polls.
fn with_polls(alloc: Global, source: Module) -> Result<Module, Memory>
    requires { IsSourceModule source.content }
    ensures { IfOk result (λ after. All IsReady after.content.funcs) }
{
    let reached = drop_unreachable(alloc, source)?;
    polled(alloc, reached)
}

fn polled(alloc: Global, source: Module) -> Result<Module, Memory>
    requires { IsSourceModule source.content }
    ensures { IfOk result (λ after. All IsReady after.content.funcs) }
{
    sources_are_ready();
    Ok(place(alloc, source)?)
}

// The same with its bases and checks.
fn with_bases(alloc: Global, source: Module) -> Result<Module, Memory>
    requires { IsSourceModule source.content }
{
    let polled = with_polls(alloc, source)?;
    let (layouts, funcs, form) = polled.into_parts();
    let all = all_with_bases(alloc, funcs)?;
    Ok(Module::of(layouts, all, form))
}

fn all_with_bases(alloc: Global, funcs: Vec<Func>) -> Result<Vec<Func>, Memory>
    requires { All (λ func. IsReady func.content) funcs.items }
    ensures { IfOk result (λ after. length after.items ≡ length funcs.items) }
{
    let mut after = Vec::with_capacity(alloc, funcs.len())?;
    for func in funcs {
        after.push(one_with_bases(alloc, func)?)?;
    }
    Ok(after)
}

fn one_with_bases(alloc: Global, func: Func) -> Result<Func, Memory>
    requires { IsReady func.content }
{
    let (made, _table) = insert(alloc, func)?;
    Ok(made)
}
