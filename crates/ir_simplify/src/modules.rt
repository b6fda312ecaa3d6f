//! Functions and modules with less.

ghost use Rattle.std.specs.Prelude.{◌≡◌, ◌<◌, ◌^◌, IfOk, length, map};
ghost use Rattle.std.specs.Bool.{OnTrue};
ghost use Rattle.std.specs.List.{All, AllZip};
ghost use Rattle.ir_ast.specs.Funcs.{content_of, lines_of, zeros_of};
ghost use Rattle.ir_cfg.specs.SourceModules.{IsSourceModule};
ghost use Rattle.folded_forms.specs.Foldable.{IsReduced};
ghost use Rattle.folded_forms.specs.Foldings.{IsFolding, IsThinning};
ghost use Rattle.folded_forms.specs.Simplified.{IsSimplified};
ghost use Rattle.folded_source.specs.Statements.{IsUnder};
ghost use Rattle.ir_simplify.specs.Less.{IsLess};

use crate::needed::thinned;
use crate::search::found;
use body_tables::instructions;
use fold_tables::{folded, is_folding, is_reduced, is_thinning};
use folded_runs::{folded_give_the_same, thinned_give_the_same};
use folded_source::{folded_and_thinned_stays_source, folded_stays_source};
use ir_ast::{Func, Module, Operand};
use sp_ids::Memory;
use std::alloc::Global;

/// A source module with less that means the same. What operators give of literals, selects choose by a literal, and phis have
/// from one operand alone is put in place of their results; then pure instructions go whose results nothing needs (LLVM Language
/// Reference, "Instruction Reference"). Blocks and terminators stay, and so does whatever can trap. Each line has number 0.
pub fn simplify(alloc: Global, source: Module) -> Result<Module, Memory>
    requires { IsSourceModule source.content }
    ensures simplified { IfOk result (λ after. IsSimplified source.content after.content) }
    ensures lines { IfOk result (λ after. after.lines ≡ map zeros_of after.content.funcs) }
{
    folded_stays_source();
    folded_and_thinned_stays_source();
    folded_give_the_same();
    thinned_give_the_same();
    let after = with_less(alloc, source)?;
    Ok(after)
}

fn with_less(alloc: Global, source: Module) -> Result<Module, Memory>
    ensures less { IfOk result (λ after. IsLess source.content after.content) }
    ensures reduced { IfOk result (λ after. All IsReduced after.content.funcs) }
    ensures lines { IfOk result (λ after. after.lines ≡ map zeros_of after.content.funcs) }
{
    let (layouts, funcs, form) = source.into_parts();
    let between = all_folded(alloc, funcs)?;
    let after = all_thinned(alloc, between)?;
    Ok(Module::of(layouts, after, form))
}

fn all_folded(alloc: Global, funcs: Vec<Func>) -> Result<Vec<Func>, Memory>
    ensures functions { IfOk result (λ after. AllZip (IsUnder IsFolding) (map content_of funcs.items) (map content_of after.items)) }
    ensures count { IfOk result (λ after. length after.items ≡ length funcs.items) }
{
    let mut after = Vec::with_capacity(alloc, funcs.len())?;
    for func in funcs {
        after.push(under_folding(alloc, func)?)?;
    }
    Ok(after)
}

fn all_thinned(alloc: Global, funcs: Vec<Func>) -> Result<Vec<Func>, Memory>
    ensures functions { IfOk result (λ after. AllZip (IsUnder IsThinning) (map content_of funcs.items) (map content_of after.items)) }
    ensures reduced { IfOk result (λ after. All IsReduced (map content_of after.items)) }
    ensures lines { IfOk result (λ after. map lines_of after.items ≡ map zeros_of (map content_of after.items)) }
    ensures count { IfOk result (λ after. length after.items ≡ length funcs.items) }
{
    let mut after = Vec::with_capacity(alloc, funcs.len())?;
    for func in funcs {
        after.push(under_thinning(alloc, func)?)?;
    }
    Ok(after)
}

fn under_folding(alloc: Global, func: Func) -> Result<Func, Memory>
    ensures { IfOk result (λ after. IsUnder IsFolding func.content after.content) }
{
    let table = folding_of(alloc, &func)?;
    let less = folded(alloc, func, table.as_slice())?;
    Ok(less)
}

// The search proposes, and the look at all lines decides.
fn folding_of(alloc: Global, func: &Func) -> Result<Vec<Operand>, Memory>
    ensures table { IfOk result (λ table. IsFolding func.now.content table.items) }
    ensures few { IfOk result (λ table. length table.items < 2 ^ 32) }
{
    let insts = instructions(alloc, func)?;
    let table = found(alloc, func.args().len(), insts.as_slice())?;
    let holds = is_folding(alloc, func, insts.as_slice(), table.as_slice())?;
    if !holds {
        return Err(Memory);
    }
    Ok(table)
}

fn under_thinning(alloc: Global, func: Func) -> Result<Func, Memory>
    ensures under { IfOk result (λ after. IsUnder IsThinning func.content after.content) }
    ensures reduced { IfOk result (λ after. IsReduced after.content) }
    ensures lines { IfOk result (λ after. after.lines ≡ zeros_of after.content) }
{
    let table = thinning_of(alloc, &func)?;
    let after = folded(alloc, func, table.as_slice())?;
    let holds = nothing_left(alloc, &after)?;
    if !holds {
        return Err(Memory);
    }
    Ok(after)
}

fn thinning_of(alloc: Global, func: &Func) -> Result<Vec<Operand>, Memory>
    ensures table { IfOk result (λ table. IsThinning func.now.content table.items) }
    ensures few { IfOk result (λ table. length table.items < 2 ^ 32) }
{
    let insts = instructions(alloc, func)?;
    let table = thinned(alloc, func.args().len(), insts.as_slice())?;
    if !is_thinning(func, insts.as_slice(), table.as_slice()) {
        return Err(Memory);
    }
    Ok(table)
}

fn nothing_left(alloc: Global, func: &Func) -> Result<bool, Memory>
    ensures { IfOk result (λ yes. OnTrue yes (IsReduced func.now.content)) }
{
    let insts = instructions(alloc, func)?;
    is_reduced(alloc, func, insts.as_slice())
}
