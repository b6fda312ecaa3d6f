//! Modules and functions with polls at their poll points.

ghost use Rattle.std.specs.Prelude.{◌≡◌, length, map, IfOk};
ghost use Rattle.std.specs.List.{All};
ghost use Rattle.ir_ast.specs.Funcs.{content_of, lines_of};
ghost use Rattle.ir_cfg.specs.Unreached.{zeros_of};
ghost use Rattle.base_forms.specs.Polls.{placed, placed_from, placed_module};
ghost use Rattle.poll_place.specs.Room.{HasFewLines};

use crate::blocks::place_block;
use ir_ast::{Block, Form, Func, Module};
use sp_ids::Memory;
use std::alloc::Global;

/// The module with its polls: a line `call void @gc.safepoint_poll()` at the front of each function, and one before each
/// terminator with an edge to the same or an earlier place in the text (Garbage Collection Safepoints in LLVM,
/// "PlaceSafepoints"). Nothing else changes, but that each line has number 0 and the form is the rewritten one, since
/// polls are spelled. Where memory is wanted the module is gone.
pub fn place(alloc: Global, source: Module) -> Result<Module, Memory>
    requires { All HasFewLines source.content.funcs }
    ensures placed { IfOk result (λ after. after.content ≡ placed_module source.content) }
    ensures lines { IfOk result (λ after. after.lines ≡ map zeros_of after.content.funcs) }
{
    let (layouts, funcs, _form) = source.into_parts();
    let all_placed = place_all(alloc, funcs)?;
    Ok(Module::of(layouts, all_placed, Form::Rewritten))
}

fn place_all(alloc: Global, funcs: Vec<Func>) -> Result<Vec<Func>, Memory>
    requires { All (λ func. HasFewLines func.content) funcs.items }
    ensures content { IfOk result (λ after. map content_of after.items ≡ map placed (map content_of funcs.items)) }
    ensures lines { IfOk result (λ after. map lines_of after.items ≡ map zeros_of (map content_of after.items)) }
    ensures count { IfOk result (λ after. length after.items ≡ length funcs.items) }
{
    let mut after = Vec::with_capacity(alloc, funcs.len())?;
    for func in funcs {
        after.push(place_func(alloc, func)?)?;
    }
    Ok(after)
}

/// The function with its polls, as in [`place`]. Where memory is wanted the function is gone.
pub fn place_func(alloc: Global, func: Func) -> Result<Func, Memory>
    requires { HasFewLines func.content }
    ensures content { IfOk result (λ after. after.content ≡ placed func.content) }
    ensures lines { IfOk result (λ after. after.lines ≡ zeros_of after.content) }
{
    let (name, answer, args, blocks) = func.into_parts();
    let with_polls = place_blocks(alloc, blocks)?;
    Ok(Func::of(name, answer, args, with_polls))
}

fn place_blocks(alloc: Global, blocks: Vec<Block>) -> Result<Vec<Block>, Memory>
    ensures { IfOk result (λ after. after.items ≡ placed_from 0 blocks.items) }
{
    let mut after = Vec::with_capacity(alloc, blocks.len())?;
    let mut number = 0;
    for block in blocks {
        after.push(place_block(alloc, number, block)?)?;
        number += 1;
    }
    Ok(after)
}
