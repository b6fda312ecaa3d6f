//! A module without the blocks that no entry reaches.

ghost use Rattle.std.specs.Prelude.{◌≡◌, ◌^◌, ◌<◌, [], ◌∷◌, ◌++◌, true, false, if◌then◌else◌, length, map, replicate, slice_index_or, IfOk};
ghost use Rattle.ir_ast.specs.Funcs.{content_of, lines_of};
ghost use Rattle.ir_ast.specs.Formed.{IsFormed};
ghost use Rattle.ir_cfg.specs.Unreached.{kept_of, result_marks, result_count, block_kept, zeros_of, DropsUnreached, ModuleDropsUnreached};
ghost use Rattle.std.specs.List.{All, AllZip};
ghost use Rattle.ir_cfg.specs.SourceModules.{IsSourceModule};

use crate::graphs::edges;
use crate::reach::{follow, marks};
use crate::renumber::{self, Renumber, mark_at};
use ir_ast::{Block, Func, Module};
use sp_ids::Memory;
use std::alloc::Global;

/// The module without the blocks that no path from the entry reaches, and without the phi entries that
/// name them. Blocks and values have new numbers, in the old order, and each line is 0.
pub fn drop_unreachable(alloc: Global, source: Module) -> Result<Module, Memory>
    requires { IsSourceModule source.content }
    ensures drops { IfOk result (λ after. ModuleDropsUnreached source.content after.content) }
    ensures lines { IfOk result (λ after. after.lines ≡ map zeros_of after.content.funcs) }
    ensures keeps_source { IfOk result (λ after. IsSourceModule after.content) }
{
    let (layouts, old_funcs, form) = source.into_parts();
    let new_funcs = all_without(alloc, old_funcs)?;
    Ok(Module::of(layouts, new_funcs, form))
}

fn all_without(alloc: Global, funcs: Vec<Func>) -> Result<Vec<Func>, Memory>
    requires { All (λ func. IsFormed func.content) funcs.items }
    ensures functions { IfOk result (λ kept. AllZip DropsUnreached (map content_of funcs.items) (map content_of kept.items)) }
    ensures lines { IfOk result (λ kept. map lines_of kept.items ≡ map zeros_of (map content_of kept.items)) }
    ensures count { IfOk result (λ kept. length kept.items ≡ length funcs.items) }
{
    let mut kept = Vec::with_capacity(alloc, funcs.len())?;
    for func in funcs {
        kept.push(without_unreached(alloc, func)?)?;
    }
    Ok(kept)
}

fn without_unreached(alloc: Global, func: Func) -> Result<Func, Memory>
    requires { IsFormed func.content }
    ensures drops { IfOk result (λ after. DropsUnreached func.content after.content) }
    ensures lines { IfOk result (λ after. after.lines ≡ zeros_of after.content) }
{
    if follow(alloc, &func)? {
        return Ok(unlined(func));
    }
    renumbered(alloc, func)
}

// The same function; each line is 0.
fn unlined(func: Func) -> Func
    ensures content { result.content ≡ func.content }
    ensures lines { result.lines ≡ zeros_of func.content }
{
    let (name, answer, args, blocks) = func.into_parts();
    Func::of(name, answer, args, blocks)
}

fn renumbered(alloc: Global, func: Func) -> Result<Func, Memory>
    requires { IsFormed func.content }
    ensures drops { IfOk result (λ after. DropsUnreached func.content after.content) }
    ensures lines { IfOk result (λ after. after.lines ≡ zeros_of after.content) }
{
    let succs = edges(alloc, &func)?;
    let marks = marks(alloc, &succs)?;
    let (name, answer, args, blocks) = func.into_parts();
    let values = value_marks(alloc, args.len(), marks.as_slice(), blocks.as_slice())?;
    let renumber = Renumber::of(alloc, marks, values.as_slice())?;
    let kept = kept_blocks(alloc, &renumber, blocks)?;
    Ok(Func::of(name, answer, args, kept))
}

// A mark for each value: the arguments, and the results of the blocks that have a mark.
fn value_marks(
    alloc: Global,
    arguments: usize,
    marks: &[bool],
    blocks: &[Block],
) -> Result<Vec<bool>, Memory>
    ensures { IfOk result (λ values. values.items ≡ replicate arguments true ++ result_marks marks.now blocks.now) }
{
    let mut values = Vec::new(alloc);
    for _ in 0..arguments {
        values.push(true)?;
    }
    for (place, block) in blocks.iter().enumerate() {
        mark_results(block, mark_at(marks, place), &mut values)?;
    }
    Ok(values)
}

fn mark_results(block: &Block, mark: bool, values: &mut Vec<bool>) -> Result<(), Memory>
    ensures { IfOk result (λ _. values.new.items ≡ values.old.items ++ replicate (result_count block.now) mark) }
{
    for inst in block.insts() {
        if inst.result().is_some() {
            values.push(mark)?;
        }
    }
    Ok(())
}

fn kept_blocks(alloc: Global, renumber: &Renumber, blocks: Vec<Block>) -> Result<Vec<Block>, Memory>
    ensures { IfOk result (λ kept. kept.items ≡ map (block_kept renumber.now) (kept_of renumber.now.marks blocks.items)) }
{
    let mut kept = Vec::new(alloc);
    let mut place = 0;
    for block in blocks {
        keep_if_marked(alloc, renumber, place, block, &mut kept)?;
        place += 1;
    }
    Ok(kept)
}

fn keep_if_marked(
    alloc: Global,
    renumber: &Renumber,
    place: usize,
    block: Block,
    kept: &mut Vec<Block>,
) -> Result<(), Memory>
    ensures { IfOk result (λ _. kept.new.items ≡ kept.old.items ++ (if slice_index_or renumber.now.marks place false then block_kept renumber.now block ∷ [] else [])) }
{
    if renumber.keeps(place) {
        kept.push(renumber::block(alloc, renumber, block)?)?;
    }
    Ok(())
}
