//! A module of a given size from a seed.

ghost use Rattle.std.specs.Prelude.{◌≡◌, ◌≤◌, map, IfOk};
ghost use Rattle.ir_cfg.specs.Unreached.{zeros_of};
ghost use Rattle.generated_forms.specs.Modules.{node, generated};

use crate::funcs::{functions, main_function};
use ir_ast::{Cell, Form, Layout, Module, Name};
use sp_ids::Memory;
use std::alloc::Global;

/// The module of a seed with so many functions besides `@main`. The same numbers give the same module. Each line has
/// number 0.
pub fn make(alloc: Global, seed: u64, size: u32) -> Result<Module, Memory>
    requires some { 1 ≤ size }
    requires few { size ≤ 1000 }
    ensures content { IfOk result (λ made. made.content ≡ generated seed size) }
    ensures lines { IfOk result (λ made. made.lines ≡ map zeros_of made.content.funcs) }
{
    let mut layouts = Vec::with_capacity(alloc, 1)?;
    layouts.push(node(alloc)?)?;
    let mut funcs = functions(alloc, seed, size)?;
    funcs.push(main_function(alloc, size)?)?;
    Ok(Module::of(layouts, funcs, Form::Source))
}

// `%N = type { i64, ptr addrspace(1) }`
fn node(alloc: Global) -> Result<Layout, Memory>
    ensures { IfOk result (λ layout. layout ≡ node) }
{
    Ok(Layout::of(
        Name::of(alloc, b"N")?,
        Vec::from_slice(alloc, &[Cell::I64, Cell::Ptr])?,
    ))
}
