//! Modules that calls with bundles stand in. Each function has one block, and the one layout is `{ i64, ptr }`.
//!
//! A function is a part of its own, with its name and the number of its arguments in the head, and its lines below (`lines`).

ghost use Rattle.std.specs.Prelude.{◌≡◌, not, IsTrue};
ghost use Rattle.std.specs.List.{list_all};
ghost use Rattle.ir_ast.specs.Blocks.{EndsAtTerminator};
ghost use Rattle.ir_ast.specs.Ops.{is_terminator};

use crate::lines::{inst_of, name_of};
use anyhow::{Result, bail};
use case_files::{CaseLine, filled};
use ir_ast::{Arg, Block, Cell, Form, Func, Inst, Layout, Module, Ty};
use std::alloc::Global;

/// The module of these functions.
pub(crate) fn module_of(alloc: Global, funcs: Vec<Func>) -> Result<Module> {
    if funcs.len() > u32::MAX as usize {
        bail!("too many functions");
    }
    let layouts = vec![in alloc; layout(alloc)?]?;
    Ok(Module::of(layouts, funcs, Form::Source))
}

fn layout(alloc: Global) -> Result<Layout> {
    let fields = vec![in alloc; Cell::I64, Cell::Ptr]?;
    Ok(Layout::of(name_of(alloc, "N")?, fields))
}

/// The function of this name and number of arguments that these lines spell.
pub(crate) fn func_of(alloc: Global, words: &str, body: &[CaseLine]) -> Result<Func> {
    let (name, count) = words.split_once(' ').unwrap_or((words, "0"));
    let mut insts = Vec::new(alloc);
    for line in filled(body) {
        insts.push(inst_of(alloc, line.text)?)?;
    }
    let args = arguments(alloc, count.parse()?)?;
    func_with(alloc, name, args, insts)
}

fn func_with(alloc: Global, name: &str, args: Vec<Arg>, insts: Vec<Inst>) -> Result<Func> {
    if args.len() >= 1 << 30 || insts.len() >= 1 << 30 || !ends_at_terminator(&insts) {
        bail!("a block has no end");
    }
    let blocks = vec![in alloc; Block::of(name_of(alloc, "entry")?, insts)]?;
    Ok(Func::of(name_of(alloc, name)?, Ty::Void, args, blocks))
}

fn arguments(alloc: Global, count: usize) -> Result<Vec<Arg>> {
    let mut args = Vec::new(alloc);
    for _ in 0..count {
        let name = name_of(alloc, "a")?;
        args.push(Arg { name, ty: Ty::Ptr })?;
    }
    Ok(args)
}

fn ends_at_terminator(insts: &[Inst]) -> bool
    ensures { IsTrue result → EndsAtTerminator insts.now }
{
    match insts {
        [] => false,
        [before @ .., last] => last.op().is_terminator() && none_ends(before),
    }
}

fn none_ends(insts: &[Inst]) -> bool
    ensures { result ≡ list_all (λ inst. not (is_terminator inst.op)) insts.now }
{
    insts.iter().all(|inst| !inst.op().is_terminator())
}
