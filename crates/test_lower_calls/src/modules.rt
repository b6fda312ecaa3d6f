//! A module that a text stands for, its parts, its clone, and the module of the same parts.

ghost use Rattle.std.specs.Prelude.{◌≤◌, length};
ghost use Rattle.sp_ids.specs.declared.limits.TheConstants.{FILE_BYTES};

use crate::sources::source;
use anyhow::Result;
use ir_ast::{Block, Func, Inst, Module};
use sp_ids::FuncId;
use std::alloc::Global;

pub(crate) fn show(rt: &impl Print, alloc: Global, text: &[u8]) -> Result<()>
    requires { length text.now ≤ FILE_BYTES }
{
    let whole = source(alloc, text)?;
    show_module(rt, alloc, &whole)?;
    show_numbers(rt, &whole)?;
    let copy = whole.try_clone(alloc)?;
    let is_same = format!(in alloc; "{copy:?}")? == format!(in alloc; "{whole:?}")?;
    println!(rt; "a clone is the same: {is_same}")?;
    show_numbers(rt, &copy)?;
    let (layouts, funcs, form) = whole.into_parts();
    let again = Module::of(layouts, funcs, form);
    println!(rt; "made again from its parts")?;
    show_numbers(rt, &again)
}

// The numbers of lines of some instructions, and of some that there aren't.
fn show_numbers(rt: &impl Print, whole: &Module) -> Result<()> {
    for (func, place) in [(1, 0), (1, 2), (1, 3), (1, 4), (0, 0), (2, 0)] {
        let line = whole.line_of(FuncId(func), place);
        println!(rt; "function {func} instruction {place}: line {line}")?;
    }
    Ok(())
}

pub(crate) fn show_module(rt: &impl Print, alloc: Global, whole: &Module) -> Result<()> {
    let form = whole.form();
    println!(rt; "module: {form:?}")?;
    for layout in whole.layouts() {
        let name = String::from_utf8_lossy(alloc, layout.name().bytes())?;
        let fields = layout.fields();
        println!(rt; "layout {name}: {fields:?}")?;
    }
    for func in whole.funcs() {
        show_func(rt, alloc, func)?;
    }
    Ok(())
}

fn show_func(rt: &impl Print, alloc: Global, func: &Func) -> Result<()> {
    let name = String::from_utf8_lossy(alloc, func.name().bytes())?;
    let answer = func.answer();
    println!(rt; "function {name}: {answer:?}")?;
    for arg in func.args() {
        let name = String::from_utf8_lossy(alloc, arg.name.bytes())?;
        let ty = arg.ty;
        println!(rt; "  argument {name}: {ty:?}")?;
    }
    for block in func.blocks() {
        show_block(rt, alloc, block)?;
    }
    Ok(())
}

fn show_block(rt: &impl Print, alloc: Global, block: &Block) -> Result<()> {
    let name = String::from_utf8_lossy(alloc, block.name().bytes())?;
    println!(rt; "  block {name}")?;
    for inst in block.insts() {
        show_inst(rt, alloc, inst)?;
    }
    Ok(())
}

fn show_inst(rt: &impl Print, alloc: Global, inst: &Inst) -> Result<()> {
    let op = inst.op();
    let ty = inst.ty();
    let operands = inst.operands();
    let labels = inst.labels();
    let bundle = inst.bundle();
    let ends = inst.op().is_terminator();
    print!(rt; "    ")?;
    if let Some(name) = inst.result() {
        let name = String::from_utf8_lossy(alloc, name.bytes())?;
        print!(rt; "{name} = ")?;
    }
    println!(rt;
        "{op:?} of {ty:?}: operands {operands:?}, labels {labels:?}, bundle {bundle:?}, ends: {ends}"
    )?;
    Ok(())
}
