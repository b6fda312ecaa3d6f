//! The graph of a function's blocks, whether its uses are definite, and the module without unreached blocks.

ghost use Rattle.std.specs.Prelude.{◌≡◌, ◌≤◌, length};
ghost use Rattle.std.specs.List.{All};
ghost use Rattle.sp_ids.specs.declared.limits.TheConstants.{FILE_BYTES};
ghost use Rattle.ir_ast.specs.Formed.{IsFormed};
ghost use Rattle.ir_cfg.specs.Graphs.{graph_of};

use crate::modules::show_module;
use crate::sources::source;
use anyhow::Result;
use definite_assign::definite;
use ir_ast::{Func, Module};
use ir_cfg::{Cfg, drop_unreachable};
use ir_types::TypeFault;
use sp_ids::BlockId;
use std::alloc::Global;

pub(crate) fn show(rt: &impl Print, alloc: Global, text: &[u8]) -> Result<()>
    requires { length text.now ≤ FILE_BYTES }
{
    match source(alloc, text) {
        Ok(whole) => {
            show_funcs(rt, alloc, &whole)?;
            let after = drop_unreachable(alloc, whole)?;
            println!(rt; "without unreached blocks")?;
            show_module(rt, alloc, &after)
        }
        Err(TypeFault::Fault(fault)) => {
            let line = fault.line;
            let code = fault.code;
            println!(rt; "line {line}: fault {code}")?;
            Ok(())
        }
        Err(fault) => Err(fault.into()),
    }
}

fn show_funcs(rt: &impl Print, alloc: Global, whole: &Module) -> Result<()>
    requires { All IsFormed whole.now.content.funcs }
{
    for func in whole.funcs() {
        show_func(rt, alloc, func)?;
    }
    Ok(())
}

fn show_func(rt: &impl Print, alloc: Global, func: &Func) -> Result<()>
    requires { IsFormed func.now.content }
{
    let cfg = Cfg::of(alloc, func)?;
    show_edges(rt, func, &cfg)?;
    let missed = definite(alloc, func, &cfg)?;
    println!(rt; "first use that isn't definite: {missed:?}")?;
    Ok(())
}

fn show_edges(rt: &impl Print, func: &Func, cfg: &Cfg) -> Result<()>
    requires { cfg.now ≡ graph_of func.now.content }
{
    for place in 0..func.blocks().len() as u32 {
        let block = BlockId(place);
        let succs = cfg.succs(block);
        let preds = cfg.preds(block);
        let reached = cfg.reached(block);
        let retreats = cfg.retreats(block);
        println!(rt;
            "block {place}: to {succs:?}, from {preds:?}, reached {reached}, retreats {retreats}"
        )?;
    }
    Ok(())
}
