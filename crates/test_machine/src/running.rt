//! A run of a text's module.

ghost use Rattle.std.specs.Prelude.{◌≤◌, length, vec_len, IfOk};
ghost use Rattle.sp_ids.specs.declared.limits.TheConstants.{FILE_BYTES};
ghost use Rattle.ir_cfg.specs.TargetModules.{IsTargetModule};

use anyhow::{Result, bail};
use frame_slots::Layouts;
use ir_ast::Module;
use ir_machine::{Shows, run_any};
use ir_reader::read_rewritten;
use ir_types::typed_rewritten;
use move_plan::{Plan, read_input};
use sp_ids::limits::FILE_BYTES;
use stackmap_write::write;
use tool_io::{DiskFiles, Files, OutSink, TakeFault};

/// Runs the module of a file in the rewritten form over its own map, and writes its text, with these shows, and how it ended.
pub(crate) fn show_run(
    rt: &HostRuntime,
    module: &str,
    input: &str,
    plan: &str,
    steps: u64,
    shows: Shows,
) -> Result<()> {
    let whole = module_of(rt, module)?;
    let layouts = Layouts::of(rt.alloc(), &whole)?;
    let map = write(rt.alloc(), &whole, &layouts)?;
    run(rt, &whole, &map, input, plan, steps, shows)
}

/// The same of NAME.ll over the bytes of NAME.map, with the input of NAME.input and under NAME.plan.
pub(crate) fn show_over(rt: &HostRuntime, name: &str, steps: u64, shows: Shows) -> Result<()> {
    let alloc = rt.alloc();
    let whole = module_of(rt, format!(in alloc; "{name}.ll")?.as_str())?;
    let map = taken(rt, format!(in alloc; "{name}.map")?.as_str())?;
    let input = format!(in alloc; "{name}.input")?;
    let plan = format!(in alloc; "{name}.plan")?;
    run(
        rt,
        &whole,
        &map,
        input.as_str(),
        plan.as_str(),
        steps,
        shows,
    )
}

fn module_of(rt: &HostRuntime, name: &str) -> Result<Module>
    ensures { IfOk result (λ whole. IsTargetModule whole.content) }
{
    let text = taken(rt, name)?;
    let Ok(raw) = read_rewritten(rt.alloc(), &text) else {
        bail!("the module has a fault");
    };
    Ok(typed_rewritten(rt.alloc(), raw)?)
}

fn run(
    rt: &HostRuntime,
    whole: &Module,
    map: &[u8],
    input: &str,
    plan: &str,
    steps: u64,
    shows: Shows,
) -> Result<()>
    requires { IsTargetModule whole.now.content }
{
    let alloc = rt.alloc();
    let numbers = taken(rt, input)?;
    let lines = taken(rt, plan)?;
    let Ok(input) = read_input(alloc, &numbers) else {
        bail!("the input has a fault");
    };
    let Ok(plan) = Plan::read(alloc, &lines) else {
        bail!("the plan has a fault");
    };
    let ran = run_any(
        alloc,
        whole,
        map,
        &input,
        &plan,
        steps,
        shows,
        &mut OutSink::new(rt),
    );
    println!(rt; "{ran:?}")?;
    Ok(())
}

fn taken(rt: &HostRuntime, name: &str) -> Result<Vec<u8>, TakeFault>
    ensures { IfOk result (λ bytes. vec_len bytes ≤ FILE_BYTES) }
{
    DiskFiles::new(rt).take(rt.alloc(), name, FILE_BYTES)
}
