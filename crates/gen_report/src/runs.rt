//! The generated module rewritten, and the run of what came of it.
ghost use Rattle.std.specs.Prelude.{◌≡◌, ◌≤◌, IfOk};
ghost use Rattle.ir_cfg.specs.SourceModules.{IsSourceModule};
ghost use Rattle.ir_cfg.specs.TargetModules.{IsTargetModule};
ghost use Rattle.map_bytes.specs.Maps.{map_bytes, IsMapOf};
ghost use Rattle.sp_rewrite.specs.Relocates.{HasManyRelocates};
ghost use Rattle.sp_rewrite.specs.Statements.{IsRewritten};
ghost use Rattle.stackmap_view.specs.Maps.{stack_map};
ghost use Rattle.stackmap_write.specs.ModuleMaps.{map_of};
ghost use Rattle.gen_report.specs.Runs.{IsFlippingRun};
ghost use Rattle.gen_report.specs.Summaries.{flipping};

use frame_slots::Layouts;
use ir_ast::Module;
use ir_machine::{Shows, SureFault, run_verified};
use move_plan::{Plan, PlanFault};
use run_tasks::Ran;
use sp_ids::Memory;
use sp_rewrite::RewriteFault;
use stackmap_view::MapView;
use statepoint_verify::Verified;
use std::alloc::Global;
use tool_io::SureSink;

/// The rewritten module of a module that has few relocates.
pub(crate) fn rewritten(alloc: Global, made: Module) -> Result<Verified, Memory>
    requires source { IsSourceModule made.content }
    requires few { HasManyRelocates made.content → ⊥ }
    ensures is { IfOk result (λ after. IsRewritten made.content after.content) }
    ensures target { IfOk result (λ after. IsTargetModule after.content) }
{
    match sp_rewrite::rewrite(alloc, made) {
        Ok(after) => Ok(after),
        Err(RewriteFault::TooManyRelocations) => unreachable!(),
        Err(RewriteFault::Memory) => Err(Memory),
    }
}

/// The bytes of the stack map of a rewritten module.
pub fn map_of_module(alloc: Global, after: &Module) -> Result<Vec<u8>, Memory>
    requires target { IsTargetModule after.now.content }
    ensures value { IfOk result (λ bytes. bytes.items ≡ map_bytes (map_of after.now.content)) }
    ensures is_map { IfOk result (λ bytes. IsMapOf bytes.items (map_of after.now.content)) }
{
    let layouts = Layouts::of(alloc, after)?;
    stackmap_write::write(alloc, after, &layouts)
}

/// What the run over these bytes, which are the module's stack map, answers.
pub(crate) fn run_flipping(
    alloc: Global,
    after: &Verified,
    bytes: &[u8],
    steps: u64,
) -> Result<Ran, Memory>
    requires own { IsMapOf bytes.now (map_of after.now.content) }
    ensures { IfOk result (λ ran. IsFlippingRun after.now.content steps ran) }
{
    let plan = flipping_plan(alloc)?;
    match MapView::of(bytes) {
        Ok(view) => run_over(alloc, after, &view, &plan, steps),
        // they are a map
        Err(_) => unreachable!(),
    }
}

fn run_over(
    alloc: Global,
    after: &Verified,
    view: &MapView<'_>,
    plan: &Plan,
    steps: u64,
) -> Result<Ran, Memory>
    requires own { stack_map view.now ≡ map_of after.now.content }
    requires flips { plan.now ≡ flipping }
    ensures { IfOk result (λ ran. IsFlippingRun after.now.content steps ran) }
{
    let shows = Shows {
        places: false,
        trace: false,
    };
    let mut lines = SureSink::new();
    match run_verified(alloc, after, view, &[], plan, steps, shows, &mut lines) {
        Ok(ran) => Ok(ran),
        Err(SureFault::Memory) => Err(Memory),
        // no put of such a sink fails
        Err(SureFault::Write) => unreachable!(),
    }
}

// The plan `every 1 flip`.
fn flipping_plan(alloc: Global) -> Result<Plan, Memory>
    ensures { IfOk result (λ plan. plan ≡ flipping) }
{
    match Plan::read(alloc, b"every 1 flip") {
        Ok(plan) => Ok(plan),
        Err(PlanFault::Memory) => Err(Memory),
        // the text has no fault
        Err(PlanFault::Syntax { .. }) => unreachable!(),
        Err(PlanFault::Order { .. }) => unreachable!(),
        Err(PlanFault::TwoGo { .. }) => unreachable!(),
        Err(PlanFault::Limit { .. }) => unreachable!(),
    }
}
