//! The commands `source`, `run` and `exec`: the module, the input and the plan are taken in this order, then it runs, or its
//! rewritten module does.
ghost use Rattle.std.specs.Prelude.{◌≡◌, ◌≤◌, ◌∷◌, ℕ, IfOk, OnErr, IsErrOf, [], OnOk};
ghost use Rattle.piece_writer.specs.LinePuts.{told_by};
ghost use Rattle.ir_ast.specs.Modules.{ModuleContent};
ghost use Rattle.ir_cfg.specs.SourceModules.{IsSourceModule};
ghost use Rattle.tool_io.specs.Counts.{NoneFell, Rose};
ghost use Rattle.tool_io.specs.Takes.{TakesFirst};
ghost use Rattle.tool_io.specs.Told.{append_told};
ghost use Rattle.statepoint_tool.specs.Named.{files_of_map, files_of_run};
ghost use Rattle.statepoint_tool.specs.Answers.{Came, IsBegun, IsDone, Works, sink_seen};
ghost use Rattle.statepoint_tool.specs.Causes.{shown_by};
ghost use Rattle.statepoint_tool.specs.Steps.{Go};
ghost use Rattle.statepoint_tool.specs.Taken.{files_seen};
ghost use Rattle.statepoint_tool.specs.Work.{MayGiveAll, MayGiveFromInput, MayGiveFromPlan, MayGiveMap, Running, after_input, after_module, run_phase, run_work};
ghost use Rattle.statepoint_tool.specs.Runners.{CanRun, RunsAs, engine_of};

use crate::closing::close;
use crate::engine::Engine;
use crate::job::Job;
use crate::machine::run_on_machine;
use crate::phases::{take_input, take_module, take_plan};
use crate::refusal::Refusal;
use crate::runner::{Runner, runner_of};
use crate::status::Status;
use ir_ast::Module;
use ir_meaning::{RefFault, reference};
use std::alloc::Global;
use tool_io::{Files, Sink};
use tool_words::{FileName, RunRequest};

/// Does the run that is asked for.
pub(crate) fn run<F: Files, O: Sink>(
    alloc: Global,
    engine: Engine,
    request: RunRequest,
    files: &mut F,
    out: &mut O,
) -> Result<Status, Refusal>
    ensures works { Works (MayGiveAll (files_seen (F.contents files.old) (F.faults files.old) (F.faults files.new)) engine request)
        (run_work engine request) result
        (sink_seen (told_by O.written O.puts out.old) (told_by O.written O.puts out.new) (O.faults out.old) (O.faults out.new)) }
    ensures kept { F.contents files.new ≡ F.contents files.old }
    ensures counted { NoneFell (F.faults files.old) (F.faults files.new) }
    ensures takes_first { TakesFirst (files_of_run engine request) (F.taken files.old) (F.taken files.new) }
    ensures takes_all { OnOk result (F.taken files.new ≡ append_told (F.taken files.old) (files_of_run engine request)) }
    ensures out_counted { O.faults out.old ≤ O.faults out.new }
{
    let RunRequest {
        code,
        input,
        plan,
        steps,
    } = request;
    let read = take_module(alloc, engine.form(), files, code)?;
    let runner = runner_of(alloc, engine, read)?;
    run_module(alloc, runner, input, plan, steps, files, out)
}

// What is left once it is known what runs.
fn run_module<F: Files, O: Sink>(
    alloc: Global,
    runner: Runner,
    input: FileName,
    plan: FileName,
    steps: u64,
    files: &mut F,
    out: &mut O,
) -> Result<Status, Refusal>
    requires { CanRun runner }
    ensures works { (content : ModuleContent) → RunsAs content runner →
        Works (MayGiveFromInput (files_seen (F.contents files.old) (F.faults files.old) (F.faults files.new)) input plan (engine_of runner))
        (after_module input plan (engine_of runner) content steps) result
        (sink_seen (told_by O.written O.puts out.old) (told_by O.written O.puts out.new) (O.faults out.old) (O.faults out.new)) }
    ensures kept { F.contents files.new ≡ F.contents files.old }
    ensures counted { NoneFell (F.faults files.old) (F.faults files.new) }
    ensures takes_first { TakesFirst (input ∷ plan ∷ files_of_map (engine_of runner)) (F.taken files.old) (F.taken files.new) }
    ensures takes_all { OnOk result (F.taken files.new ≡ append_told (F.taken files.old) (input ∷ plan ∷ files_of_map (engine_of runner))) }
    ensures out_counted { O.faults out.old ≤ O.faults out.new }
{
    let numbers = take_input(alloc, files, input)?;
    run_with_input(alloc, runner, &numbers, plan, steps, files, out)
}

// What is left once the input is read.
fn run_with_input<F: Files, O: Sink>(
    alloc: Global,
    runner: Runner,
    numbers: &[i64],
    plan: FileName,
    steps: u64,
    files: &mut F,
    out: &mut O,
) -> Result<Status, Refusal>
    requires { CanRun runner }
    ensures works { (content : ModuleContent) → RunsAs content runner →
        Works (MayGiveFromPlan (files_seen (F.contents files.old) (F.faults files.old) (F.faults files.new)) plan (engine_of runner))
        (after_input plan (engine_of runner) content numbers.now steps) result
        (sink_seen (told_by O.written O.puts out.old) (told_by O.written O.puts out.new) (O.faults out.old) (O.faults out.new)) }
    ensures kept { F.contents files.new ≡ F.contents files.old }
    ensures counted { NoneFell (F.faults files.old) (F.faults files.new) }
    ensures takes_first { TakesFirst (plan ∷ files_of_map (engine_of runner)) (F.taken files.old) (F.taken files.new) }
    ensures takes_all { OnOk result (F.taken files.new ≡ append_told (F.taken files.old) (plan ∷ files_of_map (engine_of runner))) }
    ensures out_counted { O.faults out.old ≤ O.faults out.new }
{
    let lines = take_plan(alloc, files, plan)?;
    let job = Job {
        input: numbers,
        plan: &lines,
        steps,
        shows: runner.shows(),
    };
    run_under_plan(alloc, runner, &job, files, out)
}

// What is left once the plan is read.
fn run_under_plan<F: Files, O: Sink>(
    alloc: Global,
    runner: Runner,
    job: &Job<'_>,
    files: &mut F,
    out: &mut O,
) -> Result<Status, Refusal>
    requires can { CanRun runner }
    requires shows { job.now.shows ≡ shown_by (engine_of runner) }
    ensures works { (content : ModuleContent) → RunsAs content runner →
        Works (MayGiveMap (files_seen (F.contents files.old) (F.faults files.old) (F.faults files.new)) (engine_of runner))
        (run_phase (engine_of runner) content job.now.input.now job.now.plan.now job.now.steps) result
        (sink_seen (told_by O.written O.puts out.old) (told_by O.written O.puts out.new) (O.faults out.old) (O.faults out.new)) }
    ensures kept { F.contents files.new ≡ F.contents files.old }
    ensures counted { NoneFell (F.faults files.old) (F.faults files.new) }
    ensures takes_first { TakesFirst (files_of_map (engine_of runner)) (F.taken files.old) (F.taken files.new) }
    ensures takes_all { OnOk result (F.taken files.new ≡ append_told (F.taken files.old) (files_of_map (engine_of runner))) }
    ensures out_counted { O.faults out.old ≤ O.faults out.new }
{
    match runner {
        Runner::Meaning(read) => run_by_meaning(alloc, &read, job, out),
        Runner::Rewritten { module, map, .. } => {
            run_on_machine(alloc, &module, map, job, files, out)
        }
        Runner::Machine { module, map, .. } => {
            run_on_machine(alloc, &module, map, job, files, out)
        }
    }
}

// The run by the source meaning.
fn run_by_meaning<O: Sink>(
    alloc: Global,
    read: &Module,
    job: &Job<'_>,
    out: &mut O,
) -> Result<Status, Refusal>
    requires source { IsSourceModule read.now.content }
    ensures came { Came result (Running read.now.content job.now.input.now job.now.plan.now job.now.steps)
        (sink_seen (told_by O.written O.puts out.old) (told_by O.written O.puts out.new) (O.faults out.old) (O.faults out.new)) }
    ensures out_counted { O.faults out.old ≤ O.faults out.new }
{
    match write_run(alloc, read, job, out) {
        Ok(status) => Ok(status),
        Err(RefFault::Memory) => Err(Refusal::Memory),
        Err(RefFault::Write) => Err(Refusal::WriteFault),
    }
}

// Writes the lines of the run, and then the one that closes it.
fn write_run<O: Sink>(
    alloc: Global,
    read: &Module,
    job: &Job<'_>,
    out: &mut O,
) -> Result<Status, RefFault>
    requires source { IsSourceModule read.now.content }
    ensures done { IfOk result (λ status. IsDone status (Running read.now.content job.now.input.now job.now.plan.now job.now.steps)
        (sink_seen (told_by O.written O.puts out.old) (told_by O.written O.puts out.new) (O.faults out.old) (O.faults out.new))) }
    ensures begun { OnErr result (IsBegun (λ output. Running read.now.content job.now.input.now job.now.plan.now job.now.steps (Go output))
        (sink_seen (told_by O.written O.puts out.old) (told_by O.written O.puts out.new) (O.faults out.old) (O.faults out.new))) }
    ensures failed { IsErrOf result RefFault.Write → Rose (O.faults out.old) (O.faults out.new) }
    ensures out_counted { O.faults out.old ≤ O.faults out.new }
{
    let ran = reference(alloc, read, job.input, job.plan, job.steps, out)?;
    let status = close(read, ran.end, ran.func, ran.steps, ran.events, out)?;
    Ok(status)
}
