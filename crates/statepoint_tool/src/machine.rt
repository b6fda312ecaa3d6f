//! Runs of a rewritten module on the address machine, over its own stack map or over one that is taken.
ghost use Rattle.std.specs.Prelude.{◌≡◌, ◌≤◌, ◌∷◌, IfOk, IsErrOf, [], OnOk};
ghost use Rattle.piece_writer.specs.LinePuts.{told_by};
ghost use Rattle.ir_cfg.specs.TargetModules.{IsTargetModule};
ghost use Rattle.stackmap_write.specs.ModuleMaps.{map_of};
ghost use Rattle.ir_machine.specs.Answers.{IsRun, PutsRun, WritesFront};
ghost use Rattle.map_bytes.specs.Faults.{IsFirstFault};
ghost use Rattle.map_bytes.specs.declared.rules.MapFault.{MapFault};
ghost use Rattle.tool_io.specs.Counts.{NoneFell, Rose};
ghost use Rattle.tool_io.specs.Takes.{TakesFirst};
ghost use Rattle.tool_io.specs.Told.{append_told};
ghost use Rattle.statepoint_tool.specs.Named.{file_named};
ghost use Rattle.statepoint_tool.specs.Answers.{Came, Works, sink_seen};
ghost use Rattle.statepoint_tool.specs.Runners.{module_in};
ghost use Rattle.statepoint_tool.specs.Steps.{Go, Then, comes_to};
ghost use Rattle.statepoint_tool.specs.Taken.{files_seen, file_phase, MayGive};
ghost use Rattle.statepoint_tool.specs.Work.{Executing, MayGiveFile, ReadingMap, map_phase};

use crate::closing::status_of;
use crate::job::Job;
use crate::phases::take;
use crate::refusal::{Cause, Refusal};
use crate::runner::Executable;
use crate::status::Status;
use gen_report::map_of_module;
use ir_machine::{RunFault, SureFault, run_any, run_verified};
use map_bytes::MapFault;
use run_tasks::Ran;
use stackmap_view::MapView;
use statepoint_verify::Verified;
use std::alloc::Global;
use tool_io::{Files, Sink};
use tool_words::FileName;

/// Runs this rewritten module over the stack map in the file of this name, or else over its own.
pub(crate) fn run_on_machine<F: Files, O: Sink>(
    alloc: Global,
    module: &Executable,
    map: Option<FileName>,
    job: &Job<'_>,
    files: &mut F,
    out: &mut O,
) -> Result<Status, Refusal>
    requires target { IsTargetModule (module_in «module».now).content }
    ensures works { Works (MayGiveFile (files_seen (F.contents files.old) (F.faults files.old) (F.faults files.new)) «map»)
        (λ given. Then (map_phase (module_in «module».now).content «map» given) (Executing (module_in «module».now).content job.now.input.now job.now.plan.now job.now.steps job.now.shows)) result
        (sink_seen (told_by O.written O.puts out.old) (told_by O.written O.puts out.new) (O.faults out.old) (O.faults out.new)) }
    ensures kept { F.contents files.new ≡ F.contents files.old }
    ensures counted { NoneFell (F.faults files.old) (F.faults files.new) }
    ensures takes_first { TakesFirst (file_named «map») (F.taken files.old) (F.taken files.new) }
    ensures takes_all { OnOk result (F.taken files.new ≡ append_told (F.taken files.old) (file_named «map»)) }
    ensures out_counted { O.faults out.old ≤ O.faults out.new }
{
    match map {
        None => run_over_own(alloc, module, job, out),
        Some(name) => run_over_file(alloc, module, name, job, files, out),
    }
}

// The run over the module's own stack map.
fn run_over_own<O: Sink>(
    alloc: Global,
    module: &Executable,
    job: &Job<'_>,
    out: &mut O,
) -> Result<Status, Refusal>
    requires target { IsTargetModule (module_in «module».now).content }
    ensures came { Came result (Then (comes_to (Go (map_of (module_in «module».now).content))) (Executing (module_in «module».now).content job.now.input.now job.now.plan.now job.now.steps job.now.shows))
        (sink_seen (told_by O.written O.puts out.old) (told_by O.written O.puts out.new) (O.faults out.old) (O.faults out.new)) }
    ensures out_counted { O.faults out.old ≤ O.faults out.new }
{
    let bytes = map_of_module(alloc, module.module())?;
    run_over_bytes(alloc, module, &bytes, job, out)
}

// The run over the stack map in the file of this name.
fn run_over_file<F: Files, O: Sink>(
    alloc: Global,
    module: &Executable,
    name: FileName,
    job: &Job<'_>,
    files: &mut F,
    out: &mut O,
) -> Result<Status, Refusal>
    ensures works { Works (MayGive (files_seen (F.contents files.old) (F.faults files.old) (F.faults files.new)) name)
        (λ given. Then (file_phase name ReadingMap given) (Executing (module_in «module».now).content job.now.input.now job.now.plan.now job.now.steps job.now.shows)) result
        (sink_seen (told_by O.written O.puts out.old) (told_by O.written O.puts out.new) (O.faults out.old) (O.faults out.new)) }
    ensures kept { F.contents files.new ≡ F.contents files.old }
    ensures counted { NoneFell (F.faults files.old) (F.faults files.new) }
    ensures takes_first { TakesFirst (name ∷ []) (F.taken files.old) (F.taken files.new) }
    ensures takes_all { OnOk result (F.taken files.new ≡ append_told (F.taken files.old) (name ∷ [])) }
    ensures out_counted { O.faults out.old ≤ O.faults out.new }
{
    let bytes = take(alloc, files, name)?;
    run_over_bytes(alloc, module, &bytes, job, out)
}

// The run over the stack map that these bytes are.
fn run_over_bytes<O: Sink>(
    alloc: Global,
    module: &Executable,
    bytes: &[u8],
    job: &Job<'_>,
    out: &mut O,
) -> Result<Status, Refusal>
    ensures came { Came result (Then (ReadingMap bytes.now) (Executing (module_in «module».now).content job.now.input.now job.now.plan.now job.now.steps job.now.shows))
        (sink_seen (told_by O.written O.puts out.old) (told_by O.written O.puts out.new) (O.faults out.old) (O.faults out.new)) }
    ensures out_counted { O.faults out.old ≤ O.faults out.new }
{
    match run_bytes(alloc, module, bytes, job, out) {
        Ok(ran) => Ok(status_of(ran.end)),
        Err(RunFault::BadMap(fault)) => Err(Refusal::Defined(Cause::Map(fault))),
        Err(RunFault::Write) => Err(Refusal::WriteFault),
        Err(RunFault::Memory) => Err(Refusal::Memory),
    }
}

// What the run over the stack map that these bytes are answers.
fn run_bytes<O: Sink>(
    alloc: Global,
    module: &Executable,
    bytes: &[u8],
    job: &Job<'_>,
    out: &mut O,
) -> Result<Ran, RunFault>
    ensures ran { IfOk result (λ ran. IsRun (module_in «module».now).content bytes.now job.now.input.now job.now.plan.now job.now.steps job.now.shows ran (O.written out.old) (O.written out.new)) }
    ensures bad { (fault : MapFault) → result ≡ Err (RunFault.BadMap fault) → IsFirstFault bytes.now fault × (O.written out.new ≡ O.written out.old) }
    ensures front { IsErrOf result RunFault.Memory → WritesFront (module_in «module».now).content bytes.now job.now.input.now job.now.plan.now job.now.steps job.now.shows (O.written out.old) (O.written out.new) }
    ensures write { IsErrOf result RunFault.Write → WritesFront (module_in «module».now).content bytes.now job.now.input.now job.now.plan.now job.now.steps job.now.shows (O.written out.old) (O.written out.new) }
    ensures by_one_put { OnOk result (PutsRun (module_in «module».now).content bytes.now job.now.input.now job.now.plan.now job.now.steps job.now.shows (told_by O.written O.puts out.old) (told_by O.written O.puts out.new)) }
    ensures failed { IsErrOf result RunFault.Write → Rose (O.faults out.old) (O.faults out.new) }
    ensures count { O.faults out.old ≤ O.faults out.new }
{
    match module {
        Executable::Trusted(read) => run_any(
            alloc, read, bytes, job.input, job.plan, job.steps, job.shows, out,
        ),
        Executable::Checked(verified) => run_checked(alloc, verified, bytes, job, out),
    }
}

fn run_checked<O: Sink>(
    alloc: Global,
    verified: &Verified,
    bytes: &[u8],
    job: &Job<'_>,
    out: &mut O,
) -> Result<Ran, RunFault>
    ensures ran { IfOk result (λ ran. IsRun verified.now.content bytes.now job.now.input.now job.now.plan.now job.now.steps job.now.shows ran (O.written out.old) (O.written out.new)) }
    ensures bad { (fault : MapFault) → result ≡ Err (RunFault.BadMap fault) → IsFirstFault bytes.now fault × (O.written out.new ≡ O.written out.old) }
    ensures front { IsErrOf result RunFault.Memory → WritesFront verified.now.content bytes.now job.now.input.now job.now.plan.now job.now.steps job.now.shows (O.written out.old) (O.written out.new) }
    ensures write { IsErrOf result RunFault.Write → WritesFront verified.now.content bytes.now job.now.input.now job.now.plan.now job.now.steps job.now.shows (O.written out.old) (O.written out.new) }
    ensures by_one_put { OnOk result (PutsRun verified.now.content bytes.now job.now.input.now job.now.plan.now job.now.steps job.now.shows (told_by O.written O.puts out.old) (told_by O.written O.puts out.new)) }
    ensures failed { IsErrOf result RunFault.Write → Rose (O.faults out.old) (O.faults out.new) }
    ensures count { O.faults out.old ≤ O.faults out.new }
{
    match MapView::of(bytes) {
        Err(fault) => Err(RunFault::BadMap(fault)),
        Ok(view) => match run_verified(
            alloc, verified, &view, job.input, job.plan, job.steps, job.shows, out,
        ) {
            Ok(ran) => Ok(ran),
            Err(SureFault::Memory) => Err(RunFault::Memory),
            Err(SureFault::Write) => Err(RunFault::Write),
        },
    }
}
