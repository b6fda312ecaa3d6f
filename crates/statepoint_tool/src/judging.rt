//! Rewritten modules that are verified.
ghost use Rattle.std.specs.Prelude.{◌≡◌, ◌≤◌, ◌∷◌, length, IfOk, [], OnOk};
ghost use Rattle.piece_writer.specs.LinePuts.{told_by};
ghost use Rattle.ir_cfg.specs.TargetModules.{IsTargetModule};
ghost use Rattle.tool_io.specs.Counts.{NoneFell};
ghost use Rattle.tool_io.specs.Takes.{TakesFirst};
ghost use Rattle.tool_io.specs.Told.{append_told};
ghost use Rattle.statepoint_tool.specs.Answers.{Agrees, Came, Reads, Works, sink_seen};
ghost use Rattle.statepoint_tool.specs.Taken.{files_seen};
ghost use Rattle.statepoint_tool.specs.Work.{Judging, MayGiveShown, after_check, check_work, checked_phase};

use crate::phases::{module_in, take};
use crate::refusal::{Cause, Refusal};
use crate::show::leave;
use crate::status::Status;
use ir_ast::{Form, Module};
use statepoint_verify::{Verified, VerifyFault, verify};
use std::alloc::Global;
use tool_io::{Failed, Files, Sink};
use tool_words::FileName;

/// Says that the rewritten module in the file of this name has no fault, if it has none.
pub(crate) fn check<F: Files, O: Sink>(
    alloc: Global,
    name: FileName,
    files: &mut F,
    out: &mut O,
) -> Result<Status, Refusal>
    ensures works { Works (MayGiveShown (files_seen (F.contents files.old) (F.faults files.old) (F.faults files.new)) name)
        (check_work name) result
        (sink_seen (told_by O.written O.puts out.old) (told_by O.written O.puts out.new) (O.faults out.old) (O.faults out.new)) }
    ensures kept { F.contents files.new ≡ F.contents files.old }
    ensures counted { NoneFell (F.faults files.old) (F.faults files.new) }
    ensures takes_first { TakesFirst (name ∷ []) (F.taken files.old) (F.taken files.new) }
    ensures takes_all { OnOk result (F.taken files.new ≡ append_told (F.taken files.old) (name ∷ [])) }
    ensures out_counted { O.faults out.old ≤ O.faults out.new }
{
    let checked = take_checked(alloc, files, name)?;
    let written = write_ok(&checked, out);
    leave(checked);
    written
}

// The rewritten module in the file of this name, which is verified.
fn take_checked<F: Files>(alloc: Global, files: &mut F, name: FileName) -> Result<Verified, Refusal>
    ensures read { Reads (files_seen (F.contents files.old) (F.faults files.old) (F.faults files.new)) name
        checked_phase (λ checked. checked) result }
    ensures kept { F.contents files.new ≡ F.contents files.old }
    ensures counted { NoneFell (F.faults files.old) (F.faults files.new) }
    ensures takes_first { TakesFirst (name ∷ []) (F.taken files.old) (F.taken files.new) }
    ensures takes_all { OnOk result (F.taken files.new ≡ append_told (F.taken files.old) (name ∷ [])) }
{
    let text = take(alloc, files, name)?;
    checked_in(alloc, &text)
}

fn checked_in(alloc: Global, text: &[u8]) -> Result<Verified, Refusal>
    requires { length text.now ≤ 16777216 }
    ensures read { Agrees (λ checked. checked) result (checked_phase text.now) }
{
    let read = module_in(alloc, Form::Rewritten, text)?;
    verified(alloc, read)
}

fn write_ok<O: Sink>(checked: &Verified, out: &mut O) -> Result<Status, Refusal>
    ensures came { Came result (after_check checked.now)
        (sink_seen (told_by O.written O.puts out.old) (told_by O.written O.puts out.new) (O.faults out.old) (O.faults out.new)) }
    ensures out_counted { O.faults out.old ≤ O.faults out.new }
{
    match out.put(b"ok\n") {
        Ok(()) => Ok(Status::Done),
        Err(Failed) => Err(Refusal::WriteFault),
    }
}

/// The module, if it has no fault of the verifier.
pub(crate) fn verified(alloc: Global, read: Module) -> Result<Verified, Refusal>
    requires { IsTargetModule read.content }
    ensures judged { Agrees (λ checked. checked) result (Judging read) }
    ensures kept { IfOk result (λ checked. checked ≡ read) }
{
    match verify(alloc, read) {
        Ok(checked) => Ok(checked),
        Err(VerifyFault::Fault { fault, .. }) => Err(Refusal::Defined(Cause::Check(fault))),
        Err(VerifyFault::Memory { .. }) => Err(Refusal::Memory),
    }
}
