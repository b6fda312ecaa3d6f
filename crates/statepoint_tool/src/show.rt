//! The command that writes the text of a module.
ghost use Rattle.std.specs.Prelude.{◌≡◌, ◌≤◌, ◌∷◌, [], OnOk};
ghost use Rattle.piece_writer.specs.LinePuts.{told_by};
ghost use Rattle.ir_ast.specs.Formed.{IsFormedModule};
ghost use Rattle.tool_io.specs.Counts.{NoneFell};
ghost use Rattle.tool_io.specs.Takes.{TakesFirst};
ghost use Rattle.tool_io.specs.Told.{append_told};
ghost use Rattle.statepoint_tool.specs.Answers.{Came, Works, sink_seen};
ghost use Rattle.statepoint_tool.specs.Taken.{files_seen};
ghost use Rattle.statepoint_tool.specs.Work.{MayGiveShown, show_phase, show_work};

use crate::phases::take_module;
use crate::refusal::Refusal;
use crate::status::Status;
use ir_ast::{Form, Module};
use ir_printer::print;
use std::alloc::Global;
use std::mem;
use tool_io::{Failed, Files, Sink};
use tool_words::FileName;

/// Writes the text of the module in the file of this name.
pub(crate) fn show<F: Files, O: Sink>(
    alloc: Global,
    name: FileName,
    files: &mut F,
    out: &mut O,
) -> Result<Status, Refusal>
    ensures works { Works (MayGiveShown (files_seen (F.contents files.old) (F.faults files.old) (F.faults files.new)) name)
        (show_work name) result
        (sink_seen (told_by O.written O.puts out.old) (told_by O.written O.puts out.new) (O.faults out.old) (O.faults out.new)) }
    ensures kept { F.contents files.new ≡ F.contents files.old }
    ensures counted { NoneFell (F.faults files.old) (F.faults files.new) }
    ensures takes_first { TakesFirst (name ∷ []) (F.taken files.old) (F.taken files.new) }
    ensures takes_all { OnOk result (F.taken files.new ≡ append_told (F.taken files.old) (name ∷ [])) }
    ensures out_counted { O.faults out.old ≤ O.faults out.new }
{
    let read = take_module(alloc, Form::Source, files, name)?;
    let shown = show_module(&read, out);
    leave(read);
    shown
}

/// Leaves what a command no longer needs to the system, which takes all memory at once as the program ends: to let a module go is one more
/// walk over all its instructions.
pub(crate) fn leave<T: Drop>(done: T) {
    mem::forget(done);
}

/// Writes the text of this module.
pub(crate) fn show_module<O: Sink>(read: &Module, out: &mut O) -> Result<Status, Refusal>
    requires { IsFormedModule read.now.content }
    ensures came { Came result (show_phase read.now)
        (sink_seen (told_by O.written O.puts out.old) (told_by O.written O.puts out.new) (O.faults out.old) (O.faults out.new)) }
    ensures out_counted { O.faults out.old ≤ O.faults out.new }
{
    match print(read, out) {
        Ok(()) => Ok(Status::Done),
        Err(Failed) => Err(Refusal::WriteFault),
    }
}
