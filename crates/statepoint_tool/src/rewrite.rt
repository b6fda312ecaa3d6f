//! The commands that write of a rewritten module.
ghost use Rattle.std.specs.Prelude.{◌≡◌, ◌≤◌, ◌∷◌, IfOk, [], OnOk};
ghost use Rattle.piece_writer.specs.LinePuts.{told_by};
ghost use Rattle.ir_ast.specs.Formed.{IsFormedModule};
ghost use Rattle.ir_cfg.specs.SourceModules.{IsSourceModule};
ghost use Rattle.ir_cfg.specs.TargetModules.{IsTargetModule};
ghost use Rattle.sp_rewrite.specs.Relocates.{HasManyRelocates};
ghost use Rattle.sp_rewrite.specs.Statements.{IsRewritten};
ghost use Rattle.tool_io.specs.Counts.{NoneFell};
ghost use Rattle.tool_io.specs.Takes.{TakesFirst};
ghost use Rattle.tool_io.specs.Told.{append_told};
ghost use Rattle.statepoint_tool.specs.Answers.{Agrees, Came, Works, sink_seen};
ghost use Rattle.statepoint_tool.specs.Taken.{files_seen};
ghost use Rattle.statepoint_tool.specs.Work.{MayGiveShown, Rewriting, after_rewriting, rewrite_phase, rewrite_work};

use crate::maps::{write_map_bytes, write_map_text};
use crate::phases::take_module;
use crate::refusal::{Cause, ModuleFault, Refusal};
use crate::show::{leave, show_module};
use crate::status::Status;
use ir_ast::{Form, Module};
use sp_rewrite::RewriteFault;
use statepoint_verify::Verified;
use std::alloc::Global;
use tool_io::{Files, Sink};
use tool_words::{FileName, Part};

/// Writes this of the rewritten module of the module in the file of this name.
pub(crate) fn rewrite<F: Files, O: Sink>(
    alloc: Global,
    name: FileName,
    part: Part,
    files: &mut F,
    out: &mut O,
) -> Result<Status, Refusal>
    ensures works { Works (MayGiveShown (files_seen (F.contents files.old) (F.faults files.old) (F.faults files.new)) name)
        (rewrite_work part name) result
        (sink_seen (told_by O.written O.puts out.old) (told_by O.written O.puts out.new) (O.faults out.old) (O.faults out.new)) }
    ensures kept { F.contents files.new ≡ F.contents files.old }
    ensures counted { NoneFell (F.faults files.old) (F.faults files.new) }
    ensures takes_first { TakesFirst (name ∷ []) (F.taken files.old) (F.taken files.new) }
    ensures takes_all { OnOk result (F.taken files.new ≡ append_told (F.taken files.old) (name ∷ [])) }
    ensures out_counted { O.faults out.old ≤ O.faults out.new }
{
    let read = take_module(alloc, Form::Source, files, name)?;
    rewrite_module(alloc, read, part, out)
}

fn rewrite_module<O: Sink>(
    alloc: Global,
    read: Module,
    part: Part,
    out: &mut O,
) -> Result<Status, Refusal>
    requires source { IsSourceModule read.content }
    ensures came { Came result (rewrite_phase part read)
        (sink_seen (told_by O.written O.puts out.old) (told_by O.written O.puts out.new) (O.faults out.old) (O.faults out.new)) }
    ensures out_counted { O.faults out.old ≤ O.faults out.new }
{
    let after = rewritten(alloc, read)?;
    let written = write_part(alloc, after.module(), part, out);
    leave(after);
    written
}

fn write_part<O: Sink>(
    alloc: Global,
    after: &Module,
    part: Part,
    out: &mut O,
) -> Result<Status, Refusal>
    requires formed { IsFormedModule after.now.content }
    requires target { IsTargetModule after.now.content }
    ensures came { Came result (after_rewriting part after.now.content)
        (sink_seen (told_by O.written O.puts out.old) (told_by O.written O.puts out.new) (O.faults out.old) (O.faults out.new)) }
    ensures out_counted { O.faults out.old ≤ O.faults out.new }
{
    match part {
        Part::Text => show_module(after, out),
        Part::MapText => write_map_text(alloc, after, out),
        Part::MapBytes => write_map_bytes(alloc, after, out),
    }
}

/// The rewritten module.
pub(crate) fn rewritten(alloc: Global, read: Module) -> Result<Verified, Refusal>
    requires source { IsSourceModule read.content }
    ensures rewrites { Agrees (λ after. after.content) result (Rewriting read.content) }
    ensures is { IfOk result (λ after. IsRewritten read.content after.content) }
    ensures few { IfOk result (λ after. ¬ HasManyRelocates read.content) }
    ensures formed { IfOk result (λ after. IsFormedModule after.content) }
    ensures target { IfOk result (λ after. IsTargetModule after.content) }
{
    match sp_rewrite::rewrite(alloc, read) {
        Ok(after) => Ok(after),
        Err(RewriteFault::TooManyRelocations) => Err(Refusal::Defined(Cause::Module(
            ModuleFault::TooManyRelocations,
        ))),
        Err(RewriteFault::Memory) => Err(Refusal::Memory),
    }
}
