//! The stack map of a rewritten module, written as text or as its bytes.
ghost use Rattle.std.specs.Prelude.{◌≤◌};
ghost use Rattle.piece_writer.specs.LinePuts.{told_by};
ghost use Rattle.ir_cfg.specs.TargetModules.{IsTargetModule};
ghost use Rattle.statepoint_tool.specs.Answers.{Came, sink_seen};
ghost use Rattle.statepoint_tool.specs.Work.{after_rewriting};

use crate::refusal::Refusal;
use crate::status::Status;
use gen_report::map_of_module;
use ir_ast::Module;
use stackmap_view::MapView;
use std::alloc::Global;
use tool_io::{Failed, Sink};
use tool_report::map_text;
use tool_words::Part;

/// Writes the stack map of this rewritten module as text.
pub(crate) fn write_map_text<O: Sink>(
    alloc: Global,
    after: &Module,
    out: &mut O,
) -> Result<Status, Refusal>
    requires target { IsTargetModule after.now.content }
    ensures came { Came result (after_rewriting Part.MapText after.now.content)
        (sink_seen (told_by O.written O.puts out.old) (told_by O.written O.puts out.new) (O.faults out.old) (O.faults out.new)) }
    ensures out_counted { O.faults out.old ≤ O.faults out.new }
{
    let bytes = map_of_module(alloc, after)?;
    match MapView::of(bytes.as_slice()) {
        Ok(view) => match map_text(&view, out) {
            Ok(()) => Ok(Status::Done),
            Err(Failed) => Err(Refusal::WriteFault),
        },
        // what `write` gives is a map
        Err(_) => unreachable!(),
    }
}

/// Writes the bytes of the stack map of this rewritten module, by one `put`.
pub(crate) fn write_map_bytes<O: Sink>(
    alloc: Global,
    after: &Module,
    out: &mut O,
) -> Result<Status, Refusal>
    requires target { IsTargetModule after.now.content }
    ensures came { Came result (after_rewriting Part.MapBytes after.now.content)
        (sink_seen (told_by O.written O.puts out.old) (told_by O.written O.puts out.new) (O.faults out.old) (O.faults out.new)) }
    ensures out_counted { O.faults out.old ≤ O.faults out.new }
{
    let bytes = map_of_module(alloc, after)?;
    match out.put(bytes.as_slice()) {
        Ok(()) => Ok(Status::Done),
        Err(Failed) => Err(Refusal::WriteFault),
    }
}
