//! The command `gen`: a generated module is rewritten and runs, and a summary is written.
ghost use Rattle.std.specs.Prelude.{◌≤◌};
ghost use Rattle.piece_writer.specs.LinePuts.{told_by};
ghost use Rattle.statepoint_tool.specs.Answers.{Came, sink_seen};
ghost use Rattle.statepoint_tool.specs.Work.{Generating};

use crate::closing::status_of;
use crate::refusal::Refusal;
use crate::status::Status;
use gen_report::summarize;
use std::alloc::Global;
use tool_io::{Failed, Sink};

/// Writes the summary of the generated module of this seed and size, and of its run for at most so many steps.
pub(crate) fn generate<O: Sink>(
    alloc: Global,
    seed: u64,
    size: u32,
    steps: u64,
    out: &mut O,
) -> Result<Status, Refusal>
    requires some { 1 ≤ size }
    requires few { size ≤ 1000 }
    ensures came { Came result (Generating seed size steps)
        (sink_seen (told_by O.written O.puts out.old) (told_by O.written O.puts out.new) (O.faults out.old) (O.faults out.new)) }
    ensures out_counted { O.faults out.old ≤ O.faults out.new }
{
    let summary = summarize(alloc, seed, size, steps)?;
    match summary.put(out) {
        Ok(()) => Ok(status_of(summary.end())),
        Err(Failed) => Err(Refusal::WriteFault),
    }
}
