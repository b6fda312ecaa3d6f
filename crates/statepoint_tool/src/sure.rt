//! The call over files and sinks that never fail.
ghost use Rattle.std.specs.Prelude.{◌≡◌, ◌≢◌, ◌⊎◌, Some, map, string_bytes};
ghost use Rattle.tool_io.specs.NamedFiles.{sure_contents_of};
ghost use Rattle.statepoint_tool.specs.Causes.{Ends};
ghost use Rattle.statepoint_tool.specs.Complete.{AllTold, IsFaultless};
ghost use Rattle.statepoint_tool.specs.Named.{TakesNamed};
ghost use Rattle.statepoint_tool.specs.Taken.{files_seen};
ghost use Rattle.statepoint_tool.specs.Work.{Given, Output};
ghost use Rattle.tool_words.specs.Words.{command_of};

use crate::status::Status;
use crate::top::statepoint;
use std::alloc::Global;
use tool_io::{SureFiles, SureSink};

/// Does what the words ask for, over files and sinks that never fail. The first word is the program's name.
///
/// It never answers a read fault or a write fault. Where the named files are within the limit and have no fault, it ends with the
/// status that is defined, or wants memory.
pub fn statepoint_surely(
    alloc: Global,
    words: &[String],
    files: &mut SureFiles,
    out: &mut SureSink,
    notes: &mut SureSink,
) -> Status
    ensures never_read_fault { result ≢ Status.ReadFault }
    ensures never_write_fault { result ≢ Status.WriteFault }
    ensures complete { (given : Given) →
        AllTold (files_seen (sure_contents_of files.old.files) (λ _. 0) (λ _. 0)) (command_of (map string_bytes words.now)) given →
        IsFaultless (map string_bytes words.now) given →
        (output : Output) × Ends (map string_bytes words.now) given output × ((result ≡ output.status) ⊎ (result ≡ Status.WantOfMemory)) }
    ensures takes { TakesNamed (map string_bytes words.now) (Some files.old.taken) (Some files.new.taken) result }
{
    statepoint(alloc, words, files, out, notes)
}
