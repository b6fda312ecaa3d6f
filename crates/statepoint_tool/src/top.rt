//! The top call.
ghost use Rattle.std.specs.Prelude.{◌≡◌, ◌≤◌, Err, OnOk, map, string_bytes};
ghost use Rattle.piece_writer.specs.LinePuts.{told_by};
ghost use Rattle.tool_io.specs.Counts.{NoneFell};
ghost use Rattle.tool_io.specs.Takes.{TakesFirst};
ghost use Rattle.tool_io.specs.Told.{append_told};
ghost use Rattle.statepoint_tool.specs.Answers.{IsAnswer, IsTold, Works, sink_seen};
ghost use Rattle.statepoint_tool.specs.Facts.{Facts};
ghost use Rattle.statepoint_tool.specs.Named.{TakesNamed, files_named};
ghost use Rattle.statepoint_tool.specs.Taken.{files_seen};
ghost use Rattle.tool_words.specs.Words.{command_of};
ghost use Rattle.statepoint_tool.specs.Work.{MayGiveNamed, work as work_of};

use crate::engine::Engine;
use crate::generate::generate;
use crate::judging::check;
use crate::notes::put_note;
use crate::refusal::{Cause, Refusal};
use crate::rewrite::rewrite;
use crate::run::run;
use crate::show::show;
use crate::status::Status;
use ir_machine::Shows;
use std::alloc::Global;
use tool_io::{Failed, Files, Sink};
use tool_words::{Command, WordsFault, command};

/// Does what the words ask for, and says how it ended. The first word is the program's name.
///
/// `show` writes the text of the module, `rewrite` that of the rewritten module, `maps` its stack map, as text or with `--raw` as
/// bytes. `source` and `run` write the lines of the source meaning, over the numbers of the input and under the `go` lines of the
/// plan, and then the line that closes the run: `source` runs the module by that meaning, `run` rewrites it and runs it on the
/// address machine over its own stack map, under the moves of the plan too, which are never noticed. `check` writes `ok` where the
/// verifier finds no fault in a rewritten module. `exec` writes the lines that the address machine prints, which runs a rewritten
/// module under the moves and the `go` lines of the plan, and then the closing line; without `--trust` the module is verified first.
/// With `--map` `run` and `exec` run over the stack map in a file, and what is written is what the machine does over it. With
/// `--trace` they write the lines of each event between, with `--places` those of the objects behind. `gen` writes a summary of a
/// generated module and of its run.
///
/// The work goes in this order: the words; the module is taken, read and typed; for `rewrite`, `maps` and `run` it is rewritten, for
/// `check` and for `exec` without `--trust` verified; for `source`, `run` and `exec` the input is taken and read, then the plan,
/// then the stack map where one is named, and the module runs. A run writes each line by one `put`, as it comes; `gen` takes no file and
/// writes when its run is over. A refusal puts one line on `notes`.
///
/// What the files gave is what is told of them, or anything where nothing is told; a file could not be
/// read only where a fault was counted for its name. Each status comes exactly where its cause holds over
/// that, and yields to want of memory and to a failed sink alone. Each file that the words name is taken once,
/// in the order of work, and no other file is.
pub fn statepoint<F: Files, O: Sink, E: Sink>(
    alloc: Global,
    words: &[String],
    files: &mut F,
    out: &mut O,
    notes: &mut E,
) -> Status
    ensures facts { Facts (map string_bytes words.now)
        (files_seen (F.contents files.old) (F.faults files.old) (F.faults files.new))
        (sink_seen (told_by O.written O.puts out.old) (told_by O.written O.puts out.new) (O.faults out.old) (O.faults out.new))
        (sink_seen (told_by E.written E.puts notes.old) (told_by E.written E.puts notes.new) (E.faults notes.old) (E.faults notes.new))
        result }
    ensures takes { TakesNamed (map string_bytes words.now) (F.taken files.old) (F.taken files.new) result }
    ensures kept { F.contents files.new ≡ F.contents files.old }
{
    answer(alloc, words, files, out, notes)
}

// The call, with its whole answer in one clause, from which the public clauses follow.
fn answer<F: Files, O: Sink, E: Sink>(
    alloc: Global,
    words: &[String],
    files: &mut F,
    out: &mut O,
    notes: &mut E,
) -> Status
    ensures answer { IsAnswer (map string_bytes words.now)
        (files_seen (F.contents files.old) (F.faults files.old) (F.faults files.new))
        (sink_seen (told_by O.written O.puts out.old) (told_by O.written O.puts out.new) (O.faults out.old) (O.faults out.new))
        (sink_seen (told_by E.written E.puts notes.old) (told_by E.written E.puts notes.new) (E.faults notes.old) (E.faults notes.new))
        result }
    ensures kept { F.contents files.new ≡ F.contents files.old }
    ensures counted { NoneFell (F.faults files.old) (F.faults files.new) }
    ensures takes { TakesNamed (map string_bytes words.now) (F.taken files.old) (F.taken files.new) result }
    ensures out_counted { O.faults out.old ≤ O.faults out.new }
    ensures notes_counted { E.faults notes.old ≤ E.faults notes.new }
{
    let ended = work(alloc, words, files, out);
    tell(ended, notes)
}

// The work that the words ask for.
fn work<F: Files, O: Sink>(
    alloc: Global,
    words: &[String],
    files: &mut F,
    out: &mut O,
) -> Result<Status, Refusal>
    ensures works { Works (MayGiveNamed (files_seen (F.contents files.old) (F.faults files.old) (F.faults files.new)) (command_of (map string_bytes words.now)))
        (work_of (map string_bytes words.now)) result
        (sink_seen (told_by O.written O.puts out.old) (told_by O.written O.puts out.new) (O.faults out.old) (O.faults out.new)) }
    ensures kept { F.contents files.new ≡ F.contents files.old }
    ensures counted { NoneFell (F.faults files.old) (F.faults files.new) }
    ensures takes_first { TakesFirst (files_named (map string_bytes words.now)) (F.taken files.old) (F.taken files.new) }
    ensures takes_all { OnOk result (F.taken files.new ≡ append_told (F.taken files.old) (files_named (map string_bytes words.now))) }
    ensures out_counted { O.faults out.old ≤ O.faults out.new }
{
    match command(alloc, words) {
        Ok(Command::Show { module }) => show(alloc, module, files, out),
        Ok(Command::Rewrite { module, part }) => rewrite(alloc, module, part, files, out),
        Ok(Command::Check { module }) => check(alloc, module, files, out),
        Ok(Command::Source(request)) => run(alloc, Engine::Meaning, request, files, out),
        Ok(
            Command::Run {
                request,
                map,
                places,
                trace,
            },
        ) => {
            let shows = Shows { places, trace };
            run(alloc, Engine::Rewriter { map, shows }, request, files, out)
        }
        Ok(
            Command::Exec {
                request,
                map,
                trust,
                places,
                trace,
            },
        ) => {
            let shows = Shows { places, trace };
            run(
                alloc,
                Engine::Machine { map, trust, shows },
                request,
                files,
                out,
            )
        }
        Ok(Command::Gen { seed, size, steps }) => generate(alloc, seed, size, steps, out),
        Err(WordsFault::Words) => Err(Refusal::Defined(Cause::Words)),
        Err(WordsFault::Memory) => Err(Refusal::Memory),
    }
}

// The status, once standard error has the line of a refusal.
fn tell<E: Sink>(ended: Result<Status, Refusal>, notes: &mut E) -> Status
    ensures told { IsTold ended result
        (sink_seen (told_by E.written E.puts notes.old) (told_by E.written E.puts notes.new) (E.faults notes.old) (E.faults notes.new)) }
    ensures notes_counted { E.faults notes.old ≤ E.faults notes.new }
{
    match ended {
        Ok(status) => status,
        Err(refusal) => say(&refusal, notes),
    }
}

fn say<E: Sink>(refusal: &Refusal, notes: &mut E) -> Status
    ensures told { IsTold (Err refusal.now) result
        (sink_seen (told_by E.written E.puts notes.old) (told_by E.written E.puts notes.new) (E.faults notes.old) (E.faults notes.new)) }
    ensures notes_counted { E.faults notes.old ≤ E.faults notes.new }
{
    match put_note(refusal, notes) {
        Ok(()) => refusal.status(),
        Err(Failed) => Status::WriteFault,
    }
}
