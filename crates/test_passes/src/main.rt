//! Puts polls and bases into the modules of texts, rewrites them with statepoints or simplifies them, and judges files of cases:
//! source modules with the texts of what must come of them.
#![tactic(auto)]

mod cases;
mod commands;
mod differences;
mod judging;
mod passes;
mod same;
mod tallies;
mod texts;
mod verdicts;

ghost use Rattle.std.specs.Prelude.{◌≤◌, length};
ghost use Rattle.sp_ids.specs.declared.limits.TheConstants.{FILE_BYTES};

use cases::cases_of;
use commands::{Command, command_of};
use judging::judge;
use passes::{Pass, after, why};
use sp_ids::limits::FILE_BYTES;
use std::process::ExitCode;
use std::{env, io};
use tallies::Tally;
use texts::{count_of, source_of};
use tool_io::{DiskFiles, Files};

const USAGE: &str =
    "usage: test_passes typed|reached|polls|bases|rewritten|simplified FILE, or test_passes judge FILE..";

/// How a run ends.
#[derive(Clone, Copy)]
enum End {
    Done,
    // some case doesn't hold
    Fails,
    // the words, a file or a text couldn't be read, or a module couldn't be worked on
    Refused,
}

impl End {
    fn code(self) -> ExitCode {
        ExitCode::from(match self {
            End::Done => 0,
            End::Fails => 1,
            End::Refused => 2,
        })
    }
}

fn main(rt: HostRuntime) -> io::Result<ExitCode> {
    let words: Vec<String> = env::args(&rt)?.collect(rt.alloc())?;
    let end = match command_of(&words) {
        Some(Command::Tell { pass, name }) => tell(&rt, pass, name)?,
        Some(Command::Judge(names)) => judge_files(&rt, names)?,
        None => {
            println!(rt; "{USAGE}")?;
            End::Refused
        }
    };
    Ok(end.code())
}

// Says how many instructions the module of this file has after a pass and those before it.
fn tell(rt: &HostRuntime, pass: Pass, name: &str) -> io::Result<End> {
    let mut files = DiskFiles::new(rt);
    match files.take(rt.alloc(), name, FILE_BYTES) {
        Ok(text) => tell_text(rt, pass, &text),
        Err(fault) => {
            println!(rt; "{name}: {fault}")?;
            Ok(End::Refused)
        }
    }
}

fn tell_text(rt: &HostRuntime, pass: Pass, text: &[u8]) -> io::Result<End> {
    match source_of(rt.alloc(), text) {
        Ok(source) => match after(rt.alloc(), pass, source) {
            Ok(made) => {
                println!(rt; "{} instructions", count_of(&made))?;
                Ok(End::Done)
            }
            Err(fault) => {
                println!(rt; "{}", why(fault))?;
                Ok(End::Refused)
            }
        },
        Err(refused) => {
            println!(rt; "{refused}")?;
            Ok(End::Refused)
        }
    }
}

// Judges the cases of these files, and says of each file and of all how many hold.
fn judge_files(rt: &HostRuntime, names: &[String]) -> io::Result<End> {
    let mut whole = Tally::of(0);
    for name in names {
        match judge_file(rt, name.as_str())? {
            Some(tally) => whole.add(tally),
            None => return Ok(End::Refused),
        }
    }
    println!(rt; "{whole}")?;
    Ok(if whole.all_hold() {
        End::Done
    } else {
        End::Fails
    })
}

// Nothing comes of a file that can't be read.
fn judge_file(rt: &HostRuntime, name: &str) -> io::Result<Option<Tally>> {
    let mut files = DiskFiles::new(rt);
    match files.take(rt.alloc(), name, FILE_BYTES) {
        Ok(file) => judge_text(rt, name, &file),
        Err(fault) => {
            println!(rt; "{name}: {fault}")?;
            Ok(None)
        }
    }
}

fn judge_text(rt: &HostRuntime, name: &str, file: &[u8]) -> io::Result<Option<Tally>>
    requires { length file.now ≤ FILE_BYTES }
{
    match cases_of(rt.alloc(), file) {
        Ok(cases) => {
            let tally = judge(rt, rt.alloc(), name, &cases)?;
            println!(rt; "{name}: {tally}")?;
            Ok(Some(tally))
        }
        Err(refusal) => {
            println!(rt; "{name}: {refusal}")?;
            Ok(None)
        }
    }
}
