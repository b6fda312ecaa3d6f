//! Reads, types and prints texts of modules, and judges files of cases: texts with what is expected of them.
#![tactic(auto)]

mod cases;
mod commands;
mod escapes;
mod expected;
mod judging;
mod outcome;

ghost use Rattle.std.specs.Prelude.{◌≤◌, length};
ghost use Rattle.sp_ids.specs.declared.limits.TheConstants.{FILE_BYTES};

use case_files::Tally;
use cases::cases_of;
use commands::{Command, command_of};
use ir_ast::Form;
use judging::judge;
use outcome::{Step, outcome_of};
use sp_ids::limits::FILE_BYTES;
use std::process::ExitCode;
use std::{env, io};
use tool_io::{DiskFiles, Files};

const USAGE: &str =
    "usage: test_modules read|read-rewritten|show|show-rewritten FILE, or test_modules judge FILE..";

/// How a run ends.
#[derive(Clone, Copy)]
enum End {
    Done,
    // some case doesn't hold
    Fails,
    // the words or a file couldn't be read
    Refused,
}

impl End {
    fn code(self) -> ExitCode {
        ExitCode::from(match self {
            End::Done => 0,
            End::Fails => 1,
            End::Refused => 2,
        })
    }
}

fn main(rt: HostRuntime) -> io::Result<ExitCode> {
    let words: Vec<String> = env::args(&rt)?.collect(rt.alloc())?;
    let end = match command_of(&words) {
        Some(Command::Tell { form, step, name }) => tell(&rt, form, step, name)?,
        Some(Command::Judge(names)) => judge_files(&rt, names)?,
        None => {
            println!(rt; "{USAGE}")?;
            End::Refused
        }
    };
    Ok(end.code())
}

// Says what becomes of the text of this file.
fn tell(rt: &HostRuntime, form: Form, step: Step, name: &str) -> io::Result<End> {
    let mut files = DiskFiles::new(rt);
    match files.take(rt.alloc(), name, FILE_BYTES) {
        Ok(text) => {
            match outcome_of(rt.alloc(), form, &text, step) {
                Ok(outcome) => println!(rt; "{outcome}")?,
                Err(memory) => println!(rt; "{memory}")?,
            }
            Ok(End::Done)
        }
        Err(fault) => {
            println!(rt; "{name}: {fault}")?;
            Ok(End::Refused)
        }
    }
}

// Judges the cases of these files, and says of each file and of all how many hold.
fn judge_files(rt: &HostRuntime, names: &[String]) -> io::Result<End> {
    let mut whole = Tally::new();
    for name in names {
        match judge_file(rt, name.as_str())? {
            Some(tally) => whole.add(tally),
            None => return Ok(End::Refused),
        }
    }
    println!(rt; "{whole}")?;
    Ok(if whole.all_hold() {
        End::Done
    } else {
        End::Fails
    })
}

// Nothing comes of a file that can't be read.
fn judge_file(rt: &HostRuntime, name: &str) -> io::Result<Option<Tally>> {
    let mut files = DiskFiles::new(rt);
    match files.take(rt.alloc(), name, FILE_BYTES) {
        Ok(file) => judge_text(rt, name, &file),
        Err(fault) => {
            println!(rt; "{name}: {fault}")?;
            Ok(None)
        }
    }
}

fn judge_text(rt: &HostRuntime, name: &str, file: &[u8]) -> io::Result<Option<Tally>>
    requires { length file.now ≤ FILE_BYTES }
{
    match cases_of(rt.alloc(), file) {
        Ok(cases) => {
            let tally = judge(rt, rt.alloc(), name, &cases)?;
            println!(rt; "{name}: {tally}")?;
            Ok(Some(tally))
        }
        Err(refusal) => {
            println!(rt; "{name}: {refusal}")?;
            Ok(None)
        }
    }
}
