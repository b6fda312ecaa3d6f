//! Reads cases of stack maps, each with what must be found in it, and says how many hold; writes the layouts and the stack
//! maps of modules in the rewritten form; writes one map as text, or makes it or does work on it over and over, for bench/maps.
#![tactic(auto)]

mod bases;
mod cases;
mod found;
mod making;
mod showing;
mod timing;
mod words;

ghost use Rattle.std.specs.Prelude.{◌≤◌, length, IfOk, vec_len};
ghost use Rattle.sp_ids.specs.declared.limits.TheConstants.{FILE_BYTES};

use case_files::Tally;
use cases::{Sheet, sheet_of};
use making::{made_of, made_often};
use showing::{put_raw, put_text_of, show};
use sp_ids::limits::FILE_BYTES;
use std::alloc::Global;
use std::process::ExitCode;
use std::{env, fmt, io};
use timing::{Work, done_often};
use tool_io::{DiskFiles, Files, TakeFault};

const USAGE: &str =
    "usage: test_maps cases FILE, test_maps show FILE.., test_maps text MAP, test_maps raw FILE, \
    test_maps often WORK MAP ROUNDS, or test_maps often make FILE ROUNDS";

/// How many bytes a map may have that isn't spelled in cases.
const MAP_BYTES: u64 = 1_073_741_824;

// Does each part of the words in turn, up to one that fails; `--` stands between one and the next.
fn main(rt: HostRuntime) -> io::Result<ExitCode> {
    let words: Vec<String> = env::args(&rt)?.collect(rt.alloc())?;
    let words: Vec<&str> = words.iter().map(|word| word.as_str()).collect(rt.alloc())?;
    if let Some((_, words)) = words.split_first() {
        for part in words.split(|word| *word == "--") {
            if !run(&rt, part)? {
                return Ok(ExitCode::FAILURE);
            }
        }
    }
    Ok(ExitCode::SUCCESS)
}

// Gives whether what these words ask for could be done.
fn run(rt: &HostRuntime, words: &[&str]) -> io::Result<bool> {
    match words {
        [command, name] if *command == "cases" => judge(rt, name),
        [command, names @ ..] if *command == "show" => show_all(rt, names),
        [command, name] if *command == "text" => put_map(rt, name),
        [command, name] if *command == "raw" => raw(rt, name),
        [command, work, name, rounds] if *command == "often" && *work == "make" => {
            make(rt, name, rounds.parse::<u32>().unwrap_or(1))
        }
        [command, work, name, rounds] if *command == "often" => {
            time(rt, work, name, rounds.parse::<u32>().unwrap_or(1))
        }
        _ => {
            println!(rt; "{USAGE}")?;
            Ok(false)
        }
    }
}

fn taken(rt: &HostRuntime, name: &str) -> Result<Vec<u8>, TakeFault>
    ensures { IfOk result (λ bytes. vec_len bytes ≤ FILE_BYTES) }
{
    DiskFiles::new(rt).take(rt.alloc(), name, FILE_BYTES)
}

fn refused(rt: &HostRuntime, name: &str, why: &impl fmt::Display) -> io::Result<bool> {
    println!(rt; "{name}: {why}")?;
    Ok(false)
}

fn judge(rt: &HostRuntime, name: &str) -> io::Result<bool> {
    match taken(rt, name) {
        Ok(text) => report(rt, rt.alloc(), name, &text),
        Err(fault) => refused(rt, name, &fault),
    }
}

// Tries each case of the file, names those that don't hold, and counts.
fn report(rt: &HostRuntime, alloc: Global, name: &str, text: &[u8]) -> io::Result<bool>
    requires { length text.now ≤ FILE_BYTES }
{
    match sheet_of(alloc, text) {
        Ok(sheet) => {
            let tally = tried(rt, alloc, &sheet)?;
            println!(rt; "{tally}")?;
            Ok(tally.all_hold())
        }
        Err(refusal) => refused(rt, name, &refusal),
    }
}

fn tried(rt: &impl Print, alloc: Global, sheet: &Sheet) -> io::Result<Tally> {
    let mut tally = Tally::new();
    for case in &sheet.cases {
        let found = case.found(alloc, &sheet.bases)?;
        let holds = found.as_str() == case.expected;
        tally.count(holds);
        if !holds {
            let line = case.line;
            println!(rt; "line {line}: found {found}")?;
        }
    }
    Ok(tally)
}

// Writes of each file's module the layouts and the map, or the fault of the text.
fn show_all(rt: &HostRuntime, names: &[&str]) -> io::Result<bool> {
    for name in names {
        println!(rt; "module {name}")?;
        match taken(rt, name) {
            Ok(text) => match made_of(rt.alloc(), &text) {
                Ok(made) => show(rt, &made)?,
                Err(refusal) => println!(rt; "{refusal}")?,
            },
            Err(fault) => println!(rt; "{fault}")?,
        }
    }
    Ok(true)
}

// Writes the bytes of the map of this file's module.
fn raw(rt: &HostRuntime, name: &str) -> io::Result<bool> {
    match taken(rt, name) {
        Ok(text) => match made_of(rt.alloc(), &text) {
            Ok(made) => Ok(put_raw(rt, made.bytes.as_slice())),
            Err(refusal) => refused(rt, name, &refusal),
        },
        Err(fault) => refused(rt, name, &fault),
    }
}

// Makes the map of this file's module so many times.
fn make(rt: &HostRuntime, name: &str, rounds: u32) -> io::Result<bool> {
    match taken(rt, name) {
        Ok(text) => match made_often(rt.alloc(), &text, rounds) {
            Ok(count) => {
                println!(rt; "bytes {count}")?;
                Ok(true)
            }
            Err(refusal) => refused(rt, name, &refusal),
        },
        Err(fault) => refused(rt, name, &fault),
    }
}

// Writes the text of the map that the file has.
fn put_map(rt: &HostRuntime, name: &str) -> io::Result<bool> {
    match DiskFiles::new(rt).take(rt.alloc(), name, MAP_BYTES) {
        Ok(bytes) => put_text_of(rt, &bytes),
        Err(fault) => refused(rt, name, &fault),
    }
}

// Does the work on the file's map so many times.
fn time(rt: &HostRuntime, word: &str, name: &str, rounds: u32) -> io::Result<bool> {
    let Some(work) = Work::named(word) else {
        println!(rt; "{USAGE}")?;
        return Ok(false);
    };
    match DiskFiles::new(rt).take(rt.alloc(), name, MAP_BYTES) {
        Ok(bytes) => match done_often(rt.alloc(), &bytes, work, rounds) {
            Ok(sum) => {
                println!(rt; "{sum}")?;
                Ok(true)
            }
            Err(memory) => refused(rt, name, &memory),
        },
        Err(fault) => refused(rt, name, &fault),
    }
}
