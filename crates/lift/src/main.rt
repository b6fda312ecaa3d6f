//! The program: a text that LLVM prints, lifted into the profile, or why it isn't.
#![tactic(auto)]

ghost use Rattle.std.specs.Prelude.{◌≤◌, length, IfOk};

mod asked;

use crate::asked::words_of;
use llvm_lift::{Refusal, lift, notes_of};
use sp_ids::limits::FILE_BYTES;
use std::alloc::Global;
use std::process::ExitCode;
use std::{env, io};
use tool_io::{DiskFiles, Failed, Files, NoteSink, OutSink, Sink, TakeFault};

const DONE: u8 = 0;

const REFUSED: u8 = 1;

const WRONG_WORDS: u8 = 2;

const READ_FAULT: u8 = 3;

const WRITE_FAULT: u8 = 4;

const WANT_OF_MEMORY: u8 = 5;

const TOO_LONG: u8 = 12;

fn main(rt: HostRuntime) -> ExitCode {
    let mut files = DiskFiles::new(&rt);
    let mut out = OutSink::new(&rt);
    let mut notes = NoteSink::new(rt.stderr());
    let status = match words(&rt) {
        Ok(words) => run(rt.alloc(), &words, &mut files, &mut out, &mut notes),
        Err(_) => told(
            WRONG_WORDS,
            notes.put(b"usage: statepoint lift MODULE [--layouts FILE]\n"),
        ),
    };
    ExitCode::from(status)
}

fn words(rt: &HostRuntime) -> io::Result<Vec<String>> {
    let words = env::args(rt)?.collect(rt.alloc())?;
    Ok(words)
}

// The status, or that of a failed write.
fn told(status: u8, put: Result<(), Failed>) -> u8 {
    match put {
        Ok(()) => status,
        Err(Failed) => WRITE_FAULT,
    }
}

fn run<F: Files, O: Sink, E: Sink>(
    alloc: Global,
    words: &[String],
    files: &mut F,
    out: &mut O,
    notes: &mut E,
) -> u8 {
    let Some(asked) = words_of(words) else {
        return told(
            WRONG_WORDS,
            notes.put(b"usage: statepoint lift MODULE [--layouts FILE]\n"),
        );
    };
    let text = match taken(alloc, asked.module, files, notes) {
        Ok(text) => text,
        Err(status) => return status,
    };
    let layouts = match layouts_taken(alloc, asked.layouts, files, notes) {
        Ok(layouts) => layouts,
        Err(status) => return status,
    };
    match lift(alloc, text.as_slice(), layouts.as_slice()) {
        Ok(lifted) => told(DONE, out.put(lifted.as_slice())),
        Err(refusal) => refused(alloc, &refusal, notes),
    }
}

// Those of the file of layouts, if there is one.
fn layouts_taken<F: Files, E: Sink>(
    alloc: Global,
    name: Option<&str>,
    files: &mut F,
    notes: &mut E,
) -> Result<Vec<u8>, u8>
    ensures { IfOk result (λ bytes. length bytes.items ≤ 16777216) }
{
    match name {
        Some(name) => taken(alloc, name, files, notes),
        None => Ok(Vec::new(alloc)),
    }
}

// The bytes of a file, or the status of its fault.
fn taken<F: Files, E: Sink>(
    alloc: Global,
    name: &str,
    files: &mut F,
    notes: &mut E,
) -> Result<Vec<u8>, u8>
    ensures { IfOk result (λ bytes. length bytes.items ≤ 16777216) }
{
    match files.take(alloc, name, FILE_BYTES as u64) {
        Ok(bytes) => Ok(bytes),
        Err(TakeFault::Failed) => Err(named(READ_FAULT, b"read fault: ", name, notes)),
        Err(TakeFault::TooLong) => Err(named(TOO_LONG, b"too long: ", name, notes)),
        Err(TakeFault::Memory) => Err(told(WANT_OF_MEMORY, notes.put(b"out of memory\n"))),
    }
}

fn named<E: Sink>(status: u8, what: &[u8], name: &str, notes: &mut E) -> u8 {
    let first = told(status, notes.put(what));
    let second = told(first, notes.put(name.as_bytes()));
    told(second, notes.put(b"\n"))
}

fn refused<E: Sink>(alloc: Global, refusal: &Refusal, notes: &mut E) -> u8 {
    let status = match refusal {
        Refusal::Outside(_) | Refusal::Fault(_) => REFUSED,
        Refusal::TooLong => TOO_LONG,
        Refusal::Memory => WANT_OF_MEMORY,
    };
    match notes_of(alloc, refusal) {
        Ok(lines) => told(status, notes.put(lines.as_slice())),
        Err(_) => told(WANT_OF_MEMORY, notes.put(b"out of memory\n")),
    }
}
