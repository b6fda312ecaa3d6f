//! The program: real files and streams, the words of the command line, and an exit status.
#![tactic(auto)]

use statepoint_tool::{Status, statepoint};
use std::process::ExitCode;
use std::{env, io};
use tool_io::{DiskFiles, NoteSink, OutSink, Sink};

// The C library gives a large chunk back to the system when it is let go, and the next one is touched for the first time again, page by
// page. Once a chunk of this size was let go it keeps all that are no larger, and a large module touches a quarter to a third fewer
// pages.
const LARGEST_KEPT: usize = 31 << 20;

// Small chunks that stay while a text is read, as the arguments of its functions, come to stand in the hole that a chunk of this size leaves
// below all others. Between two large lists one would keep them from being one hole when they are let go, so that the next larger list is
// touched anew.
const ROOM_FOR_SMALL: usize = 2 << 20;

fn main(rt: HostRuntime) -> ExitCode {
    ExitCode::from(run(&rt).code())
}

// A word that isn't UTF-8 makes a faulty command line, as no word at all does.
fn run(rt: &HostRuntime) -> Status {
    drop(untouched(rt, LARGEST_KEPT));
    let room = untouched(rt, ROOM_FOR_SMALL);
    let words = words(rt);
    // The words stand behind it.
    drop(room);
    let mut files = DiskFiles::new(rt);
    let mut out = OutSink::new(rt);
    let mut notes = NoteSink::new(rt.stderr());
    match words {
        Ok(words) => statepoint(rt.alloc(), &words, &mut files, &mut out, &mut notes),
        Err(error) if error.kind() == io::ErrorKind::OutOfMemory => {
            match notes.put(b"out of memory\n") {
                Ok(()) => Status::WantOfMemory,
                Err(_) => Status::WriteFault,
            }
        }
        Err(_) => statepoint(rt.alloc(), &[], &mut files, &mut out, &mut notes),
    }
}

// A chunk of which no byte is touched. The compiler would leave it out where it is also let go.
#[inline(never)]
fn untouched(rt: &HostRuntime, bytes: usize) -> Option<Vec<u8>> {
    Vec::with_capacity(rt.alloc(), bytes).ok()
}

fn words(rt: &HostRuntime) -> io::Result<Vec<String>> {
    let words = env::args(rt)?.collect(rt.alloc())?;
    Ok(words)
}
