//! One call, and what came of it.

use anyhow::Result;
use std::alloc::Global;
use tool_io::{Files, Sink};

pub(crate) fn show_take<F: Files>(
    rt: &impl Print,
    alloc: Global,
    files: &mut F,
    name: &str,
    limit: u64,
) -> Result<()> {
    match files.take(alloc, name, limit) {
        Ok(bytes) => {
            let bytes = String::from_utf8_lossy(alloc, &bytes)?;
            println!(rt; "take {name:?} within {limit}: {bytes:?}")?;
        }
        Err(fault) => println!(rt; "take {name:?} within {limit}: {fault:?}")?,
    }
    Ok(())
}

pub(crate) fn show_put<O: Sink>(rt: &impl Print, sink: &mut O, piece: &str) -> Result<()> {
    print!(rt; "put {piece:?}: ")?;
    let done = sink.put(piece.as_bytes());
    println!(rt; "{done:?}")?;
    Ok(())
}
