//! The files and sinks in memory.

use crate::shown::{show_put, show_take};
use anyhow::Result;
use std::alloc::Global;
use tool_io::{MemFiles, MemSink, SureFiles, SureSink};

pub(crate) fn show_sink(rt: &impl Print, alloc: Global) -> Result<()> {
    println!(rt; "a sink for 6 bytes, whose calls 2 and 4 fail after 1 byte and after 9")?;
    let mut sink = MemSink::new(alloc, 6)?;
    sink.fail_put(2, 1)?;
    sink.fail_put(4, 9)?;
    show_put(rt, &mut sink, "ab")?;
    show_put(rt, &mut sink, "cd")?;
    show_bytes(rt, alloc, &sink)?;
    show_put(rt, &mut sink, "defg")?;
    show_put(rt, &mut sink, "d")?;
    show_bytes(rt, alloc, &sink)?;
    show_put(rt, &mut sink, "ef")?;
    show_bytes(rt, alloc, &sink)
}

fn show_bytes(rt: &impl Print, alloc: Global, sink: &MemSink) -> Result<()> {
    let bytes = String::from_utf8_lossy(alloc, sink.bytes())?;
    println!(rt; "bytes {bytes:?}")?;
    Ok(())
}

pub(crate) fn show_files(rt: &impl Print, alloc: Global) -> Result<()> {
    println!(rt; "two files in memory, whose take 3 fails")?;
    let mut files = MemFiles::new(alloc);
    files.add("m.ll", b"abc")?;
    files.add("input", b"")?;
    files.fail_take(3)?;
    show_take(rt, alloc, &mut files, "m.ll", 3)?;
    show_take(rt, alloc, &mut files, "input", 0)?;
    show_take(rt, alloc, &mut files, "m.ll", 3)?;
    show_take(rt, alloc, &mut files, "m.ll", 2)?;
    show_take(rt, alloc, &mut files, "plan", 2)
}

pub(crate) fn show_sure(rt: &impl Print, alloc: Global) -> Result<()> {
    println!(rt; "files and a sink that never fail")?;
    let mut files = SureFiles::new(alloc);
    files.add("m.ll", b"abc")?;
    files.add("plan", b"at 1\n")?;
    show_take(rt, alloc, &mut files, "m.ll", 3)?;
    show_take(rt, alloc, &mut files, "plan", 5)?;
    show_take(rt, alloc, &mut files, "input", 0)?;
    show_take(rt, alloc, &mut files, "m.ll", 2)?;
    show_put(rt, &mut SureSink::new(), "abc")
}
