//! Calls of the tool over files and sinks that fail where they are told to.

ghost use Rattle.std.specs.Prelude.{◌≡◌};

use crate::settings::{module_name, number, set, set_bytes};
use anyhow::Result;
use sp_ids::limits::FILE_BYTES;
use statepoint_tool::{Status, statepoint};
use std::alloc::Global;
use tool_io::{DiskFiles, Files, MemFiles, MemSink};

// More than any case writes.
const ROOM: usize = 2_000;

/// What comes of a call: the status and its code, what was written and what was said.
pub(crate) fn found_failing(rt: &HostRuntime, setting: &str, words: &[String]) -> Result<String> {
    let alloc = rt.alloc();
    let mut files = held(rt, setting)?;
    let mut out = sink(alloc, setting, "put=")?;
    let mut notes = sink(alloc, setting, "note=")?;
    let status = ended(alloc, words, &mut files, &mut out, &mut notes);
    let code = status.code();
    let written = String::from_utf8_lossy(alloc, out.bytes())?;
    let said = String::from_utf8_lossy(alloc, notes.bytes())?;
    Ok(format!(in alloc; "{status:?} {code}, written {written:?}, said {said:?}")?)
}

/// Says which codes statuses have.
pub(crate) fn show_codes(rt: &impl Print) -> Result<()> {
    let done = Status::Done.code();
    let stray = Status::Stray.code();
    println!(rt; "the first status is {done} and the last {stray}")?;
    Ok(())
}

fn held(rt: &HostRuntime, setting: &str) -> Result<MemFiles> {
    let alloc = rt.alloc();
    let mut files = MemFiles::new(alloc);
    if let Ok(text) = DiskFiles::new(rt).take(alloc, module_name(setting), FILE_BYTES) {
        files.add("m.ll", &text)?;
        files.add("in", b"")?;
        files.add("plan", &set_bytes(rt, setting, "plan=")?)?;
        if set(setting, "map=").is_some() {
            files.add("map", &set_bytes(rt, setting, "map=")?)?;
        }
    }
    if let Some(call) = number(setting, "take=") {
        files.fail_take(call)?;
    }
    Ok(files)
}

fn sink(alloc: Global, setting: &str, name: &str) -> Result<MemSink> {
    let mut sink = MemSink::new(alloc, ROOM)?;
    if let Some(call) = number(setting, name) {
        let adds = number(setting, "adds=").unwrap_or(0) as usize;
        sink.fail_put(call, adds)?;
    }
    Ok(sink)
}

fn ended(
    alloc: Global,
    words: &[String],
    files: &mut MemFiles,
    out: &mut MemSink,
    notes: &mut MemSink,
) -> Status {
    statepoint(alloc, words, files, out, notes)
}
