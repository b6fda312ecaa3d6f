//! Calls of the tool over files and sinks that never fail.

use crate::settings::{module_name, set_bytes};
use anyhow::Result;
use sp_ids::limits::FILE_BYTES;
use statepoint_tool::statepoint_surely;
use std::alloc::Global;
use tool_io::{DiskFiles, Files, SureFiles, SureSink};

/// What comes of a call: the status, and which files were taken.
pub(crate) fn found_surely(rt: &HostRuntime, setting: &str, words: &[String]) -> Result<String> {
    let alloc = rt.alloc();
    let mut files = held(rt, alloc, setting)?;
    let status = statepoint_surely(
        alloc,
        words,
        &mut files,
        &mut SureSink::new(),
        &mut SureSink::new(),
    );
    let mut found = format!(in alloc; "{status:?}, taken")?;
    for name in files.taken() {
        found.push(' ')?;
        found.push_str(name)?;
    }
    Ok(found)
}

fn held(rt: &HostRuntime, alloc: Global, setting: &str) -> Result<SureFiles> {
    let mut files = SureFiles::new(alloc);
    if let Ok(text) = DiskFiles::new(rt).take(alloc, module_name(setting), FILE_BYTES) {
        files.add("m.ll", &text)?;
        files.add("plan", &set_bytes(rt, setting, "plan=")?)?;
        files.add("map", &set_bytes(rt, setting, "map=")?)?;
    }
    Ok(files)
}
