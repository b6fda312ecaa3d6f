//! What is set for a call: the file of the module, and `NAME=WORD` for what else it has.

use anyhow::Result;
use sp_ids::limits::FILE_BYTES;
use tool_io::{DiskFiles, Files};

/// The file of the module.
pub(crate) fn module_name(setting: &str) -> &str {
    setting.split_whitespace().next().unwrap_or("")
}

/// What is set under this name.
pub(crate) fn set<'a>(setting: &'a str, name: &str) -> Option<&'a str> {
    setting
        .split_whitespace()
        .find_map(|word| word.strip_prefix(name))
}

/// The number that is set under this name.
pub(crate) fn number(setting: &str, name: &str) -> Option<u64> {
    set(setting, name)?.parse().ok()
}

/// The bytes of the file that is set under this name, or none.
pub(crate) fn set_bytes(rt: &HostRuntime, setting: &str, name: &str) -> Result<Vec<u8>> {
    let alloc = rt.alloc();
    match set(setting, name) {
        Some(file) => Ok(DiskFiles::new(rt).take(alloc, file, FILE_BYTES)?),
        None => Ok(Vec::new(alloc)),
    }
}
