//! A file in memory, found by its name.
ghost use Rattle.std.specs.Prelude.{◌≡◌, ◌<◌, ◌≤◌, ◌≢◌, length, position, option_copied, Err, IfOk, OnOk, IsErrOf};
ghost use Rattle.std.specs.Str.{bytes_eq};
ghost use Rattle.tool_io.specs.NamedFiles.{contents_of};

use crate::TakeFault;
use sp_ids::Memory;
use std::alloc::Global;
use std::marker::Model;

// A file that is held in memory.
#[derive(Drop)]
pub(crate) struct HeldFile {
    name: String,
    contents: Vec<u8>,
}

impl Model for HeldFile {
    ghost use Rattle.std.specs.Prelude.{string_bytes};
    ghost use Rattle.tool_io.specs.NamedFiles.{NamedFile};

    ghost Value = { NamedFile };

    ghost view = { λ file. record { name = string_bytes file.name; contents = file.contents.items } };
}

impl HeldFile {
    pub(crate) fn new(alloc: Global, name: &str, contents: &[u8]) -> Result<HeldFile, Memory>
        ensures { IfOk result (λ file. file ≡ record { name = name.now; contents = contents.now }) }
    {
        Ok(HeldFile {
            name: String::from_str(alloc, name)?,
            contents: Vec::from_slice(alloc, contents)?,
        })
    }

    fn is_named(&self, name: &str) -> bool
        ensures { result ≡ bytes_eq self.now.name name.now }
    {
        self.name.as_str() == name
    }

    fn contents(&self) -> &[u8]
        ensures { result.now ≡ self.now.contents }
    {
        &self.contents
    }
}

// The contents of the first file of this name.
pub(crate) fn contents<'a>(files: &'a [HeldFile], name: &str) -> Option<&'a [u8]>
    ensures { option_copied result ≡ contents_of files.now name.now }
{
    files
        .iter()
        .find(|file| file.is_named(name))
        .map(|file| file.contents())
}

// The place of the first file of this name.
pub(crate) fn place(files: &[HeldFile], name: &str) -> Option<usize>
    ensures { result ≡ position (λ file. bytes_eq file.name name.now) files.now }
{
    files.iter().position(|file| file.is_named(name))
}

// A copy of the bytes, which may be at most `limit`.
pub(crate) fn copy_within(alloc: Global, bytes: &[u8], limit: u64) -> Result<Vec<u8>, TakeFault>
    ensures copy { IfOk result (λ copy. copy.items ≡ bytes.now) }
    ensures fits { OnOk result (length bytes.now ≤ limit) }
    ensures too_long { IsErrOf result TakeFault.TooLong → limit < length bytes.now }
    ensures sure { result ≢ Err TakeFault.Failed }
{
    if limit < bytes.len() as u64 {
        return Err(TakeFault::TooLong);
    }
    Ok(Vec::from_slice(alloc, bytes)?)
}
