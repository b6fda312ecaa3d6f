//! Files of the system, taken by their paths.
ghost use Rattle.std.specs.Prelude.{◌≡◌, ◌+◌, ◌<◌, ◌≤◌, ◌≢◌, None, Err, length, vec_len, IfOk, IfSome, IsErrOf};
ghost use Rattle.tool_io.specs.Adapters.{GivesCount};
ghost use Rattle.tool_io.specs.Counts.{Rose};

use crate::{Files, TakeFault};
use std::alloc::Global;
use std::fs::{File, OpenFile};
use std::io::{ErrorKind, Input, Read};
use std::marker::Model;
use std::rt;

/// The files of the system, by their paths; `-` is standard input, where no file has this name. It
/// is seen as its count of faults, one for all names, and tells no contents.
#[derive(Drop)]
pub struct DiskFiles<R> {
    rt: R,
    faults: u64,
}

impl<R> Model for DiskFiles<R> {
    ghost use Rattle.std.specs.Prelude.{ℕ};

    ghost Value = { ℕ };

    ghost view = { λ files. files.faults };
}

impl<R: rt::Files + Input> DiskFiles<R> {
    /// The files and the standard input that this runtime reaches.
    pub fn new(rt: R) -> DiskFiles<R>
        ensures { result ≡ 0 }
    {
        DiskFiles { rt, faults: 0 }
    }

    fn read(&self, alloc: Global, name: &str, limit: u64) -> Result<Vec<u8>, TakeFault>
        ensures { IfOk result (λ bytes. vec_len bytes ≤ limit) }
    {
        match File::open(&self.rt, name) {
            Ok(mut file) => {
                let known = file.metadata().map_or(0, |metadata| metadata.len());
                read_within(alloc, &mut file, known.min(limit), limit)
            }
            Err(error) if name == "-" && error.kind() == ErrorKind::NotFound => {
                read_within(alloc, &mut self.rt.reader(), 0, limit)
            }
            Err(_) => Err(TakeFault::Failed),
        }
    }
}

impl<R: rt::Files + Input> Files for DiskFiles<R> {
    ghost contents = { λ _ _. None };

    ghost faults = { λ count _. count };

    ghost taken = { λ _. None };

    fn take(&mut self, alloc: Global, name: &str, limit: u64) -> Result<Vec<u8>, TakeFault>
        ensures counts { self.old ≤ self.new }
        ensures steady { result ≢ Err TakeFault.Failed → self.new ≡ self.old }
        ensures bound { IfOk result (λ bytes. vec_len bytes ≤ limit) }
        ensures failed { IsErrOf result TakeFault.Failed → Rose self.old self.new }
    {
        let taken = self.read(alloc, name, limit);
        if let Err(TakeFault::Failed) = taken {
            self.faults = self.faults.saturating_add(1);
        }
        taken
    }
}

// How many bytes are read at once.
const TURN: u64 = 65_536;

// All bytes that the reader has left, of which there may be at most `limit`. Memory for `room` of
// them is taken first. Each turn takes a byte or is the last, and no byte past the first one above
// the limit is read.
fn read_within<F: Read>(
    alloc: Global,
    file: &mut F,
    room: u64,
    limit: u64,
) -> Result<Vec<u8>, TakeFault>
    ensures bound { IfOk result (λ bytes. vec_len bytes ≤ limit) }
    ensures whole { IfOk result (λ bytes. IfSome (F.remaining file.old) (λ told. bytes.items ≡ told)) }
    ensures too_long { IsErrOf result TakeFault.TooLong → IfSome (F.remaining file.old) (λ told. limit < length told) }
    ensures ends { IsErrOf result TakeFault.TooLong → GivesCount (F.remaining file.old) (F.remaining file.new) (limit + 1) }
{
    let mut bytes = Vec::with_capacity(alloc, room as usize)?;
    let mut buffer = [0; TURN as usize];
    'turns: while bytes.len() as u64 <= limit {
        let left = limit - bytes.len() as u64;
        let part = &mut buffer[..left.min(TURN - 1) as usize + 1];
        match file.read(part) {
            Ok(0) => return Ok(bytes),
            Ok(count) => bytes.extend_from_slice(&part[..count])?,
            Err(_) => return Err(TakeFault::Failed),
        }
    }
    Err(TakeFault::TooLong)
}
