//! Files in memory that never fail.
ghost use Rattle.std.specs.Prelude.{◌≡◌, ◌++◌, ◌∷◌, ◌≤◌, ◌<◌, ◌≢◌, [], length, map, string_bytes, vec_len, Some, Err, IfOk, IfSome, IsErrOf, IsNone, OnOk, OnErr};
ghost use Rattle.tool_io.specs.NamedFiles.{contents_of, sure_contents_of};
ghost use Rattle.tool_io.specs.Takes.{after_taking};

use crate::named_file::{HeldFile, contents, copy_within};
use crate::{Files, TakeFault};
use sp_ids::Memory;
use std::alloc::Global;
use std::marker::Model;

/// Files in memory that never fail, and tell which of them were taken. A name without a file has no
/// bytes.
#[derive(Drop)]
pub struct SureFiles {
    alloc: Global,
    files: Vec<HeldFile>,
    taken: Vec<String>,
}

impl Model for SureFiles {
    ghost use Rattle.std.specs.Prelude.{map, string_bytes};
    ghost use Rattle.tool_io.specs.Takes.{NotedFiles};

    ghost Value = { NotedFiles };

    ghost view = { λ s. record { files = s.files.items; taken = map string_bytes s.taken.items } };
}

impl SureFiles {
    /// No file yet, and none taken.
    pub fn new(alloc: Global) -> SureFiles
        ensures { result ≡ record { files = []; taken = [] } }
    {
        SureFiles {
            alloc,
            files: Vec::new(alloc),
            taken: Vec::new(alloc),
        }
    }

    /// Adds a file, whose name must be new.
    pub fn add(&mut self, name: &str, bytes: &[u8]) -> Result<(), Memory>
        requires unknown { IsNone (contents_of self.old.files name.now) }
        ensures ok { OnOk result (self.new ≡ record self.old { files = self.old.files ++ record { name = name.now; contents = bytes.now } ∷ [] }) }
        ensures err { OnErr result (self.new ≡ self.old) }
    {
        self.files.push(HeldFile::new(self.alloc, name, bytes)?)?;
        Ok(())
    }

    /// The names of the files that were taken so far, in order: one for each call of `take` that
    /// didn't want memory.
    pub fn taken(&self) -> &[String]
        ensures { map string_bytes result.now ≡ self.now.taken }
    {
        &self.taken
    }
}

impl Files for SureFiles {
    ghost contents = { λ held. sure_contents_of held.files };

    ghost faults = { λ _ _. 0 };

    ghost taken = { λ held. Some held.taken };

    fn take(&mut self, alloc: Global, name: &str, limit: u64) -> Result<Vec<u8>, TakeFault> {
        let noted = String::from_str(self.alloc, name)?;
        self.taken.reserve(1)?;
        let given = copy_within(alloc, contents(&self.files, name).unwrap_or(&[]), limit);
        match &given {
            Err(TakeFault::Memory) => {}
            _ => self.taken.push(noted).unwrap(),
        }
        given
    }
}
