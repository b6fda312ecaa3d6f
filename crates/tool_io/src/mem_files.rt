//! Files in memory that fail where they were told to.
ghost use Rattle.std.specs.Prelude.{◌≡◌, ◌++◌, ◌∷◌, ◌≤◌, ◌<◌, ◌↔◌, [], length, vec_len, None, IfOk, IfSome, IsErrOf, IsNone, IsTrue, OnOk, OnErr};
ghost use Rattle.tool_io.specs.Counts.{raised, Rose, NoneFell};
ghost use Rattle.tool_io.specs.NamedFiles.{contents_of};
ghost use Rattle.tool_io.specs.FilesInMemory.{no_files, with_fault, with_file, faults_of, fails_at, after_take};

use crate::named_file::{HeldFile, contents, copy_within, place};
use crate::{Files, TakeFault};
use sp_ids::Memory;
use std::alloc::Global;
use std::marker::Model;

/// Files in memory that fail where they were told to, and where no file has the name.
#[derive(Drop)]
pub struct MemFiles {
    alloc: Global,
    files: Vec<HeldFile>,
    faults: Vec<u64>,
    other_faults: u64,
    failing: Vec<u64>,
    calls: u64,
}

impl Model for MemFiles {
    ghost use Rattle.std.specs.Prelude.{◌≡◌, length};
    ghost use Rattle.tool_io.specs.FilesInMemory.{FilesInMemory};

    ghost Value = { FilesInMemory };

    ghost view = { λ s. record { files = s.files.items; faults = s.faults.items; other_faults = s.other_faults; failing = s.failing.items; calls = s.calls } };

    ghost invariant = { λ s. length s.faults.items ≡ length s.files.items };
}

impl MemFiles {
    /// No file yet, and no call that is to fail.
    pub fn new(alloc: Global) -> MemFiles
        ensures { result ≡ no_files }
    {
        MemFiles {
            alloc,
            files: Vec::new(alloc),
            faults: Vec::new(alloc),
            other_faults: 0,
            failing: Vec::new(alloc),
            calls: 0,
        }
    }

    /// Adds a file, whose name must be new, before the first call of `take`.
    pub fn add(&mut self, name: &str, bytes: &[u8]) -> Result<(), Memory>
        requires unknown { IsNone (contents_of self.old.files name.now) }
        requires untaken { self.old.calls ≡ 0 }
        ensures ok { OnOk result (self.new ≡ with_file self.old name.now bytes.now) }
        ensures err { OnErr result (self.new ≡ self.old) }
    {
        let file = HeldFile::new(self.alloc, name, bytes)?;
        self.faults.reserve(1)?;
        self.files.push(file)?;
        self.faults.push(0).unwrap();
        Ok(())
    }

    /// Lets the call of `take` of this number fail, where calls are numbered from 1.
    pub fn fail_take(&mut self, call: u64) -> Result<(), Memory>
        ensures ok { OnOk result (self.new ≡ record self.old { failing = self.old.failing ++ call ∷ [] }) }
        ensures err { OnErr result (self.new ≡ self.old) }
    {
        self.failing.push(call)?;
        Ok(())
    }

    // What the call of this number answers.
    fn answer(&self, alloc: Global, call: u64, name: &str, limit: u64) -> Result<Vec<u8>, TakeFault>
        ensures fails { IsErrOf result TakeFault.Failed ↔ IsTrue (fails_at self.now call name.now) }
        ensures told { IfOk result (λ bytes. IfSome (contents_of self.now.files name.now) (λ told. bytes.items ≡ told)) }
        ensures fits { IfOk result (λ _. IfSome (contents_of self.now.files name.now) (λ told. length told ≤ limit)) }
        ensures bound { IfOk result (λ bytes. vec_len bytes ≤ limit) }
        ensures too_long { IsErrOf result TakeFault.TooLong → IfSome (contents_of self.now.files name.now) (λ told. limit < length told) }
    {
        match contents(&self.files, name) {
            Some(contents) if !self.failing.contains(&call) => copy_within(alloc, contents, limit),
            _ => Err(TakeFault::Failed),
        }
    }

    fn count_fault(&mut self, name: &str)
        ensures counted { self.new ≡ with_fault self.old name.now }
        ensures counts { NoneFell (faults_of self.old) (faults_of self.new) }
        ensures rose { faults_of self.new name.now ≡ raised (faults_of self.old name.now) }
    {
        match place(&self.files, name) {
            Some(place) => self.faults[place] = self.faults[place].saturating_add(1),
            None => self.other_faults = self.other_faults.saturating_add(1),
        }
    }
}

impl Files for MemFiles {
    ghost contents = { λ held. contents_of held.files };

    ghost faults = { faults_of };

    ghost taken = { λ _. None };

    fn take(&mut self, alloc: Global, name: &str, limit: u64) -> Result<Vec<u8>, TakeFault>
        ensures fails { IsErrOf result TakeFault.Failed ↔ IsTrue (fails_at self.old (raised self.old.calls) name.now) }
        ensures after { self.new ≡ after_take self.old name.now result }
        ensures kept { contents_of self.new.files ≡ contents_of self.old.files }
        ensures counts { NoneFell (faults_of self.old) (faults_of self.new) }
        ensures bound { IfOk result (λ bytes. vec_len bytes ≤ limit) }
        ensures told { IfOk result (λ bytes. IfSome (contents_of self.old.files name.now) (λ told. bytes.items ≡ told)) }
        ensures fits { IfOk result (λ _. IfSome (contents_of self.old.files name.now) (λ told. length told ≤ limit)) }
        ensures too_long { IsErrOf result TakeFault.TooLong → IfSome (contents_of self.old.files name.now) (λ told. limit < length told) }
        ensures failed { IsErrOf result TakeFault.Failed → Rose (faults_of self.old name.now) (faults_of self.new name.now) }
    {
        let call = self.calls.saturating_add(1);
        let taken = self.answer(alloc, call, name, limit);
        match &taken {
            Err(TakeFault::Memory) => {}
            Err(TakeFault::Failed) => {
                self.calls = call;
                self.count_fault(name);
            }
            _ => self.calls = call,
        }
        taken
    }
}
