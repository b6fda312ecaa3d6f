//! Files that are taken whole, by name.
ghost use Rattle.std.specs.Prelude.{◌≡◌, ◌≤◌, ◌<◌, ℕ, List, Option, length, vec_len, IfOk, IfSome, IsErrOf};
ghost use Rattle.tool_io.specs.Counts.{Rose, NoneFell};
ghost use Rattle.tool_io.specs.Takes.{after_taking};

use std::alloc::{AllocError, AllocFailed, Global};
use std::error::Error;
use std::fmt;

/// Files that are taken whole, by name.
///
/// They have three meanings: the contents by name, where they are told, for each name a count of
/// faults that never falls, and the names of the files that were taken so far, where they are told.
pub trait Files {
    /// The contents of each file, where they are told.
    ghost contents: { Self → List ℕ → Option (List ℕ) };

    /// The faults that were counted for each name. A count stands still at 2^64 - 1.
    ghost faults: { Self → List ℕ → ℕ };

    /// The names of the files that were taken so far, in order, where they are told: one for each call
    /// of `take` that didn't want memory.
    ghost taken: { Self → Option (List (List ℕ)) };

    /// The contents of the file `name`, which may have at most `limit` bytes.
    ///
    /// Where the contents are told, a call that answers neither `Failed` nor `Memory` answers
    /// `TooLong` exactly where they have more than `limit` bytes, and else gives them. `Failed`
    /// comes only where the count of this name rose.
    fn take(&mut self, alloc: Global, name: &str, limit: u64) -> Result<Vec<u8>, TakeFault>
        ensures kept { contents self.new ≡ contents self.old }
        ensures counts { NoneFell (faults self.old) (faults self.new) }
        ensures bound { IfOk result (λ bytes. vec_len bytes ≤ limit) }
        ensures told { IfOk result (λ bytes. IfSome (contents self.old name.now) (λ told. bytes.items ≡ told)) }
        ensures fits { IfOk result (λ _. IfSome (contents self.old name.now) (λ told. length told ≤ limit)) }
        ensures too_long { IsErrOf result TakeFault.TooLong → IfSome (contents self.old name.now) (λ told. limit < length told) }
        ensures failed { IsErrOf result TakeFault.Failed → Rose (faults self.old name.now) (faults self.new name.now) }
        ensures noted { taken self.new ≡ after_taking result (taken self.old) name.now };
}

/// Why a file could not be taken.
#[derive(Clone, Copy, Debug, PartialEq, Eq)]
pub enum TakeFault {
    /// A fault of the file, which was counted for its name.
    Failed,
    /// The file has more bytes than the limit.
    TooLong,
    /// Memory that was wanted and could not be had.
    Memory,
}

impl fmt::Display for TakeFault {
    fn fmt<W: fmt::Write>(&self, f: &mut fmt::Formatter<W>) -> fmt::Result {
        f.write_str(match self {
            TakeFault::Failed => "the file could not be read",
            TakeFault::TooLong => "the file is too long",
            TakeFault::Memory => "out of memory",
        })
    }
}

impl Error for TakeFault {}

impl From<AllocError> for TakeFault {
    ghost use Rattle.std.specs.Prelude.{◌≡◌};
    ghost use Rattle.tool_io.specs.declared.files.TakeFault.TheVariants.{Memory};

    ghost from_gives = { λ _ fault. fault ≡ Memory };

    fn from(_error: AllocError) -> Self {
        TakeFault::Memory
    }
}

impl<T: Drop> From<AllocFailed<T>> for TakeFault {
    ghost use Rattle.std.specs.Prelude.{◌≡◌};
    ghost use Rattle.tool_io.specs.declared.files.TakeFault.TheVariants.{Memory};

    ghost from_gives = { λ _ fault. fault ≡ Memory };

    fn from(_failed: AllocFailed<T>) -> Self {
        TakeFault::Memory
    }
}
