//! Sinks that bytes are put into.
ghost use Rattle.std.specs.Prelude.{◌≡◌, ◌≤◌, ℕ, List, Option, OnOk, OnErr};
ghost use Rattle.tool_io.specs.Counts.{Rose};
ghost use Rattle.tool_io.specs.Sink.{append_known, AppendsFront};
ghost use Rattle.tool_io.specs.Told.{add_told};

use std::error::Error;
use std::fmt;

/// A sink that bytes are put into.
///
/// It has three meanings: the bytes written so far, where they are told, the pieces that were put
/// whole so far, where they are told, and a count of faults that never falls.
pub trait Sink {
    /// The bytes written so far, where they are told.
    ghost written: { Self → Option (List ℕ) };

    /// The pieces that were put so far, where they are told: one for each call of `put` that answered
    /// `Ok`.
    ghost puts: { Self → Option (List (List ℕ)) };

    /// The faults that were counted. The count stands still at 2^64 - 1.
    ghost faults: { Self → ℕ };

    /// Adds all of `bytes`. After `Failed`, which comes only where the count rose, a front of them
    /// was added.
    fn put(&mut self, bytes: &[u8]) -> Result<(), Failed>
        ensures count { faults self.old ≤ faults self.new }
        ensures ok { OnOk result (written self.new ≡ append_known (written self.old) bytes.now) }
        ensures err { OnErr result (AppendsFront (written self.old) (written self.new) bytes.now) }
        ensures failed { OnErr result (Rose (faults self.old) (faults self.new)) }
        ensures noted { OnOk result (puts self.new ≡ add_told (puts self.old) bytes.now) }
        ensures unnoted { OnErr result (puts self.new ≡ puts self.old) };
}

/// A fault of a sink, which was counted there.
#[derive(Clone, Copy, Debug, PartialEq, Eq)]
pub struct Failed;

impl fmt::Display for Failed {
    fn fmt<W: fmt::Write>(&self, f: &mut fmt::Formatter<W>) -> fmt::Result {
        f.write_str("the bytes could not be written")
    }
}

impl Error for Failed {}
