//! What pieces of a text are put into.
ghost use Rattle.std.specs.Prelude.{◌++◌, ℕ, List, [], OnOk, OnErr};

use tool_io::Failed;

/// What pieces of a text are put into, one after the other. Contracts see two relations of a state
/// before some bytes and one after them.
pub trait PieceSink {
    /// All of these bytes were taken.
    ghost took: { Self → Self → List ℕ → Type 0 };

    /// It failed before all of these bytes were taken.
    ghost failed_within: { Self → Self → List ℕ → Type 0 };

    /// Takes all of the bytes, or fails.
    fn put(&mut self, bytes: &[u8]) -> Result<(), Failed>
        ensures ok { OnOk result (took self.old self.new bytes.now) }
        ensures err { OnErr result (failed_within self.old self.new bytes.now) };

    /// Takes all bytes of two texts, one after the other, or fails.
    fn put_both(&mut self, first: &[u8], second: &[u8]) -> Result<(), Failed>
        ensures ok { OnOk result (took self.old self.new (first.now ++ second.now)) }
        ensures err { OnErr result (failed_within self.old self.new (first.now ++ second.now)) };

    ghost took_nothing: { (sink : Self) → took sink sink [] };

    ghost took_both: { (old mid new : Self) (first second : List ℕ) → took old mid first → took mid new second → took old new (first ++ second) };

    ghost failed_in_first: { (old new : Self) (first second : List ℕ) → failed_within old new first → failed_within old new (first ++ second) };

    ghost failed_in_second: { (old mid new : Self) (first second : List ℕ) → took old mid first → failed_within mid new second → failed_within old new (first ++ second) };
}
