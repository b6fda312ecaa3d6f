//! What a step did, and the line that it prints.

ghost use Rattle.std.specs.Prelude.{◌≡◌};
ghost use Rattle.object_meaning.specs.Effects.{printed_line};
ghost use Rattle.run_tasks.specs.Dids.{ended_of};

use arrayvec::ArrayVec;
use itoa::Buffer;
use sp_ids::{End, sign};

/// What a step did.
#[derive(Clone, Copy, Debug, PartialEq, Eq)]
pub enum Did {
    GoesOn,
    /// It printed this number.
    Prints(u64),
    Ends(End),
}

/// The end of the run, where the step was its last.
pub fn ended(did: Did) -> Option<End>
    ensures { result ≡ ended_of did }
{
    match did {
        Did::Ends(end) => Some(end),
        _ => None,
    }
}

/// The line that `print_i64` of this word gives: the signed decimal of an `i64`, and a newline.
#[tactic(auto, unfolding(object_meaning::specs::Effects::printed_line))]
pub fn printed_line(word: u64) -> ArrayVec<u8, 64>
    ensures { result.items ≡ printed_line word }
{
    let mut buffer = Buffer::new();
    let mut line = ArrayVec::new();
    let _ = line.try_extend_from_slice(buffer.format(sign(64, word)).as_bytes());
    let _ = line.try_extend_from_slice(b"\n");
    line
}
