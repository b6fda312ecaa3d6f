//! Frames of a stack, changed one behind the other.

ghost use Rattle.std.specs.Prelude.{◌≡◌, ℕ, List};
ghost use Rattle.frame_walk.specs.Maps.{FrameEntry};
ghost use Rattle.frame_walk.specs.Changes.{FramesChange};

use crate::records::{FrameMap, FrameRecord};
use crate::walks::frame_at;

/// What is done to the words of a frame: from one state to the next, by the frame's record, some words become others.
pub trait FrameChange {
    ghost does: { Self → FrameEntry → List ℕ → List ℕ → Self → Type 0 };

    /// Changes the words of a frame with this record, without its return word.
    fn change<R: FrameRecord>(&mut self, one: &R, words: &mut [u64])
        ensures { does self.old (R.entry one.now) words.old words.new self.new };
}

/// Changes the words of each usable frame of these words, from a return address on.
pub(crate) fn change_words<M: FrameMap, C: FrameChange>(
    map: &M,
    words: &mut [u64],
    address: u64,
    change: &mut C,
) -> Option<u64>
    ensures { FramesChange _ (M.found map.now) C.does address change.old words.old change.new words.new result }
{
    let mut place = 0;
    let mut next = address;
    while next != 0 {
        match frame_at(map, next, words.len() - place) {
            None => return Some(next),
            Some(one) => {
                let count = (one.frame_bytes() / 8) as usize;
                change.change(&one, &mut words[place..place + count]);
                next = words[place + count];
                place = place + count + 1;
            }
        }
    }
    None
}
