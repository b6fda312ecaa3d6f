//! Frames of a stack, to be read.

ghost use Rattle.std.specs.Prelude.{◌≡◌, None};
ghost use Rattle.frame_walk.specs.Lent.{lost_at};

use crate::records::{FrameMap, FrameRecord};
use crate::walks::frame_at;

/// The frames of a stack from a return address on, newest first, each with its record and its words without the return
/// address. They end at the return address 0, or at the first one without a usable record.
#[derive(Drop)]
pub struct Frames<'a, M: FrameMap> {
    map: &'a M,
    words: &'a [u64],
    address: u64,
    ended: Option<u64>,
}

impl<'a, M: FrameMap> Frames<'a, M> {
    // The frames of these words.
    pub(crate) fn of(map: &'a M, words: &'a [u64], address: u64) -> Frames<'a, M>
        ensures words { result.words.now ≡ words.now }
        ensures address { result.address ≡ address }
        ensures map { result.map.now ≡ map.now }
        ensures running { result.ended ≡ None }
    {
        Frames {
            map,
            words,
            address,
            ended: None,
        }
    }

    /// The return address of the next frame.
    pub fn return_address(&self) -> u64
        ensures { result ≡ self.now.address }
    {
        self.address
    }

    /// The return address without a usable record at which the frames ended; none before the end, and where they ended at 0.
    pub fn lost(&self) -> Option<u64>
        ensures { result ≡ lost_at self.now.ended }
    {
        match self.ended {
            None => None,
            Some(address) => { if address == 0 { None } else { Some(address) } }
        }
    }
}

impl<'a, M: FrameMap> Iterator for Frames<'a, M> {
    ghost use Rattle.std.specs.Prelude.{length};
    ghost use Rattle.std.specs.Iterator.{at_most};
    ghost use Rattle.frame_walk.specs.Lent.{GivesFrame};

    type Item = (M::Record, &'a [u64]);

    ghost next_gives = { λ before item after. GivesFrame (λ frame. M.Record.entry frame.0) (λ frame. frame.1.now)
        (record { found = M.found before.map.now; words = before.words.now; address = before.address; ended = before.ended }) item
        (record { found = M.found after.map.now; words = after.words.now; address = after.address; ended = after.ended }) };

    ghost remaining = { λ frames. at_most (length frames.words.now) };

    fn next(&mut self) -> Option<(M::Record, &'a [u64])> {
        if self.address == 0 {
            self.ended = Some(0);
            return None;
        }
        match frame_at(self.map, self.address, self.words.len()) {
            None => {
                self.ended = Some(self.address);
                None
            }
            Some(one) => {
                let count = (one.frame_bytes() / 8) as usize;
                let words = self.words;
                self.address = words[count];
                self.words = &words[count + 1..];
                Some((one, &words[..count]))
            }
        }
    }
}
