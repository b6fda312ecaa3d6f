//! The pairs of a record.

ghost use Rattle.std.specs.Prelude.{◌≡◌, ◌≤◌};
ghost use Rattle.frame_walk.specs.Maps.{pairs_from, pairs_of, word_place};

use crate::records::{FrameRecord, deopt_count};
use map_bytes::Place;

/// A base slot and a derived slot, by the words of their frame at which they lie.
#[derive(Clone, Copy, Debug, PartialEq, Eq)]
pub struct SlotPair {
    pub base: u32,
    pub derived: u32,
    ghost small: { derived ≤ 268435456 },
}

impl SlotPair {
    ghost use Rattle.std.specs.Prelude.{◌≡◌, ◌<◌, ◌+◌, [], ◌∷◌, IfSome, MatchOption};
    ghost use Rattle.frame_walk.specs.Maps.{pairs_from};
    ghost use Rattle.frame_walk.specs.Pairs.{pair_of};

    // The pair whose base slot is this location of a record, if there is one.
    fn at<R: FrameRecord>(one: &R, at: u64) -> Option<SlotPair>
        ensures pairs { MatchOption result (pairs_from at (R.entry one.now) ≡ []) (λ pair. pairs_from at (R.entry one.now) ≡ pair_of pair ∷ pairs_from (at + 2) (R.entry one.now)) }
        ensures below { IfSome result (λ _. at < 4294967296) }
    {
        let left = u64::from(one.places()).saturating_sub(at);
        if left < 2 {
            return None;
        }
        let base = word_place(one.place(at as u32));
        let derived = word_place(one.place((at + 1) as u32));
        Some(SlotPair { base, derived })
    }
}

/// The pairs of a record, in order. They stand behind its "deopt" locations.
#[derive(Drop)]
pub struct Pairs<'a, R: FrameRecord> {
    one: &'a R,
    at: u64,
}

impl<'a, R: FrameRecord> Iterator for Pairs<'a, R> {
    ghost use Rattle.std.specs.Iterator.{YieldsFirstBy, item_count};
    ghost use Rattle.frame_walk.specs.Maps.{pairs_from};
    ghost use Rattle.frame_walk.specs.Pairs.{pair_of};

    type Item = SlotPair;

    ghost next_gives = { YieldsFirstBy pair_of (λ pairs. pairs_from pairs.at (R.entry pairs.one.now)) };

    ghost remaining = { item_count (λ pairs. pairs_from pairs.at (R.entry pairs.one.now)) };

    fn next(&mut self) -> Option<SlotPair> {
        match SlotPair::at(self.one, self.at) {
            None => None,
            Some(pair) => {
                self.at += 2;
                Some(pair)
            }
        }
    }
}

/// The pairs of a record.
pub fn slot_pairs<R: FrameRecord>(one: &R) -> Pairs<'_, R>
    ensures { pairs_from result.at (R.entry result.one.now) ≡ pairs_of (R.entry one.now) }
{
    Pairs {
        one,
        at: 3 + u64::from(deopt_count(one)),
    }
}

/// The word of its frame at which a slot lies.
pub fn word_place(place: Place) -> u32
    ensures word { result ≡ word_place place }
    ensures small { result ≤ 268435456 }
{
    place.offset.unsigned_abs() / 8
}
