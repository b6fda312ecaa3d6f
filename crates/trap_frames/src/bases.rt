//! The base slot of each derived slot of a frame.

ghost use Rattle.std.specs.Prelude.{◌≡◌, ◌<◌, ◌≤◌, ℕ, OnOk, length, slice_index};
ghost use Rattle.frame_walk.specs.Maps.{pairs_of};
ghost use Rattle.trap_frames.specs.Bases.{AreBases, base_in};

use frame_walk::{FrameRecord, slot_pairs};
use sp_ids::Memory;

/// Fills a table with the base slots of a record's pairs, by the words of their derived slots: 0 where a word has none, else one
/// more than the base's word. Of pairs that share a derived slot the last one counts.
pub(crate) fn fill_bases<R: FrameRecord>(one: &R, bases: &mut Vec<u64>) -> Result<(), Memory>
    ensures { OnOk result (AreBases (pairs_of (R.entry one.now)) bases.new.items) }
{
    bases.clear();
    for pair in slot_pairs(one) {
        make_room(bases, pair.derived)?;
        bases[pair.derived as usize] = u64::from(pair.base) + 1;
    }
    Ok(())
}

// Room for this word.
fn make_room(bases: &mut Vec<u64>, word: u32) -> Result<(), Memory>
    ensures room { OnOk result (word < length bases.new.items) }
    ensures same { (at : ℕ) → slice_index bases.new.items at ≡ slice_index bases.old.items at }
{
    let count = bases.len();
    for turn in count..word as usize + 1 {
        let _ = turn;
        bases.push(0)?;
    }
    Ok(())
}

/// The base slot of the derived slot at a word, if it is one.
pub(crate) fn base_in(bases: &[u64], word: u32) -> Option<u64>
    ensures { result ≡ base_in bases.now word }
{
    match bases.get(word as usize) {
        None => None,
        Some(base) => base.checked_sub(1),
    }
}
