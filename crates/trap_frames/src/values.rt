//! What is shown of the locations of a frame.

ghost use Rattle.std.specs.Prelude.{◌≡◌, ◌+◌, ◌≤◌, length, map as each, OnOk, slice_index};
ghost use Rattle.moving_heap.specs.Places.{stands_at};
ghost use Rattle.frame_walk.specs.Maps.{deopt_count, deopt_places, pairs_of};
ghost use Rattle.machine_meaning.specs.TrapLines.{shown_at, shown_over, shown_slot, shown_word};
ghost use Rattle.trap_frames.specs.DeoptLines.{shown_text};
ghost use Rattle.trap_frames.specs.Bases.{AreBases};

use crate::asked::Objects;
use crate::bases::base_in;
use crate::deopts::Shown;
use frame_walk::{FrameMap, FrameRecord, deopt_count, word_at, word_place};
use map_bytes::Place;
use sp_ids::{Memory, sign};

// The number that a word is.
fn shown_word(word: u64) -> Shown
    ensures { shown_text result ≡ shown_word word }
{
    Shown::Number(sign(64, word))
}

// A word over a base word: how far behind the front of the object that stands there, or the number that it is.
fn shown_over<H: Objects>(objects: &H, base: u64, word: u64) -> Shown
    ensures { shown_text result ≡ shown_over base word (stands_at (H.stands objects.now) base) }
{
    match objects.object_at(base) {
        None => shown_word(word),
        Some(obj) => Shown::Inside {
            obj,
            offset: word.wrapping_sub(base),
        },
    }
}

// The word behind so many, or 0 where the frame ends before.
fn word_behind(words: &[u64], count: u64) -> u64
    ensures { result ≡ slice_index words.now count }
{
    words.get(count as usize).copied().unwrap_or(0)
}

// The slot at a word of a frame with this record.
fn shown_slot<R: FrameRecord, H: Objects>(
    one: &R,
    bases: &[u64],
    objects: &H,
    words: &[u64],
    at: u32,
) -> Shown
    requires { AreBases (pairs_of (R.entry one.now)) bases.now }
    ensures { shown_text result ≡ shown_slot (H.stands objects.now) words.now (pairs_of (R.entry one.now)) at }
{
    let word = word_at(words, at);
    match base_in(bases, at) {
        None => shown_word(word),
        Some(base) => shown_over(objects, word_behind(words, base), word),
    }
}

// A location of a frame with this record.
fn shown_at<M: FrameMap, R: FrameRecord, H: Objects>(
    map: &M,
    one: &R,
    bases: &[u64],
    objects: &H,
    words: &[u64],
    place: Place,
) -> Shown
    requires { AreBases (pairs_of (R.entry one.now)) bases.now }
    ensures { shown_text result ≡ shown_at (M.constants map.now) (H.stands objects.now) words.now (pairs_of (R.entry one.now)) place }
{
    if place.kind == 4 {
        return Shown::Number(i64::from(place.offset));
    }
    if place.kind == 5 {
        let number = map.constant(place.offset.cast_unsigned());
        return shown_word(number);
    }
    shown_slot(one, bases, objects, words, word_place(place))
}

/// Fills a list with what is shown of the "deopt" locations of a frame with this record.
pub(crate) fn fill_values<M: FrameMap, R: FrameRecord, H: Objects>(
    map: &M,
    one: &R,
    bases: &[u64],
    objects: &H,
    words: &[u64],
    values: &mut Vec<Shown>,
) -> Result<(), Memory>
    requires bases { AreBases (pairs_of (R.entry one.now)) bases.now }
    requires within { 3 + deopt_count (R.entry one.now).places ≤ length (R.entry one.now).places }
    ensures { OnOk result (each shown_text values.new.items ≡ each (shown_at (M.constants map.now) (H.stands objects.now) words.now (pairs_of (R.entry one.now))) (deopt_places (R.entry one.now))) }
{
    values.clear();
    let end = 3 + deopt_count(one);
    for index in 3..end {
        values.push(shown_at(map, one, bases, objects, words, one.place(index)))?;
    }
    Ok(())
}
