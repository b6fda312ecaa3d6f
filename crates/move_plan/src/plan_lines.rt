//! What a line of a plan says.

ghost use Rattle.std.specs.Prelude.{◌≡◌, ◌∷◌, MatchOption};
ghost use Rattle.move_plan.specs.Words.{words};
ghost use Rattle.move_plan.specs.Texts.{HasNoReading};
ghost use Rattle.move_plan.specs.PlanLines.{ReadsAs};
ghost use Rattle.move_plan.specs.Tables.{is_flip, move_of, moved_at, task_of};
ghost use Rattle.move_plan.specs.Plans.{event_of};
ghost use Rattle.move_plan.specs.Decoded.{decoded, decoded_at, decoded_every, decoded_go, decoded_move, decoded_verb, is_last, is_none, last_number, only_if};
ghost use Rattle.move_plan.specs.declared.plan_lines.PlanLine.TheVariants.{Flip};

use crate::numbers::{count, number};
use crate::words::first_word;

/// A move: this object goes to this address.
#[derive(Clone, Copy, Debug, PartialEq, Eq)]
pub struct Move {
    /// The object's number.
    pub obj: u64,
    /// The address that it goes to.
    pub to: u64,
}

/// A line of a plan that isn't blank.
#[derive(Clone, Copy, Debug, PartialEq, Eq)]
pub enum PlanLine {
    /// Each event that is a multiple of this number flips.
    Every(u64),
    /// At this event the object goes to the address.
    Move { event: u64, obj: u64, to: u64 },
    /// This event flips.
    Flip(u64),
    /// At this event, where it is a poll, the task goes on.
    Go { event: u64, task: u64 },
}

impl PlanLine {
    // The event of an `at` line; an `every` line stands before all events.
    pub(crate) fn event(&self) -> u64
        ensures { result ≡ event_of self.now }
    {
        match self {
            PlanLine::Every(_) => 0,
            PlanLine::Move { event, .. } | PlanLine::Flip(event) | PlanLine::Go { event, .. } =>
                *event,
        }
    }

    // The task that a `go` line names.
    pub(crate) fn task(&self) -> Option<u64>
        ensures { result ≡ task_of self.now }
    {
        match self {
            PlanLine::Go { task, .. } => Some(*task),
            _ => None,
        }
    }

    // The move of a move line.
    pub(crate) fn moved(&self) -> Option<Move>
        ensures { result ≡ move_of self.now }
    {
        match self {
            PlanLine::Move { obj, to, .. } => Some(Move { obj: *obj, to: *to }),
            _ => None,
        }
    }

    // The event of a move line.
    pub(crate) fn moved_at(&self) -> Option<u64>
        ensures { result ≡ moved_at self.now }
    {
        match self {
            PlanLine::Move { event, .. } => Some(*event),
            _ => None,
        }
    }

    pub(crate) fn is_flip(&self) -> bool
        ensures { result ≡ is_flip self.now }
    {
        matches!(self, PlanLine::Flip(_))
    }
}

// What a line says, where it has a reading; a blank line says nothing.
pub(crate) fn reading(line: &[u8]) -> Option<Option<PlanLine>>
    ensures { MatchOption result (HasNoReading ReadsAs line.now) (ReadsAs line.now) }
{
    match first_word(line) {
        None => Some(None),
        Some((first, rest)) => Some(Some(plan_line(first, rest)?)),
    }
}

fn plan_line(first: &[u8], rest: &[u8]) -> Option<PlanLine>
    ensures { result ≡ decoded (first.now ∷ words rest.now) }
{
    if first == b"every".as_slice() {
        every_line(rest)
    } else if first == b"at".as_slice() {
        at_line(rest)
    } else {
        None
    }
}

// Behind `every`.
fn every_line(rest: &[u8]) -> Option<PlanLine>
    ensures { result ≡ decoded_every (words rest.now) }
{
    let (period, rest) = first_word(rest)?;
    let period = count(period)?;
    if is_last(rest, b"flip") {
        Some(PlanLine::Every(period))
    } else {
        None
    }
}

// Behind `at`.
fn at_line(rest: &[u8]) -> Option<PlanLine>
    ensures { result ≡ decoded_at (words rest.now) }
{
    let (event, rest) = first_word(rest)?;
    event_line(count(event)?, rest)
}

// Behind `at` and the event.
fn event_line(event: u64, rest: &[u8]) -> Option<PlanLine>
    ensures { result ≡ decoded_verb event (words rest.now) }
{
    let (verb, rest) = first_word(rest)?;
    if verb == b"move".as_slice() {
        move_line(event, rest)
    } else if verb == b"flip".as_slice() {
        flip_line(event, rest)
    } else if verb == b"go".as_slice() {
        go_line(event, rest)
    } else {
        None
    }
}

// Behind `at`, the event and `move`.
fn move_line(event: u64, rest: &[u8]) -> Option<PlanLine>
    ensures { result ≡ decoded_move event (words rest.now) }
{
    let (obj, rest) = first_word(rest)?;
    let (mark, rest) = first_word(rest)?;
    if mark != b"to".as_slice() {
        return None;
    }
    let obj = number(obj)?;
    let to = last_number(rest)?;
    Some(PlanLine::Move { event, obj, to })
}

// Behind `at`, the event and `flip`.
fn flip_line(event: u64, rest: &[u8]) -> Option<PlanLine>
    ensures { result ≡ only_if (is_none (words rest.now)) (Flip event) }
{
    match first_word(rest) {
        None => Some(PlanLine::Flip(event)),
        Some(_) => None,
    }
}

// Behind `at`, the event and `go`.
fn go_line(event: u64, rest: &[u8]) -> Option<PlanLine>
    ensures { result ≡ decoded_go event (words rest.now) }
{
    let task = last_number(rest)?;
    Some(PlanLine::Go { event, task })
}

// Whether nothing but this word is left.
fn is_last(rest: &[u8], word: &[u8]) -> bool
    ensures { result ≡ is_last word.now (words rest.now) }
{
    match first_word(rest) {
        Some((last, rest)) => last == word && first_word(rest).is_none(),
        None => false,
    }
}

// The number that is left, and nothing else.
fn last_number(rest: &[u8]) -> Option<u64>
    ensures { result ≡ last_number (words rest.now) }
{
    let (word, rest) = first_word(rest)?;
    match first_word(rest) {
        None => number(word),
        Some(_) => None,
    }
}
