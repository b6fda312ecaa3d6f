//! The lines of a text, with their numbers.

ghost use Rattle.std.specs.Prelude.{◌≡◌, ◌+◌, ◌<◌, ◌≤◌, ◌↔◌, [], ◌∷◌, length, take, drop, IsNone, IfSome, IfNone, OnSome};
ghost use Rattle.std.specs.Str.Lines.{lines, strip_carriage_return};

use crate::fronts::find;
use sp_ids::limits::FILE_BYTES;
use std::marker::Model;

/// A line of a text, without its newline and a carriage return directly before that.
#[derive(Clone, Copy, Debug)]
pub struct Line<'a> {
    /// The line's place among the text's lines, counted from 1.
    pub number: u32,
    /// The slice of the text.
    pub bytes: &'a [u8],
}

/// The lines of a text that are still to come.
///
/// A line ends at a newline, and a carriage return directly before the newline isn't part of it. A last
/// line without a newline counts, an empty rest doesn't.
#[derive(Drop)]
pub struct Lines<'a> {
    text: &'a [u8],
    at: usize,
    number: u32,
}

impl<'a> Model for Lines<'a> {
    ghost use Rattle.std.specs.Prelude.{◌+◌, ◌≤◌, length};
    ghost use Rattle.sp_ids.specs.declared.limits.TheConstants.{FILE_BYTES};
    ghost use Rattle.sp_text.specs.Lines.{LineStart};

    ghost Value = { LineStart };

    ghost view = { λ l. record { text = l.text.now; at = l.at; number = l.number } };

    ghost invariant = { λ l. (length l.text.now ≤ FILE_BYTES) × (l.at ≤ length l.text.now) × (l.number ≤ l.at + 1) };
}

impl<'a> Lines<'a> {
    ghost use Rattle.sp_text.specs.Lines.{lines_of, lines_left, seen_line, IsSliceAt};

    /// The lines of a text of at most [`FILE_BYTES`] bytes.
    pub fn of(text: &'a [u8]) -> Lines<'a>
        requires { length text.now ≤ FILE_BYTES }
        ensures start { result ≡ record { text = text.now; at = 0; number = 1 } }
        ensures all { lines_left result ≡ lines_of text.now }
    {
        Lines {
            text,
            at: 0,
            number: 1,
        }
    }

    /// The next line; `None` exactly at the end of the text.
    pub fn next_line(&mut self) -> Option<Line<'a>>
        ensures end { IsNone result ↔ (lines_left self.old ≡ []) }
        ensures next { IfSome result (λ line. lines_left self.old ≡ seen_line line ∷ lines_left self.new) }
        ensures stays { IfNone result (self.new ≡ self.old) }

        // The line is the slice of the text from the place reached so far on, and the places rise.
        ensures text { self.new.text ≡ self.old.text }
        ensures slice { IfSome result (λ line. IsSliceAt self.old.text self.old.at line.bytes.now) }
        ensures after { IfSome result (λ line. self.old.at + length line.bytes.now ≤ self.new.at) }
        ensures rises { OnSome result (self.old.at < self.new.at) }
        ensures within { self.new.at ≤ length self.old.text }

        ensures number { IfSome result (λ line. line.number ≡ self.old.number) }
        ensures small_number { IfSome result (λ line. line.number ≤ FILE_BYTES) }
        ensures small_line { IfSome result (λ line. length line.bytes.now ≤ FILE_BYTES) }
    {
        let text = self.text;
        let (_, rest) = text.split_at(self.at);
        if rest.is_empty() {
            return None;
        }
        let (bytes, taken) = first_line(rest);
        let number = self.number;
        self.at += taken;
        self.number += 1;
        Some(Line { number, bytes })
    }
}

// The first line of a text that has one, and how many bytes the line takes together with its end.
fn first_line(text: &[u8]) -> (&[u8], usize)
    requires { 0 < length text.now }
    ensures first { lines text.now ≡ result.0.now ∷ lines (drop result.1 text.now) }
    ensures front { result.0.now ≡ take (length result.0.now) text.now }
    ensures shorter { length result.0.now ≤ result.1 }
    ensures some { 0 < result.1 }
    ensures within { result.1 ≤ length text.now }
{
    match find(text, b'\n') {
        Some(end) => (without_carriage_return(&text[..end]), end + 1),
        None => (text, text.len()),
    }
}

// A line without the carriage return directly before its newline.
fn without_carriage_return(line: &[u8]) -> &[u8]
    ensures { result.now ≡ strip_carriage_return line.now }
{
    match line {
        [front @ .., b'\r'] => front,
        _ => line,
    }
}
