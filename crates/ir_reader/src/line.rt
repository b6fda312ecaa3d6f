//! One line in its place.

ghost use Rattle.std.specs.Prelude.{◌≡◌, IsTrue, IfErr, OnOk, map};
ghost use Rattle.std.specs.Option.{option_map};
ghost use Rattle.sp_text.specs.Tokens.{tokens};
ghost use Rattle.line_parts.specs.Seen.{seen_type};
ghost use Rattle.line_forms.specs.Seen.{seen, of_form, dropped_says};
ghost use Rattle.ir_reader.specs.Limits.{counts_fit};
ghost use Rattle.ir_reader.specs.Text.{is_top, within, dropped_within, tokens_outcome, outcome, nothing};
ghost use Rattle.ir_reader.specs.Raws.{seen_numbered};
ghost use Rattle.ir_reader.specs.Reads.{AfterLine};
ghost use Rattle.ir_reader.specs.Outcomes.{IsFaultOf};

use crate::faults::LineFault;
use crate::limits::{counted_as, reading_fits};
use crate::raw::NumberedReading;
use crate::states::{Counted, Place, State};
use crate::woven::Woven;
use line_forms::{DroppedLine, Form, Reading, kept_front, opened_form, whole_dropped};
use line_parts::{Cursor, TypeWord};
use sp_text::{Line, Token};
use std::alloc::Global;

impl Place {
    pub fn is_top(self) -> bool
        ensures { result ≡ is_top self }
    {
        match self {
            Place::Top => true,
            _ => false,
        }
    }
}

// A line that is dropped, if it passes no limit.
fn dropped(_which: DroppedLine, _answer: Option<TypeWord>, passed: bool) -> Result<(), LineFault>
    ensures ok { OnOk result (dropped_within (of_form (Form.Dropped _which) (dropped_says _which (option_map seen_type _answer))) passed ≡ nothing) }
    ensures fault { IfErr result (λ fault. IsFaultOf fault (dropped_within (of_form (Form.Dropped _which) (dropped_says _which (option_map seen_type _answer))) passed)) }
{
    if passed {
        Err(LineFault::OverLimit)
    } else {
        Ok(())
    }
}

// Lets go what a refused line says. It stands apart, since a reading that may be dropped where it was read is taken to
// pieces there.
#[cold]
#[inline(never)]
fn refused(_reading: Reading, fault: LineFault) -> LineFault
    ensures { result ≡ fault }
{
    fault
}

impl State {
    // Keeps what a line says, if it passes no limit.
    #[inline(always)]
    fn keep<'a>(
        &mut self,
        alloc: Global,
        place: Place,
        line: u32,
        reading: Reading<'a>,
        passed: bool,
        readings: &mut Woven<'a>,
    ) -> Result<(), LineFault>
        requires { IsTrue (counts_fit self.old.counts) }
        ensures ok { OnOk result (AfterLine (within self.old place (seen reading.entry) passed) line self.old self.new
            (map seen_numbered readings.old) (map seen_numbered readings.new)) }
        ensures fault { IfErr result (λ fault. IsFaultOf fault (within self.old place (seen reading.entry) passed)) }
        ensures counts { OnOk result (IsTrue (counts_fit self.new.counts)) }
    {
        let counts = self.counts.with(counted_as(&reading).in_form(self.form));
        if passed || !(reading_fits(&reading) && counts.fit()) {
            return Err(refused(reading, LineFault::OverLimit));
        }
        if readings
            .push(alloc, NumberedReading { line, reading })
            .is_err()
        {
            return Err(LineFault::Memory);
        }
        self.place = place;
        self.counts = counts;
        Ok(())
    }

    // A line of tokens.
    #[tactic(auto, unfolding(crate::specs::Text::tokens_outcome))]
    fn read_tokens<'a>(
        &mut self,
        alloc: Global,
        line: Line<'a>,
        room: &mut [Token<'a>],
        readings: &mut Woven<'a>,
    ) -> Result<(), LineFault>
        requires { IsTrue (counts_fit self.old.counts) }
        ensures ok { OnOk result (AfterLine (tokens_outcome self.old (tokens line.entry.bytes.now)) line.entry.number self.old self.new
            (map seen_numbered readings.old) (map seen_numbered readings.new)) }
        ensures fault { IfErr result (λ fault. IsFaultOf fault (tokens_outcome self.old (tokens line.entry.bytes.now))) }
        ensures counts { OnOk result (IsTrue (counts_fit self.new.counts)) }
    {
        let (count, from) = line.first_tokens(room);
        let mut cursor = Cursor::of(line, &room[..count], from);
        if cursor.is_at_end() {
            return Ok(());
        }
        let Some((form, name)) = opened_form(&mut cursor, self.form) else {
            return Err(LineFault::NoReading);
        };
        let Some(place) = self.place.behind(form) else {
            return Err(LineFault::NoReading);
        };
        match form {
            Form::Dropped(which) => {
                let (answer, passed) = whole_dropped(&mut cursor, which)?;
                dropped(which, answer, passed)
            }
            // A `?` would move the reading twice more.
            _ => match kept_front(&mut cursor, alloc, form, name) {
                Ok(reading) => match cursor.end() {
                    Some(passed) => {
                        self.keep(alloc, place, line.number, reading, passed, readings)
                    }
                    None => Err(refused(reading, LineFault::NoReading)),
                },
                Err(stop) => Err(LineFault::from(stop)),
            },
        }
    }

    /// Reads a line and keeps what it says: metadata outside functions, a label, or tokens, of which the first are found
    /// into this room. Nothing is kept of a line that is empty or dropped.
    #[tactic(auto, unfolding(crate::specs::Text::outcome))]
    pub fn read<'a>(
        &mut self,
        alloc: Global,
        line: Line<'a>,
        room: &mut [Token<'a>],
        readings: &mut Woven<'a>,
    ) -> Result<(), LineFault>
        requires { IsTrue (counts_fit self.old.counts) }
        ensures ok { OnOk result (AfterLine (outcome self.old line.entry.bytes.now) line.entry.number self.old self.new
            (map seen_numbered readings.old) (map seen_numbered readings.new)) }
        ensures fault { IfErr result (λ fault. IsFaultOf fault (outcome self.old line.entry.bytes.now)) }
        ensures counts { OnOk result (IsTrue (counts_fit self.new.counts)) }
    {
        if self.place.is_top() && line.is_metadata() {
            return Ok(());
        }
        let Some(name) = line.label() else {
            return self.read_tokens(alloc, line, room, readings);
        };
        let Some(place) = self.place.behind_label() else {
            return Err(LineFault::NoReading);
        };
        let reading = NumberedReading {
            line: line.number,
            reading: Reading::Label { name },
        };
        if readings.push(alloc, reading).is_err() {
            return Err(LineFault::Memory);
        }
        self.place = place;
        self.counts = self.counts.with(Counted::Nothing);
        Ok(())
    }
}
