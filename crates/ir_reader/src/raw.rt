//! The readings of a text, kept with it.

ghost use Rattle.std.specs.Prelude.{◌≡◌};

use crate::woven::Woven;
use ir_ast::Form;
use line_forms::Reading;
use std::marker::Model;

/// What a line says, with the line's number.
#[derive(Drop)]
pub struct NumberedReading<'a> {
    pub line: u32,
    pub reading: Reading<'a>,
}

/// The readings of all lines of a text that are neither empty nor dropped. The text is within the file limit, and
/// nothing in it passes a limit.
#[derive(Drop)]
pub struct Raw<'a> {
    text: &'a [u8],
    form: Form,
    readings: Woven<'a>,
}

impl<'a> Model for Raw<'a> {
    ghost use Rattle.ir_reader.specs.Raws.{Readings, IsRead};

    ghost Value = { Readings };

    ghost view = { λ raw. record { text = raw.text.now; form = raw.form; lines = raw.readings } };

    ghost invariant = { λ raw. IsRead (record { text = raw.text.now; form = raw.form; lines = raw.readings }) };
}

impl<'a> Raw<'a> {
    ghost use Rattle.ir_reader.specs.Raws.{Readings, IsRead};

    pub(crate) fn of(text: &'a [u8], form: Form, readings: Woven<'a>) -> Raw<'a>
        requires { IsRead (record { text = text.now; form = form; lines = readings }) }
        ensures { result ≡ record { text = text.entry.now; form = form; lines = readings.entry } }
    {
        Raw {
            text,
            form,
            readings,
        }
    }

    /// The form that the text was read in.
    pub fn form(&self) -> Form
        ensures { result ≡ self.now.form }
    {
        self.form
    }

    /// The text.
    pub fn text(&self) -> &'a [u8]
        ensures { result.now ≡ self.now.text }
    {
        self.text
    }

    /// Gives the readings up.
    pub fn into_lines(self) -> Woven<'a>
        ensures lines { result ≡ self.entry.lines }
        ensures read { IsRead self.entry }
    {
        self.readings
    }
}
