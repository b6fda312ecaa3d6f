//! Texts as they are written in a file of cases. `\n`, `\t`, `\r`, `\s` and `\\` are an end of a line, a tab, a carriage
//! return, a blank and a backslash, a backslash at the end of a line joins it to the next, and `\9<` and `\>` stand
//! around what is there nine times. Repetitions may stand in one another.

use case_files::Refusal;
use std::alloc::{AllocError, Global};
use std::mem;

// A repetition that isn't closed yet.
#[derive(Drop)]
struct Open {
    times: u32,
    // what stands before it
    before: Vec<u8>,
}

// What a byte is part of.
#[derive(Clone, Copy)]
enum Place {
    Plain,
    // behind a backslash
    Escape,
    // in the number of a repetition, which is this so far
    Times(u32),
}

#[derive(Drop)]
struct Writer {
    alloc: Global,
    // that of the part or the row
    line: u32,
    text: Vec<u8>,
    open: Vec<Open>,
    place: Place,
}

impl Writer {
    fn take(&mut self, byte: u8) -> Result<(), Refusal> {
        match self.place {
            Place::Plain if byte == b'\\' => {
                self.place = Place::Escape;
                Ok(())
            }
            Place::Plain => self.add(byte),
            Place::Escape => self.take_escape(byte),
            Place::Times(times) => self.take_times(times, byte),
        }
    }

    fn add(&mut self, byte: u8) -> Result<(), Refusal> {
        self.place = Place::Plain;
        self.text.push(byte)?;
        Ok(())
    }

    fn take_escape(&mut self, byte: u8) -> Result<(), Refusal> {
        match byte {
            b'n' => self.add(b'\n'),
            b't' => self.add(b'\t'),
            b'r' => self.add(b'\r'),
            b's' => self.add(b' '),
            b'\\' => self.add(b'\\'),
            b'\n' => {
                self.place = Place::Plain;
                Ok(())
            }
            b'>' => self.close(),
            _ => self.take_times(0, byte),
        }
    }

    fn take_times(&mut self, times: u32, byte: u8) -> Result<(), Refusal> {
        match byte {
            b'0'..=b'9' => {
                let digit = u32::from(byte - b'0');
                self.place = Place::Times(times.saturating_mul(10).saturating_add(digit));
                Ok(())
            }
            b'<' => self.open(times),
            _ => Err(Refusal::Words(self.line)),
        }
    }

    fn open(&mut self, times: u32) -> Result<(), Refusal> {
        self.place = Place::Plain;
        let before = mem::replace(&mut self.text, Vec::new(self.alloc));
        self.open.push(Open { times, before })?;
        Ok(())
    }

    fn close(&mut self) -> Result<(), Refusal> {
        self.place = Place::Plain;
        let Some(Open { times, before }) = self.open.pop() else {
            return Err(Refusal::Words(self.line));
        };
        let repeated = mem::replace(&mut self.text, before);
        add_times(&mut self.text, &repeated, times)?;
        Ok(())
    }

    fn whole(self) -> Result<Vec<u8>, Refusal> {
        if matches!(self.place, Place::Plain) && self.open.is_empty() {
            Ok(self.text)
        } else {
            Err(Refusal::Words(self.line))
        }
    }
}

fn add_times(text: &mut Vec<u8>, part: &[u8], times: u32) -> Result<(), AllocError> {
    for _ in 0..times {
        text.extend_from_slice(part)?;
    }
    Ok(())
}

/// The text that stands there so written, in the part or row of this line.
pub(crate) fn unescaped(alloc: Global, line: u32, written: &[u8]) -> Result<Vec<u8>, Refusal> {
    let mut writer = Writer {
        alloc,
        line,
        text: Vec::new(alloc),
        open: Vec::new(alloc),
        place: Place::Plain,
    };
    for byte in written {
        writer.take(*byte)?;
    }
    writer.whole()
}
