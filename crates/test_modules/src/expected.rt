//! What is expected of a text.

use crate::outcome::{Outcome, Step};
use ir_types::Fault;
use std::alloc::{AllocError, Global};
use std::fmt;

/// What is expected of a text.
#[derive(Drop)]
pub(crate) enum Expected {
    /// Each of its lines has a reading.
    Reads,
    /// So many of its lines have one that isn't dropped, and none lacks one.
    Readings(usize),
    /// Some line has no reading, or passes a limit.
    NoReading,
    /// It stands for a module.
    Types,
    /// This is its first fault.
    Fault(Fault),
    /// The module's printed text is this.
    Prints(Vec<u8>),
    /// The module's instructions stand at these lines.
    Lines(Vec<u32>),
}

impl fmt::Display for Expected {
    fn fmt<W: fmt::Write>(&self, f: &mut fmt::Formatter<W>) -> fmt::Result {
        match self {
            Expected::Reads => f.write_str("a reading"),
            Expected::Readings(count) => write!(f, "{count} readings"),
            Expected::NoReading => f.write_str("no reading"),
            Expected::Types => f.write_str("a module"),
            Expected::Fault(fault) => write!(f, "code {} at line {}", fault.code, fault.line),
            Expected::Prints(text) => write!(f, "{} bytes printed", text.len()),
            Expected::Lines(lines) => write!(f, "instructions at lines {lines:?}"),
        }
    }
}

impl Expected {
    /// What these words expect of the text, or nothing. A printed text that isn't the text itself comes later.
    pub(crate) fn of(
        alloc: Global,
        words: &str,
        text: &[u8],
    ) -> Result<Option<Expected>, AllocError> {
        if let Some(fault) = words.strip_prefix("code ") {
            return Ok(fault_of(fault).map(Expected::Fault));
        }
        if let Some(lines) = words.strip_prefix("instructions at lines ") {
            return Ok(lines_of(alloc, lines)?.map(Expected::Lines));
        }
        if let Some(count) = words.strip_suffix(" readings") {
            return Ok(count.parse::<usize>().ok().map(Expected::Readings));
        }
        Ok(match words {
            "reads" => Some(Expected::Reads),
            "no reading" => Some(Expected::NoReading),
            "types" => Some(Expected::Types),
            "prints" => Some(Expected::Prints(Vec::new(alloc))),
            "prints itself" => Some(Expected::Prints(Vec::from_slice(alloc, text)?)),
            _ => None,
        })
    }

    /// How far the text must be worked on.
    pub(crate) fn step(&self) -> Step {
        match self {
            Expected::Reads | Expected::Readings(_) | Expected::NoReading => Step::Reading,
            Expected::Types | Expected::Fault(_) => Step::Typing,
            Expected::Prints(_) => Step::Printing,
            Expected::Lines(_) => Step::Lines,
        }
    }

    /// Whether this is what became of the text.
    pub(crate) fn holds(&self, outcome: &Outcome) -> bool {
        match (self, outcome) {
            (Expected::Reads, Outcome::Readings(_)) => true,
            (Expected::Readings(one), Outcome::Readings(other)) => one == other,
            (Expected::NoReading, Outcome::Fault(_)) => true,
            (Expected::Types, Outcome::Module) => true,
            (Expected::Fault(one), Outcome::Fault(other)) => one == other,
            (Expected::Prints(one), Outcome::Printed(other)) => one == other,
            (Expected::Lines(one), Outcome::Lines(other)) => one == other,
            _ => false,
        }
    }
}

// `CODE at line LINE`.
fn fault_of(words: &str) -> Option<Fault> {
    let (code, line) = words.split_once(" at line ")?;
    Some(Fault {
        line: line.parse().ok()?,
        code: code.parse().ok()?,
    })
}

// Numbers with one blank between two.
fn lines_of(alloc: Global, words: &str) -> Result<Option<Vec<u32>>, AllocError> {
    let mut lines = Vec::new(alloc);
    for word in words.split(' ') {
        match word.parse::<u32>() {
            Ok(line) => lines.push(line)?,
            Err(_) => return Ok(None),
        }
    }
    Ok(Some(lines))
}
