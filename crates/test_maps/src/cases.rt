//! Cases, a row each: a map's name with what is changed in it, what is asked, and what must be found.

ghost use Rattle.std.specs.Prelude.{◌≤◌, length};
ghost use Rattle.sp_ids.specs.declared.limits.TheConstants.{FILE_BYTES};

use crate::bases::Bases;
use crate::found::{
    found_at, found_entry, lent_and_changed, listed_by, shown_cuts, shown_functions, shown_records,
    shown_view,
};
use crate::words::{cut, hexadecimal, number};
use case_files::{CaseLine, Part, Refusal, case_lines, parts_in, rows_in, three_cells};
use std::alloc::{AllocError, Global};

/// What is asked of a map.
#[derive(Clone, Copy)]
pub(crate) enum Asked {
    View,
    Cuts,
    Functions,
    Records,
    Entry(u64),
    Find(u64),
    Lend(u64),
    Listed(u64),
}

/// A case.
#[derive(Clone, Copy)]
pub(crate) struct Case<'a> {
    /// Its line in the file of cases.
    pub(crate) line: u32,
    pub(crate) expected: &'a str,
    spelled: &'a str,
    asked: Asked,
}

/// What a file of cases has: maps with names, and cases of them.
#[derive(Drop)]
pub(crate) struct Sheet<'a> {
    pub(crate) bases: Bases,
    pub(crate) cases: Vec<Case<'a>>,
}

/// What is read of a file: parts with a map each, and parts with a title and rows.
pub(crate) fn sheet_of(alloc: Global, file: &[u8]) -> Result<Sheet<'_>, Refusal>
    requires { length file.now ≤ FILE_BYTES }
{
    let lines = case_lines(alloc, file)?;
    let mut sheet = Sheet {
        bases: Bases::new(alloc),
        cases: Vec::new(alloc),
    };
    for part in &parts_in(alloc, &lines)? {
        sheet.take(alloc, part)?;
    }
    Ok(sheet)
}

impl<'a> Sheet<'a> {
    fn take(&mut self, alloc: Global, part: &Part<'_, 'a>) -> Result<(), Refusal> {
        match part.head.split_once(' ') {
            Some(("map", name)) => {
                self.bases.add(alloc, name, part.body)?;
                Ok(())
            }
            Some(("", _title)) => self.add_cases(alloc, part.body),
            _ => Err(Refusal::Head(part.line)),
        }
    }

    fn add_cases(&mut self, alloc: Global, body: &[CaseLine<'a>]) -> Result<(), Refusal> {
        for row in &rows_in(alloc, body)? {
            self.cases.push(Case::of(row)?)?;
        }
        Ok(())
    }
}

impl<'a> Case<'a> {
    fn of(row: &CaseLine<'a>) -> Result<Case<'a>, Refusal> {
        let (spelled, asked, expected) = three_cells(row)?;
        let Some(asked) = asked_by(asked) else {
            return Err(Refusal::Words(row.number));
        };
        Ok(Case {
            line: row.number,
            expected,
            spelled,
            asked,
        })
    }

    // What is found in the map.
    pub(crate) fn found(&self, alloc: Global, bases: &Bases) -> Result<String, AllocError> {
        let mut bytes = spelled_map(alloc, bases, self.spelled)?;
        match self.asked {
            Asked::View => shown_view(alloc, &bytes),
            Asked::Cuts => shown_cuts(alloc, &bytes),
            Asked::Functions => shown_functions(alloc, &bytes),
            Asked::Records => shown_records(alloc, &bytes),
            Asked::Entry(index) => found_entry(alloc, &bytes, index),
            Asked::Find(address) => found_at(alloc, &bytes, address),
            Asked::Lend(address) => lent_and_changed(alloc, &mut bytes, address),
            Asked::Listed(index) => listed_by(alloc, &bytes, index),
        }
    }
}

fn asked_by(words: &str) -> Option<Asked> {
    match words {
        "view" => Some(Asked::View),
        "cuts" => Some(Asked::Cuts),
        "functions" => Some(Asked::Functions),
        "records" => Some(Asked::Records),
        _ => asked_at(words),
    }
}

fn asked_at(words: &str) -> Option<Asked> {
    let (word, place) = words.split_once(' ')?;
    let place = place.parse::<u64>().ok()?;
    match word {
        "entry" => Some(Asked::Entry(place)),
        "find" => Some(Asked::Find(place)),
        "lend" => Some(Asked::Lend(place)),
        "listed" => Some(Asked::Listed(place)),
        _ => None,
    }
}

// The map that the first word names, changed as the others say: `-N` keeps the first N bytes, `PLACE=DIGITS` puts bytes into a place,
// `+DIGITS` puts bytes at the end.
fn spelled_map(alloc: Global, bases: &Bases, spelled: &str) -> Result<Vec<u8>, AllocError> {
    let (name, changes) = spelled.split_once(' ').unwrap_or((spelled, ""));
    let mut bytes = Vec::from_slice(alloc, bases.named(name).unwrap_or(&[]))?;
    for word in changes.as_bytes().split(|b| *b == b' ') {
        change(alloc, &mut bytes, word)?;
    }
    Ok(bytes)
}

fn change(alloc: Global, bytes: &mut Vec<u8>, word: &[u8]) -> Result<(), AllocError> {
    match word {
        [b'+', digits @ ..] => bytes.extend_from_slice(&hexadecimal(alloc, digits)?),
        [b'-', length @ ..] => {
            bytes.truncate(number(length).unwrap_or(0) as usize);
            Ok(())
        }
        _ => {
            if let Some((place, digits)) = cut(word, b'=') {
                let place = number(place).unwrap_or(0) as usize;
                put(bytes, place, &hexadecimal(alloc, digits)?);
            }
            Ok(())
        }
    }
}

// Puts bytes into a place, as far as there is room.
fn put(bytes: &mut Vec<u8>, place: usize, new: &[u8]) {
    for (i, b) in new.iter().enumerate() {
        let at = place.saturating_add(i);
        if at < bytes.len() {
            bytes[at] = *b;
        }
    }
}
