//! Cases, a row each: what is asked, the text, and what must be found.

ghost use Rattle.std.specs.Prelude.{◌≤◌, length};
ghost use Rattle.sp_ids.specs.declared.limits.TheConstants.{FILE_BYTES};

use crate::commands::found_in_words;
use crate::plans::{found_in_input, found_in_plan};
use crate::spelled::{spelled_text, spelled_words};
use case_files::{CaseLine, Part, Refusal, case_lines, parts_in, rows_in, three_cells};
use sp_ids::limits::FILE_BYTES;
use std::alloc::{AllocError, Global};

/// What is asked of a text.
#[derive(Clone, Copy)]
pub(crate) enum Asked {
    Plan(OfPlan),
    Input(OfInput),
    /// The command that the words of the text give.
    Words,
}

/// What is asked of a plan: its lines, how many they are, or what they say of an event.
#[derive(Clone, Copy)]
pub(crate) enum OfPlan {
    Lines,
    Count,
    Group(u64),
    Go(u64),
    Flips(u64),
}

/// What is asked of an input: its numbers, or how many they are.
#[derive(Clone, Copy)]
pub(crate) enum OfInput {
    Numbers,
    Count,
}

/// A case.
#[derive(Clone, Copy)]
pub(crate) struct Case<'a> {
    /// Its line in the file of cases.
    pub(crate) line: u32,
    pub(crate) expected: &'a str,
    asked: Asked,
    spelled: &'a str,
}

/// The cases of a file. Each part has a title, and rows.
pub(crate) fn cases_of(alloc: Global, file: &[u8]) -> Result<Vec<Case<'_>>, Refusal>
    requires { length file.now ≤ FILE_BYTES }
{
    let lines = case_lines(alloc, file)?;
    let mut cases = Vec::new(alloc);
    for part in &parts_in(alloc, &lines)? {
        add_cases(alloc, &mut cases, part)?;
    }
    Ok(cases)
}

fn add_cases<'a>(
    alloc: Global,
    cases: &mut Vec<Case<'a>>,
    part: &Part<'_, 'a>,
) -> Result<(), Refusal> {
    if !part.head.starts_with(' ') {
        return Err(Refusal::Head(part.line));
    }
    for row in &rows_in(alloc, part.body)? {
        cases.push(Case::of(row)?)?;
    }
    Ok(())
}

impl<'a> Case<'a> {
    fn of(row: &CaseLine<'a>) -> Result<Case<'a>, Refusal> {
        let (asked, spelled, expected) = three_cells(row)?;
        let Some(asked) = asked_by(asked) else {
            return Err(Refusal::Words(row.number));
        };
        Ok(Case {
            line: row.number,
            expected,
            asked,
            spelled,
        })
    }

    // What is found in the text.
    pub(crate) fn found(&self, alloc: Global) -> Result<String, AllocError> {
        let text = spelled_text(alloc, self.spelled.as_bytes())?;
        if text.len() as u64 > FILE_BYTES {
            return String::from_str(alloc, "too long");
        }
        match self.asked {
            Asked::Plan(asked) => found_in_plan(alloc, asked, &text),
            Asked::Input(asked) => found_in_input(alloc, asked, &text),
            Asked::Words => {
                found_in_words(alloc, &spelled_words(alloc, self.spelled.as_bytes())?)
            }
        }
    }
}

fn asked_by(words: &str) -> Option<Asked> {
    match words {
        "plan" => Some(Asked::Plan(OfPlan::Lines)),
        "lines" => Some(Asked::Plan(OfPlan::Count)),
        "input" => Some(Asked::Input(OfInput::Numbers)),
        "numbers" => Some(Asked::Input(OfInput::Count)),
        "words" => Some(Asked::Words),
        _ => asked_of_event(words),
    }
}

fn asked_of_event(words: &str) -> Option<Asked> {
    let (word, event) = words.split_once(' ')?;
    let event = event.parse::<u64>().ok()?;
    match word {
        "group" => Some(Asked::Plan(OfPlan::Group(event))),
        "go" => Some(Asked::Plan(OfPlan::Go(event))),
        "flips" => Some(Asked::Plan(OfPlan::Flips(event))),
        _ => None,
    }
}
