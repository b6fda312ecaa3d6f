//! Files of cases: texts of rewritten modules, and behind each what is asked of its first function.

ghost use Rattle.std.specs.Prelude.{◌≤◌, length};
ghost use Rattle.sp_ids.specs.declared.limits.TheConstants.{FILE_BYTES};

use case_files::{CaseLine, Part, Refusal, case_lines, parts_in, push_text, rows_in, three_cells};
use ir_ast::Operand;
use pair_facts::Base;
use place_facts::Question;
use sp_ids::ValueId;
use std::alloc::Global;

/// What is asked of a function.
#[derive(Drop)]
pub(crate) struct Asking<'a> {
    /// The line of its title.
    pub(crate) line: u32,
    pub(crate) text: Vec<u8>,
    pub(crate) cases: Vec<Case<'a>>,
}

/// A question, with the answer that is expected.
#[derive(Clone, Copy)]
pub(crate) struct Case<'a> {
    pub(crate) line: u32,
    pub(crate) question: Question,
    pub(crate) expected: &'a str,
}

/// What a file asks: `=module` has the text of a module, and each title behind it rows of questions.
pub(crate) fn askings_of(alloc: Global, file: &[u8]) -> Result<Vec<Asking<'_>>, Refusal>
    requires { length file.now ≤ FILE_BYTES }
{
    let lines = case_lines(alloc, file)?;
    let mut askings = Vec::new(alloc);
    let mut text = Vec::new(alloc);
    for part in &parts_in(alloc, &lines)? {
        if part.head == "module" {
            text = text_of(alloc, part)?;
        } else {
            askings.push(asking_of(alloc, &text, part)?)?;
        }
    }
    Ok(askings)
}

fn text_of(alloc: Global, part: &Part) -> Result<Vec<u8>, Refusal> {
    let mut text = Vec::new(alloc);
    push_text(&mut text, part.body)?;
    Ok(text)
}

fn asking_of<'a>(alloc: Global, text: &[u8], part: &Part<'_, 'a>) -> Result<Asking<'a>, Refusal> {
    if !part.head.starts_with(' ') {
        return Err(Refusal::Head(part.line));
    }
    let mut cases = Vec::new(alloc);
    for row in &rows_in(alloc, part.body)? {
        cases.push(case_of(row)?)?;
    }
    Ok(Asking {
        line: part.line,
        text: Vec::from_slice(alloc, text)?,
        cases,
    })
}

fn case_of<'a>(row: &CaseLine<'a>) -> Result<Case<'a>, Refusal> {
    let (place, pair, expected) = three_cells(row)?;
    match question_of(place, pair) {
        Some(question) => Ok(Case {
            line: row.number,
            question,
            expected,
        }),
        None => Err(Refusal::Words(row.number)),
    }
}

fn question_of(place: &str, pair: &str) -> Option<Question> {
    let (pointer, base) = pair.split_once(' ')?;
    Some(Question {
        place: place.parse::<u32>().ok()?,
        pointer: operand_of(pointer)?,
        base: base_of(base)?,
    })
}

fn base_of(word: &str) -> Option<Base> {
    if word == "any" {
        Some(Base::Any)
    } else {
        Some(Base::Named(operand_of(word)?))
    }
}

// A value by its number, arguments first.
fn operand_of(word: &str) -> Option<Operand> {
    if word == "null" {
        Some(Operand::Null)
    } else {
        Some(Operand::Value(ValueId(word.parse::<u32>().ok()?)))
    }
}
