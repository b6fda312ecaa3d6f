//! Inputs: the numbers that a program reads.

ghost use Rattle.std.specs.Prelude.{◌≡◌, ◌≤◌, ◌-◌, length, IfOk, IfErr, OnOk, MatchOption};
ghost use Rattle.move_plan.specs.Texts.{HasNoReading};
ghost use Rattle.move_plan.specs.InputNumbers.{Holds};
ghost use Rattle.move_plan.specs.Inputs.{HasNoInputFault, IsInputFaultOf, IsInputOf};
ghost use Rattle.move_plan.specs.InputSteps.{StopsAtNumber, TakesNumber};

use crate::faults::InputFault;
use crate::numbers::signed_number;
use crate::words::first_word;
use sp_ids::limits::{FILE_BYTES, INPUT_NUMBERS};
use sp_text::{Line, Lines};
use std::alloc::Global;

/// The numbers that a text of at most [`FILE_BYTES`] bytes holds, one on each line that isn't blank; or the first line that
/// is neither blank nor a number, or that holds the first number too many. [`InputFault::Memory`] says nothing of the text.
pub fn read_input(alloc: Global, text: &[u8]) -> Result<Vec<i64>, InputFault>
    requires { length text.now ≤ FILE_BYTES }
    ensures input { IfOk result (λ numbers. IsInputOf text.now numbers.items) }
    ensures few { IfOk result (λ numbers. length numbers.items ≤ 1048576) }
    ensures faultless { OnOk result (HasNoInputFault text.now) }
    ensures fault { IfErr result (IsInputFaultOf text.now) }
{
    let mut lines = Lines::of(text);
    let mut numbers = Vec::new(alloc);
    while let Some(line) = lines.next_line() {
        take_line(&mut numbers, line)?;
    }
    Ok(numbers)
}

// Reads one more line behind those that held some numbers.
fn take_line(numbers: &mut Vec<i64>, line: Line<'_>) -> Result<(), InputFault>
    ensures ok { OnOk result (TakesNumber numbers.old.items line.entry.bytes.now numbers.new.items) }
    ensures err { IfErr result (StopsAtNumber numbers.old.items line.entry.number line.entry.bytes.now) }
{
    let fault = InputFault::Line { line: line.number };
    let Some(held) = held_number(line.bytes) else {
        return Err(fault);
    };
    if let Some(number) = held {
        if numbers.len() >= INPUT_NUMBERS as usize {
            return Err(fault);
        }
        numbers.push(number)?;
    }
    Ok(())
}

// The number that a line holds, where it has a reading; a blank line holds none.
fn held_number(line: &[u8]) -> Option<Option<i64>>
    ensures { MatchOption result (HasNoReading Holds line.now) (Holds line.now) }
{
    let Some((word, rest)) = first_word(line) else {
        return Some(None);
    };
    match first_word(rest) {
        None => Some(Some(signed_number(word)?)),
        Some(_) => None,
    }
}
