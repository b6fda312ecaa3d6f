//! What is said of a refusal, a line for each reason: `LINE: what it is: what helps`.

use crate::refusals::Refusal;
use itoa::Buffer;
use llvm_features::Reason;
use std::alloc::{AllocError, Global};

/// The lines of a refusal.
pub fn notes_of(alloc: Global, refusal: &Refusal) -> Result<Vec<u8>, AllocError> {
    let mut lines = Vec::new(alloc);
    match refusal {
        Refusal::Outside(reasons) => push_reasons(&mut lines, reasons.as_slice())?,
        Refusal::Fault(fault) => {
            let (what, help) = fault_words(fault.code);
            push_note(&mut lines, fault.line, what, help)?;
        }
        Refusal::TooLong => lines.extend_from_slice(b"too long: what is lifted\n")?,
        Refusal::Memory => lines.extend_from_slice(b"out of memory\n")?,
    }
    Ok(lines)
}

fn push_reasons(lines: &mut Vec<u8>, reasons: &[Reason]) -> Result<(), AllocError> {
    for reason in reasons {
        push_note(
            lines,
            reason.line,
            reason.feature.what(),
            reason.feature.help(),
        )?;
    }
    Ok(())
}

fn push_note(lines: &mut Vec<u8>, line: u32, what: &str, help: &str) -> Result<(), AllocError> {
    let mut room = Buffer::new();
    lines.extend_from_slice(room.format(line).as_bytes())?;
    lines.extend_from_slice(b": ")?;
    lines.extend_from_slice(what.as_bytes())?;
    lines.extend_from_slice(b": ")?;
    lines.extend_from_slice(help.as_bytes())?;
    lines.push(b'\n')?;
    Ok(())
}

/// What the faults of the profile are that a lifted text can have, and what helps.
pub fn fault_words(code: u8) -> (&'static str, &'static str) {
    match code {
        1 => ("1 Syntax", "a line that docs/PROFILE.md has"),
        2 => ("2 Limit", "smaller functions, and widths up to 64"),
        3 => ("3 NameTwice", "a name of its own"),
        4 => ("4 UnknownName", "its definition in the module"),
        5 => (
            "5 TypeClash",
            "fields as long and pointers of address space 1",
        ),
        9 => ("9 DerivedEscapes", "pass the object and the index"),
        11 => ("11 NoMain", "int main(void)"),
        12 => ("12 UnknownExtern", "its definition in the module"),
        13 => (
            "13 BadLayout",
            "fields as long and pointers of address space 1",
        ),
        16 => ("16 PointerCast", "a field that holds the number"),
        _ => ("a fault of the profile", "the rules of docs/PROFILE.md"),
    }
}
