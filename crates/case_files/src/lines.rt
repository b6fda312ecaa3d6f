//! The lines of a file of cases, and the text that lines stand for.

ghost use Rattle.std.specs.Prelude.{◌≡◌, ◌≤◌, ◌++◌, length, map, IfOk, IfErr, OnOk};
ghost use Rattle.sp_ids.specs.declared.limits.TheConstants.{FILE_BYTES};
ghost use Rattle.sp_text.specs.Lines.{lines_of};
ghost use Rattle.case_files.specs.Files.{shown_line, text_of, without_empty_ends};
ghost use Rattle.case_files.specs.Refusals.{IsLineRefusal, IsCause};

use crate::refusals::Refusal;
use sp_text::{Line, Lines};
use std::alloc::{AllocError, Global};

/// A line of a file of cases, without its end.
#[derive(Clone, Copy, Debug)]
pub struct CaseLine<'a> {
    /// Its place in the file, counted from 1.
    pub number: u32,
    pub text: &'a str,
}

/// The lines of a file, or the first that isn't UTF-8.
pub fn case_lines(alloc: Global, file: &[u8]) -> Result<Vec<CaseLine<'_>>, Refusal>
    requires { length file.now ≤ FILE_BYTES }
    ensures read { IfOk result (λ lines. map shown_line lines.items ≡ lines_of file.now) }
    ensures refused { IfErr result (IsCause (lines_of file.now)) }
{
    let mut lines = Vec::new(alloc);
    let mut left = Lines::of(file);
    while let Some(line) = left.next_line() {
        lines.push(case_line(line)?)?;
    }
    Ok(lines)
}

fn case_line(line: Line<'_>) -> Result<CaseLine<'_>, Refusal>
    ensures read { IfOk result (λ read. shown_line read ≡ record { number = line.entry.number; bytes = line.entry.bytes.now }) }
    ensures refused { IfErr result (IsLineRefusal line.entry.number line.entry.bytes.now) }
{
    match str::from_utf8(line.bytes) {
        Ok(text) => Ok(CaseLine {
            number: line.number,
            text,
        }),
        Err(_) => Err(Refusal::NotText(line.number)),
    }
}

/// The lines without the empty ones at their end.
pub fn filled<'l, 'a>(lines: &'l [CaseLine<'a>]) -> &'l [CaseLine<'a>]
    ensures { map shown_line result.now ≡ without_empty_ends (map shown_line lines.now) }
{
    match lines {
        [front @ .., last] if last.text.is_empty() => filled(front),
        _ => lines,
    }
}

/// Puts the lines behind a text, each with a newline.
pub fn push_text(text: &mut Vec<u8>, lines: &[CaseLine]) -> Result<(), AllocError>
    ensures { OnOk result (text.new.items ≡ text.old.items ++ text_of (map shown_line lines.now)) }
{
    for line in lines {
        text.extend_from_slice(line.text.as_bytes())?;
        text.push(b'\n')?;
    }
    Ok(())
}
