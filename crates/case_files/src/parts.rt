//! The parts of a file of cases.

ghost use Rattle.std.specs.Prelude.{◌≡◌, ◌++◌, map, IfOk, OnOk};
ghost use Rattle.std.specs.Option.{option_to_list};
ghost use Rattle.case_files.specs.Files.{shown_line, body_of, part_at, parts_of};
ghost use Rattle.case_files.specs.Shown.{shown_part};

use crate::lines::CaseLine;
use crate::refusals::Refusal;
use std::alloc::Global;

/// A part of a file of cases.
#[derive(Clone, Copy, Debug)]
pub struct Part<'l, 'a> {
    /// The number of the line that opens it.
    pub line: u32,
    /// What stands in that line behind `=`.
    pub head: &'a str,
    /// The lines up to the next one that opens a part.
    pub body: &'l [CaseLine<'a>],
}

/// The parts that these lines have, in their order. What stands before the first is for readers.
pub fn parts_in<'l, 'a>(
    alloc: Global,
    lines: &'l [CaseLine<'a>],
) -> Result<Vec<Part<'l, 'a>>, Refusal>
    ensures { IfOk result (λ parts. map shown_part parts.items ≡ parts_of (map shown_line lines.now)) }
{
    let mut parts = Vec::new(alloc);
    let mut left = lines;
    while let [line, behind @ ..] = left {
        push_part(&mut parts, line, behind)?;
        left = behind;
    }
    Ok(parts)
}

// Puts the part behind the others that a line before these lines opens, if it opens one.
fn push_part<'l, 'a>(
    parts: &mut Vec<Part<'l, 'a>>,
    line: &CaseLine<'a>,
    behind: &'l [CaseLine<'a>],
) -> Result<(), Refusal>
    ensures { OnOk result (map shown_part parts.new.items ≡ map shown_part parts.old.items ++ option_to_list (part_at (shown_line line.now) (map shown_line behind.now))) }
{
    let Some(head) = line.text.strip_prefix('=') else {
        return Ok(());
    };
    parts.push(Part {
        line: line.number,
        head,
        body: body_of(behind),
    })?;
    Ok(())
}

// The lines up to the next one that opens a part.
fn body_of<'l, 'a>(lines: &'l [CaseLine<'a>]) -> &'l [CaseLine<'a>]
    ensures { map shown_line result.now ≡ body_of (map shown_line lines.now) }
{
    let mut end = 0;
    for line in lines {
        if line.text.starts_with('=') {
            return &lines[..end];
        }
        end += 1;
    }
    lines
}
