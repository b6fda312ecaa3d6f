//! The lines of the cases of the instructions of a function.

ghost use Rattle.std.specs.Prelude.{◌≡◌, ◌≢◌, ◌↔◌, [], ◌∷◌, ◌++◌, map, IsTrue, IfOk, OnOk, if◌then◌else◌};
ghost use Rattle.ir_lines.specs.Notes.{Notes};
ghost use Rattle.ir_lines.specs.ReadLines.{is_instruction};
ghost use Rattle.ir_lines.specs.Sections.{cases_of};
ghost use Rattle.ir_lines.specs.Views.{said, seen_lines};
ghost use Rattle.ir_resolve.specs.Resolved.{case_lines};
ghost use Rattle.text_resolve.specs.Lost.{OtherWidths, WidthsBehind, BodyWidths};
ghost use Rattle.text_resolve.specs.Rows.{row_said, rows_of};

use case_lines::CaseLines;
use ir_lines::best::First;
use ir_reader::{NumberedReading, Reading, Width};
use module_build::lines::{behind, is_instruction};
use std::alloc::{AllocError, Global};

fn is_other(width: u32, other: u32) -> bool
    ensures { IsTrue result ↔ (other ≢ width) }
{
    other != width
}

// Adds the lines of the cases that stand first behind a `switch` of this width, and notes those of another width.
fn note_cases(
    width: Width,
    behind: &[NumberedReading],
    row: &mut Vec<u32>,
    first: &mut First,
) -> Result<(), AllocError>
    ensures row { OnOk result (row.new.items ≡ row.old.items ++ map (λ l. l.number) (cases_of (seen_lines behind.now))) }
    ensures noted { OnOk result (Notes first.old.found first.new.found (OtherWidths width.bits (cases_of (seen_lines behind.now)))) }
{
    for line in behind {
        let Reading::Case {
            width: case_width,
            ..
        } = &line.reading
        else {
            return Ok(());
        };
        row.push(line.line)?;
        first.note_if(is_other(width.bits, case_width.bits), line.line, 5);
    }
    Ok(())
}

// Adds the lines of the cases of a `switch` of this width, and notes those of another width.
fn note_switch(
    alloc: Global,
    width: Width,
    behind: &[NumberedReading],
    cases: &mut CaseLines,
    first: &mut First,
) -> Result<(), AllocError>
    ensures cases { OnOk result (cases.new ≡ cases.old ++ map (λ l. l.number) (cases_of (seen_lines behind.now)) ∷ []) }
    ensures noted { OnOk result (Notes first.old.found first.new.found (OtherWidths width.bits (cases_of (seen_lines behind.now)))) }
{
    let mut row = Vec::new(alloc);
    note_cases(width, behind, &mut row, first)?;
    cases.push(row.as_slice())
}

// Adds the lines of the cases of a line that is no `switch`, where it stands for an instruction: there are none.
fn push_none(reading: &Reading, cases: &mut CaseLines) -> Result<(), AllocError>
    ensures { OnOk result (cases.new ≡ cases.old ++ (if is_instruction (said reading.now) then [] ∷ [] else [])) }
{
    if is_instruction(reading) {
        cases.push_none()?;
    }
    Ok(())
}

// Adds the lines of the cases of a line, and notes those of another width.
fn note_one(
    alloc: Global,
    reading: &Reading,
    behind: &[NumberedReading],
    cases: &mut CaseLines,
    first: &mut First,
) -> Result<(), AllocError>
    ensures cases { OnOk result (cases.new ≡ cases.old ++ row_said (seen_lines behind.now) (said reading.now)) }
    ensures noted { OnOk result (Notes first.old.found first.new.found (WidthsBehind (said reading.now) (seen_lines behind.now))) }
{
    match reading {
        Reading::Switch { width, .. } => note_switch(alloc, *width, behind, cases, first),
        _ => push_none(reading, cases),
    }
}

/// The lines of the cases of each instruction of these lines; notes the cases of another width than their `switch`.
pub(crate) fn note_body(
    alloc: Global,
    body: &[NumberedReading],
    first: &mut First,
) -> Result<CaseLines, AllocError>
    ensures cases { IfOk result (λ cases. cases ≡ rows_of (seen_lines body.now)) }
    ensures noted { OnOk result (Notes first.old.found first.new.found (BodyWidths (seen_lines body.now))) }
{
    let mut cases = CaseLines::with_room(alloc, body.len())?;
    for (i, line) in body.iter().enumerate() {
        note_one(alloc, &line.reading, behind(body, i), &mut cases, first)?;
    }
    Ok(cases)
}
