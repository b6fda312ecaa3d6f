//! Rows: lines whose cells stand between bars.

ghost use Rattle.std.specs.Prelude.{◌≡◌, ◌<◌, ℕ, List, [], ◌∷◌, ◌++◌, length, map, IfOk, IfErr, OnOk, OnErr, MatchOption};
ghost use Rattle.std.specs.Str.{trim};
ghost use Rattle.std.specs.List.{before_first, after_first};
ghost use Rattle.case_files.specs.Files.{shown_line};
ghost use Rattle.case_files.specs.Rows.{is_bar, HasBar, HasNoBar, IsRow, rows_of};
ghost use Rattle.case_files.specs.declared.refusals.Refusal.TheVariants.{Cells};

use crate::lines::CaseLine;
use crate::refusals::Refusal;
use std::alloc::Global;

/// The rows of a part: its lines that aren't empty.
pub fn rows_in<'a>(alloc: Global, body: &[CaseLine<'a>]) -> Result<Vec<CaseLine<'a>>, Refusal>
    ensures { IfOk result (λ rows. map shown_line rows.items ≡ rows_of (map shown_line body.now)) }
{
    let mut rows = Vec::new(alloc);
    for line in body {
        push_row(&mut rows, *line)?;
    }
    Ok(rows)
}

fn push_row<'a>(rows: &mut Vec<CaseLine<'a>>, line: CaseLine<'a>) -> Result<(), Refusal>
    ensures { OnOk result (map shown_line rows.new.items ≡ map shown_line rows.old.items ++ rows_of (shown_line line.entry ∷ [])) }
{
    if !line.text.is_empty() {
        rows.push(line)?;
    }
    Ok(())
}

/// The two cells of a row.
pub fn two_cells<'a>(row: &CaseLine<'a>) -> Result<(&'a str, &'a str), Refusal>
    ensures row { IfOk result (λ cells. IsRow (cells.0.now ∷ cells.1.now ∷ []) row.now.text.now) }
    ensures refused { OnErr result ((one two : List ℕ) → ¬ (IsRow (one ∷ two ∷ []) row.now.text.now)) }
    ensures fault { IfErr result (λ refusal. refusal ≡ Cells row.now.number) }
{
    let refusal = Refusal::Cells(row.number);
    let Some((one, rest)) = first_cell(row.text) else {
        return Err(refusal);
    };
    match last_cell(rest) {
        Some(two) => Ok((one, two)),
        None => Err(refusal),
    }
}

/// The three cells of a row.
pub fn three_cells<'a>(row: &CaseLine<'a>) -> Result<(&'a str, &'a str, &'a str), Refusal>
    ensures row { IfOk result (λ cells. IsRow (cells.0.now ∷ cells.1.now ∷ cells.2.now ∷ []) row.now.text.now) }
    ensures refused { OnErr result ((one two three : List ℕ) → ¬ (IsRow (one ∷ two ∷ three ∷ []) row.now.text.now)) }
    ensures fault { IfErr result (λ refusal. refusal ≡ Cells row.now.number) }
{
    let refusal = Refusal::Cells(row.number);
    let Some((one, rest)) = first_cell(row.text) else {
        return Err(refusal);
    };
    let Some((two, rest)) = first_cell(rest) else {
        return Err(refusal);
    };
    match last_cell(rest) {
        Some(three) => Ok((one, two, three)),
        None => Err(refusal),
    }
}

// The cell before the first bar, and what stands behind the bar.
fn first_cell(text: &str) -> Option<(&str, &str)>
    ensures { MatchOption result (HasNoBar text.now) (λ found. HasBar text.now × (found.0.now ≡ trim (before_first is_bar text.now)) × (found.1.now ≡ after_first is_bar text.now)) }
{
    let (cell, rest) = text.split_once('|')?;
    Some((cell.trim(), rest))
}

// The cell of a text without a bar.
fn last_cell(text: &str) -> Option<&str>
    ensures { MatchOption result (HasBar text.now) (λ cell. HasNoBar text.now × (cell.now ≡ trim text.now)) }
{
    match text.split_once('|') {
        Some(_) => None,
        None => Some(text.trim()),
    }
}
