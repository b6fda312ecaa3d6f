//! The lines of the cases of each switch, kept in one list.

ghost use Rattle.std.specs.Prelude.{◌≡◌, ◌<◌, ◌≤◌, [], ◌∷◌, ◌++◌, length, slice_get, slice_index, slice_range, unwrap_or, IfOk, OnOk};
ghost use Rattle.case_lines.specs.Rows.{rows_from, AreStops};

use std::alloc::{AllocError, Global};
use std::marker::Model;

/// Of each instruction of a function, in text order, the lines of its cases, which only a `switch` has. Contracts see
/// a list of lists.
#[derive(Drop)]
pub struct CaseLines {
    // Where the row of each instruction ends among the lines.
    stops: Vec<usize>,
    lines: Vec<u32>,
}

impl Model for CaseLines {
    ghost use Rattle.std.specs.Prelude.{ℕ, List, length};
    ghost use Rattle.case_lines.specs.Rows.{rows_from, AreStops};

    ghost Value = { List (List ℕ) };

    ghost view = { λ cases. rows_from 0 cases.stops.items cases.lines.items };

    ghost invariant = { λ cases. AreStops 0 cases.stops.items (length cases.lines.items) };
}

impl CaseLines {
    /// Those of no instructions.
    pub fn new(alloc: Global) -> CaseLines
        ensures { result ≡ [] }
    {
        CaseLines {
            stops: Vec::new(alloc),
            lines: Vec::new(alloc),
        }
    }

    /// Those of no instructions, with room for so many.
    pub fn with_room(alloc: Global, room: usize) -> Result<CaseLines, AllocError>
        ensures { IfOk result (λ cases. cases ≡ []) }
    {
        Ok(CaseLines {
            stops: Vec::with_capacity(alloc, room)?,
            lines: Vec::new(alloc),
        })
    }

    /// Adds the lines of the cases of one more instruction behind the others.
    pub fn push(&mut self, row: &[u32]) -> Result<(), AllocError>
        ensures { OnOk result (self.new ≡ self.old ++ row.now ∷ []) }
    {
        self.stops.reserve(1)?;
        self.lines.extend_from_slice(row)?;
        self.stops.push(self.lines.len()).unwrap();
        Ok(())
    }

    /// Adds an instruction without cases behind the others.
    pub fn push_none(&mut self) -> Result<(), AllocError>
        ensures { OnOk result (self.new ≡ self.old ++ [] ∷ []) }
    {
        self.stops.push(self.lines.len())?;
        Ok(())
    }

    /// How many instructions there are.
    pub fn len(&self) -> usize
        ensures { result ≡ length self.now }
    {
        self.stops.len()
    }

    /// The lines of the cases of the instruction with this number, or none where there is no such instruction.
    pub fn row(&self, place: usize) -> &[u32]
        ensures { result.now ≡ unwrap_or (slice_get self.now place) [] }
    {
        row_of(self.stops.as_slice(), self.lines.as_slice(), place)
    }
}

// The row at a place, given where each row ends.
fn row_of<'a>(stops: &[usize], lines: &'a [u32], place: usize) -> &'a [u32]
    requires { AreStops 0 stops.now (length lines.now) }
    ensures { result.now ≡ unwrap_or (slice_get (rows_from 0 stops.now lines.now) place) [] }
{
    if place < stops.len() {
        between(lines, start_of(stops, place), stops[place])
    } else {
        &[]
    }
}

// Where the row at a place begins.
fn start_of(stops: &[usize], place: usize) -> usize
    requires { place < length stops.now }
    ensures { result ≡ slice_index (0 ∷ stops.now) place }
{
    if place == 0 { 0 } else { stops[place - 1] }
}

fn between(lines: &[u32], start: usize, stop: usize) -> &[u32]
    requires up { start ≤ stop }
    requires within { stop ≤ length lines.now }
    ensures { result.now ≡ slice_range lines.now start stop }
{
    &lines[start..stop]
}
