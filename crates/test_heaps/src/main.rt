//! Tries a file of cases on a heap and a stack, each with what must be found, and says how many hold.
#![tactic(auto)]

mod heaps;
mod maps;
mod stacks;
mod tried;
mod words;
mod work;

ghost use Rattle.std.specs.Prelude.{◌≤◌, length};
ghost use Rattle.sp_ids.specs.declared.limits.TheConstants.{FILE_BYTES};

use case_files::{Part, Refusal, Tally, case_lines, parts_in, rows_in, two_cells};
use sp_ids::limits::FILE_BYTES;
use std::alloc::Global;
use std::{env, io};
use tool_io::{DiskFiles, Files};
use tried::Tried;
use words::Words;

/// A case: what is asked, and what must be found.
#[derive(Clone, Copy)]
struct Row<'a> {
    line: u32,
    asked: &'a str,
    expected: &'a str,
}

fn main(rt: HostRuntime) -> io::Result<()> {
    let mut words = env::args(&rt)?;
    let _ = words.next();
    let Some(name) = words.next() else {
        return println!(rt; "usage: test_heaps FILE, or test_heaps WORK OBJECTS TURNS");
    };
    if let Some(objects) = words.next() {
        let objects = objects.parse().unwrap_or(0u64);
        let turns = words
            .next()
            .map_or(0u64, |turns| turns.parse().unwrap_or(0u64));
        return match work::done(rt.alloc(), name.as_str(), objects, turns) {
            Ok(number) => println!(rt; "{number}"),
            Err(fault) => println!(rt; "{fault}"),
        };
    }
    let mut files = DiskFiles::new(&rt);
    match files.take(rt.alloc(), name.as_str(), FILE_BYTES) {
        Ok(text) => report(&rt, rt.alloc(), &text),
        Err(fault) => println!(rt; "{fault}"),
    }
}

// Tries each case of the file, names those that don't hold, and counts.
fn report(rt: &impl Print, alloc: Global, text: &[u8]) -> io::Result<()>
    requires { length text.now ≤ FILE_BYTES }
{
    match rows_of(alloc, text) {
        Ok(rows) => {
            let tally = tally_of(rt, alloc, &rows)?;
            println!(rt; "{tally}")
        }
        Err(refusal) => println!(rt; "{refusal}"),
    }
}

// The rows of a file of cases. Each part has a title.
fn rows_of(alloc: Global, file: &[u8]) -> Result<Vec<Row<'_>>, Refusal>
    requires { length file.now ≤ FILE_BYTES }
{
    let lines = case_lines(alloc, file)?;
    let mut rows = Vec::new(alloc);
    for part in &parts_in(alloc, &lines)? {
        add_rows(alloc, &mut rows, part)?;
    }
    Ok(rows)
}

fn add_rows<'a>(
    alloc: Global,
    rows: &mut Vec<Row<'a>>,
    part: &Part<'_, 'a>,
) -> Result<(), Refusal> {
    if !part.head.starts_with(' ') {
        return Err(Refusal::Head(part.line));
    }
    for row in &rows_in(alloc, part.body)? {
        let (asked, expected) = two_cells(row)?;
        let line = row.number;
        rows.push(Row {
            line,
            asked,
            expected,
        })?;
    }
    Ok(())
}

// Does what the rows ask, one after the other.
fn tally_of(rt: &impl Print, alloc: Global, rows: &[Row]) -> io::Result<Tally> {
    let mut tried = Tried::new(alloc);
    let mut tally = Tally::new();
    for row in rows {
        let found = tried.found(Words::of(row.asked.as_bytes()))?;
        let holds = found.as_str() == row.expected;
        tally.count(holds);
        if !holds {
            let line = row.line;
            println!(rt; "line {line}: found {found}")?;
        }
    }
    Ok(tally)
}
