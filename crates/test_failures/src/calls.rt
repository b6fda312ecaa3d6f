//! Whole calls of the tool, as the rows of files of cases give them: what is set, the words, and what must come of the call.

ghost use Rattle.std.specs.Prelude.{◌≤◌, length};
ghost use Rattle.sp_ids.specs.declared.limits.TheConstants.{FILE_BYTES};

use crate::failing::found_failing;
use crate::sure::found_surely;
use anyhow::Result;
use case_files::{CaseLine, Refusal, Tally, case_lines, parts_in, rows_in, three_cells};
use sp_ids::limits::FILE_BYTES;
use std::alloc::{AllocError, Global};
use tool_io::{DiskFiles, Files};

/// Over which files and sinks the calls of a file of cases are made; each stands in the file of its name.
#[derive(Clone, Copy)]
pub(crate) enum Over {
    /// Those that fail where they are told to.
    Failing,
    /// Those that never fail.
    Sure,
}

impl Over {
    fn file(self) -> &'static str {
        match self {
            Over::Failing => "cases",
            Over::Sure => "sure",
        }
    }
}

/// A case.
#[derive(Clone, Copy)]
struct Case<'a> {
    /// Its line in the file of cases.
    line: u32,
    setting: &'a str,
    words: &'a str,
    expected: &'a str,
}

/// Makes each call of the file, names those of which something else comes, and counts.
pub(crate) fn show(rt: &HostRuntime, over: Over) -> Result<()> {
    let name = over.file();
    match DiskFiles::new(rt).take(rt.alloc(), name, FILE_BYTES) {
        Ok(file) => report(rt, over, &file),
        Err(fault) => {
            println!(rt; "{name}: {fault}")?;
            Ok(())
        }
    }
}

fn report(rt: &HostRuntime, over: Over, file: &[u8]) -> Result<()>
    requires { length file.now ≤ FILE_BYTES }
{
    let name = over.file();
    match cases_of(rt.alloc(), file) {
        Ok(cases) => {
            let tally = tried(rt, over, &cases)?;
            println!(rt; "{name}: {tally}")?;
        }
        Err(refusal) => println!(rt; "{name}: {refusal}")?,
    }
    Ok(())
}

// The cases of a file. Each part has a title, and rows.
fn cases_of(alloc: Global, file: &[u8]) -> Result<Vec<Case<'_>>, Refusal>
    requires { length file.now ≤ FILE_BYTES }
{
    let lines = case_lines(alloc, file)?;
    let mut cases = Vec::new(alloc);
    for part in &parts_in(alloc, &lines)? {
        if !part.head.starts_with(' ') {
            return Err(Refusal::Head(part.line));
        }
        add_cases(alloc, &mut cases, part.body)?;
    }
    Ok(cases)
}

fn add_cases<'a>(
    alloc: Global,
    cases: &mut Vec<Case<'a>>,
    body: &[CaseLine<'a>],
) -> Result<(), Refusal> {
    for row in &rows_in(alloc, body)? {
        let (setting, words, expected) = three_cells(row)?;
        cases.push(Case {
            line: row.number,
            setting,
            words,
            expected,
        })?;
    }
    Ok(())
}

fn tried(rt: &HostRuntime, over: Over, cases: &[Case]) -> Result<Tally> {
    let mut tally = Tally::new();
    for case in cases {
        let words = listed(rt.alloc(), case.words)?;
        let found = match over {
            Over::Failing => found_failing(rt, case.setting, &words)?,
            Over::Sure => found_surely(rt, case.setting, &words)?,
        };
        let holds = found.as_str() == case.expected;
        tally.count(holds);
        if !holds {
            println!(rt; "{}: line {}: found {found}", over.file(), case.line)?;
        }
    }
    Ok(tally)
}

fn listed(alloc: Global, words: &str) -> Result<Vec<String>, AllocError> {
    let mut list = Vec::new(alloc);
    for word in words.split_whitespace() {
        list.push(String::from_str(alloc, word)?)?;
    }
    Ok(list)
}
