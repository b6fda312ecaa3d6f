//! Reads cases of plans, inputs and command lines, each with what must be found, and says of each file how many hold.
#![tactic(auto)]

mod cases;
mod commands;
mod plans;
mod spelled;

ghost use Rattle.std.specs.Prelude.{◌≤◌, length};
ghost use Rattle.sp_ids.specs.declared.limits.TheConstants.{FILE_BYTES};

use case_files::Tally;
use cases::{Case, cases_of};
use sp_ids::limits::FILE_BYTES;
use std::alloc::Global;
use std::{env, io};
use tool_io::{DiskFiles, Files};

fn main(rt: HostRuntime) -> io::Result<()> {
    let words: Vec<String> = env::args(&rt)?.collect(rt.alloc())?;
    let Some((_, names)) = words.split_first() else {
        return println!(rt; "usage: test_given FILE..");
    };
    for name in names {
        try_file(&rt, name.as_str())?;
    }
    Ok(())
}

fn try_file(rt: &HostRuntime, name: &str) -> io::Result<()> {
    match DiskFiles::new(rt).take(rt.alloc(), name, FILE_BYTES) {
        Ok(text) => report(rt, rt.alloc(), name, &text),
        Err(fault) => println!(rt; "{name}: {fault}"),
    }
}

// Tries the cases of a file, names those that don't hold, and counts.
fn report(rt: &impl Print, alloc: Global, name: &str, text: &[u8]) -> io::Result<()>
    requires { length text.now ≤ FILE_BYTES }
{
    match cases_of(alloc, text) {
        Ok(cases) => {
            let tally = tried(rt, alloc, name, &cases)?;
            println!(rt; "{name}: {tally}")
        }
        Err(refusal) => println!(rt; "{name}: {refusal}"),
    }
}

fn tried(rt: &impl Print, alloc: Global, name: &str, cases: &[Case]) -> io::Result<Tally> {
    let mut tally = Tally::new();
    for case in cases {
        let found = case.found(alloc)?;
        let holds = found.as_str() == case.expected;
        tally.count(holds);
        if !holds {
            let line = case.line;
            println!(rt; "{name}: line {line}: found {found}")?;
        }
    }
    Ok(tally)
}
