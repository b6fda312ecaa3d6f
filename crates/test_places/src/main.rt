//! Asks which pairs stand before instructions of rewritten functions, and says of each file of cases how many hold.
#![tactic(auto)]

mod answers;
mod cases;
mod modules;

ghost use Rattle.std.specs.Prelude.{◌≤◌, length};
ghost use Rattle.sp_ids.specs.declared.limits.TheConstants.{FILE_BYTES};

use case_files::Tally;
use cases::{Asking, askings_of};
use modules::answered;
use sp_ids::limits::FILE_BYTES;
use std::alloc::Global;
use std::{env, io};
use tool_io::{DiskFiles, Files};

fn main(rt: HostRuntime) -> io::Result<()> {
    let words: Vec<String> = env::args(&rt)?.collect(rt.alloc())?;
    let Some((_, names)) = words.split_first() else {
        return println!(rt; "usage: test_places FILE..");
    };
    for name in names {
        try_file(&rt, name.as_str())?;
    }
    Ok(())
}

fn try_file(rt: &HostRuntime, name: &str) -> io::Result<()> {
    match DiskFiles::new(rt).take(rt.alloc(), name, FILE_BYTES) {
        Ok(text) => report(rt, rt.alloc(), name, &text),
        Err(fault) => println!(rt; "{name}: {fault}"),
    }
}

// Tries the cases of a file, names those that don't hold, and counts.
fn report(rt: &impl Print, alloc: Global, name: &str, text: &[u8]) -> io::Result<()>
    requires { length text.now ≤ FILE_BYTES }
{
    match askings_of(alloc, text) {
        Ok(askings) => {
            let mut tally = Tally::new();
            for asking in &askings {
                try_asking(rt, alloc, name, asking, &mut tally)?;
            }
            println!(rt; "{name}: {tally}")
        }
        Err(refusal) => println!(rt; "{name}: {refusal}"),
    }
}

fn try_asking(
    rt: &impl Print,
    alloc: Global,
    name: &str,
    asking: &Asking,
    tally: &mut Tally,
) -> io::Result<()> {
    let Some(answers) = answered(alloc, asking) else {
        tally.count(false);
        let line = asking.line;
        return println!(rt; "{name}: line {line}: no function, or no memory");
    };
    for (case, found) in asking.cases.iter().zip(&answers) {
        let holds = found.word() == case.expected;
        tally.count(holds);
        if !holds {
            let line = case.line;
            println!(rt; "{name}: line {line}: found {}", found.word())?;
        }
    }
    Ok(())
}
