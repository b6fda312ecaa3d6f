//! Verifies texts of rewritten modules. It judges every function of a few families, and compares that with an enumeration of its
//! paths, and files of cases: texts with what the verifier is to say of them.
#![tactic(auto)]

mod cases;
mod graphs;
mod paths;
mod verdict;

ghost use Rattle.std.specs.Prelude.{◌≤◌, length};
ghost use Rattle.sp_ids.specs.declared.limits.TheConstants.{FILE_BYTES};

use case_files::Tally;
use cases::{Case, cases_of};
use paths::compare_all;
use sp_ids::limits::FILE_BYTES;
use std::process::ExitCode;
use std::{env, io};
use tool_io::{DiskFiles, Files};
use verdict::verdict_on;

fn main(rt: HostRuntime) -> io::Result<ExitCode> {
    let words: Vec<String> = env::args(&rt)?.collect(rt.alloc())?;
    let words: Vec<&str> = words.iter().map(|word| word.as_str()).collect(rt.alloc())?;
    match words.as_slice() {
        [_, command, name] if *command == "verify" => verify_file(&rt, *name),
        [_, command, names @ ..] if *command == "judge" => judge_all(&rt, names),
        _ => {
            println!(rt; "usage: test_verifier verify FILE, or test_verifier judge FILE..")?;
            Ok(ExitCode::from(2))
        }
    }
}

// Says what the verifier says of the module in a file.
fn verify_file(rt: &HostRuntime, name: &str) -> io::Result<ExitCode> {
    let mut files = DiskFiles::new(rt);
    match files.take(rt.alloc(), name, FILE_BYTES) {
        Ok(text) => {
            let verdict = verdict_on(rt.alloc(), &text);
            println!(rt; "{verdict}")?;
            Ok(ExitCode::SUCCESS)
        }
        Err(fault) => {
            println!(rt; "{name}: {fault}")?;
            Ok(ExitCode::from(2))
        }
    }
}

// Judges small functions by their paths, and then the cases of these files.
fn judge_all(rt: &HostRuntime, names: &[&str]) -> io::Result<ExitCode> {
    let tally = compare_all(rt, rt.alloc())?;
    println!(rt; "{tally}")?;
    let code = judge_files(rt, names)?;
    Ok(if tally.all_agree() {
        code
    } else {
        ExitCode::FAILURE
    })
}

// Judges the cases of these files, and says of each file how many hold.
fn judge_files(rt: &HostRuntime, names: &[&str]) -> io::Result<ExitCode> {
    let mut all_hold = true;
    for name in names {
        if !judge_file(rt, *name)? {
            all_hold = false;
        }
    }
    Ok(if all_hold {
        ExitCode::SUCCESS
    } else {
        ExitCode::FAILURE
    })
}

fn judge_file(rt: &HostRuntime, name: &str) -> io::Result<bool> {
    let mut files = DiskFiles::new(rt);
    match files.take(rt.alloc(), name, FILE_BYTES) {
        Ok(file) => judge_text(rt, name, &file),
        Err(fault) => {
            println!(rt; "{name}: {fault}")?;
            Ok(false)
        }
    }
}

fn judge_text(rt: &HostRuntime, name: &str, file: &[u8]) -> io::Result<bool>
    requires { length file.now ≤ FILE_BYTES }
{
    match cases_of(rt.alloc(), file) {
        Ok(cases) => judge(rt, name, &cases),
        Err(refusal) => {
            println!(rt; "{name}: {refusal}")?;
            Ok(false)
        }
    }
}

fn judge(rt: &HostRuntime, name: &str, cases: &[Case]) -> io::Result<bool> {
    let mut tally = Tally::new();
    for case in cases {
        tally.count(holds(rt, name, case)?);
    }
    println!(rt; "{name}: {tally}")?;
    Ok(tally.all_hold())
}

// What the verifier says is what the case says. A text that is longer than any file may be has no verdict.
fn holds(rt: &HostRuntime, name: &str, case: &Case) -> io::Result<bool> {
    if case.text.len() as u64 > FILE_BYTES {
        println!(rt; "{name}:{}: too long", case.line)?;
        return Ok(false);
    }
    let verdict = verdict_on(rt.alloc(), &case.text);
    let came = format!(in rt.alloc(); "{verdict}")?;
    if came.as_str() == case.expected {
        return Ok(true);
    }
    println!(rt;
        "{name}:{}: {}: expected {}, came {came}",
        case.line, case.remark, case.expected
    )?;
    Ok(false)
}
