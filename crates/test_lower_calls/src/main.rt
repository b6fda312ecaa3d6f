//! Calls of the lower crates on given numbers, texts and modules, with what came; the uses of every function of three
//! blocks, or of one text, so that judging them can be measured (bench/definite); and the text of a generated module.
#![tactic(auto)]

mod generated;
mod graphs;
mod modules;
mod numbers;
mod parts;
mod paths;
mod sources;
mod texts;
mod uses;

ghost use Rattle.std.specs.Prelude.{◌≤◌, IfOk, vec_len};
ghost use Rattle.sp_ids.specs.declared.limits.TheConstants.{FILE_BYTES};

use anyhow::{Result, bail};
use paths::compare_all;
use sp_ids::limits::FILE_BYTES;
use std::env;
use tool_io::{DiskFiles, Files};
use uses::judged;

// Does each part of the words in turn; `--` stands between one and the next.
fn main(rt: HostRuntime) -> Result<()> {
    let words: Vec<String> = env::args(&rt)?.collect(rt.alloc())?;
    let words: Vec<&str> = words.iter().map(|word| word.as_str()).collect(rt.alloc())?;
    if let Some((_, words)) = words.split_first() {
        for part in words.split(|word| *word == "--") {
            run(&rt, part)?;
        }
    }
    Ok(())
}

fn run(rt: &HostRuntime, words: &[&str]) -> Result<()> {
    match *words {
        ["calls"] => show_calls(rt),
        ["paths"] => compare_paths(rt),
        ["uses", name] => judge_uses(rt, name, 1),
        ["uses", name, rounds] => judge_uses(rt, name, rounds.parse::<u32>()?),
        ["generated", seed, size] => {
            let seed = seed.parse::<u64>()?;
            let size = size.parse::<u32>()?;
            if size < 1 || size > 1000 {
                bail!("a size is from 1 to 1000");
            }
            generated::show(rt, seed, size)
        }
        _ => bail!(
            "usage: test_lower_calls calls|paths, test_lower_calls uses FILE [ROUNDS], or test_lower_calls generated SEED SIZE"
        ),
    }
}

fn show_calls(rt: &HostRuntime) -> Result<()> {
    let alloc = rt.alloc();
    numbers::show(rt)?;
    texts::show_cuts(rt, alloc)?;
    texts::show_lines(rt, alloc, &taken(rt, "lines")?)?;
    parts::show(rt, alloc)?;
    modules::show(rt, alloc, &taken(rt, "object.ll")?)?;
    graphs::show(rt, alloc, &taken(rt, "waits.ll")?)?;
    graphs::show(rt, alloc, &taken(rt, "uses_argument.ll")?)?;
    graphs::show(rt, alloc, &taken(rt, "uses_itself.ll")?)
}

// The bytes of a file of data/, whose name is said first.
fn taken(rt: &HostRuntime, name: &str) -> Result<Vec<u8>>
    ensures { IfOk result (λ bytes. vec_len bytes ≤ FILE_BYTES) }
{
    println!(rt; "the file {name}")?;
    Ok(DiskFiles::new(rt).take(rt.alloc(), name, FILE_BYTES)?)
}

fn compare_paths(rt: &HostRuntime) -> Result<()> {
    let tally = compare_all(rt, rt.alloc())?;
    println!(rt; "{tally}")?;
    if !tally.all_agree() {
        bail!("a function isn't judged as its paths say");
    }
    Ok(())
}

// Judges the uses of a file, each function so many times.
fn judge_uses(rt: &HostRuntime, name: &str, rounds: u32) -> Result<()> {
    let text = DiskFiles::new(rt).take(rt.alloc(), name, FILE_BYTES)?;
    let verdict = judged(rt.alloc(), &text, rounds);
    println!(rt; "{verdict}")?;
    Ok(())
}
