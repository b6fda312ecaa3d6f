//! Runs modules in the rewritten form on a heap that moves, each over the stack map that is written of it or over given bytes, as a
//! test and for bench/machine.
#![tactic(auto)]

mod running;

use anyhow::Result;
use ir_machine::Shows;
use running::{show_over, show_run};
use std::process::ExitCode;
use std::{env, io};

const USAGE: &str =
    "usage: test_machine run|trace MODULE INPUT PLAN STEPS, or test_machine show NAME.. over NAME..";

const NOTHING: Shows = Shows {
    places: false,
    trace: false,
};

const ALL: Shows = Shows {
    places: true,
    trace: true,
};

fn main(rt: HostRuntime) -> io::Result<ExitCode> {
    let words: Vec<String> = env::args(&rt)?.collect(rt.alloc())?;
    let words: Vec<&str> = words.iter().map(|word| word.as_str()).collect(rt.alloc())?;
    match words.as_slice() {
        [_, command, module, input, plan, steps] if *command == "run" => {
            show(
                &rt,
                module,
                input,
                plan,
                steps.parse::<u64>().unwrap_or(0),
                NOTHING,
            )
        }
        [_, command, module, input, plan, steps] if *command == "trace" => {
            show(
                &rt,
                module,
                input,
                plan,
                steps.parse::<u64>().unwrap_or(0),
                ALL,
            )
        }
        [_, command, names @ ..] if *command == "show" => show_all(&rt, names),
        _ => {
            println!(rt; "{USAGE}")?;
            Ok(ExitCode::from(2))
        }
    }
}

// Runs NAME.ll under NAME.plan for each of these names, with its trace and its places: without an input and over its own map, and
// behind the word `over` with the input of NAME.input and over the bytes of NAME.map.
fn show_all(rt: &HostRuntime, names: &[&str]) -> io::Result<ExitCode> {
    let mut given = false;
    for name in names {
        if *name == "over" {
            given = true;
        } else {
            println!(rt; "module {name}")?;
            show_named(rt, name, given)?;
        }
    }
    Ok(ExitCode::SUCCESS)
}

fn show_named(rt: &HostRuntime, name: &str, given: bool) -> io::Result<()> {
    if given {
        return told(rt, show_over(rt, name, 1_000, ALL));
    }
    let module = format!(in rt.alloc(); "{name}.ll")?;
    let plan = format!(in rt.alloc(); "{name}.plan")?;
    told(
        rt,
        show_run(rt, module.as_str(), "/dev/null", plan.as_str(), 1_000, ALL),
    )
}

fn told(rt: &HostRuntime, shown: Result<()>) -> io::Result<()> {
    match shown {
        Ok(()) => Ok(()),
        Err(error) => println!(rt; "{error}"),
    }
}

fn show(
    rt: &HostRuntime,
    module: &str,
    input: &str,
    plan: &str,
    steps: u64,
    shows: Shows,
) -> io::Result<ExitCode> {
    match show_run(rt, module, input, plan, steps, shows) {
        Ok(()) => Ok(ExitCode::SUCCESS),
        Err(error) => {
            println!(rt; "{error}")?;
            Ok(ExitCode::FAILURE)
        }
    }
}
