//! What words give, as a line of text: the command with its files in brackets, `refused`, or `out of memory`.

use std::alloc::{AllocError, Global};
use tool_words::{Command, FileName, Part, RunRequest, WordsFault, command};

pub(crate) fn found_in_words(alloc: Global, words: &[String]) -> Result<String, AllocError> {
    match command(alloc, words) {
        Ok(found) => shown(alloc, &found),
        Err(WordsFault::Words) => String::from_str(alloc, "refused"),
        Err(WordsFault::Memory) => String::from_str(alloc, "out of memory"),
    }
}

fn shown(alloc: Global, found: &Command) -> Result<String, AllocError> {
    let mut line = String::new(alloc);
    match found {
        Command::Show { module } => push_named(&mut line, "show", module)?,
        Command::Rewrite { module, part } => push_named(&mut line, named(*part), module)?,
        Command::Check { module } => push_named(&mut line, "check", module)?,
        Command::Source(request) => push_request(&mut line, "source", request)?,
        Command::Run {
            request,
            map,
            places,
            trace,
        } => {
            push_request(&mut line, "run", request)?;
            push_map(&mut line, map)?;
            push_given(&mut line, *places, " places")?;
            push_given(&mut line, *trace, " trace")?;
        }
        Command::Exec {
            request,
            map,
            trust,
            places,
            trace,
        } => {
            push_request(&mut line, "exec", request)?;
            push_map(&mut line, map)?;
            push_given(&mut line, *trust, " trust")?;
            push_given(&mut line, *places, " places")?;
            push_given(&mut line, *trace, " trace")?;
        }
        Command::Gen { seed, size, steps } => write!(line, "gen {seed} {size} {steps}")?,
    }
    Ok(line)
}

fn named(part: Part) -> &'static str {
    match part {
        Part::Text => "rewrite",
        Part::MapText => "maps",
        Part::MapBytes => "maps raw",
    }
}

fn push_named(line: &mut String, name: &str, module: &FileName) -> Result<(), AllocError> {
    let module = module.as_str();
    write!(line, "{name} [{module}]")
}

fn push_request(line: &mut String, name: &str, request: &RunRequest) -> Result<(), AllocError> {
    let code = request.code.as_str();
    let input = request.input.as_str();
    let plan = request.plan.as_str();
    let steps = request.steps;
    write!(line, "{name} [{code}] [{input}] [{plan}] {steps}")
}

fn push_map(line: &mut String, map: &Option<FileName>) -> Result<(), AllocError> {
    let Some(name) = map else {
        return Ok(());
    };
    let name = name.as_str();
    write!(line, " map [{name}]")
}

fn push_given(line: &mut String, given: bool, word: &str) -> Result<(), AllocError> {
    if given { line.push_str(word) } else { Ok(()) }
}
