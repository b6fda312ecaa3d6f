//! Which words give which command.
ghost use Rattle.std.specs.Prelude.{◌≡◌, ◌≤◌, Some, None, map, string_bytes, IfOk, IfSome, IsErrOf};
ghost use Rattle.std.specs.Char.{is_ascii_digit};
ghost use Rattle.std.specs.List.{list_all};
ghost use Rattle.tool_words.specs.Reader.{allows};
ghost use Rattle.tool_words.specs.Words.{command_of, number_in, of_module, of_numbers, of_run, of_words, request_of};

use crate::reader::{chosen, read};
use crate::request::{Command, FileName, Options, Part, RunRequest};
use sp_ids::{Memory, limits};
use std::alloc::Global;

/// Why the words give no command.
#[derive(Clone, Copy, Debug, PartialEq, Eq)]
pub enum WordsFault {
    /// They are none that any command has.
    Words,
    Memory,
}

impl From<Memory> for WordsFault {
    ghost use Rattle.std.specs.Prelude.{◌≡◌};
    ghost use Rattle.tool_words.specs.declared.words.WordsFault.TheVariants.{Memory as OutOfMemory};

    ghost from_gives = { λ _ fault. fault ≡ OutOfMemory };

    fn from(_memory: Memory) -> Self {
        WordsFault::Memory
    }
}

/// The command that the words give, the program's name first.
pub fn command(alloc: Global, words: &[String]) -> Result<Command, WordsFault>
    ensures gives { IfOk result (λ command. command_of (map string_bytes words.now) ≡ Some command) }
    ensures none { IsErrOf result WordsFault.Words → command_of (map string_bytes words.now) ≡ None }
{
    let Some((_program, called)) = words.split_first() else {
        return Err(WordsFault::Words);
    };
    let Some(name) = called.first() else {
        return Err(WordsFault::Words);
    };
    let matches = read(alloc, called)?;
    let options = chosen(alloc, &matches)?;
    if !allows(name.as_str(), &options) {
        return Err(WordsFault::Words);
    }
    match matches.get_raw("words") {
        Some(positional) => of_words(alloc, name.as_str(), options, positional),
        None => Err(WordsFault::Words),
    }
}

// Whether the command of this name has these options.
#[tactic(auto, unfolding(crate::specs::Reader::allows))]
fn allows(name: &str, options: &Options) -> bool
    ensures { result ≡ allows name.now options.now }
{
    let on_machine = options.places || options.trace || options.map.is_some();
    (!options.raw || name == "maps")
        && (!on_machine || name == "run" || name == "exec")
        && (!options.trust || name == "exec")
}

// The command of this name over these positional words.
fn of_words(
    alloc: Global,
    name: &str,
    options: Options,
    positional: &[&str],
) -> Result<Command, WordsFault>
    ensures gives { IfOk result (λ command. of_words name.now options (map (λ word. word.now) positional.now) ≡ Some command) }
    ensures none { IsErrOf result WordsFault.Words → of_words name.now options (map (λ word. word.now) positional.now) ≡ None }
{
    match positional {
        [module] => of_module(alloc, name, options, module),
        [seed, size, steps] => of_numbers(name, seed, size, steps).ok_or(WordsFault::Words),
        [code, input, plan, steps] => {
            let request = run_request(alloc, code, input, plan, steps)?;
            of_run(name, options, request).ok_or(WordsFault::Words)
        }
        _ => Err(WordsFault::Words),
    }
}

// The command of this name over a module.
#[tactic(auto, unfolding(crate::specs::Words::of_module))]
fn of_module(
    alloc: Global,
    name: &str,
    options: Options,
    module: &str,
) -> Result<Command, WordsFault>
    ensures gives { IfOk result (λ command. of_module name.now options module.now ≡ Some command) }
    ensures none { IsErrOf result WordsFault.Words → of_module name.now options module.now ≡ None }
{
    let module = FileName::of(alloc, module)?;
    if name == "show" {
        Ok(Command::Show { module })
    } else if name == "rewrite" {
        Ok(Command::Rewrite {
            module,
            part: Part::Text,
        })
    } else if name == "maps" {
        Ok(Command::Rewrite {
            module,
            part: if options.raw {
                Part::MapBytes
            } else {
                Part::MapText
            },
        })
    } else if name == "check" {
        Ok(Command::Check { module })
    } else {
        Err(WordsFault::Words)
    }
}

// The command of this name over three numbers.
#[tactic(auto, unfolding(crate::specs::Words::of_numbers))]
fn of_numbers(name: &str, seed: &str, size: &str, steps: &str) -> Option<Command>
    ensures { result ≡ of_numbers name.now seed.now size.now steps.now }
{
    if name != "gen" {
        return None;
    }
    let seed = number_in(seed, 0, u64::MAX)?;
    let size = number_in(size, 1, limits::GENERATED_FUNCTIONS as u64)? as u32;
    let steps = number_in(steps, 0, limits::STEPS)?;
    Some(Command::Gen { seed, size, steps })
}

// The command of this name over all that a run needs.
#[tactic(auto, unfolding(crate::specs::Words::of_run))]
fn of_run(name: &str, options: Options, request: RunRequest) -> Option<Command>
    ensures { result ≡ of_run name.now options request }
{
    if name == "source" {
        Some(Command::Source(request))
    } else if name == "run" {
        Some(Command::Run {
            request,
            map: options.map,
            places: options.places,
            trace: options.trace,
        })
    } else if name == "exec" {
        Some(Command::Exec {
            request,
            map: options.map,
            trust: options.trust,
            places: options.places,
            trace: options.trace,
        })
    } else {
        None
    }
}

// The run that these words ask for.
fn run_request(
    alloc: Global,
    code: &str,
    input: &str,
    plan: &str,
    steps: &str,
) -> Result<RunRequest, WordsFault>
    ensures gives { IfOk result (λ request. request_of code.now input.now plan.now steps.now ≡ Some request) }
    ensures none { IsErrOf result WordsFault.Words → request_of code.now input.now plan.now steps.now ≡ None }
{
    let Some(steps) = number_in(steps, 0, limits::STEPS) else {
        return Err(WordsFault::Words);
    };
    Ok(RunRequest {
        code: FileName::of(alloc, code)?,
        input: FileName::of(alloc, input)?,
        plan: FileName::of(alloc, plan)?,
        steps,
    })
}

// A number in 1 to 20 digits, within these bounds.
fn number_in(word: &str, least: u64, most: u64) -> Option<u64>
    ensures value { result ≡ number_in least most word.now }
    ensures within { IfSome result (λ number. number ≤ most) }
{
    if word.is_empty() || word.len() > 20 || !is_digits(word) {
        return None;
    }
    let Ok(number) = word.parse::<u64>() else {
        return None;
    };
    if least <= number && number <= most {
        Some(number)
    } else {
        None
    }
}

fn is_digits(word: &str) -> bool
    ensures { result ≡ list_all is_ascii_digit word.now }
{
    word.as_bytes().iter().all(|byte| byte.is_ascii_digit())
}
