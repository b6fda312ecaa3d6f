//! The words of the command line.

use crate::passes::{Pass, pass_of};

/// What the words ask for.
#[derive(Drop)]
pub(crate) enum Command<'a> {
    /// Say how many instructions the module of this file has after a pass and those before it.
    Tell { pass: Pass, name: &'a str },
    /// Judge the cases of these files.
    Judge(&'a [String]),
}

/// The command of these words, of which the first names the program.
pub(crate) fn command_of(words: &[String]) -> Option<Command<'_>> {
    let (_, words) = words.split_first()?;
    let (verb, names) = words.split_first()?;
    if verb.as_str() == "judge" {
        return Some(Command::Judge(names));
    }
    let pass = pass_of(verb.as_str())?;
    match names {
        [name] => Some(Command::Tell {
            pass,
            name: name.as_str(),
        }),
        _ => None,
    }
}
