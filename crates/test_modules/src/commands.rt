//! The words of the command line.

use crate::outcome::Step;
use ir_ast::Form;

/// What the words ask for.
#[derive(Drop)]
pub(crate) enum Command<'a> {
    /// Say what becomes of the text of this file.
    Tell {
        form: Form,
        step: Step,
        name: &'a str,
    },
    /// Judge the cases of these files.
    Judge(&'a [String]),
}

/// The command of these words, of which the first names the program.
pub(crate) fn command_of(words: &[String]) -> Option<Command<'_>> {
    let (_, words) = words.split_first()?;
    let (verb, names) = words.split_first()?;
    match verb.as_str() {
        "judge" => Some(Command::Judge(names)),
        "read" => tell(Form::Source, Step::Reading, names),
        "read-rewritten" => tell(Form::Rewritten, Step::Reading, names),
        "show" => tell(Form::Source, Step::Printing, names),
        "show-rewritten" => tell(Form::Rewritten, Step::Printing, names),
        _ => None,
    }
}

fn tell(form: Form, step: Step, names: &[String]) -> Option<Command<'_>> {
    match names {
        [name] => Some(Command::Tell {
            form,
            step,
            name: name.as_str(),
        }),
        _ => None,
    }
}
