//! The words of the command line.

/// What the words ask for.
#[derive(Clone, Copy)]
pub(crate) struct Words<'a> {
    pub(crate) module: &'a str,
    pub(crate) layouts: Option<&'a str>,
}

/// The words behind the program's name: `lift`, a module, and maybe `--layouts` and a file, in any order.
pub(crate) fn words_of(words: &[String]) -> Option<Words<'_>> {
    let [_program, command, rest @ ..] = words else {
        return None;
    };
    if command.as_str() != "lift" {
        return None;
    }
    let mut module = None;
    let mut layouts = None;
    let mut left = rest;
    while let [word, more @ ..] = left {
        left = more;
        if word.as_str() == "--layouts" {
            let [file, behind @ ..] = more else {
                return None;
            };
            if layouts.is_some() {
                return None;
            }
            layouts = Some(file.as_str());
            left = behind;
        } else if module.is_some() || (word.as_str().starts_with("-") && word.as_str() != "-") {
            return None;
        } else {
            module = Some(word.as_str());
        }
    }
    Some(Words {
        module: module?,
        layouts,
    })
}
