//! What comes of a source module, against an expected text.

use crate::cases::{Case, Expected};
use crate::differences::{Difference, differences};
use crate::passes::why;
use crate::texts::{Refused, prints, rewritten_of, source_of};
use ir_ast::{Form, Module};
use sp_ids::Memory;
use sp_rewrite::RewriteFault;
use std::alloc::{AllocError, Global};
use std::io;

/// What becomes of an expected text.
#[derive(Drop)]
pub(crate) enum Verdict {
    /// The text stands for a module, which prints it if it is a rewritten one, and at these places the module that came isn't that one.
    Compared(Vec<Difference>),
    /// The module of the expected text is another text when it is printed.
    PrintsOtherwise,
    /// The source stands for no module.
    NoSource(Refused),
    /// The expected text stands for none.
    NoModule(Refused),
    /// No pass has this word.
    NoPass,
    /// The pass gave no module.
    NotMade(RewriteFault),
    Memory,
}

impl From<Memory> for Verdict {
    fn from(_memory: Memory) -> Verdict {
        Verdict::Memory
    }
}

impl From<AllocError> for Verdict {
    fn from(_error: AllocError) -> Verdict {
        Verdict::Memory
    }
}

/// What becomes of the text where this module came.
pub(crate) fn judged(alloc: Global, made: &Module, text: &[u8]) -> Verdict {
    match compared(alloc, made, text) {
        Ok(verdict) => verdict,
        Err(verdict) => verdict,
    }
}

fn compared(alloc: Global, made: &Module, text: &[u8]) -> Result<Verdict, Verdict> {
    if made.form() == Form::Source {
        return match source_of(alloc, text) {
            Ok(expected) => Ok(Verdict::Compared(differences(alloc, made, &expected)?)),
            Err(refused) => Err(Verdict::NoModule(refused)),
        };
    }
    let expected = match rewritten_of(alloc, text) {
        Ok(expected) => expected,
        Err(refused) => return Err(Verdict::NoModule(refused)),
    };
    if !prints(alloc, &expected, text)? {
        return Err(Verdict::PrintsOtherwise);
    }
    Ok(Verdict::Compared(differences(alloc, made, &expected)?))
}

/// Says what is wrong with a text of a case of the file `name`, a line for each difference. Gives whether nothing is.
pub(crate) fn told(
    rt: &impl Print,
    name: &str,
    case: &Case,
    expected: &Expected,
    verdict: &Verdict,
) -> io::Result<bool> {
    let word = expected.word;
    match verdict {
        Verdict::Compared(places) if expected.comes => {
            for place in places {
                println!(rt; "{name}:{case}: {word}: {place}")?;
            }
            return Ok(places.is_empty());
        }
        Verdict::Compared(places) => {
            if places.is_empty() {
                println!(rt; "{name}:{case}: {word}: the text that must not come")?;
            }
            return Ok(!places.is_empty());
        }
        Verdict::PrintsOtherwise => {
            println!(rt; "{name}:{case}: {word}: the text isn't as it is printed")?;
        }
        Verdict::NoSource(refused) => println!(rt; "{name}:{case}: no source module: {refused}")?,
        Verdict::NoModule(refused) => println!(rt; "{name}:{case}: {word}: no module: {refused}")?,
        Verdict::NoPass => println!(rt; "{name}:{case}: {word}: no such pass")?,
        Verdict::NotMade(fault) => println!(rt; "{name}:{case}: {word}: {}", why(*fault))?,
        Verdict::Memory => println!(rt; "{name}:{case}: {word}: {Memory}")?,
    }
    Ok(false)
}
