//! Why a file of cases is refused.

use std::alloc::{AllocError, AllocFailed};
use std::error::Error;
use std::fmt;

/// Why a file of cases is refused, with the number of the line that is at fault.
#[derive(Clone, Copy, Debug, PartialEq, Eq)]
pub enum Refusal {
    /// The line isn't UTF-8.
    NotText(u32),
    /// The line opens a part that may not stand there, or no part that the program knows.
    Head(u32),
    /// The row has another number of cells than it must have.
    Cells(u32),
    /// The program knows no such words.
    Words(u32),
    /// Memory that was wanted and could not be had.
    Memory,
}

impl fmt::Display for Refusal {
    fn fmt<W: fmt::Write>(&self, f: &mut fmt::Formatter<W>) -> fmt::Result {
        match self {
            Refusal::NotText(line) => write!(f, "line {line}: no text"),
            Refusal::Head(line) => write!(f, "line {line}: no part that may stand here"),
            Refusal::Cells(line) => write!(f, "line {line}: too few or too many cells"),
            Refusal::Words(line) => write!(f, "line {line}: unknown words"),
            Refusal::Memory => f.write_str("out of memory"),
        }
    }
}

impl Error for Refusal {}

impl From<AllocError> for Refusal {
    ghost use Rattle.std.specs.Prelude.{◌≡◌};
    ghost use Rattle.case_files.specs.declared.refusals.Refusal.TheVariants.{Memory};

    ghost from_gives = { λ _ refusal. refusal ≡ Memory };

    fn from(_error: AllocError) -> Refusal {
        Refusal::Memory
    }
}

impl<T: Drop> From<AllocFailed<T>> for Refusal {
    ghost use Rattle.std.specs.Prelude.{◌≡◌};
    ghost use Rattle.case_files.specs.declared.refusals.Refusal.TheVariants.{Memory};

    ghost from_gives = { λ _ refusal. refusal ≡ Memory };

    fn from(_failed: AllocFailed<T>) -> Refusal {
        Refusal::Memory
    }
}
