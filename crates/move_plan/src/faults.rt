//! What is wrong with a plan or an input, and its message.

use std::alloc::{AllocError, AllocFailed};
use std::error::Error;
use std::fmt;

/// Why a text is no plan: of all faults the one of the least line, and of that line the one of the least code. Lines are
/// numbered from 1.
#[derive(Clone, Copy, Debug, PartialEq, Eq)]
pub enum PlanFault {
    /// The line has no form. Code 1.
    Syntax { line: u32 },
    /// The line's event is below that of an earlier line, or it is an `every` line that isn't the first line that isn't
    /// blank. Code 2.
    Order { line: u32 },
    /// The line is a second `go` line of its event. Code 3.
    TwoGo { line: u32 },
    /// The line is the first one too many. Code 4.
    Limit { line: u32 },
    /// Memory that was wanted and could not be had. It says nothing of the text.
    Memory,
}

impl fmt::Display for PlanFault {
    fn fmt<W: fmt::Write>(&self, f: &mut fmt::Formatter<W>) -> fmt::Result {
        match self {
            PlanFault::Syntax { line } => write!(f, "line {line}: 1 Syntax"),
            PlanFault::Order { line } => write!(f, "line {line}: 2 Order"),
            PlanFault::TwoGo { line } => write!(f, "line {line}: 3 TwoGo"),
            PlanFault::Limit { line } => write!(f, "line {line}: 4 Limit"),
            PlanFault::Memory => f.write_str("out of memory"),
        }
    }
}

impl Error for PlanFault {}

impl From<AllocError> for PlanFault {
    ghost use Rattle.std.specs.Prelude.{◌≡◌};
    ghost use Rattle.move_plan.specs.declared.faults.PlanFault.TheVariants as faults;

    ghost from_gives = { λ _ fault. fault ≡ faults.Memory };

    fn from(_error: AllocError) -> PlanFault {
        PlanFault::Memory
    }
}

impl<T: Drop> From<AllocFailed<T>> for PlanFault {
    ghost use Rattle.std.specs.Prelude.{◌≡◌};
    ghost use Rattle.move_plan.specs.declared.faults.PlanFault.TheVariants as faults;

    ghost from_gives = { λ _ fault. fault ≡ faults.Memory };

    fn from(_failed: AllocFailed<T>) -> PlanFault {
        PlanFault::Memory
    }
}

/// Why a text is no input.
#[derive(Clone, Copy, Debug, PartialEq, Eq)]
pub enum InputFault {
    /// The first line that is neither blank nor a number, or that holds the first number too many. Lines are numbered from
    /// 1.
    Line { line: u32 },
    /// Memory that was wanted and could not be had. It says nothing of the text.
    Memory,
}

impl fmt::Display for InputFault {
    fn fmt<W: fmt::Write>(&self, f: &mut fmt::Formatter<W>) -> fmt::Result {
        match self {
            InputFault::Line { line } => write!(f, "line {line}"),
            InputFault::Memory => f.write_str("out of memory"),
        }
    }
}

impl Error for InputFault {}

impl<T: Drop> From<AllocFailed<T>> for InputFault {
    ghost use Rattle.std.specs.Prelude.{◌≡◌};
    ghost use Rattle.move_plan.specs.declared.faults.InputFault.TheVariants as faults;

    ghost from_gives = { λ _ fault. fault ≡ faults.Memory };

    fn from(_failed: AllocFailed<T>) -> InputFault {
        InputFault::Memory
    }
}
