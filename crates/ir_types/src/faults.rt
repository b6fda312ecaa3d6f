//! Why readings stand for no module.

ghost use Rattle.std.specs.Prelude.{◌≡◌};
ghost use Rattle.ir_types.specs.declared.faults.TypeFault.TheVariants.{Memory};

use ir_lines::faults::Fault;
use std::alloc::{AllocError, AllocFailed};
use std::error::Error;
use std::fmt;

/// Why readings stand for no module.
#[derive(Clone, Copy, Debug, PartialEq, Eq)]
pub enum TypeFault {
    /// The first fault: the least line, and of that the least code.
    Fault(Fault),
    /// Memory that was wanted and could not be had.
    Memory,
}

impl fmt::Display for TypeFault {
    fn fmt<W: fmt::Write>(&self, f: &mut fmt::Formatter<W>) -> fmt::Result {
        match self {
            TypeFault::Fault(fault) => write!(f, "line {}: fault {}", fault.line, fault.code),
            TypeFault::Memory => f.write_str("out of memory"),
        }
    }
}

impl Error for TypeFault {}

impl From<AllocError> for TypeFault {
    ghost from_gives = { λ _ fault. fault ≡ Memory };

    fn from(_error: AllocError) -> Self {
        TypeFault::Memory
    }
}

impl<T: Drop> From<AllocFailed<T>> for TypeFault {
    ghost from_gives = { λ _ fault. fault ≡ Memory };

    fn from(_failed: AllocFailed<T>) -> Self {
        TypeFault::Memory
    }
}

impl From<sp_ids::Memory> for TypeFault {
    ghost from_gives = { λ _ fault. fault ≡ Memory };

    fn from(_memory: sp_ids::Memory) -> Self {
        TypeFault::Memory
    }
}
