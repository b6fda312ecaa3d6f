//! Why a part of a line is not read.

ghost use Rattle.std.specs.Prelude.{◌≡◌};
ghost use Rattle.line_parts.specs.declared.faults.Stop.TheVariants.{Memory};

use std::alloc::{AllocError, AllocFailed};

/// Why a line is not read.
#[derive(Clone, Copy, Debug, PartialEq, Eq)]
pub enum Stop {
    NoReading,
    Memory,
}

impl From<AllocError> for Stop {
    ghost from_gives = { λ _ e. e ≡ Memory };

    fn from(_error: AllocError) -> Stop {
        Stop::Memory
    }
}

impl<T: Drop> From<AllocFailed<T>> for Stop {
    ghost from_gives = { λ _ e. e ≡ Memory };

    fn from(_failed: AllocFailed<T>) -> Stop {
        Stop::Memory
    }
}
