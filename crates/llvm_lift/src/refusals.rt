//! Why a text is not lifted.

use ir_types::Fault;
use llvm_features::Reason;
use std::alloc::{AllocError, AllocFailed};

/// Why a text is not lifted.
#[derive(Debug, Drop)]
pub enum Refusal {
    /// All lines that have a feature outside the profile; at least one.
    Outside(Vec<Reason>),
    /// The least fault of what the text was lifted to, at the line that it was lifted from.
    Fault(Fault),
    /// What the text was lifted to, or its printed text, is longer than the limit.
    TooLong,
    /// Memory that was wanted and could not be had.
    Memory,
}

impl From<AllocError> for Refusal {
    ghost use Rattle.std.specs.Prelude.{◌≡◌};
    ghost use Rattle.llvm_lift.specs.declared.refusals.Refusal.TheVariants.{Memory};

    ghost from_gives = { λ _ refusal. refusal ≡ Memory };

    fn from(_error: AllocError) -> Refusal {
        Refusal::Memory
    }
}

impl<T: Drop> From<AllocFailed<T>> for Refusal {
    ghost use Rattle.std.specs.Prelude.{◌≡◌};
    ghost use Rattle.llvm_lift.specs.declared.refusals.Refusal.TheVariants.{Memory};

    ghost from_gives = { λ _ refusal. refusal ≡ Memory };

    fn from(_failed: AllocFailed<T>) -> Refusal {
        Refusal::Memory
    }
}

impl From<sp_ids::Memory> for Refusal {
    ghost use Rattle.std.specs.Prelude.{◌≡◌};
    ghost use Rattle.llvm_lift.specs.declared.refusals.Refusal.TheVariants.{Memory as OutOfMemory};

    ghost from_gives = { λ _ refusal. refusal ≡ OutOfMemory };

    fn from(_memory: sp_ids::Memory) -> Refusal {
        Refusal::Memory
    }
}
