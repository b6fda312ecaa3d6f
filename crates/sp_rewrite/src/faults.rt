//! Why a module isn't rewritten.

use sp_ids::Memory;

/// Why a module isn't rewritten.
#[derive(Clone, Copy, Debug, PartialEq, Eq)]
pub enum RewriteFault {
    /// It would have more than 4,194,304 relocates.
    TooManyRelocations,
    /// Memory that was wanted and could not be had. It says nothing of the module.
    Memory,
}

impl From<Memory> for RewriteFault {
    ghost use Rattle.std.specs.Prelude.{◌≡◌};
    ghost use Rattle.sp_rewrite.specs.declared.faults.RewriteFault.TheVariants as faults;

    ghost from_gives = { λ _ e. e ≡ faults.Memory };

    fn from(_memory: Memory) -> RewriteFault {
        RewriteFault::Memory
    }
}
