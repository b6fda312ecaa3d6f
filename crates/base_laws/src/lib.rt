//! Laws of the function with bases, checks and polls. No code.
#![tactic(auto)]

ghost use Rattle.base_laws.specs.Statements.{BasedIsInShape, BasesKeepMeaning, PlacedCyclesPoll};

/// The module with bases, checks and polls does, on objects that never move, what its source does.
pub fn bases_keep_meaning()
    ensures { BasesKeepMeaning }
{}

/// Polls change no edge, and no run goes round a cycle of reached blocks without one.
pub fn placed_cycles_poll()
    ensures { PlacedCyclesPoll }
{}

/// The functions of the module with bases are in shape for liveness: phis first, terminators last, calls that pass what is
/// taken, no statepoint; and they have the edges of their sources.
pub fn based_is_in_shape()
    ensures { BasedIsInShape }
{}
