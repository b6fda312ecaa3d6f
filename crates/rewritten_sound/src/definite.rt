//! The laws that the module with bases is ready for groups, and that the uses of the rewritten module are definite. No code.
ghost use Rattle.rewritten_sound.specs.Definite.{BasedIsBefore, FittingIsDefinite, FittingKeepsMeaning, FittingSourceIsDefinite, LiveIsExactThere, RewrittenIsDefinite, RewrittenKeepsMeaning};

/// The module with polls and bases of a source module without unreached blocks has the form that the rewriting asks for:
/// phis first, terminators last, each block reached, no group yet, as many arguments as each call wants.
pub fn based_is_before()
    ensures { BasedIsBefore }
{}

/// So the rewritten module gives, on objects that never move, what its source gives by the source meaning.
pub fn rewritten_keeps_meaning()
    ensures { RewrittenKeepsMeaning }
{}

/// In the rewritten module every path to a use meets the definition before it (LLVM Language Reference, "Functions").
pub fn rewritten_is_definite()
    ensures { RewrittenIsDefinite }
{}

/// And so in each function whose relocated pointers have names that fit at every edge, whichever phis are inserted.
pub fn fitting_is_definite()
    ensures { FittingIsDefinite }
{}

/// The module under any choice of names that fit gives what its source gives.
pub fn fitting_keeps_meaning()
    ensures { FittingKeepsMeaning }
{}

/// In the module under any choice of names that fit every path to a use meets the definition before it.
pub fn fitting_source_is_definite()
    ensures { FittingSourceIsDefinite }
{}

/// In the module with polls and bases the test of liveness is exact, for every table of bases.
pub fn live_is_exact_there()
    ensures { LiveIsExactThere }
{}
