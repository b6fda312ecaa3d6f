//! The law that a source module gives the same, by the source meaning, where lines go for which other operands stand, or which
//! nothing needs. No code.
#![tactic(auto)]

ghost use Rattle.folded_runs.specs.Statements.{FoldedAndThinnedGiveTheSame, FoldedGiveTheSame, ThinnedGiveTheSame};

/// Where only what reads the same stands for a value whose line goes, both modules give the same: lines, end, function, steps,
/// events, accesses and objects, for every input, all `go` lines and every bound.
pub fn folded_give_the_same()
    ensures { FoldedGiveTheSame }
{}

/// So they do where only lines go that compute, can't trap, and whose results nothing that stays uses.
pub fn thinned_give_the_same()
    ensures { ThinnedGiveTheSame }
{}

/// So they do where a module is folded first and then thinned.
pub fn folded_and_thinned_give_the_same()
    ensures { FoldedAndThinnedGiveTheSame }
{}
