//! The laws that blocks which no path reaches are of no matter to what a module does. No code.
#![tactic(auto)]

ghost use Rattle.unreached_laws.specs.Statements.{BasesKeepReachedMeaning, UnreachedAreGone, UnreachedAreNoMatter, UnreachedCanBeDropped};

/// A module without its unreached blocks does what the module does.
pub fn unreached_are_no_matter()
    ensures { UnreachedAreNoMatter }
{}

/// The module with bases, checks and polls that is made of a module without its unreached blocks does, on objects that never
/// move, what the module does.
pub fn bases_keep_reached_meaning()
    ensures { BasesKeepReachedMeaning }
{}

/// A path leads to each block of a module without its unreached blocks.
pub fn unreached_are_gone()
    ensures { UnreachedAreGone }
{}

/// Each source module has a module without its unreached blocks.
pub fn unreached_can_be_dropped()
    ensures { UnreachedCanBeDropped }
{}
