//! The laws of webs of phis, each over names of any type that a test tells apart.

ghost use Rattle.phi_webs.specs.Webs.{Tells};
ghost use Rattle.phi_webs.specs.Statements.{RemovedAreSolved, KeptAreOpen, SettlesAtOnce, OutsideStays, MinimalAbsorbs, OrderIsFree, BecomesIsRemoval, BecomesIsMinimal, SharedIsKept, RenamingCommutes};

/// The law that a removed phi stays solved: all its operands have become what it became.
pub fn removed_are_solved<T: PartialEq>()
    ensures { Tells T.eq → RemovedAreSolved T T.eq }
{}

/// The law that a kept phi which comes from outside has an operand that hasn't become the phi itself.
pub fn kept_are_open<T: PartialEq>()
    ensures { Tells T.eq → KeptAreOpen T T.eq }
{}

/// The law that names which aren't phis stay, and so does what a name became.
pub fn stays<T: PartialEq>()
    ensures outside { Tells T.eq → OutsideStays T T.eq }
    ensures settled { Tells T.eq → SettlesAtOnce T T.eq }
{}

/// The law that a minimal removal, done behind any other, gives what it gives alone.
pub fn absorbs<T: PartialEq>()
    ensures { Tells T.eq → MinimalAbsorbs T T.eq }
{}

/// The law that the order of removals doesn't matter: where each phi comes from outside, two minimal removals are equal.
pub fn order_is_free<T: PartialEq>()
    ensures { Tells T.eq → OrderIsFree T T.eq }
{}

/// The law that what names become in the end is a removal, and a minimal one.
pub fn becomes_the_end<T: PartialEq>()
    ensures removal { Tells T.eq → BecomesIsRemoval T T.eq }
    ensures minimal { Tells T.eq → BecomesIsMinimal T T.eq }
{}

/// The law that whatever each phi shares with its operands, each name shares with what it becomes.
pub fn shared_is_kept<T: PartialEq, S>()
    ensures { Tells T.eq → SharedIsKept T S T.eq }
{}

/// The law that what names become doesn't depend on how they are called.
pub fn renaming_commutes<T: PartialEq, S: PartialEq>()
    ensures { Tells T.eq → Tells S.eq → RenamingCommutes T S T.eq S.eq }
{}
