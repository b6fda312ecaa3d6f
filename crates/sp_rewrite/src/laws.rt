//! The laws of the rewritten module. No code.

ghost use Rattle.sp_rewrite.specs.Before.{FunctionsAreReady};
ghost use Rattle.sp_rewrite.specs.Relocates.{FewAreNotMany, FewOrMany};
ghost use Rattle.sp_rewrite.specs.Removals.{RemovalEnds, RemovalEndsThere, RemovalIsNoMatter, RemovalKeepsAll};
ghost use Rattle.sp_rewrite.specs.Statements.{RewritingIsByFunction, RewritingIsOne, RewritingIsTarget, RewritingIsVerified, RewritingKeepsMeaning, SourceIsRewritten};

/// A source module has no more than one rewritten module.
pub fn rewriting_is_one()
    ensures { RewritingIsOne }
{}

/// Each of its functions is made of one function of the module without its unreached blocks.
pub fn rewriting_is_by_function()
    ensures { RewritingIsByFunction }
{}

/// The rewritten module does, on objects that never move, what its source does.
pub fn rewriting_keeps_meaning()
    ensures { RewritingKeepsMeaning }
{}

/// The rewritten module is a target module: its lines, types, names and groups have no fault, it keeps within the limits, and every
/// path to a use meets the definition before it.
pub fn rewriting_is_target()
    ensures { RewritingIsTarget }
{}

/// The rewritten module is verified: each pair that a line uses stands on every path, groups keep the bases and the values of bundles,
/// each access has its check directly before it, and no call outside a statepoint waits.
pub fn rewriting_is_verified()
    ensures { RewritingIsVerified }
{}

/// Each function of a module without its unreached blocks can have its polls, then its bases and checks, and then its groups.
pub fn functions_are_ready()
    ensures { FunctionsAreReady }
{}

/// Each source module has a rewritten module.
pub fn source_is_rewritten()
    ensures { SourceIsRewritten }
{}

/// A source module has at most 4,194,304 relocates or more, and not both: its rewritten module has so many.
pub fn relocates_are_few_or_many()
    ensures either { FewOrMany }
    ensures apart { FewAreNotMany }
{}

/// The law of removal: whichever trivial phis are removed from the functions of a source module, what is left gives what the source
/// gives, its uses are definite, and no line of it has a fault of the verifier.
pub fn removal_keeps_all()
    ensures { RemovalKeepsAll }
{}

/// So one removal more or less is of no matter.
pub fn removal_is_no_matter()
    ensures { RemovalIsNoMatter }
{}

/// The law that the rewritten module has no trivial phi, and that the order of removal doesn't matter: trivial phis can be removed until
/// none is left, and whichever went first, what is left then is the rewritten module.
pub fn removal_ends_there()
    ensures ends { RemovalEnds }
    ensures there { RemovalEndsThere }
{}
