//! The laws that a source module under tables, which fold it or thin it, is a source module again, and that such tables are found one
//! value at a time. No code.
#![tactic(auto)]

ghost use Rattle.folded_source.specs.Statements.{FoldedAndThinnedStaysSource, FoldedStaysSource, ThinnedStaysSource};
ghost use Rattle.folded_source.specs.Steps.{FoldingsBegin, FoldingsGrow, ThinningsBegin, ThinningsGrow};

/// A source module in which other operands stand for values, whose lines go, is a source module, with the same functions, blocks
/// and labels, if only what reads the same stands for a value.
pub fn folded_stays_source()
    ensures { FoldedStaysSource }
{}

/// So is one whose functions drop pure lines that nothing needs.
pub fn thinned_stays_source()
    ensures { ThinnedStaysSource }
{}

/// So is one that is folded first and then thinned.
pub fn folded_and_thinned_stays_source()
    ensures { FoldedAndThinnedStaysSource }
{}

/// A table in which nothing is replaced is a folding.
pub fn foldings_begin()
    ensures { FoldingsBegin }
{}

/// A folding of a function of a source module with one value more is a folding, if of what stands for its operands the value's
/// instruction gives a literal, or leaves one operand.
pub fn foldings_grow()
    ensures { FoldingsGrow }
{}

/// A table that drops nothing is a thinning.
pub fn thinnings_begin()
    ensures { ThinningsBegin }
{}

/// A thinning with one pure value more is a thinning, if what uses the value goes.
pub fn thinnings_grow()
    ensures { ThinningsGrow }
{}
