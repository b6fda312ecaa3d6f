//! The law that generated modules have few relocates. No code.
#![tactic(auto)]

ghost use Rattle.generated_relocates.specs.Statements.{GeneratedRelocatesAreFew, GeneratedIsNeverRefused};

/// Whatever the seed is, the groups of a generated module with at most 1,000 functions besides `@main` have at most 4,194,304
/// relocates.
pub fn generated_relocates_are_few()
    ensures { GeneratedRelocatesAreFew }
{}

/// So the rewriting never refuses a generated module for its relocates.
pub fn generated_is_never_refused()
    ensures { GeneratedIsNeverRefused }
{}
