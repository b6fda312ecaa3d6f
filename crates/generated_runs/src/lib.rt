//! The law that each run of a generated module returns. No code.
#![tactic(auto)]

ghost use Rattle.generated_runs.specs.Statements.{GeneratedReturns};

/// Whatever the seed, the input and the `go` lines are, a run of 10,000,000 steps of a generated module with at most 1,000
/// functions besides `@main` returns 0.
pub fn generated_returns()
    ensures { GeneratedReturns }
{}
