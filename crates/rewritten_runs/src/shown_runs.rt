//! Laws of runs that show their trace and the places of their objects, in words of the meaning on objects alone. No code.
ghost use Rattle.rewritten_runs.specs.ShownStatements.{SourcesAreShown, VerifiedAreShown};

/// The text of the machine's run of a verified module over its own stack map shows what the target meaning says: without the lines of
/// the trace what the program prints and its waiting frames show, then the line that closes the run, then the places that events, objects and the plan make.
pub fn verified_are_shown()
    ensures { VerifiedAreShown }
{}

/// And a text of a run of a rewritten module is one of its source.
pub fn sources_are_shown()
    ensures { SourcesAreShown }
{}
