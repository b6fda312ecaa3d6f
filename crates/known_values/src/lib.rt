//! The law that equations of a function's values hold, in each frame of each state that a run comes to, wherever these values
//! are defined. No code.
#![tactic(auto)]

ghost use Rattle.known_values.specs.Instances.{SourcesRunTheirPolls, TargetsRunTheirText};
ghost use Rattle.known_values.specs.Statements.{KnownValuesHold, UsesReadKnownValues};

/// In each state that a run comes to, in each frame of the function, running or waiting, each equation holds, or some path comes
/// to the frame's place without a definition of its value.
pub fn known_values_hold()
    ensures { KnownValuesHold }
{}

/// So at each use of a value its equation holds.
pub fn uses_read_known_values()
    ensures { UsesReadKnownValues }
{}

/// The target meaning of a target module runs the text of each of its functions, whose uses are defined.
pub fn targets_run_their_text()
    ensures { TargetsRunTheirText }
{}

/// The source meaning of a source module runs the text of each of its functions with its polls, whose uses are defined.
pub fn sources_run_their_polls()
    ensures { SourcesRunTheirPolls }
{}
