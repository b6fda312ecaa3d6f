//! The law of whole runs: over the map of a verified module moves are never noticed. No code.
#![tactic(auto)]

ghost use Rattle.moves_unseen.specs.Statements.{MovesAreUnseen};
ghost use Rattle.moves_unseen.specs.Waits.{AllLinesFollow};
ghost use Rattle.runs_unseen.specs.Statements.{AnswersAreSeen, FrontsAreSeen, MachineRunsAreSeen, MovesAreFree, RunsKeepTheirWay};

pub mod calls_unseen;
pub mod events_unseen;
pub mod frames_resumed;
pub mod frames_spilled;
pub mod helpers_unseen;
pub mod machine_ends;
pub mod records_found;
pub mod returns_unseen;
pub mod stacks_walked;

/// Each line that is executed is one step of the target meaning and one of the machine, and the relation holds behind it.
pub fn lines_follow()
    ensures { AllLinesFollow }
{}

/// For each run of the target meaning the machine's run over the map of the module gives the same lines, end, steps, events and
/// accesses, and objects whose cells are held, whatever the plan moves.
pub fn runs_are_unseen()
    ensures { MovesAreUnseen }
{}

/// Whatever the machine gives over the map of the module is what the target meaning gives.
pub fn machine_runs_are_seen()
    ensures { MachineRunsAreSeen }
{}

/// No run comes to a word that is no object's address, or loses a frame.
pub fn runs_keep_their_way()
    ensures { RunsKeepTheirWay }
{}

/// Two plans with the same `go` lines give the same, whatever they move.
pub fn moves_are_free()
    ensures { MovesAreFree }
{}

/// What a run answers, and the text that it writes, are those of the target meaning.
pub fn answers_are_seen()
    ensures { AnswersAreSeen }
{}

/// What a run has printed when it is cut off is a front of what the target meaning writes.
pub fn fronts_are_seen()
    ensures { FrontsAreSeen }
{}
