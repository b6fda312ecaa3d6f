//! Laws of rewritten modules that run on the machine: what their sources do on objects that never move. No code.
#![tactic(auto)]

ghost use Rattle.rewritten_runs.specs.Statements.{FrontsAreSource, NamesAreKept, SeenRunsAreSource, SourcesRunOnMachine};

pub mod event_places;
pub mod shown_runs;

/// Whatever the run of a source module gives on objects that never move, the run of its rewritten module on the machine gives,
/// over the rewritten module's own stack map and under all moves of the plan.
pub fn sources_run_on_machine()
    ensures { SourcesRunOnMachine }
{}

/// What such a run answers and writes is what the source meaning says.
pub fn seen_runs_are_source()
    ensures { SeenRunsAreSource }
{}

/// And what it has printed by some state is a front of that.
pub fn fronts_are_source()
    ensures { FrontsAreSource }
{}

/// The rewriting keeps the names of functions.
pub fn names_are_kept()
    ensures { NamesAreKept }
{}
