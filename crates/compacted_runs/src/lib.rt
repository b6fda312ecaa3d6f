//! What the plan that compacts does to a run of a source module. No code.
#![tactic(auto)]

ghost use Rattle.compacted_runs.specs.Statements.{MachinesCompact, RunsCompact};

/// The plan that lays objects side by side at an event is a plan, under which the run of each source module is the same: until the
/// event its objects stand as they did, and at the event all that were made before it come to lie side by side from 2^40.
pub fn runs_compact()
    ensures { RunsCompact }
{}

/// Under that plan the machine's run of the rewritten module, over that module's own stack map, puts its objects where the plan says
/// of the events and objects of the source's run, and its events have these verdicts.
pub fn machines_compact()
    ensures { MachinesCompact }
{}
