//! The law that the objects of a run of the address machine stand where its events and its plan put them. No code.
ghost use Rattle.rewritten_runs.specs.PlacedRuns.{PlacesAreByEvents};

/// Where the objects of a run stand in the end, and which verdict each event had, follows from its events, the sizes of its objects
/// and the plan alone.
pub fn places_are_by_events()
    ensures { PlacesAreByEvents }
{}
