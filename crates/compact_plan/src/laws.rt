//! Laws of the plan that compacts. No code.

ghost use Rattle.compact_plan.specs.Promises.{CompactedIsPlan, EventCompacts, OthersStay};

/// The lines that [`compact`](crate::compact) gives are a plan.
pub fn compacted_is_plan()
    ensures { CompactedIsPlan }
{}

/// They say of tasks, of flips and of the moves of other events what the given plan says.
pub fn others_stay()
    ensures { OthersStay }
{}

/// At the event all objects made before it come to lie side by side from 2^40, in the order of their numbers.
pub fn event_compacts()
    ensures { EventCompacts }
{}
