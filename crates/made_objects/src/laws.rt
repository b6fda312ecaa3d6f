//! What the events of a run say of its objects. No code.

ghost use Rattle.made_objects.specs.Statements.{RunsMakeTheirObjects};

/// Each object of a run was made at one of its events, at most one at an event, in the order of their numbers; and the count of
/// events is that of the events that came, up to 2^64 - 1, where it stands still.
pub fn runs_make_their_objects()
    ensures { RunsMakeTheirObjects }
{}
