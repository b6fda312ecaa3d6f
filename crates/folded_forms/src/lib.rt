//! What the simplifier is to do, as definitions, and the law that its replacements hold in each run. No code.
#![tactic(auto)]

ghost use Rattle.folded_forms.specs.Known.{FoldingsAreKnown, FoldingsHold};

/// The equations of a table in which only what reads the same stands for a value are known values: so they hold in each frame of
/// each state that a run comes to, wherever these values are defined.
pub fn foldings_are_known()
    ensures { FoldingsAreKnown }
{}

/// In each state that a run of a source module comes to, in each frame, each value that goes is what stands for it, or some path
/// comes to the frame's place without a definition of the value.
pub fn foldings_hold()
    ensures { FoldingsHold }
{}
