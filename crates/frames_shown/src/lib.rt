//! The law of traps: what the frames that wait show is the same by both meanings, where the map has them. No code.
#![tactic(auto)]

ghost use Rattle.frames_shown.specs.Statements.{BundlesAreLocated, NamesAreFound, TrapsAreShown, ValuesAreShown};

/// The values that are shown of a frame through its record are those that its call's bundle names.
pub fn values_are_shown()
    ensures { ValuesAreShown }
{}

/// Where a run ends, the lines of the frames that wait are those of the target meaning.
pub fn traps_are_shown()
    ensures { TrapsAreShown }
{}

/// The locations that the map of a module has of a call's bundle show its entries.
pub fn bundles_are_located()
    ensures { BundlesAreLocated }
{}

/// At the code address of an instruction stands the name of its function.
pub fn names_are_found()
    ensures { NamesAreFound }
{}
