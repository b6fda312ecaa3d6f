//! The map of a module has the record of each frame that waits. No code.
ghost use Rattle.moves_unseen.specs.Waits.{RecordsAreFound};

/// For a frame that waits at a statepoint the first record of its module's map with its return address is that of this
/// statepoint: its frame size is the frame's, it is usable on each stack that has the frame, and its pairs are the group's.
pub fn records_are_found()
    ensures { RecordsAreFound }
{}
