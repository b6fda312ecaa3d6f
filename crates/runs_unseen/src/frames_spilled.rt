//! How a running frame comes to wait: its statepoint puts the live entries into its slots. No code.
ghost use Rattle.moves_unseen.specs.Waits.{RunningFramesWait, SpillsAre};

/// A running frame of a verified module that stands at a statepoint waits there, once its live entries are in its slots: each
/// relocate of the group finds there the words of its base entry and of its derived entry, which are a pair.
pub fn running_frames_wait()
    ensures { RunningFramesWait }
{}

/// That is what the machine does at a statepoint: it writes the words of the live entries over the first slots of the running
/// frame, and changes nothing else.
pub fn spills_are()
    ensures { SpillsAre }
{}
