//! A frame that waits goes on behind its group, in both meanings. No code.
ghost use Rattle.moves_unseen.specs.Waits.{WaitingFramesGoOn};

/// A frame that waits goes on behind its statepoint's group with the call's answer, in both meanings: the machine takes
/// relocates from the slots of the frame, and the pairs that stand there are those that the group gives.
pub fn waiting_frames_go_on()
    ensures { WaitingFramesGoOn }
{}
