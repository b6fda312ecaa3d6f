//! Polls and new objects, each one step of the target meaning and one of the machine, with the moves of its event. No code.
ghost use Rattle.moves_unseen.specs.Waits.{NewObjectsFollow, PollsFollow};

/// A poll is one step of both: the event is counted, its moves are made over the stacks of all tasks, and the task of the event's
/// `go` line, or the same one, goes on behind its group; the relation holds there.
pub fn polls_follow()
    ensures { PollsFollow }
{}

/// So is a new object: after the moves of its event both make it, and go on behind the group with the pointer to it and its
/// address, or trap for a negative count or for want of room.
pub fn new_objects_follow()
    ensures { NewObjectsFollow }
{}
