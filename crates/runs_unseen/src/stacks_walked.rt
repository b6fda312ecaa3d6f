//! The law of the walk over the stack of a task: the frames that wait have in their slots the words of after the moves. No code.
ghost use Rattle.moves_unseen.specs.Waits.{StacksAreWalked};

/// The walk of an event over the stack of a task whose frames wait gives the stack of the same frames, whose registers hold what
/// they held, and whose slots have the words of the same pointers with the objects where they are after the moves.
pub fn stacks_are_walked()
    ensures { StacksAreWalked }
{}
