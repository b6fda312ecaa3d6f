//! Laws of calls of defined functions and of tasks that start, towards "moves are never noticed". No code.
ghost use Rattle.runs_unseen.specs.WaitingStates.{StacksAreAll, StatesWait};
ghost use Rattle.moves_unseen.specs.Waits.{CallsFollow, TasksFollow};

/// A related state that stands at a statepoint is one all of whose frames wait, once the machine has put the live entries in
/// their slots.
pub fn states_wait()
    ensures { StatesWait }
{}

/// The machine's frames and stacks of all tasks are those of the target meaning's frames.
pub fn stacks_are_all()
    ensures { StacksAreAll }
{}

/// A call of a defined function is one step of both, which enters the same frame and keeps the relation, or ends both alike.
pub fn calls_follow()
    ensures { CallsFollow }
{}

/// So is the start of a task.
pub fn tasks_follow()
    ensures { TasksFollow }
{}
