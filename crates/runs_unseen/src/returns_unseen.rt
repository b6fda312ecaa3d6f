//! Each return of a sound module is one step of both meanings, to the frame below, to task 0, or from the run. No code.
ghost use Rattle.moves_unseen.specs.Waits.{ReturnsFollow};

/// A `ret` is one step of both: the frame below goes on with the same number, or with a pointer that is its own base; a task
/// that ends hands over to task 0; the end of task 0 ends the run with the same number.
pub fn returns_follow()
    ensures { ReturnsFollow }
{}
