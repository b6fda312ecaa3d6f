/// Why a program trapped (LLVM Language Reference, the instructions' undefined cases; the rest is this
/// profile's runtime).
#[derive(Clone, Copy, Debug, PartialEq, Eq)]
pub enum Trap {
    /// A division or remainder by zero.
    Div,
    /// The least signed number divided by -1.
    Overflow,
    /// A shift by the width or more.
    Shift,
    /// An executed `unreachable`.
    Unreachable,
    /// An access through a pointer without an object.
    Null,
    /// An access that isn't a whole cell of its object.
    Bounds,
    /// An access to a cell of the other kind.
    Kind,
    /// A new object with a negative count of elements.
    Count,
    /// A new object for which the heap has no room.
    Full,
    /// A read where no input number is left.
    Input,
    /// A call in a task that already has its 4,096 frames.
    Depth,
    /// A task started where 64 tasks were started before.
    Tasks,
}

/// How a run ends.
#[derive(Clone, Copy, Debug, PartialEq, Eq)]
pub enum End {
    /// `@main` returned this number.
    Return(i64),
    Trap(Trap),
    /// Another step would pass the bound on steps.
    OutOfSteps,
    /// The address machine reached a word that is no object's address.
    Poison,
    /// The address machine found no usable record of the stack map for a frame.
    LostFrame,
}
