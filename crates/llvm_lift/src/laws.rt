//! What is known of each answer. No code.
ghost use Rattle.llvm_lift.specs.LiftLaws.{ProfileIsLeft, ShownIsLeft, AnswersAreTyped, AnswersAreLeft};

/// Of a text that stands for a source module the answer is its printed text, or want of memory.
pub fn profile_is_left()
    ensures { ProfileIsLeft }
{}

/// What `show` writes of a source module comes out as it went in.
pub fn shown_is_left()
    ensures { ShownIsLeft }
{}

/// An answer within the file limit is read and typed: it is the printed text of the module that it stands for.
pub fn answers_are_typed()
    ensures { AnswersAreTyped }
{}

/// And it is given again.
pub fn answers_are_left()
    ensures { AnswersAreLeft }
{}
