//! The law that a run whose registers have other numbers, and among whose lines some are inserted that change nothing, gives
//! the same. No code.
#![tactic(auto)]

ghost use Rattle.renaming_laws.specs.Statements.{ImagesGiveTheSame, RenumberingGivesTheSame};

/// A run whose lines are the images of another run's lines gives what that run gives: lines, end, function, steps, events,
/// accesses and objects.
pub fn images_give_the_same()
    ensures { ImagesGiveTheSame }
{}

/// A run doesn't depend on the numbers of its registers.
pub fn renumbering_gives_the_same()
    ensures { RenumberingGivesTheSame }
{}
