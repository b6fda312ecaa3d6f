//! The law that each instruction of a target module can be asked, without code.

ghost use Rattle.place_facts.specs.Laws.{AllAreAskable};

/// The law that a question of any instruction of a target module has an answer.
pub fn all_are_askable()
    ensures { AllAreAskable }
{}
