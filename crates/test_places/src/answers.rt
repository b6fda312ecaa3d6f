//! Answers to questions.

use pair_facts::Base;
use place_facts::{Facts, Question};

/// The answer to a question.
#[derive(Clone, Copy)]
pub(crate) enum Answer {
    Yes,
    No,
    None,
}

impl Answer {
    /// The answer as a file of cases has it.
    pub(crate) fn word(&self) -> &'static str {
        match self {
            Answer::Yes => "yes",
            Answer::No => "no",
            Answer::None => "none",
        }
    }
}

/// The answer that the facts have.
pub(crate) fn answer_to(facts: &Facts, question: Question) -> Answer {
    let found = match question.base {
        Base::Any => facts.any_before(question.place, question.pointer),
        Base::Named(base) => facts.holds_before(question.place, question.pointer, base),
    };
    match found {
        Some(true) => Answer::Yes,
        Some(false) => Answer::No,
        None => Answer::None,
    }
}
