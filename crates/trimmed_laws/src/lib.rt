//! The law that a run gives the same where some of its lines go and others stand for its operands. No code.
#![tactic(auto)]

ghost use Rattle.trimmed_laws.specs.Statements.{TrimmedGiveTheSame};

/// A run some of whose lines went, and in which others that read the same stand for operands, gives what the run gives: lines,
/// end, function, steps, events, accesses and objects.
pub fn trimmed_give_the_same()
    ensures { TrimmedGiveTheSame }
{}
