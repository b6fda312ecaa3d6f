//! The laws of the rewriting: the rewritten module does what the module before liveness does.
#![tactic(auto)]

ghost use Rattle.rewriting_laws.specs.Removals.{LeastIsOne, PhisAreRooted, RemovalFits, SolvedFits};
ghost use Rattle.rewriting_laws.specs.Statements.{FittingAdds, FittingKeeps, LiveIsExact, RewritingAdds, RewritingKeeps};

/// The law that the rewritten module gives exactly what the module before liveness gives: printed lines, end, function, steps, events,
/// accesses and objects.
pub fn rewriting_keeps()
    ensures keeps { RewritingKeeps }
    ensures adds { RewritingAdds }
{}

/// The law that the test of liveness is exact: it answers true where some walk along edges reaches a use before a definition,
/// and nowhere else.
pub fn live_is_exact()
    ensures { LiveIsExact }
{}

/// The law that whatever phis are inserted, as long as names fit at every edge, the module under these names gives exactly what the
/// module before liveness gives.
pub fn fitting_keeps()
    ensures keeps { FittingKeeps }
    ensures adds { FittingAdds }
{}

/// The law that where names fit, so does what they become, when inserted phis become other names that all their operands become.
pub fn solved_fits()
    ensures { SolvedFits }
{}

/// The law of removal: whichever trivial phis are removed from a function, and in whatever order, the names that are left fit.
pub fn removal_fits()
    ensures { RemovalFits }
{}

/// The law that each inserted phi comes, over its operands, from a name that is no phi.
pub fn phis_are_rooted()
    ensures { PhisAreRooted }
{}

/// The law that the order of removal doesn't matter: where no trivial phi is left, there is one naming.
pub fn least_is_one()
    ensures { LeastIsOne }
{}
