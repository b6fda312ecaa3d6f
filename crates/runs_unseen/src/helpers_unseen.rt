//! Laws towards "moves are never noticed": statepoints of helpers, and lines that took effect before. No code.
ghost use Rattle.moves_unseen.specs.Waits.{HelpersFollow, SkipsFollow};

/// A statepoint of a check, a comparison, a print or a read is one step of both: the machine spills its live entries, does what
/// the helper does, and goes on behind the group, or ends in the same trap.
pub fn helpers_follow()
    ensures { HelpersFollow }
{}

/// A phi, a result or a relocate is stepped over by both: it took effect at the jump, or with its statepoint.
pub fn skips_follow()
    ensures { SkipsFollow }
{}
