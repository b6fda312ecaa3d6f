//! The text of a run of the address machine, with its trace, its closing line and the places of its objects. No code.
#![tactic(auto)]

ghost use Rattle.run_texts.specs.Statements.{BareTexts, OneText, WrittenFirst};

/// A run has one text.
pub fn one_text()
    ensures { OneText }
{}

/// Without places and trace it is what the run prints, what waiting frames show, and the closing line.
pub fn bare_texts()
    ensures { BareTexts }
{}

/// What the first steps of a run write stands first in its text.
pub fn written_first()
    ensures { WrittenFirst }
{}
