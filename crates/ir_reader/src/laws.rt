//! Whether a line that fits a form is read, and why a text is refused.

ghost use Rattle.std.specs.Prelude.{◌≡◌, ℕ, Bool, List, Some, Result, true};
ghost use Rattle.sp_text.specs.Lines.{lines_of};
ghost use Rattle.sp_text.specs.Tokens.{Tok};
ghost use Rattle.ir_ast.specs.declared.modules.Form.{Form as TextForm};
ghost use Rattle.line_forms.specs.declared.forms.Form.{Form as LineForm};
ghost use Rattle.ir_reader.specs.declared.states.Place.{Place as LinePlace};
ghost use Rattle.ir_reader.specs.declared.states.State.{State as LineState};
ghost use Rattle.line_parts.specs.Gives.{end_of};
ghost use Rattle.line_forms.specs.Slots.{Item};
ghost use Rattle.line_forms.specs.Forms.{fit, stands_in};
ghost use Rattle.line_forms.specs.Seen.{of_form};
ghost use Rattle.ir_reader.specs.Judged.{Judged};
ghost use Rattle.ir_reader.specs.Places.{behind};
ghost use Rattle.ir_reader.specs.Text.{said_by, tokens_outcome, Fault, Numbered, readings_in};

/// A line that fits a form which may stand in its text and place is read by that form: it is dropped, over a limit, or
/// says what stands at the form's slots.
pub fn fitting_line()
    ensures { (state : LineState) (form : LineForm) (place : LinePlace) (says : List Item) (line rest : List Tok) (passed : Bool) → fit form line ≡ Some (says, rest) → end_of rest ≡ Some passed
        → stands_in state.form form says ≡ true → behind state.place form ≡ Some place
        → tokens_outcome state line ≡ said_by state form place (Some (of_form form says, passed)) }
{}

/// A text is refused at its first line that has no reading in its place, or up to which something passes its limit: what
/// the line says by itself, the layouts, the functions, the arguments and instructions of a function, the instructions
/// of all, or the relocates in a row. Else each of its lines has a reading in its place, and all are within the limits.
pub fn judged_text()
    ensures is { (form : TextForm) (text : List ℕ) → Judged form (lines_of text) (readings_in form text) }
    ensures only { (form : TextForm) (text : List ℕ) (read : Result (List Numbered) Fault) → Judged form (lines_of text) read → read ≡ readings_in form text }
{}
