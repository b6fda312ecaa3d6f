//! A line has at most one reading.

ghost use Rattle.std.specs.Prelude.{◌≡◌, List, [], Some, true};
ghost use Rattle.sp_text.specs.Tokens.{Tok};
ghost use Rattle.ir_ast.specs.declared.modules.Form.{Form as TextForm};
ghost use Rattle.line_forms.specs.declared.forms.Form.{Form as LineForm};
ghost use Rattle.line_forms.specs.Slots.{Item, parse};
ghost use Rattle.line_forms.specs.Forms.{slots, form_in, stands_in};

/// Where the tokens of a line fit the slots of a form that stands in the text's form, it is the form that the first of
/// them call for.
pub fn one_form()
    ensures { (text : TextForm) (form : LineForm) (says : List Item) (line rest : List Tok) → parse (slots form) line ≡ Some (says, rest)
        → stands_in text form says ≡ true → form_in text line ≡ Some form }
{}

/// A line whose first tokens call for a form, and that fits it, is a line of the text's form: a text in the source form
/// has no line of a statepoint group, and one in the rewritten form names the functions of groups in their lines alone.
pub fn own_form()
    ensures { (text : TextForm) (form : LineForm) (says : List Item) (line rest : List Tok) → form_in text line ≡ Some form
        → parse (slots form) line ≡ Some (says, rest) → stands_in text form says ≡ true }
{}

/// In a text of one form a line fits one form at most, and says one thing at its slots.
pub fn one_reading()
    ensures { (text : TextForm) (form other : LineForm) (says also : List Item) (line : List Tok)
        → parse (slots form) line ≡ Some (says, []) → stands_in text form says ≡ true
        → parse (slots other) line ≡ Some (also, []) → stands_in text other also ≡ true → (form ≡ other) × (says ≡ also) }
{}
