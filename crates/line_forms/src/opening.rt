//! Which form a line can have, by the tokens that it begins with.

ghost use Rattle.std.specs.Prelude.{◌≡◌, false, is_some, MatchOption, IfSome};
ghost use Rattle.std.specs.Option.{option_copied, option_map};
ghost use Rattle.sp_text.specs.Names.{seen_name};
ghost use Rattle.sp_text.specs.Tokens.{tok};
ghost use Rattle.line_tokens.specs.Marks.{begins, is_local, is_word};
ghost use Rattle.line_parts.specs.Drops.{past};
ghost use Rattle.line_forms.specs.Seen.{line_at, opened_at, Opens};
ghost use Rattle.line_forms.specs.Forms.{is_calling_word, is_operator, is_operator_form, element_form, single_result_form, named_form, result_form, local_form, target_form, top_form, case_form, branch_form, return_form, instruction_form, word_form, mark_form, form_of, first_global, callee_of, declared_of, behind_result, called_form, plain_form, declared_form, group_form, form_in};

use crate::forms::{DroppedLine, Form};
use ir_ast::Form as TextForm;
use line_parts::Cursor;
use line_tokens::{
    Binary, Cast, Conversion, Dropped, Flags, global, is_family_name, is_mark, is_result_name,
    is_text, local, relocate_name, statepoint_name, width_in,
};
use sp_text::{Kind, Name};

fn is_calling_word(bytes: &[u8]) -> bool
    ensures { result ≡ is_calling_word bytes.now }
{
    is_text(bytes, b"call") || is_text(bytes, b"tail") || is_text(bytes, b"notail")
}

fn mark_form(bytes: &[u8]) -> Option<Form>
    ensures form { result ≡ mark_form bytes.now }
    ensures plain { IfSome result (λ form. is_operator_form form ≡ false) }
{
    match bytes {
        b"}" => Some(Form::Close),
        b"]" => Some(Form::SwitchEnd),
        _ => None,
    }
}

fn case_form(bytes: &[u8]) -> Option<Form>
    ensures form { result ≡ case_form (tok Kind.Word bytes.now) }
    ensures plain { IfSome result (λ form. is_operator_form form ≡ false) }
{
    match width_in(bytes) {
        Some(_) => Some(Form::Case),
        None => None,
    }
}

// A call with a result, by the function that it names.
fn called_form(name: Option<&[u8]>) -> Form
    ensures form { result ≡ called_form (option_copied name.entry) }
    ensures plain { is_operator_form result ≡ false }
{
    let Some(name) = name else {
        return Form::ValueCall;
    };
    if is_result_name(name) {
        Form::GcResult
    } else if is_text(name, statepoint_name()) {
        Form::Statepoint
    } else if is_text(name, relocate_name()) {
        Form::GcRelocate
    } else {
        Form::ValueCall
    }
}

// A call without a result, by the function that it names.
fn plain_form(name: Option<&[u8]>) -> Option<Form>
    ensures form { result ≡ plain_form (option_copied name.entry) }
    ensures plain { IfSome result (λ form. is_operator_form form ≡ false) }
{
    match name {
        Some(name) if is_family_name(name) => None,
        _ => Some(Form::VoidCall),
    }
}

fn declared_form(name: Option<&[u8]>) -> Form
    ensures form { result ≡ declared_form (option_copied name.entry) }
    ensures plain { is_operator_form result ≡ false }
{
    match name {
        Some(name) if is_family_name(name) => Form::Dropped(DroppedLine::Family),
        _ => Form::Declare,
    }
}

/// The form of a line of a text in this form: no other form can fit it. Where that is an operator's, the cursor passes
/// the operator, and the name of the line's result is given beside the form.
#[tactic(auto, using(crate::proofs::Operators::operator_in), unfolding(crate::specs::Forms::form_in))]
pub fn opened_form<'a>(
    cursor: &mut Cursor<'_, 'a>,
    text: TextForm,
) -> Option<(Form, Option<Name<'a>>)>
    ensures { MatchOption result (form_in text cursor.old ≡ None)
        (λ found. Opens text cursor.old found.0 (option_map seen_name found.1) cursor.new) }
{
    let (form, name) = source_form(cursor)?;
    match name {
        Some(name) => Some((form, Some(name))),
        None => {
            let form = text_form(cursor, text, form)?;
            Some((form, None))
        }
    }
}

// What a line of the source form is in a text of this form.
#[tactic(auto, unfolding(crate::specs::Forms::form_in))]
fn text_form(cursor: &Cursor, text: TextForm, form: Form) -> Option<Form>
    ensures form { form_of cursor.now ≡ Some form → result ≡ form_in text cursor.now }
    ensures plain { is_operator_form form ≡ false → IfSome result (λ found. is_operator_form found ≡ false) }
{
    match text {
        TextForm::Source => Some(form),
        TextForm::Rewritten => group_form(cursor, form),
    }
}

// What a line of the source form is in the rewritten form.
#[tactic(auto, unfolding(crate::specs::Forms::group_form))]
fn group_form(cursor: &Cursor, form: Form) -> Option<Form>
    ensures form { result ≡ group_form cursor.now form }
    ensures plain { is_operator_form form ≡ false → IfSome result (λ grouped. is_operator_form grouped ≡ false) }
{
    match form {
        Form::ValueCall => Some(called_form(result_callee(cursor))),
        Form::VoidCall => plain_form(callee(cursor)),
        Form::Declare => Some(declared_form(declared(cursor))),
        _ => Some(form),
    }
}

// The first function that is named from here on.
#[tactic(auto, unfolding(crate::specs::Forms::first_global))]
fn first_global<'a>(cursor: &Cursor<'_, 'a>) -> Option<&'a [u8]>
    ensures { option_copied result ≡ first_global cursor.now }
{
    let mut rest = cursor.copied();
    while let Some(token) = rest.token() {
        if let Some(name) = global(&token) {
            return Some(name.bytes);
        }
    }
    None
}

// The function that a call with a result names. A byte that begins no token ends what is looked at.
#[tactic(auto, unfolding(crate::specs::Forms::callee_of, crate::specs::Forms::first_global, line_parts::specs::Drops::past_all, line_parts::specs::Drops::past_at_most))]
fn result_callee<'a>(cursor: &Cursor<'_, 'a>) -> Option<&'a [u8]>
    ensures { option_copied result ≡ callee_of (behind_result cursor.now) }
{
    let mut rest = cursor.copied();
    if rest.token().is_none() {
        return callee(cursor);
    }
    if rest.is_at_end() {
        return callee(cursor);
    }
    if rest.token().is_none() {
        return None;
    }
    callee(&rest)
}

// Passes a word, where it stands.
fn pass_word(cursor: &mut Cursor, text: &[u8])
    ensures { cursor.new ≡ past (is_word text.now) cursor.old }
{
    if cursor.begins_word(text) {
        let _ = cursor.token();
    }
}

// The function that a call names.
#[tactic(auto, unfolding(crate::specs::Forms::callee_of))]
fn callee<'a>(cursor: &Cursor<'_, 'a>) -> Option<&'a [u8]>
    ensures { option_copied result ≡ callee_of cursor.now }
{
    let mut rest = cursor.copied();
    rest.skip(Dropped::Words(Flags::Calling));
    pass_word(&mut rest, b"call");
    rest.skip(Dropped::Groups);
    first_global(&rest)
}

// The function that a declaration names.
#[tactic(auto, unfolding(crate::specs::Forms::declared_of))]
fn declared<'a>(cursor: &Cursor<'_, 'a>) -> Option<&'a [u8]>
    ensures { option_copied result ≡ declared_of cursor.now }
{
    let mut rest = cursor.copied();
    pass_word(&mut rest, b"declare");
    rest.skip(Dropped::HeadAttachments);
    rest.skip(Dropped::Groups);
    first_global(&rest)
}

// The form of a line of the source form. Where that is an operator's, the cursor passes the operator, and the name of
// the result is given.
#[tactic(auto, using(crate::proofs::Operators::line_behind), unfolding(crate::specs::Forms::form_of))]
fn source_form<'a>(cursor: &mut Cursor<'_, 'a>) -> Option<(Form, Option<Name<'a>>)>
    ensures form { MatchOption result (form_of cursor.old ≡ None) (λ found. form_of cursor.old ≡ Some found.0) }
    ensures operator { IfSome result (λ found. is_some (option_map seen_name found.1) ≡ is_operator_form found.0) }
    ensures stays { IfSome result (λ found. is_operator_form found.0 ≡ false → cursor.new ≡ cursor.old) }
    ensures opened { IfSome result (λ found. line_at found.0 cursor.old ≡ opened_at found.0 (option_map seen_name found.1) cursor.new) }
{
    let mut rest = cursor.copied();
    let first = rest.token()?;
    match first.kind {
        Kind::Local => {
            let name = local(&first)?;
            let second = rest.token()?;
            if !is_mark(&second, b"=") {
                return None;
            }
            let third = rest.token()?;
            match third.kind {
                Kind::Word => {
                    let form = named_form(&rest, third.bytes)?;
                    if is_operator_form(form) {
                        *cursor = rest;
                        Some((form, Some(name)))
                    } else {
                        Some((form, None))
                    }
                }
                _ => None,
            }
        }
        Kind::Word => {
            let form = word_form(&rest, first.bytes)?;
            Some((form, None))
        }
        Kind::Punct => {
            let form = mark_form(first.bytes)?;
            Some((form, None))
        }
        _ => None,
    }
}

// Whether lines of the form have an operator behind `%x =`.
fn is_operator_form(form: Form) -> bool
    ensures { result ≡ is_operator_form form }
{
    match form {
        Form::Binary(_)
        | Form::Convert(_)
        | Form::Cast(_)
        | Form::Compare
        | Form::Select
        | Form::Phi
        | Form::ScalarElement
        | Form::LayoutElement
        | Form::Load => true,
        _ => false,
    }
}

#[tactic(auto, unfolding(crate::specs::Forms::named_form))]
fn named_form(cursor: &Cursor, word: &[u8]) -> Option<Form>
    ensures form { result ≡ named_form word.now cursor.now }
    ensures word { IfSome result (λ form. is_operator form word.now ≡ is_operator_form form) }
{
    if let Some(op) = Binary::of(word) {
        return Some(Form::Binary(op));
    }
    if let Some(op) = Conversion::of(word) {
        return Some(Form::Convert(op));
    }
    if let Some(op) = Cast::of(word) {
        return Some(Form::Cast(op));
    }
    single_result_form(cursor, word)
}

fn single_result_form(cursor: &Cursor, word: &[u8]) -> Option<Form>
    ensures form { result ≡ single_result_form word.now cursor.now }
    ensures word { IfSome result (λ form. is_operator form word.now ≡ is_operator_form form) }
{
    if is_text(word, b"getelementptr") {
        Some(element_form(cursor))
    } else if is_text(word, b"load") {
        Some(Form::Load)
    } else if is_calling_word(word) {
        Some(Form::ValueCall)
    } else if is_text(word, b"phi") {
        Some(Form::Phi)
    } else if is_text(word, b"icmp") {
        Some(Form::Compare)
    } else if is_text(word, b"select") {
        Some(Form::Select)
    } else if is_text(word, b"type") {
        Some(Form::Layout)
    } else {
        None
    }
}

fn begins_local(cursor: &Cursor) -> bool
    ensures { result ≡ begins is_local cursor.now }
{
    match cursor.peek() {
        Some(token) => token.kind == Kind::Local,
        None => false,
    }
}

fn element_form(cursor: &Cursor) -> Form
    ensures { result ≡ element_form cursor.now }
{
    let mut rest = cursor.copied();
    rest.skip(Dropped::Words(Flags::Bounds));
    if begins_local(&rest) {
        Form::LayoutElement
    } else {
        Form::ScalarElement
    }
}

#[tactic(auto, unfolding(crate::specs::Forms::word_form))]
fn word_form(cursor: &Cursor, word: &[u8]) -> Option<Form>
    ensures form { result ≡ word_form word.now cursor.now }
    ensures plain { IfSome result (λ form. is_operator_form form ≡ false) }
{
    if let Some(form) = instruction_form(cursor, word) {
        return Some(form);
    }
    if let Some(form) = top_form(cursor, word) {
        return Some(form);
    }
    case_form(word)
}

fn instruction_form(cursor: &Cursor, word: &[u8]) -> Option<Form>
    ensures form { result ≡ instruction_form word.now cursor.now }
    ensures plain { IfSome result (λ form. is_operator_form form ≡ false) }
{
    if is_text(word, b"store") {
        Some(Form::Store)
    } else if is_calling_word(word) {
        Some(Form::VoidCall)
    } else if is_text(word, b"br") {
        Some(branch_form(cursor))
    } else if is_text(word, b"switch") {
        Some(Form::Switch)
    } else if is_text(word, b"ret") {
        Some(return_form(cursor))
    } else if is_text(word, b"unreachable") {
        Some(Form::Unreachable)
    } else {
        None
    }
}

fn branch_form(cursor: &Cursor) -> Form
    ensures form { result ≡ branch_form cursor.now }
    ensures plain { is_operator_form result ≡ false }
{
    if cursor.begins_word(b"label") {
        Form::Jump
    } else {
        Form::Branch
    }
}

fn return_form(cursor: &Cursor) -> Form
    ensures form { result ≡ return_form cursor.now }
    ensures plain { is_operator_form result ≡ false }
{
    if cursor.begins_word(b"void") {
        Form::ReturnVoid
    } else {
        Form::Return
    }
}

fn top_form(cursor: &Cursor, word: &[u8]) -> Option<Form>
    ensures form { result ≡ top_form word.now cursor.now }
    ensures plain { IfSome result (λ form. is_operator_form form ≡ false) }
{
    if is_text(word, b"declare") {
        Some(Form::Declare)
    } else if is_text(word, b"define") {
        Some(Form::Define)
    } else if is_text(word, b"attributes") {
        Some(Form::Dropped(DroppedLine::Attributes))
    } else if is_text(word, b"source_filename") {
        Some(Form::Dropped(DroppedLine::SourceFilename))
    } else if is_text(word, b"target") {
        Some(target_form(cursor))
    } else {
        None
    }
}

fn target_form(cursor: &Cursor) -> Form
    ensures form { result ≡ target_form cursor.now }
    ensures plain { is_operator_form result ≡ false }
{
    if cursor.begins_word(b"datalayout") {
        Form::Dropped(DroppedLine::DataLayout)
    } else {
        Form::Dropped(DroppedLine::Triple)
    }
}
