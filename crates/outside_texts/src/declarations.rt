//! Declarations of what there isn't.

ghost use Rattle.std.specs.Prelude.{◌≡◌, ◌≤◌, ◌∷◌, Some, true, drop, codes, nat_eq, length, IfOk, IfSome, IfNone};
ghost use Rattle.std.specs.List.{starts_with};
ghost use Rattle.sp_text.specs.Lines.{lines_of};
ghost use Rattle.sp_text.specs.Tokens.{tokens};
ghost use Rattle.sp_text.specs.TokenAt.{seen_token, HasNoToken};
ghost use Rattle.line_forms.specs.Forms.{form_in};
ghost use Rattle.ir_lines.specs.Externals.{gc_new};
ghost use Rattle.outside_texts.specs.Declares.{Says, Declares, IsUnknown, Tells, StandsForNone, LacksLayout, begins_named};

use ir_ast::Form as TextForm;
use line_forms::{Form, Reading, kept_front, opened_form};
use line_parts::{Cursor, Stop};
use line_tokens::{is_text, local};
use sp_ids::Memory;
use sp_text::{Kind, Line, Lines, Name, Token};
use std::alloc::Global;

// How many declarations are looked at.
const TRIES: u32 = 8;

// How many tokens of a declaration are found at once.
const TOKENS_AT_ONCE: usize = 64;

const NO_TOKEN: Token<'static> = Token {
    kind: Kind::Word,
    bytes: b"a",
};

/// Whether one of the text's first declarations is of an intrinsic that no form of the profile has, or of what makes objects of
/// a layout that there isn't: then the text stands for no module in either form.
pub fn declares_unknown(alloc: Global, text: &[u8]) -> Result<bool, Memory>
    requires { length text.now ≤ 16777216 }
    ensures { IfOk result (λ found. found ≡ true → StandsForNone text.now) }
{
    let mut lines = Lines::of(text);
    let mut tries = 0u32;
    while let Some(line) = lines.next_line() {
        if line.bytes.starts_with(b"declare") {
            if is_unknown(alloc, text, line)? {
                return Ok(true);
            }
            tries = tries.saturating_add(1);
            if tries >= TRIES {
                return Ok(false);
            }
        }
    }
    Ok(false)
}

// Whether the line declares such a thing.
fn is_unknown(alloc: Global, text: &[u8], line: Line) -> Result<bool, Memory>
    requires { length text.now ≤ 16777216 }
    ensures { IfOk result (λ found. found ≡ true → Tells text.now line.entry.bytes.now) }
{
    match declared_name(alloc, line)? {
        Some(name) => Ok(is_unknown_name(text, name.bytes)),
        None => Ok(false),
    }
}

// Whether no form of the profile has an external of this name.
fn is_unknown_name(text: &[u8], name: &[u8]) -> bool
    requires { length text.now ≤ 16777216 }
    ensures { result ≡ true → IsUnknown (lines_of text.now) name.now }
{
    if is_intrinsic(name) {
        return true;
    }
    match made_by(name) {
        Some(layout) => lacks_layout(text, layout),
        None => false,
    }
}

fn is_intrinsic(name: &[u8]) -> bool
    ensures { result ≡ starts_with nat_eq name.now (codes "llvm.") }
{
    name.starts_with(b"llvm.")
}

// The layout of which a function of this name makes objects.
fn made_by(name: &[u8]) -> Option<&[u8]>
    ensures { IfSome result (λ layout. name.now ≡ gc_new layout.now) }
{
    match name {
        [b'g', b'c', b'_', b'n', b'e', b'w', b'.', layout @ ..] => Some(layout),
        _ => None,
    }
}

// Whether no line begins with `%` and this name.
fn lacks_layout(text: &[u8], layout: &[u8]) -> bool
    requires { length text.now ≤ 16777216 }
    ensures { result ≡ true → LacksLayout (lines_of text.now) layout.now }
{
    let mut lines = Lines::of(text);
    while let Some(line) = lines.next_line() {
        if begins_named(line, layout) {
            return false;
        }
    }
    true
}

fn begins_named(line: Line, layout: &[u8]) -> bool
    ensures { result ≡ begins_named layout.now (tokens line.entry.bytes.now) }
{
    match first_token(line) {
        Some(token) => match local(&token) {
            Some(name) => is_text(name.bytes, layout),
            None => false,
        },
        None => false,
    }
}

fn first_token<'a>(line: Line<'a>) -> Option<Token<'a>>
    ensures some { IfSome result (λ token. tokens line.entry.bytes.now ≡ seen_token token ∷ drop 1 (tokens line.entry.bytes.now)) }
    ensures none { IfNone result (HasNoToken line.entry.bytes.now) }
{
    match line.token_at(0) {
        Ok(Some(token)) => Some(Token {
            kind: token.kind,
            bytes: token.bytes,
        }),
        Ok(None) => None,
        Err(_) => None,
    }
}

// The name that a line declares in texts of either form.
fn declared_name<'a>(alloc: Global, line: Line<'a>) -> Result<Option<Name<'a>>, Memory>
    ensures { IfOk result (λ found. IfSome found (λ name. Declares line.entry.bytes.now name.bytes.now)) }
{
    if line.label().is_some() || line.is_metadata() {
        return Ok(None);
    }
    let mut room = [NO_TOKEN; TOKENS_AT_ONCE];
    let (count, from) = line.first_tokens(&mut room);
    let found = &room[..count];
    let cursor = Cursor::of(line, found, from);
    if opens(cursor, TextForm::Rewritten)
        && opens(Cursor::of(line, found, from), TextForm::Source)
    {
        name_in(alloc, Cursor::of(line, found, from))
    } else {
        Ok(None)
    }
}

// Whether a line in a text of this form is a declaration.
fn opens(cursor: Cursor, form: TextForm) -> bool
    ensures { result ≡ true → form_in form cursor.entry ≡ Some Form.Declare }
{
    let mut rest = cursor;
    match opened_form(&mut rest, form) {
        Some((Form::Declare, _)) => true,
        _ => false,
    }
}

// The name that a declaration has.
fn name_in<'a>(alloc: Global, cursor: Cursor<'_, 'a>) -> Result<Option<Name<'a>>, Memory>
    ensures { IfOk result (λ found. IfSome found (λ name. Says cursor.entry name.bytes.now)) }
{
    let mut rest = cursor;
    match kept_front(&mut rest, alloc, Form::Declare, None) {
        Ok(Reading::Declare { name, .. }) => match rest.end() {
            Some(_) => Ok(Some(name)),
            None => Ok(None),
        },
        Ok(_) => Ok(None),
        Err(Stop::NoReading) => Ok(None),
        Err(Stop::Memory) => Err(Memory),
    }
}
