//! What the tokens of a line tell.

ghost use Rattle.std.specs.Prelude.{◌≡◌, [], ◌∷◌, ◌++◌, map, IfOk, drop};
ghost use Rattle.std.specs.List.{list_any};
ghost use Rattle.line_tokens.specs.Marks.{is_word, is_mark, is_local, begins};
ghost use Rattle.sp_text.specs.TokenAt.{seen_token};
ghost use Rattle.sp_text.specs.Lines.{seen_line};
ghost use Rattle.sp_text.specs.Tokens.{tok, tokens as tokens_of};
ghost use Rattle.llvm_features.specs.Rows.{row_of};
ghost use Rattle.llvm_features.specs.Features.{lone_tells, type_tells, access_tells, word_tells, value_tells, name_tells, tells, body_tells, head_tells, worded_tells, line_tells, reason_at, told_by};

use crate::features::{Feature, Reason};
use crate::intrinsics::is_unknown;
use crate::words::{
    is_access, is_atomic, is_cast, is_cell, is_dropped, is_exception, is_float, is_indirect,
};
use line_tokens::{is_mark, is_text, is_word};
use sp_ids::Memory;
use sp_text::{Kind, Line, Token};

// A word that tells a feature wherever it stands.
fn lone_tells(word: &[u8]) -> Option<Feature>
    ensures { result ≡ lone_tells word.now }
{
    if is_text(word, b"alloca") {
        Some(Feature::FrameMemory)
    } else if is_float(word) {
        Some(Feature::Float)
    } else if is_exception(word) {
        Some(Feature::Exceptions)
    } else if is_text(word, b"va_arg") {
        Some(Feature::Varargs)
    } else if is_cast(word) {
        Some(Feature::PointerCast)
    } else if is_atomic(word) {
        Some(Feature::Atomics)
    } else if is_text(word, b"insertvalue") {
        Some(Feature::Aggregates)
    } else if is_text(word, b"asm") {
        Some(Feature::Assembly)
    } else if is_indirect(word) {
        Some(Feature::IndirectCall)
    } else {
        None
    }
}

// The type of an access.
fn type_tells(word: &[u8]) -> Option<Feature>
    ensures { result ≡ type_tells word.now }
{
    if is_cell(word) {
        None
    } else if is_atomic(word) {
        Some(Feature::Atomics)
    } else if is_float(word) {
        Some(Feature::Float)
    } else {
        Some(Feature::SmallAccess)
    }
}

// What stands behind `load` or `store`.
fn access_tells(rest: &[Token], _whole: bool) -> Option<Feature>
    ensures { result ≡ access_tells (row_of (map seen_token rest.now) _whole) }
{
    match rest {
        [first, ..] => match first.kind {
            Kind::Word => type_tells(first.bytes),
            _ => None,
        },
        [] => None,
    }
}

fn begins_local(rest: &[Token], _whole: bool) -> bool
    ensures { result ≡ begins is_local (row_of (map seen_token rest.now) _whole) }
{
    match rest {
        [first, ..] => first.kind == Kind::Local,
        [] => false,
    }
}

fn begins_mark(rest: &[Token], _whole: bool, mark: &[u8]) -> bool
    ensures { result ≡ begins (is_mark mark.now) (row_of (map seen_token rest.now) _whole) }
{
    match rest {
        [first, ..] => is_mark(first, mark),
        [] => false,
    }
}

fn word_tells(word: &[u8], rest: &[Token], whole: bool) -> Option<Feature>
    ensures { result ≡ word_tells word.now (row_of (map seen_token rest.now) whole) }
{
    if is_access(word) {
        return access_tells(rest, whole);
    }
    if is_text(word, b"ptr") {
        return if begins_local(rest, whole) {
            Some(Feature::PlainPointer)
        } else {
            None
        };
    }
    lone_tells(word)
}

fn value_tells(rest: &[Token], whole: bool) -> Option<Feature>
    ensures { result ≡ value_tells (row_of (map seen_token rest.now) whole) }
{
    if begins_mark(rest, whole, b"(") {
        Some(Feature::IndirectCall)
    } else {
        None
    }
}

fn behind_first(bytes: &[u8]) -> &[u8]
    ensures { result.now ≡ drop 1 bytes.now }
{
    match bytes {
        [_, rest @ ..] => rest,
        [] => bytes,
    }
}

fn name_tells(name: &[u8]) -> Option<Feature>
    ensures { result ≡ name_tells name.now }
{
    if is_unknown(name) {
        Some(Feature::Intrinsic)
    } else {
        None
    }
}

// A token, with those behind it.
#[tactic(auto, unfolding(crate::specs::Features::tells))]
fn tells(token: &Token, rest: &[Token], whole: bool) -> Option<Feature>
    ensures { result ≡ tells (seen_token token.now) (row_of (map seen_token rest.now) whole) }
{
    match token.kind {
        Kind::Word => word_tells(token.bytes, rest, whole),
        Kind::Local => value_tells(rest, whole),
        Kind::Global => name_tells(behind_first(token.bytes)),
        _ => None,
    }
}

fn body_tells(tokens: &[Token], whole: bool) -> Option<Feature>
    ensures { result ≡ body_tells (row_of (map seen_token tokens.now) whole) }
{
    let mut left = tokens;
    while let [token, rest @ ..] = left {
        if let Some(feature) = tells(token, rest, whole) {
            return Some(feature);
        }
        left = rest;
    }
    end_tells(whole)
}

// What the end of a line tells.
#[tactic(auto, using(crate::proofs::RowLemmas::end_tells))]
fn end_tells(whole: bool) -> Option<Feature>
    ensures { result ≡ body_tells (row_of [] whole) }
{
    if whole { None } else { Some(Feature::Spelling) }
}

fn has_word(tokens: &[Token], word: &[u8]) -> bool
    ensures { result ≡ list_any (is_word word.now) (map seen_token tokens.now) }
{
    let mut left = tokens;
    while let [token, rest @ ..] = left {
        if is_word(token, word) {
            return true;
        }
        left = rest;
    }
    false
}

// A definition's head.
#[tactic(auto, using(crate::proofs::RowLemmas::has_no_bad, crate::proofs::RowLemmas::ends_badly), unfolding(crate::specs::Features::head_tells))]
fn head_tells(tokens: &[Token], whole: bool) -> Option<Feature>
    ensures { result ≡ head_tells (row_of (map seen_token tokens.now) whole) }
{
    if !whole {
        Some(Feature::Spelling)
    } else if has_word(tokens, b"...") {
        Some(Feature::Varargs)
    } else if has_word(tokens, b"personality") {
        Some(Feature::Exceptions)
    } else if has_word(tokens, b"gc") {
        None
    } else {
        Some(Feature::NoStrategy)
    }
}

/// What a line of these tokens tells, which are all of it or stand before a byte that begins none.
#[tactic(auto, using(crate::proofs::RowLemmas::line_end), unfolding(crate::specs::Features::line_tells))]
pub fn line_tells(tokens: &[Token], whole: bool) -> Option<Feature>
    ensures { result ≡ line_tells (row_of (map seen_token tokens.now) whole) }
{
    match tokens {
        [first, rest @ ..] => match first.kind {
            Kind::Global => Some(Feature::Global),
            Kind::Bang => None,
            Kind::Word => worded_tells(first.bytes, rest, tokens, whole),
            _ => body_tells(tokens, whole),
        },
        [] => body_tells(tokens, whole),
    }
}

// A line that begins with this word.
fn worded_tells(word: &[u8], rest: &[Token], tokens: &[Token], whole: bool) -> Option<Feature>
    requires { map seen_token tokens.now ≡ tok Kind.Word word.now ∷ map seen_token rest.now }
    ensures { result ≡ worded_tells word.now (row_of (map seen_token rest.now) whole) }
{
    if is_dropped(word) {
        None
    } else if is_text(word, b"module") {
        Some(Feature::Assembly)
    } else if is_text(word, b"define") {
        head_tells(rest, whole)
    } else {
        body_tells(tokens, whole)
    }
}

/// Puts the reason that a line of these tokens is, if it is one.
pub fn push_reason(
    reasons: &mut Vec<Reason>,
    line: Line,
    row: &[Token],
    whole: bool,
) -> Result<(), Memory>
    requires { tokens_of line.bytes.now ≡ row_of (map seen_token row.now) whole }
    ensures { IfOk result (λ _. reasons.new.items ≡ reasons.old.items ++ told_by (seen_line line.entry)) }
{
    if let Some(feature) = told(line, row, whole) {
        reasons.push(Reason {
            line: line.number,
            feature,
        })?;
    }
    Ok(())
}

// What a line tells that is no label. Few lines tell anything, so that is asked first.
#[tactic(auto, using(crate::proofs::RowLemmas::nothing_told))]
fn told(line: Line, row: &[Token], whole: bool) -> Option<Feature>
    requires { tokens_of line.bytes.now ≡ row_of (map seen_token row.now) whole }
    ensures { reason_at line.entry.number result ≡ told_by (seen_line line.entry) }
{
    match line_tells(row, whole) {
        None => None,
        Some(feature) => match line.label() {
            Some(_) => None,
            None => Some(feature),
        },
    }
}
