//! A line, lifted.

use crate::accesses::put_step;
use crate::declared::{Declared, layout_named};
use crate::expanding::put_intrinsic;
use crate::values::{first_global, is_any, name_of, put_cast, put_line, put_part, put_same};
use crate::writer::Writer;
use line_tokens::{is_mark, is_word};
use llvm_features::{is_hint, is_trap};
use llvm_steps::intrinsic_of;
use memchr::memchr;
use sp_ids::Memory;
use sp_text::{Kind, Line, Token};
use std::alloc::Global;

/// Lifts a line of these tokens, and says whether what follows up to the next label is never reached.
pub(crate) fn lift_line<'a>(
    alloc: Global,
    line: Line<'a>,
    tokens: &[Token<'a>],
    declared: &mut Declared<'a>,
    is_over: bool,
    writer: &mut Writer,
) -> Result<bool, Memory> {
    match tokens {
        [first, ..] if is_mark(first, b"}") => {
            put_whole(writer, line)?;
            Ok(false)
        }
        [first, ..] if first.kind == Kind::Bang => Ok(is_over),
        [_, colon, ..] if is_mark(colon, b":") && line.label().is_some() => {
            put_whole(writer, line)?;
            Ok(false)
        }
        [] => Ok(is_over),
        [_, ..] => {
            if is_over {
                return Ok(true);
            }
            lift_inner(alloc, line, tokens, declared, writer)
        }
    }
}

fn lift_inner<'a>(
    alloc: Global,
    line: Line<'a>,
    tokens: &[Token<'a>],
    declared: &mut Declared<'a>,
    writer: &mut Writer,
) -> Result<bool, Memory> {
    match tokens {
        [first, ..] if is_word(first, b"declare") => {
            declared.add_declaration(line, tokens)?;
            Ok(false)
        }
        [first, ..] if first.kind == Kind::Local => {
            if let Some(layout) = layout_named(tokens) {
                declared.add_layout(layout)?;
            }
            lift_used(alloc, line, tokens, declared, writer)
        }
        _ => {
            if says_nothing(tokens) {
                return Ok(false);
            }
            lift_used(alloc, line, tokens, declared, writer)
        }
    }
}

// A line at the top that says nothing here: of the module as a whole, or of comdats.
fn says_nothing(tokens: &[Token]) -> bool {
    match tokens {
        [first, ..]
            if is_word(first, b"source_filename")
                || is_word(first, b"target")
                || is_word(first, b"attributes") => true,
        [_, equals, word, ..] => is_mark(equals, b"=") && is_word(word, b"comdat"),
        _ => false,
    }
}

// A line that declares nothing: what it names is used.
fn lift_used<'a>(
    alloc: Global,
    line: Line<'a>,
    tokens: &[Token<'a>],
    declared: &mut Declared<'a>,
    writer: &mut Writer,
) -> Result<bool, Memory> {
    if use_names(tokens, declared)? {
        lift_tokens(alloc, line, tokens, writer)
    } else {
        writer.note_change();
        put_changed(alloc, tokens, writer)
    }
}

// Notes what a line names, and says whether its words stay: no value may be any, and no call must be the last.
fn use_names<'a>(tokens: &[Token<'a>], declared: &mut Declared<'a>) -> Result<bool, Memory> {
    let mut stays = true;
    for token in tokens {
        match token.kind {
            Kind::Global => declared.add_used(name_of(token))?,
            Kind::Word => {
                if is_any(token) || is_word(token, b"musttail") {
                    stays = false;
                }
            }
            _ => {}
        }
    }
    Ok(stays)
}

// A line whose words stay, unless its operator is written out.
fn lift_tokens(
    alloc: Global,
    line: Line,
    tokens: &[Token],
    writer: &mut Writer,
) -> Result<bool, Memory> {
    match tokens {
        [_, equals, word, rest @ ..] if is_mark(equals, b"=") => {
            if is_lifted(word, rest) {
                writer.note_change();
                return put_changed(alloc, tokens, writer);
            }
        }
        [first, ..] if calls(first) => {
            if names_intrinsic(tokens) {
                writer.note_change();
                return put_changed(alloc, tokens, writer);
            }
        }
        _ => {}
    }
    put_whole(writer, line)?;
    Ok(false)
}

fn calls(word: &Token) -> bool {
    is_word(word, b"call")
        || is_word(word, b"tail")
        || is_word(word, b"musttail")
        || is_word(word, b"notail")
}

fn names_intrinsic(tokens: &[Token]) -> bool {
    match first_global(tokens) {
        Some((name, _)) => name.starts_with(b"llvm."),
        None => false,
    }
}

// Whether a line with this operator may be written in another way.
fn is_lifted(word: &Token, rest: &[Token]) -> bool {
    if is_word(word, b"getelementptr") {
        return rest.iter().any(|token| is_mark(token, b"["));
    }
    if calls(word) {
        return names_intrinsic(rest);
    }
    is_word(word, b"freeze") || is_word(word, b"bitcast") || is_word(word, b"extractvalue")
}

// Puts the line as it is, but for what is dropped at its end.
fn put_whole(writer: &mut Writer, line: Line) -> Result<(), Memory> {
    writer.bytes(without_notes(line.bytes))?;
    writer.end()
}

// What stands before metadata that is attached at the end of an instruction. Where a quote stands, the line is left as it is.
fn without_notes(bytes: &[u8]) -> &[u8] {
    match memchr(b'!', bytes) {
        Some(at) if at <= bytes.len() => match &bytes[..at] {
            [front @ .., b',', b' '] if memchr(b'"', front).is_none() => front,
            _ => bytes,
        },
        _ => bytes,
    }
}

fn put_changed(alloc: Global, tokens: &[Token], writer: &mut Writer) -> Result<bool, Memory> {
    match tokens {
        [answer, equals, rest @ ..] if answer.kind == Kind::Local && is_mark(equals, b"=") => {
            put_result(alloc, answer, rest, tokens, writer)?;
            Ok(false)
        }
        [first, ..] if calls(first) => put_call(tokens, writer),
        _ => {
            put_line(writer, tokens)?;
            Ok(false)
        }
    }
}

// A call without a result.
fn put_call(tokens: &[Token], writer: &mut Writer) -> Result<bool, Memory> {
    match first_global(tokens) {
        Some((name, _)) if is_hint(name) => Ok(false),
        Some((name, _)) if is_trap(name) => {
            writer.bytes(b"unreachable")?;
            writer.end()?;
            Ok(true)
        }
        _ => {
            put_line(writer, tokens)?;
            Ok(false)
        }
    }
}

fn put_result(
    alloc: Global,
    answer: &Token,
    rest: &[Token],
    tokens: &[Token],
    writer: &mut Writer,
) -> Result<(), Memory> {
    match rest {
        [word, more @ ..] => {
            if is_word(word, b"freeze") {
                put_same(writer, answer, more, tokens)
            } else if is_word(word, b"bitcast") {
                put_cast(writer, answer, more, tokens)
            } else if is_word(word, b"extractvalue") {
                put_part(writer, answer, more, tokens)
            } else if is_word(word, b"getelementptr") {
                put_step(writer, answer, more, tokens)
            } else if calls(word) {
                put_answer(alloc, answer, more, tokens, writer)
            } else {
                put_line(writer, tokens)
            }
        }
        [] => put_line(writer, tokens),
    }
}

// A call with a result.
fn put_answer(
    alloc: Global,
    answer: &Token,
    rest: &[Token],
    tokens: &[Token],
    writer: &mut Writer,
) -> Result<(), Memory> {
    if let Some((name, behind)) = first_global(rest) {
        if is_hint(name) {
            return Ok(());
        }
        if let Some((intrinsic, width)) = intrinsic_of(name) {
            return put_intrinsic(alloc, writer, answer, intrinsic, width, behind);
        }
    }
    put_line(writer, tokens)
}
