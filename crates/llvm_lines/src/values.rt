//! Values in a line: names, numbers, what stands behind a type.

use crate::writer::Writer;
use line_tokens::{is_mark, is_text, is_word, width_in};
use sp_ids::Memory;
use sp_text::{Kind, Token};

/// The bytes behind the first one: the name of a value or a function.
pub(crate) fn name_of<'a>(token: &Token<'a>) -> &'a [u8] {
    let bytes = token.bytes;
    match bytes {
        [_, rest @ ..] => rest,
        [] => bytes,
    }
}

/// The first function that a line names, and what stands behind it.
pub(crate) fn first_global<'t, 'a>(tokens: &'t [Token<'a>]) -> Option<(&'a [u8], &'t [Token<'a>])> {
    let mut left = tokens;
    while let [token, rest @ ..] = left {
        if token.kind == Kind::Global {
            return Some((name_of(token), rest));
        }
        left = rest;
    }
    None
}

/// Whether this is the number.
pub(crate) fn is_number(token: &Token, number: &[u8]) -> bool {
    match token.kind {
        Kind::Number => is_text(token.bytes, number),
        _ => false,
    }
}

/// Whether a value may be any.
pub(crate) fn is_any(token: &Token) -> bool {
    is_word(token, b"undef") || is_word(token, b"poison")
}

// A value of a type, where both stand first, and what stands behind them.
#[derive(Clone, Copy)]
pub(crate) struct Typed<'t, 'a> {
    // The word of an integer type, or none for a pointer.
    pub(crate) width: Option<&'a [u8]>,
    pub(crate) value: Token<'a>,
    pub(crate) rest: &'t [Token<'a>],
}

pub(crate) fn typed_value<'t, 'a>(tokens: &'t [Token<'a>]) -> Option<Typed<'t, 'a>> {
    match tokens {
        [ptr, space, open, one, close, value, rest @ ..]
            if is_word(ptr, b"ptr")
                && is_word(space, b"addrspace")
                && is_mark(open, b"(")
                && is_number(one, b"1")
                && is_mark(close, b")") => {
            Some(Typed {
                width: None,
                value: *value,
                rest,
            })
        }
        [width, value, rest @ ..] if width.kind == Kind::Word && width_in(width.bytes).is_some() =>
            {
                Some(Typed {
                    width: Some(width.bytes),
                    value: *value,
                    rest,
                })
            }
        _ => None,
    }
}

pub(crate) fn put_value(
    writer: &mut Writer,
    value: &Token,
    is_pointer: bool,
) -> Result<(), Memory> {
    if is_any(value) {
        writer.word(if is_pointer { b"null" } else { b"0" })
    } else {
        writer.word(value.bytes)
    }
}

/// Puts a line word by word. A value that may be any is 0 or `null`, and a call that must be the last one is one that may be.
pub(crate) fn put_line(writer: &mut Writer, tokens: &[Token]) -> Result<(), Memory> {
    let mut is_pointer = false;
    for token in tokens {
        match token.kind {
            Kind::Word => match token.bytes {
                b"undef" | b"poison" => {
                    writer.word(if is_pointer { b"null" } else { b"0" })?;
                }
                b"musttail" => writer.word(b"tail")?,
                b"ptr" => {
                    is_pointer = true;
                    writer.word(token.bytes)?;
                }
                _ => {
                    if width_in(token.bytes).is_some() {
                        is_pointer = false;
                    }
                    writer.word(token.bytes)?;
                }
            },
            _ => writer.word(token.bytes)?,
        }
    }
    writer.end()
}

/// Puts a line whose answer is this value.
pub(crate) fn put_equal(writer: &mut Writer, answer: &Token, same: &Typed) -> Result<(), Memory> {
    writer.word(answer.bytes)?;
    match same.width {
        Some(width) => {
            writer.word(b"= add")?;
            writer.word(width)?;
            put_value(writer, &same.value, false)?;
            writer.word(b", 0")?;
        }
        None => {
            writer.word(b"= select i1 true, ptr addrspace(1)")?;
            put_value(writer, &same.value, true)?;
            writer.word(b", ptr addrspace(1)")?;
            put_value(writer, &same.value, true)?;
        }
    }
    writer.end()
}

/// `freeze T V` is its operand.
pub(crate) fn put_same(
    writer: &mut Writer,
    answer: &Token,
    more: &[Token],
    tokens: &[Token],
) -> Result<(), Memory> {
    match typed_value(more) {
        Some(same) => put_equal(writer, answer, &same),
        None => put_line(writer, tokens),
    }
}

/// `bitcast T V to T` is its operand.
pub(crate) fn put_cast(
    writer: &mut Writer,
    answer: &Token,
    more: &[Token],
    tokens: &[Token],
) -> Result<(), Memory> {
    if let Some(same) = typed_value(more) {
        if is_cast_to(&same) {
            return put_equal(writer, answer, &same);
        }
    }
    put_line(writer, tokens)
}

fn is_cast_to(same: &Typed) -> bool {
    match (same.width, same.rest) {
        (Some(width), [to, word, ..]) => is_word(to, b"to") && is_word(word, width),
        (None, [to, ptr, space, _, one, ..]) => {
            is_word(to, b"to")
                && is_word(ptr, b"ptr")
                && is_word(space, b"addrspace")
                && is_number(one, b"1")
        }
        _ => false,
    }
}

/// `extractvalue { iN, i1 } V, K`, where V is what an intrinsic gave.
pub(crate) fn put_part(
    writer: &mut Writer,
    answer: &Token,
    more: &[Token],
    tokens: &[Token],
) -> Result<(), Memory> {
    match more {
        [open, width, _, bit, close, pair, _, place, ..]
            if is_mark(open, b"{")
                && is_word(bit, b"i1")
                && is_mark(close, b"}")
                && pair.kind == Kind::Local => {
            writer.word(answer.bytes)?;
            writer.word(b"= add")?;
            if is_number(place, b"0") {
                writer.word(width.bytes)?;
                put_made(writer, name_of(pair), b"0")?;
            } else {
                writer.word(b"i1")?;
                put_made(writer, name_of(pair), b"bit")?;
            }
            writer.word(b", 0")?;
            writer.end()
        }
        _ => put_line(writer, tokens),
    }
}

/// The name of what was made on the way to the answer of this name.
pub(crate) fn put_made(writer: &mut Writer, answer: &[u8], which: &[u8]) -> Result<(), Memory> {
    writer.bytes(b"%lift.")?;
    writer.bytes(answer)?;
    writer.bytes(b".")?;
    writer.word(which)
}
