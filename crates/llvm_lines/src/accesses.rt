//! Steps through arrays.

use crate::values::{Typed, is_number, name_of, put_line, put_made, put_value, typed_value};
use crate::writer::Writer;
use line_tokens::{is_mark, is_word};
use sp_ids::Memory;
use sp_text::{Kind, Token};

/// A step over elements `[N x iK]`.
pub(crate) fn put_step(
    writer: &mut Writer,
    answer: &Token,
    more: &[Token],
    tokens: &[Token],
) -> Result<(), Memory> {
    match without_bounds(more) {
        [open, count, x, element, close, comma, rest @ ..]
            if is_mark(open, b"[")
                && count.kind == Kind::Number
                && is_word(x, b"x")
                && element.kind == Kind::Word
                && is_mark(close, b"]")
                && is_mark(comma, b",") => {
            match typed_value(rest) {
                Some(base) => put_row_step(writer, answer, count, element, &base, tokens),
                None => put_line(writer, tokens),
            }
        }
        _ => put_line(writer, tokens),
    }
}

pub(crate) fn without_bounds<'t, 'a>(tokens: &'t [Token<'a>]) -> &'t [Token<'a>] {
    let mut left = tokens;
    while let [word, rest @ ..] = left {
        if !(is_word(word, b"inbounds") || is_word(word, b"nuw") || is_word(word, b"nusw")) {
            return left;
        }
        left = rest;
    }
    left
}

fn put_row_step(
    writer: &mut Writer,
    answer: &Token,
    count: &Token,
    element: &Token,
    base: &Typed,
    tokens: &[Token],
) -> Result<(), Memory> {
    let Some(index) = behind_comma(base.rest) else {
        return put_line(writer, tokens);
    };
    let Some(width) = index.width else {
        return put_line(writer, tokens);
    };
    if base.width.is_some() {
        return put_line(writer, tokens);
    }
    match behind_comma(index.rest) {
        // From the first row on, to an element of it.
        Some(inner) if is_number(&index.value, b"0") => match inner.width {
            Some(width) => put_element(writer, answer, element, base, width, &inner.value),
            None => put_line(writer, tokens),
        },
        Some(_) => put_line(writer, tokens),
        None => {
            let name = name_of(answer);
            put_made(writer, name, b"wide")?;
            if width == b"i64".as_slice() {
                writer.word(b"= add i64")?;
                put_value(writer, &index.value, false)?;
                writer.word(b", 0")?;
            } else {
                writer.word(b"= sext")?;
                writer.word(width)?;
                put_value(writer, &index.value, false)?;
                writer.word(b"to i64")?;
            }
            writer.end()?;
            put_made(writer, name, b"at")?;
            writer.word(b"= mul i64")?;
            put_made(writer, name, b"wide")?;
            writer.word(b",")?;
            writer.word(count.bytes)?;
            writer.end()?;
            put_element_start(writer, answer, element, base)?;
            writer.word(b"i64")?;
            put_made(writer, name, b"at")?;
            writer.end()
        }
    }
}

fn put_element(
    writer: &mut Writer,
    answer: &Token,
    element: &Token,
    base: &Typed,
    width: &[u8],
    index: &Token,
) -> Result<(), Memory> {
    put_element_start(writer, answer, element, base)?;
    writer.word(width)?;
    put_value(writer, index, false)?;
    writer.end()
}

fn put_element_start(
    writer: &mut Writer,
    answer: &Token,
    element: &Token,
    base: &Typed,
) -> Result<(), Memory> {
    writer.word(answer.bytes)?;
    writer.word(b"= getelementptr")?;
    writer.word(element.bytes)?;
    writer.word(b", ptr addrspace(1)")?;
    put_value(writer, &base.value, true)?;
    writer.word(b",")
}

fn behind_comma<'t, 'a>(tokens: &'t [Token<'a>]) -> Option<Typed<'t, 'a>> {
    match tokens {
        [comma, rest @ ..] if is_mark(comma, b",") => typed_value(rest),
        _ => None,
    }
}
