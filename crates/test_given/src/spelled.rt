//! Texts as cases spell them: `\n`, `\r`, `\t`, `\s` for a space, `\p` for `|`, `\o` and `\c` for braces, `\0`, and
//! `{N:PART}` for a part that is repeated. Words have blanks between them, and `''` is the empty one.

use std::alloc::{AllocError, Global};

// The text that is spelled; a part in braces that doesn't say how often is left out.
pub(crate) fn spelled_text(alloc: Global, spelled: &[u8]) -> Result<Vec<u8>, AllocError> {
    let mut text = Vec::new(alloc);
    for part in spelled.split(|b| *b == b'{') {
        push_part(&mut text, part)?;
    }
    Ok(text)
}

// The words that are spelled.
pub(crate) fn spelled_words(alloc: Global, spelled: &[u8]) -> Result<Vec<String>, AllocError> {
    let mut words = Vec::new(alloc);
    for part in spelled.split(|b| *b == b' ') {
        if !part.is_empty() {
            words.push(spelled_word(alloc, part)?)?;
        }
    }
    Ok(words)
}

fn spelled_word(alloc: Global, spelled: &[u8]) -> Result<String, AllocError> {
    let mut bytes = Vec::new(alloc);
    if spelled != b"''".as_slice() {
        push_plain(&mut bytes, spelled)?;
    }
    String::from_utf8_lossy(alloc, bytes.as_slice())
}

// What stands behind a brace, up to the next one.
fn push_part(text: &mut Vec<u8>, part: &[u8]) -> Result<(), AllocError> {
    let Some((repeated, rest)) = cut(part, b'}') else {
        return push_plain(text, part);
    };
    if let Some((count, repeated)) = cut(repeated, b':') {
        for _ in 0..number(count).unwrap_or(0) {
            push_plain(text, repeated)?;
        }
    }
    push_plain(text, rest)
}

fn push_plain(text: &mut Vec<u8>, spelled: &[u8]) -> Result<(), AllocError> {
    let mut escaped = false;
    for b in spelled {
        if escaped {
            text.push(meant(*b))?;
            escaped = false;
        } else if *b == b'\\' {
            escaped = true;
        } else {
            text.push(*b)?;
        }
    }
    Ok(())
}

// What a letter means behind a backslash.
fn meant(letter: u8) -> u8 {
    match letter {
        b'n' => b'\n',
        b'r' => b'\r',
        b't' => b'\t',
        b's' => b' ',
        b'p' => b'|',
        b'o' => b'{',
        b'c' => b'}',
        b'0' => 0,
        other => other,
    }
}

// What stands before and behind the first of these bytes.
fn cut(bytes: &[u8], mark: u8) -> Option<(&[u8], &[u8])> {
    let end = bytes.iter().position(|b| *b == mark)?;
    let (front, back) = bytes.split_at(end);
    let (_, rest) = back.split_first()?;
    Some((front, rest))
}

fn number(word: &[u8]) -> Option<u64> {
    str::from_utf8(word).ok()?.parse::<u64>().ok()
}
