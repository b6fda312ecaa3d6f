//! The same text in plainer spelling: names without quotes that need none, no comments, and no `$`, which begins the names of
//! comdats.
ghost use Rattle.std.specs.Prelude.{◌≤◌, ◌<◌, length, IfOk, IfSome};

use memchr::memchr3;
use sp_ids::Memory;
use std::alloc::Global;

/// Whether the text has no spelling that [`plain_text`] changes but comments.
pub fn is_plain(text: &[u8]) -> bool {
    let mut before = b' ';
    let mut left = text;
    'places: while let Some((front, first, more)) = first_place(left) {
        before = last_of(front, before);
        if first == b'$' && !is_in_name(before) {
            return false;
        }
        if first == b'"' && (before == b'%' || before == b'@') {
            return false;
        }
        before = first;
        left = more;
    }
    true
}

fn last_of(bytes: &[u8], before: u8) -> u8 {
    match bytes {
        [.., last] => *last,
        [] => before,
    }
}

// What stands before the first quote, `$` or `;`, that byte, and what stands behind it.
fn first_place(bytes: &[u8]) -> Option<(&[u8], u8, &[u8])>
    ensures { IfSome result (λ found. length found.2.now < length bytes.now) }
{
    let at = memchr3(b'"', b'$', b';', bytes)?;
    if at < bytes.len() {
        Some((&bytes[..at], bytes[at], &bytes[at + 1..]))
    } else {
        None
    }
}

/// The text in plainer spelling, line by line.
pub fn plain_text(alloc: Global, text: &[u8]) -> Result<Vec<u8>, Memory> {
    let mut out = Vec::new(alloc);
    let mut left = text;
    'places: while let Some((front, first, more)) = first_place(left) {
        out.extend_from_slice(front)?;
        left = push_place(&mut out, first, more)?;
    }
    out.extend_from_slice(left)?;
    Ok(out)
}

// Puts what stands at a place, and gives what is left.
fn push_place<'a>(out: &mut Vec<u8>, first: u8, rest: &'a [u8]) -> Result<&'a [u8], Memory>
    ensures { IfOk result (λ left. length left.now ≤ length rest.now) }
{
    let before = last_of(out.as_slice(), b' ');
    match first {
        b'"' if before == b'%' || before == b'@' => match quoted_name(rest) {
            Some((name, behind)) => {
                out.extend_from_slice(name)?;
                Ok(behind)
            }
            None => {
                out.push(first)?;
                push_quoted(out, rest)
            }
        },
        b'"' => {
            out.push(first)?;
            push_quoted(out, rest)
        }
        b';' => Ok(past_line(rest)),
        b'$' if !is_in_name(before) => {
            out.push(b'_')?;
            Ok(rest)
        }
        _ => {
            out.push(first)?;
            Ok(rest)
        }
    }
}

// A name that stands here before a quote and needs none, and what stands behind them.
fn quoted_name(bytes: &[u8]) -> Option<(&[u8], &[u8])>
    ensures { IfSome result (λ found. length found.1.now ≤ length bytes.now) }
{
    let len = name_len(bytes);
    match (bytes.first(), &bytes[len..]) {
        (Some(first), [b'"', behind @ ..]) if !first.is_ascii_digit() => Some((
            &bytes[..len],
            behind,
        )),
        _ => None,
    }
}

fn name_len(bytes: &[u8]) -> usize
    ensures { result ≤ length bytes.now }
{
    for (len, byte) in bytes.iter().enumerate() {
        if !is_in_name(*byte) {
            return len;
        }
    }
    bytes.len()
}

fn is_in_name(byte: u8) -> bool {
    byte.is_ascii_alphanumeric() || matches!(byte, b'-' | b'$' | b'.' | b'_' | b'%' | b'@')
}

// Puts a quoted text up to its end or that of the line.
fn push_quoted<'a>(out: &mut Vec<u8>, bytes: &'a [u8]) -> Result<&'a [u8], Memory>
    ensures { IfOk result (λ left. length left.now ≤ length bytes.now) }
{
    let mut left = bytes;
    while let [first, rest @ ..] = left {
        if *first == b'\n' {
            return Ok(left);
        }
        out.push(*first)?;
        if *first == b'"' {
            return Ok(rest);
        }
        left = rest;
    }
    Ok(left)
}

// What stands from the end of the line on.
fn past_line(bytes: &[u8]) -> &[u8]
    ensures { length result.now ≤ length bytes.now }
{
    let mut left = bytes;
    while let [first, rest @ ..] = left {
        if *first == b'\n' {
            return left;
        }
        left = rest;
    }
    left
}
