//! What one token says.

ghost use Rattle.std.specs.Prelude.{◌≡◌, ◌-◌, take, drop, length};
ghost use Rattle.std.specs.Option.{option_copied, option_map};
ghost use Rattle.std.specs.Str.{bytes_eq};
ghost use Rattle.sp_text.specs.Names.{seen_name};
ghost use Rattle.sp_text.specs.Tokens.{tok};
ghost use Rattle.line_tokens.specs.Marks.{is_word, is_mark, local_of, global_of, quoted_of};

use sp_text::{Kind, Name, Token};

/// Whether the bytes are these. It is inlined, so that a text that stands in the program costs a compare a byte: slices of
/// unknown length are compared by a call.
#[inline(always)]
pub fn is_text(bytes: &[u8], text: &[u8]) -> bool
    ensures { result ≡ bytes_eq bytes.now text.now }
{
    if bytes.len() != text.len() {
        return false;
    }
    for (i, byte) in text.iter().enumerate() {
        if bytes[i] != *byte {
            return false;
        }
    }
    true
}

/// Whether the token is this word.
#[inline(always)]
pub fn is_word(token: &Token, text: &[u8]) -> bool
    ensures { result ≡ is_word text.now (tok token.now.kind token.now.bytes.now) }
{
    match token.kind {
        Kind::Word => is_text(token.bytes, text),
        _ => false,
    }
}

/// Whether the token is this mark.
pub fn is_mark(token: &Token, text: &[u8]) -> bool
    ensures { result ≡ is_mark text.now (tok token.now.kind token.now.bytes.now) }
{
    match token.kind {
        Kind::Punct => token.bytes == text,
        _ => false,
    }
}

/// The name behind `%`.
#[tactic(auto, using(crate::proofs::Names::behind_mark))]
pub fn local<'a>(token: &Token<'a>) -> Option<Name<'a>>
    ensures { option_map seen_name result ≡ local_of (tok token.now.kind token.now.bytes.now) }
{
    match token.kind {
        Kind::Local => Some(Name {
            bytes: behind_first(token.bytes),
        }),
        _ => None,
    }
}

/// The name behind `@`.
#[tactic(auto, using(crate::proofs::Names::behind_mark))]
pub fn global<'a>(token: &Token<'a>) -> Option<Name<'a>>
    ensures { option_map seen_name result ≡ global_of (tok token.now.kind token.now.bytes.now) }
{
    match token.kind {
        Kind::Global => Some(Name {
            bytes: behind_first(token.bytes),
        }),
        _ => None,
    }
}

/// The bytes between the quotes.
pub fn quoted<'a>(token: &Token<'a>) -> Option<&'a [u8]>
    ensures { option_copied result ≡ quoted_of (tok token.now.kind token.now.bytes.now) }
{
    match token.kind {
        Kind::Quoted => Some(between(token.bytes)),
        _ => None,
    }
}

fn behind_first(bytes: &[u8]) -> &[u8]
    ensures { result.now ≡ drop 1 bytes.now }
{
    match bytes {
        [_, rest @ ..] => rest,
        [] => bytes,
    }
}

fn between(bytes: &[u8]) -> &[u8]
    ensures { result.now ≡ take (length bytes.now - 2) (drop 1 bytes.now) }
{
    let rest = behind_first(bytes);
    match bytes {
        [_, _, more @ ..] => &rest[..more.len()],
        _ => &rest[..0],
    }
}
