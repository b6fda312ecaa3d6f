//! The tokens of a line, side by side.

ghost use Rattle.std.specs.Prelude.{◌≡◌, ◌≤◌, ◌<◌, [], ◌∷◌, ◌++◌, length, map, drop, IfOk, IfSome, IfNone};
ghost use Rattle.sp_text.specs.TokenAt.{seen_token, HasNoToken};
ghost use Rattle.sp_text.specs.Tokens.{tokens};
ghost use Rattle.llvm_features.specs.Rows.{row_of};

use sp_ids::Memory;
use sp_text::{Kind, Line, Token};

/// What stands in a room for tokens before any is found.
pub const NO_TOKEN: Token<'static> = Token {
    kind: Kind::Word,
    bytes: b"a",
};

/// Puts the line's tokens into the row in place of what it holds, the first of them by way of this room: whether all of the line is
/// tokens. Where a byte begins none, those before it are put.
pub fn put_tokens<'a>(
    room: &mut [Token<'a>],
    row: &mut Vec<Token<'a>>,
    line: Line<'a>,
) -> Result<bool, Memory>
    ensures { IfOk result (λ whole. tokens line.entry.bytes.now ≡ row_of (map seen_token row.new.items) whole) }
{
    row.clear();
    let (count, from) = line.first_tokens(room);
    row.extend_from_slice(&room[..count])?;
    put_behind(row, &line.bytes[from..])
}

// Puts the tokens of these bytes behind those that the row holds.
fn put_behind<'a>(row: &mut Vec<Token<'a>>, bytes: &'a [u8]) -> Result<bool, Memory>
    ensures { IfOk result (λ whole. map seen_token row.old.items ++ tokens bytes.entry.now ≡ row_of (map seen_token row.new.items) whole) }
{
    let mut left = bytes;
    'tokens: while let Some((token, behind)) = first_found(left) {
        row.push(token)?;
        left = behind;
    }
    Ok(says_nothing(left))
}

// The first token, and what stands behind it.
fn first_found<'a>(bytes: &'a [u8]) -> Option<(Token<'a>, &'a [u8])>
    ensures some { IfSome result (λ found. tokens bytes.entry.now ≡ seen_token found.0 ∷ tokens found.1.now) }
    ensures shorter { IfSome result (λ found. length found.1.now < length bytes.entry.now) }
    ensures none { IfNone result (HasNoToken bytes.entry.now) }
{
    let line = Line { number: 0, bytes };
    match line.token_at(0) {
        Ok(Some(token)) => {
            let first = Token {
                kind: token.kind,
                bytes: token.bytes,
            };
            Some((first, &bytes[token.to..]))
        }
        Ok(None) => None,
        Err(_) => None,
    }
}

// Whether there is nothing where no token is.
fn says_nothing(bytes: &[u8]) -> bool
    requires { HasNoToken bytes.now }
    ensures { tokens bytes.now ≡ row_of [] result }
{
    let line = Line { number: 0, bytes };
    match line.token_at(0) {
        Ok(None) => true,
        Ok(Some(_)) => false,
        Err(_) => false,
    }
}
