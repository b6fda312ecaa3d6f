//! Words that are read and dropped.

ghost use Rattle.std.specs.Prelude.{◌≡◌, true, None, codes, is_some};
ghost use Rattle.sp_text.specs.Tokens.{tok};
ghost use Rattle.line_tokens.specs.Marks.{is_number, is_quoted, begins};
ghost use Rattle.line_parts.specs.Drops.{reserved, is_attribute_word, past_word, past_group, past_quoted_value, past_bracketing, after_bracket, past, past_attachment, past_head_attachment, past_alignment, past_one_of, past_group_beside, past_dropped, past_all, is_bang_name, is_bang_number, is_any_word, is_one_of, flag_words};

use crate::cursor::Cursor;
use line_tokens::{Dropped, Flags, is_integer_word, is_mark, is_text, is_word};
use sp_text::{Kind, Token};

// Whether an attribute group may begin with the word.
fn is_attribute_word(bytes: &[u8]) -> bool
    ensures { result ≡ is_attribute_word bytes.now }
{
    !(is_reserved(bytes) || is_integer_word(bytes))
}

fn is_reserved(bytes: &[u8]) -> bool
    ensures { result ≡ is_one_of reserved bytes.now }
{
    is_text(bytes, b"void")
        || is_text(bytes, b"ptr")
        || is_text(bytes, b"token")
        || is_text(bytes, b"addrspace")
        || is_text(bytes, b"gc")
        || is_text(bytes, b"true")
        || is_text(bytes, b"false")
        || is_text(bytes, b"null")
        || is_text(bytes, b"byval")
        || is_text(bytes, b"inalloca")
        || is_text(bytes, b"preallocated")
}

// Whether the word is one of the flags.
fn is_flag_word(flags: Flags, bytes: &[u8]) -> bool
    ensures { result ≡ is_one_of (flag_words flags) bytes.now }
{
    match flags {
        Flags::Calling => is_text(bytes, b"tail") || is_text(bytes, b"notail"),
        Flags::SameSign => is_text(bytes, b"samesign"),
        Flags::Wrapping => is_text(bytes, b"nuw") || is_text(bytes, b"nsw"),
        Flags::Exact => is_text(bytes, b"exact"),
        Flags::Disjoint => is_text(bytes, b"disjoint"),
        Flags::NonNegative => is_text(bytes, b"nneg"),
        Flags::Bounds => is_bounds_word(bytes),
        Flags::Nothing => false,
    }
}

fn is_bounds_word(bytes: &[u8]) -> bool
    ensures { result ≡ is_one_of (flag_words Flags.Bounds) bytes.now }
{
    is_text(bytes, b"inbounds") || is_text(bytes, b"nusw") || is_text(bytes, b"nuw")
}

fn is_bang_name(token: &Token) -> bool
    ensures { result ≡ is_bang_name (tok token.now.kind token.now.bytes.now) }
{
    match token.kind {
        Kind::Bang => match token.bytes {
            [_, first, ..] => !first.is_ascii_digit(),
            _ => false,
        },
        _ => false,
    }
}

fn is_bang_number(token: &Token) -> bool
    ensures { result ≡ is_bang_number (tok token.now.kind token.now.bytes.now) }
{
    match token.kind {
        Kind::Bang => match token.bytes {
            [_, first, ..] => first.is_ascii_digit(),
            _ => false,
        },
        _ => false,
    }
}

impl<'t, 'a> Cursor<'t, 'a> {
    // The place after the longest attribute group, where one stands.
    fn past_group(&self) -> Option<Cursor<'t, 'a>>
        ensures { result ≡ past_group self.now }
    {
        if !self.begins_group() {
            return None;
        }
        let mut rest = self.copied();
        match rest.token() {
            None => None,
            Some(token) => match token.kind {
                Kind::Word => {
                    if is_attribute_word(token.bytes) {
                        Some(rest.past_word(token.bytes))
                    } else {
                        None
                    }
                }
                Kind::Quoted => Some(rest.past_quoted_value()),
                Kind::Hash => Some(rest),
                _ => None,
            },
        }
    }

    // Whether an attribute group stands there, by its first token.
    fn begins_group(&self) -> bool
        ensures { result ≡ is_some (past_group self.now) }
    {
        match self.peek() {
            None => false,
            Some(token) => match token.kind {
                Kind::Word => is_attribute_word(token.bytes),
                Kind::Quoted => true,
                Kind::Hash => true,
                _ => false,
            },
        }
    }

    fn past_group_beside(&self) -> Option<Cursor<'t, 'a>>
        ensures { result ≡ past_group_beside self.now }
    {
        if self.begins_word(b"elementtype") {
            None
        } else {
            self.past_group()
        }
    }

    // The place after what belongs to the word that begins a group.
    fn past_word(&self, word: &[u8]) -> Cursor<'t, 'a>
        ensures { result ≡ past_word word.now self.now }
    {
        if is_text(word, b"align") && self.begins_number() {
            self.past_number()
        } else {
            self.past_bracketing()
        }
    }

    fn begins_number(&self) -> bool
        ensures { result ≡ begins is_number self.now }
    {
        match self.peek() {
            Some(token) => token.kind == Kind::Number,
            None => false,
        }
    }

    fn past_number(&self) -> Cursor<'t, 'a>
        ensures { result ≡ past is_number self.now }
    {
        let mut rest = self.copied();
        match rest.token() {
            Some(token) => {
                if token.kind == Kind::Number {
                    rest
                } else {
                    self.copied()
                }
            }
            None => self.copied(),
        }
    }

    // The place after a bracketing, where one stands.
    fn past_bracketing(&self) -> Cursor<'t, 'a>
        ensures { result ≡ past_bracketing self.now }
    {
        let mut rest = self.copied();
        match rest.token() {
            None => self.copied(),
            Some(token) => {
                if !is_mark(&token, b"(") {
                    return self.copied();
                }
                match rest.after_bracket() {
                    Some(after) => after,
                    None => self.copied(),
                }
            }
        }
    }

    /// The place after the bracket that closes the open one.
    #[tactic(auto, unfolding(crate::specs::Drops::after_bracket))]
    pub fn after_bracket(&self) -> Option<Cursor<'t, 'a>>
        ensures { result ≡ after_bracket 0 self.now }
    {
        let mut rest = self.copied();
        let mut depth = 0usize;
        while let Some(token) = rest.token() {
            if is_mark(&token, b"(") {
                depth += 1;
            } else if is_mark(&token, b")") {
                if depth == 0 {
                    return Some(rest);
                }
                depth -= 1;
            }
        }
        None
    }

    // The place after `=` and a quoted text, where they stand.
    fn past_quoted_value(&self) -> Cursor<'t, 'a>
        ensures { result ≡ past_quoted_value self.now }
    {
        let mut rest = self.copied();
        let (Some(equals), Some(text)) = (rest.token(), rest.token()) else {
            return self.copied();
        };
        if is_mark(&equals, b"=") && text.kind == Kind::Quoted {
            rest
        } else {
            self.copied()
        }
    }

    fn past_head_attachment(&self) -> Option<Cursor<'t, 'a>>
        ensures { result ≡ past_head_attachment self.now }
    {
        let mut rest = self.copied();
        let first = rest.token()?;
        let second = rest.token()?;
        if is_bang_name(&first) && is_bang_number(&second) {
            Some(rest)
        } else {
            None
        }
    }

    fn past_attachment(&self) -> Option<Cursor<'t, 'a>>
        ensures { result ≡ past_attachment self.now }
    {
        if !self.begins_mark(b",") {
            return None;
        }
        let mut rest = self.copied();
        let first = rest.token()?;
        let second = rest.token()?;
        let third = rest.token()?;
        if is_mark(&first, b",") && is_bang_name(&second) && is_bang_number(&third) {
            Some(rest)
        } else {
            None
        }
    }

    fn past_alignment(&self) -> Option<Cursor<'t, 'a>>
        ensures { result ≡ past_alignment self.now }
    {
        if !self.begins_mark(b",") {
            return None;
        }
        let mut rest = self.copied();
        let first = rest.token()?;
        let second = rest.token()?;
        let third = rest.token()?;
        if is_mark(&first, b",") && is_word(&second, b"align") && third.kind == Kind::Number {
            Some(rest)
        } else {
            None
        }
    }

    fn past_flag(&self, flags: Flags) -> Option<Cursor<'t, 'a>>
        ensures { result ≡ past_one_of (flag_words flags) self.now }
    {
        let token = self.peek()?;
        match token.kind {
            Kind::Word => {
                if !is_flag_word(flags, token.bytes) {
                    return None;
                }
                let mut rest = self.copied();
                let _ = rest.token();
                Some(rest)
            }
            _ => None,
        }
    }

    // The place after one thing that is dropped, where one stands.
    fn past_dropped(&self, what: Dropped) -> Option<Cursor<'t, 'a>>
        ensures { result ≡ past_dropped what self.now }
    {
        match what {
            Dropped::Groups => self.past_group(),
            Dropped::BesideElementType => self.past_group_beside(),
            Dropped::Attachments => self.past_attachment(),
            Dropped::HeadAttachments => self.past_head_attachment(),
            Dropped::Alignments => self.past_alignment(),
            Dropped::Words(flags) => self.past_flag(flags),
        }
    }

    #[inline(always)]
    fn begins_any_word(&self) -> bool
        ensures { result ≡ begins is_any_word self.now }
    {
        match self.peek() {
            Some(token) => token.kind == Kind::Word,
            None => false,
        }
    }

    // Whether nothing that is dropped stands there, as far as one look at the next token tells.
    #[inline(always)]
    #[tactic(auto, using(crate::proofs::Dropping::no_attachment, crate::proofs::Dropping::no_alignment, crate::proofs::Dropping::no_flag))]
    fn drops_nothing(&self, what: Dropped) -> bool
        ensures { result ≡ true → past_dropped what self.now ≡ None }
    {
        match what {
            Dropped::Attachments => !self.begins_mark(b","),
            Dropped::Alignments => !self.begins_mark(b","),
            Dropped::Words(_) => !self.begins_any_word(),
            _ => false,
        }
    }

    /// Passes all that is dropped there.
    #[inline(always)]
    #[tactic(auto, using(crate::proofs::Dropping::nothing_passed))]
    pub fn skip(&mut self, what: Dropped)
        ensures { self.new ≡ past_all what self.old }
    {
        // mostly nothing is there
        if self.drops_nothing(what) {
            return;
        }
        self.pass_all(what);
    }

    #[inline(never)]
    fn pass_all(&mut self, what: Dropped)
        ensures { self.new ≡ past_all what self.old }
    {
        while let Some(rest) = self.past_dropped(what) {
            *self = rest;
        }
    }
}
