//! The parts of line forms: words and marks, names, types, values.

ghost use Rattle.std.specs.Prelude.{◌≡◌, codes, IfSome};
ghost use Rattle.std.specs.Option.{option_map};
ghost use Rattle.sp_text.specs.Names.{seen_name};
ghost use Rattle.sp_text.specs.Tokens.{tok};
ghost use Rattle.line_parts.specs.Gives.{Gives, one_at};
ghost use Rattle.line_tokens.specs.Marks.{begins, is_word, is_mark, is_quoted, is_hash, is_local, stands, quoted_of};
ghost use Rattle.line_tokens.specs.Numbers.{literal_passes};
ghost use Rattle.line_parts.specs.Parts.{word_at, mark_at, local_at, global_at, width_at, literal_at, addrspace_at, pointer_at, spelled_type_at, allowed_type_at, is_value_type, is_answer_type, is_cast_type, is_managed, is_scalar_type, value_of, value_at, case_value_at, word_value, is_one, name_if_any, place_at, begins_place, strategy_at, to_brace_at};
ghost use Rattle.line_tokens.specs.Words.{pred_of};
ghost use Rattle.line_parts.specs.Seen.{seen_value};

use crate::cursor::Cursor;
use crate::faults::Stop;
use crate::readings::{TypeWord, Value};
use line_tokens::{
    Limited, Literal, Width, global, is_mark, is_text, is_word, literal, literal_in, local, quoted,
    width,
};
use sp_text::{Kind, Name, Token};

impl<'t, 'a> Cursor<'t, 'a> {
    /// Passes this word.
    #[inline(always)]
    #[tactic(auto, unfolding(crate::specs::Gives::one_at))]
    pub fn word(&mut self, text: &[u8]) -> Result<(), Stop>
        ensures { Gives (λ _. tt) result self.new (word_at text.now self.old) }
    {
        let Some(token) = self.token() else {
            return Err(Stop::NoReading);
        };
        if is_word(&token, text) {
            Ok(())
        } else {
            Err(Stop::NoReading)
        }
    }

    /// Passes this mark.
    #[tactic(auto, unfolding(crate::specs::Gives::one_at))]
    pub fn mark(&mut self, text: &[u8]) -> Result<(), Stop>
        ensures { Gives (λ _. tt) result self.new (mark_at text.now self.old) }
    {
        let Some(token) = self.token() else {
            return Err(Stop::NoReading);
        };
        if is_mark(&token, text) {
            Ok(())
        } else {
            Err(Stop::NoReading)
        }
    }

    /// Whether this word stands there.
    #[inline(always)]
    pub fn begins_word(&self, text: &[u8]) -> bool
        ensures { result ≡ begins (is_word text.now) self.now }
    {
        match self.peek() {
            Some(token) => is_word(&token, text),
            None => false,
        }
    }

    /// Whether this mark stands there.
    #[inline(always)]
    pub fn begins_mark(&self, text: &[u8]) -> bool
        ensures { result ≡ begins (is_mark text.now) self.now }
    {
        match self.peek() {
            Some(token) => is_mark(&token, text),
            None => false,
        }
    }

    /// The name behind a `%`.
    #[tactic(auto, unfolding(crate::specs::Gives::one_at))]
    pub fn local(&mut self) -> Result<Name<'a>, Stop>
        ensures { Gives seen_name result self.new (local_at self.old) }
    {
        let Some(token) = self.token() else {
            return Err(Stop::NoReading);
        };
        match local(&token) {
            Some(name) => Ok(name),
            None => Err(Stop::NoReading),
        }
    }

    /// The name behind an `@`.
    #[tactic(auto, unfolding(crate::specs::Gives::one_at))]
    pub fn global(&mut self) -> Result<Name<'a>, Stop>
        ensures { Gives seen_name result self.new (global_at self.old) }
    {
        let Some(token) = self.token() else {
            return Err(Stop::NoReading);
        };
        match global(&token) {
            Some(name) => Ok(name),
            None => Err(Stop::NoReading),
        }
    }

    /// The bytes between quotes.
    #[tactic(auto, unfolding(crate::specs::Gives::one_at))]
    pub fn quoted(&mut self) -> Result<&'a [u8], Stop>
        ensures { Gives (λ name. name.now) result self.new (one_at quoted_of self.old) }
    {
        let Some(token) = self.token() else {
            return Err(Stop::NoReading);
        };
        match quoted(&token) {
            Some(name) => Ok(name),
            None => Err(Stop::NoReading),
        }
    }

    /// Passes a quoted text.
    #[tactic(auto, unfolding(crate::specs::Gives::one_at))]
    pub fn quoted_text(&mut self) -> Result<(), Stop>
        ensures { Gives (λ _. tt) result self.new (one_at (stands is_quoted) self.old) }
    {
        let Some(token) = self.token() else {
            return Err(Stop::NoReading);
        };
        match token.kind {
            Kind::Quoted => Ok(()),
            _ => Err(Stop::NoReading),
        }
    }

    /// Passes a `#` and its digits.
    #[tactic(auto, unfolding(crate::specs::Gives::one_at))]
    pub fn hash(&mut self) -> Result<(), Stop>
        ensures { Gives (λ _. tt) result self.new (one_at (stands is_hash) self.old) }
    {
        let Some(token) = self.token() else {
            return Err(Stop::NoReading);
        };
        match token.kind {
            Kind::Hash => Ok(()),
            _ => Err(Stop::NoReading),
        }
    }

    /// The width of an `iN`.
    #[tactic(auto, unfolding(crate::specs::Gives::one_noted_at))]
    pub fn width(&mut self) -> Result<Width, Stop>
        ensures { Gives (λ width. width.bits) result self.new (width_at self.old) }
    {
        let Some(token) = self.token() else {
            return Err(Stop::NoReading);
        };
        match width(&token) {
            Some(width) => {
                self.note(width.passes);
                Ok(width.value)
            }
            None => Err(Stop::NoReading),
        }
    }

    /// A number.
    #[tactic(auto, unfolding(crate::specs::Gives::one_noted_at))]
    pub fn number(&mut self) -> Result<Literal, Stop>
        ensures { Gives (λ n. n) result self.new (literal_at self.old) }
    {
        let Some(token) = self.token() else {
            return Err(Stop::NoReading);
        };
        match literal(&token) {
            Some(number) => {
                self.note(number.passes);
                Ok(number.value)
            }
            None => Err(Stop::NoReading),
        }
    }

    /// A value.
    #[tactic(auto, unfolding(crate::specs::Gives::one_noted_at))]
    pub fn value(&mut self) -> Result<Value<'a>, Stop>
        ensures { Gives seen_value result self.new (value_at self.old) }
    {
        let Some(token) = self.token() else {
            return Err(Stop::NoReading);
        };
        match value_in(&token) {
            Some(value) => {
                self.note(value.passes);
                Ok(value.value)
            }
            None => Err(Stop::NoReading),
        }
    }
}

// The value that a token says.
fn value_in<'a>(token: &Token<'a>) -> Option<Limited<Value<'a>>>
    ensures value { option_map (λ it. seen_value it.value) result ≡ value_of (tok token.now.kind token.now.bytes.now) }
    ensures passes { IfSome result (λ it. it.passes ≡ literal_passes (tok token.now.kind token.now.bytes.now)) }
{
    match token.kind {
        Kind::Local => match local(token) {
            Some(name) => Some(Limited {
                value: Value::Local(name),
                passes: false,
            }),
            None => None,
        },
        Kind::Number => {
            let number = literal_in(token.bytes);
            Some(Limited {
                value: Value::Number(number.value),
                passes: number.passes,
            })
        }
        Kind::Word => match word_value(token.bytes) {
            Some(value) => Some(Limited {
                value,
                passes: false,
            }),
            None => None,
        },
        _ => None,
    }
}

fn word_value<'a>(bytes: &[u8]) -> Option<Value<'a>>
    ensures { option_map seen_value result ≡ word_value bytes.now }
{
    match bytes {
        b"true" => Some(Value::Truth(true)),
        b"false" => Some(Value::Truth(false)),
        b"null" => Some(Value::Null),
        _ => None,
    }
}
