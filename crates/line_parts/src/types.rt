//! Types as lines spell them.

ghost use Rattle.std.specs.Prelude.{◌≡◌, codes};
ghost use Rattle.sp_text.specs.Tokens.{tok};
ghost use Rattle.line_parts.specs.Gives.{Gives, one_at};
ghost use Rattle.line_tokens.specs.Marks.{stands};
ghost use Rattle.line_parts.specs.Parts.{addrspace_at, pointer_at, spelled_type_at, allowed_type_at, is_value_type, is_answer_type, is_cast_type, is_managed, is_scalar_type, is_one};
ghost use Rattle.line_parts.specs.Seen.{seen_type};
ghost use Rattle.line_parts.specs.Lists.{is_argument_type};

use crate::cursor::Cursor;
use crate::faults::Stop;
use crate::readings::TypeWord;
use line_tokens::{is_text, is_word, width};
use sp_text::{Kind, Token};

fn is_one(token: &Token) -> bool
    ensures { result ≡ is_one (tok token.now.kind token.now.bytes.now) }
{
    match token.kind {
        Kind::Number => is_text(token.bytes, b"1"),
        _ => false,
    }
}

impl<'t, 'a> Cursor<'t, 'a> {
    // Passes the number 1.
    #[tactic(auto, unfolding(crate::specs::Gives::one_at))]
    fn one(&mut self) -> Result<(), Stop>
        ensures { Gives (λ _. tt) result self.new (one_at (stands is_one) self.old) }
    {
        let Some(token) = self.token() else {
            return Err(Stop::NoReading);
        };
        if is_one(&token) {
            Ok(())
        } else {
            Err(Stop::NoReading)
        }
    }

    // Passes `addrspace(1)`.
    #[tactic(auto, unfolding(crate::specs::Parts::addrspace_at, crate::specs::Gives::after))]
    fn addrspace(&mut self) -> Result<(), Stop>
        ensures { Gives (λ _. tt) result self.new (addrspace_at self.old) }
    {
        self.word(b"addrspace")?;
        self.mark(b"(")?;
        self.one()?;
        self.mark(b")")?;
        Ok(())
    }

    // What follows `ptr`.
    #[tactic(auto, unfolding(crate::specs::Parts::pointer_at, crate::specs::Gives::after))]
    fn pointer(&mut self) -> Result<TypeWord, Stop>
        ensures { Gives seen_type result self.new (pointer_at self.old) }
    {
        if self.begins_word(b"addrspace") {
            self.addrspace()?;
            Ok(TypeWord::Managed)
        } else {
            Ok(TypeWord::Plain)
        }
    }

    // Any type.
    #[tactic(auto, unfolding(crate::specs::Parts::spelled_type_at))]
    fn spelled_type(&mut self) -> Result<TypeWord, Stop>
        ensures { Gives seen_type result self.new (spelled_type_at self.old) }
    {
        let Some(token) = self.token() else {
            return Err(Stop::NoReading);
        };
        if let Some(width) = width(&token) {
            self.note(width.passes);
            return Ok(TypeWord::Int(width.value));
        }
        if is_word(&token, b"void") {
            Ok(TypeWord::Void)
        } else if is_word(&token, b"ptr") {
            self.pointer()
        } else {
            Err(Stop::NoReading)
        }
    }

    /// `iN` or `ptr addrspace(1)`.
    #[tactic(auto, unfolding(crate::specs::Parts::allowed_type_at, crate::specs::Gives::after))]
    pub fn value_type(&mut self) -> Result<TypeWord, Stop>
        ensures { Gives seen_type result self.new (allowed_type_at is_value_type self.old) }
    {
        match self.spelled_type()? {
            TypeWord::Int(width) => Ok(TypeWord::Int(width)),
            TypeWord::Managed => Ok(TypeWord::Managed),
            _ => Err(Stop::NoReading),
        }
    }

    /// A type that a function answers.
    #[tactic(auto, unfolding(crate::specs::Parts::allowed_type_at, crate::specs::Gives::after))]
    pub fn answer_type(&mut self) -> Result<TypeWord, Stop>
        ensures { Gives seen_type result self.new (allowed_type_at is_answer_type self.old) }
    {
        match self.spelled_type()? {
            TypeWord::Plain => Err(Stop::NoReading),
            ty => Ok(ty),
        }
    }

    /// A type that a cast names.
    #[tactic(auto, unfolding(crate::specs::Parts::allowed_type_at, crate::specs::Gives::after))]
    pub fn cast_type(&mut self) -> Result<TypeWord, Stop>
        ensures { Gives seen_type result self.new (allowed_type_at is_cast_type self.old) }
    {
        match self.spelled_type()? {
            TypeWord::Void => Err(Stop::NoReading),
            ty => Ok(ty),
        }
    }

    /// `ptr addrspace(1)`.
    #[tactic(auto, unfolding(crate::specs::Parts::allowed_type_at, crate::specs::Gives::after))]
    pub fn managed(&mut self) -> Result<TypeWord, Stop>
        ensures { Gives seen_type result self.new (allowed_type_at is_managed self.old) }
    {
        match self.spelled_type()? {
            TypeWord::Managed => Ok(TypeWord::Managed),
            _ => Err(Stop::NoReading),
        }
    }

    /// A type of elements that are no layout's.
    #[tactic(auto, unfolding(crate::specs::Parts::allowed_type_at, crate::specs::Gives::after))]
    pub fn scalar_type(&mut self) -> Result<TypeWord, Stop>
        ensures { Gives seen_type result self.new (allowed_type_at is_scalar_type self.old) }
    {
        match self.spelled_type()? {
            TypeWord::Managed => Ok(TypeWord::Managed),
            TypeWord::Int(width) => {
                let bits = width.bits;
                if bits == 8 || bits == 16 || bits == 32 || bits == 64 {
                    Ok(TypeWord::Int(width))
                } else {
                    Err(Stop::NoReading)
                }
            }
            _ => Err(Stop::NoReading),
        }
    }

    /// A type of an argument; `ptr` where it may stand.
    #[tactic(auto, unfolding(crate::specs::Parts::allowed_type_at, crate::specs::Gives::after))]
    pub fn argument_type(&mut self, plain: bool) -> Result<TypeWord, Stop>
        ensures { Gives seen_type result self.new (allowed_type_at (is_argument_type plain) self.old) }
    {
        match self.spelled_type()? {
            TypeWord::Int(width) => Ok(TypeWord::Int(width)),
            TypeWord::Managed => Ok(TypeWord::Managed),
            TypeWord::Void => Err(Stop::NoReading),
            TypeWord::Plain => {
                if plain {
                    Ok(TypeWord::Plain)
                } else {
                    Err(Stop::NoReading)
                }
            }
        }
    }
}
