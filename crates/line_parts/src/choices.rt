//! Words of choice, and parts that may lack.

ghost use Rattle.std.specs.Prelude.{◌≡◌, codes};
ghost use Rattle.std.specs.Option.{option_copied, option_map};
ghost use Rattle.sp_text.specs.Names.{seen_name};
ghost use Rattle.sp_text.specs.Tokens.{tok};
ghost use Rattle.line_parts.specs.Gives.{Gives, one_at};
ghost use Rattle.line_parts.specs.Parts.{case_value_at, name_if_any, place_at, begins_place, strategy_at, to_brace_at, brace_at_end};
ghost use Rattle.line_tokens.specs.Words.{pred_of};
ghost use Rattle.line_parts.specs.Seen.{seen_value};

use crate::cursor::Cursor;
use crate::faults::Stop;
use crate::readings::Value;
use ir_ast::Pred;
use line_tokens::{Literal, is_mark, is_word, local, pred_in};
use sp_text::{Kind, Name, Token};

impl<'t, 'a> Cursor<'t, 'a> {
    /// A predicate.
    #[tactic(auto, unfolding(crate::specs::Gives::one_at))]
    pub fn pred(&mut self) -> Result<Pred, Stop>
        ensures { Gives (λ p. p) result self.new (one_at pred_of self.old) }
    {
        let Some(token) = self.token() else {
            return Err(Stop::NoReading);
        };
        match token.kind {
            Kind::Word => match pred_in(token.bytes) {
                Some(pred) => Ok(pred),
                None => Err(Stop::NoReading),
            },
            _ => Err(Stop::NoReading),
        }
    }

    /// A value that a case names.
    #[tactic(auto, unfolding(crate::specs::Parts::case_value_at, crate::specs::Gives::after))]
    pub fn case_value(&mut self) -> Result<Value<'a>, Stop>
        ensures { Gives seen_value result self.new (case_value_at self.old) }
    {
        match self.value()? {
            Value::Number(number) => Ok(Value::Number(number)),
            Value::Truth(truth) => Ok(Value::Truth(truth)),
            _ => Err(Stop::NoReading),
        }
    }

    /// A name, where one stands.
    pub fn name_if_any(&mut self) -> Option<Name<'a>>
        ensures { name_if_any self.old ≡ (option_map seen_name result, self.new) }
    {
        let token = self.peek()?;
        let name = local(&token)?;
        let _ = self.token();
        Some(name)
    }

    fn begins_place(&self) -> bool
        ensures { result ≡ begins_place self.now }
    {
        if !self.begins_mark(b",") {
            return false;
        }
        let mut rest = self.copied();
        let Some(comma) = rest.token() else {
            return false;
        };
        let Some(word) = rest.token() else {
            return false;
        };
        is_mark(&comma, b",") && is_word(&word, b"i32")
    }

    /// The place of a field, where the line names one.
    #[tactic(auto, unfolding(crate::specs::Parts::place_at, crate::specs::Gives::after))]
    pub fn place(&mut self) -> Result<Option<Literal>, Stop>
        ensures { Gives (λ p. p) result self.new (place_at self.old) }
    {
        if !self.begins_place() {
            return Ok(None);
        }
        self.mark(b",")?;
        self.word(b"i32")?;
        let place = self.number()?;
        Ok(Some(place))
    }

    /// The strategy of a definition, where it names one.
    #[tactic(auto, unfolding(crate::specs::Parts::strategy_at, crate::specs::Gives::after))]
    pub fn strategy(&mut self) -> Result<Option<&'a [u8]>, Stop>
        ensures { Gives option_copied result self.new (strategy_at self.old) }
    {
        if !self.begins_word(b"gc") {
            return Ok(None);
        }
        self.word(b"gc")?;
        let name = self.quoted()?;
        Ok(Some(name))
    }

    /// Passes any tokens, the last of them `}`.
    #[tactic(auto, unfolding(crate::specs::Parts::brace_at_end))]
    pub fn to_brace(&mut self) -> Result<(), Stop>
        ensures { Gives (λ _. tt) result self.new (to_brace_at self.old) }
    {
        let mut closed = false;
        while let Some(token) = self.token() {
            closed = is_mark(&token, b"}");
        }
        if closed && self.end().is_some() {
            Ok(())
        } else {
            Err(Stop::NoReading)
        }
    }
}
