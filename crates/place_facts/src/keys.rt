//! A question as a key.

ghost use Rattle.std.specs.Prelude.{◌≡◌};
ghost use Rattle.place_facts.specs.Keys.{name_of, wanted_of, key_of};

use crate::facts::Question;
use ir_ast::Operand;
use pair_facts::Base;

/// An operand.
#[derive(Clone, Copy, PartialEq, Eq, Hash)]
pub(crate) enum Name {
    Value(u32),
    Int(u64),
    Null,
    Fun(u32),
}

/// A base.
#[derive(Clone, Copy, PartialEq, Eq, Hash)]
pub(crate) enum Wanted {
    Any,
    Named(Name),
}

/// A question.
#[derive(Clone, Copy, PartialEq, Eq, Hash)]
pub(crate) struct Key {
    place: u32,
    pointer: Name,
    base: Wanted,
}

/// A question as a key.
pub(crate) fn key_of(question: Question) -> Key
    ensures { result ≡ key_of question }
{
    Key {
        place: question.place,
        pointer: name_of(question.pointer),
        base: wanted_of(question.base),
    }
}

fn wanted_of(base: Base) -> Wanted
    ensures { result ≡ wanted_of base }
{
    match base {
        Base::Any => Wanted::Any,
        Base::Named(operand) => Wanted::Named(name_of(operand)),
    }
}

fn name_of(operand: Operand) -> Name
    ensures { result ≡ name_of operand }
{
    match operand {
        Operand::Value(value) => Name::Value(value.0),
        Operand::Int(number) => Name::Int(number),
        Operand::Null => Name::Null,
        Operand::Fun(func) => Name::Fun(func.0),
    }
}
