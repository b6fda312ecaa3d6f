//! A fact: a pointer, a base, and the place before which they are a pair.

ghost use Rattle.std.specs.Prelude.{◌≡◌};
ghost use Rattle.base_facts.specs.Facts.{pointer_of, wanted_of, fact_at};

use ir_ast::Operand;
use pair_facts::Base;

/// The pointer of a fact.
#[derive(Clone, Copy, PartialEq, Eq, Hash)]
pub(crate) enum Pointer {
    Null,
    /// The value with this number.
    Value(u32),
}

/// The base that a fact asks for.
#[derive(Clone, Copy, PartialEq, Eq, Hash)]
pub(crate) enum Wanted {
    Any,
    Null,
    /// The value with this number.
    Value(u32),
}

/// A fact: the pointer has the base before this place of this block.
#[derive(Clone, Copy, PartialEq, Eq, Hash)]
pub(crate) struct Fact {
    pub(crate) block: usize,
    pub(crate) place: usize,
    pub(crate) pointer: Pointer,
    pub(crate) base: Wanted,
}

fn pointer_of(operand: Operand) -> Option<Pointer>
    ensures { result ≡ pointer_of operand }
{
    match operand {
        Operand::Value(value) => Some(Pointer::Value(value.0)),
        Operand::Null => Some(Pointer::Null),
        Operand::Int(_) | Operand::Fun(_) => None,
    }
}

fn wanted_of(base: Base) -> Option<Wanted>
    ensures { result ≡ wanted_of base }
{
    match base {
        Base::Any => Some(Wanted::Any),
        Base::Named(Operand::Value(value)) => Some(Wanted::Value(value.0)),
        Base::Named(Operand::Null) => Some(Wanted::Null),
        Base::Named(Operand::Int(_) | Operand::Fun(_)) => None,
    }
}

/// The fact of a pair; one with a literal or a function has none, and stands nowhere.
pub(crate) fn fact_at(block: usize, place: usize, operand: Operand, base: Base) -> Option<Fact>
    ensures { result ≡ fact_at block place operand base }
{
    match (pointer_of(operand), wanted_of(base)) {
        (Some(pointer), Some(base)) => Some(Fact {
            block,
            place,
            pointer,
            base,
        }),
        _ => None,
    }
}
