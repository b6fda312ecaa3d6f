//! Operands by number.

ghost use Rattle.std.specs.Prelude.{◌≡◌};
ghost use Rattle.line_parts.specs.Seen.{seen_type, seen_passed, seen_value};
ghost use Rattle.ir_lines.specs.Modules.{passed_type, operand_in, label_in, type_of, element_of, binary_of, conversion_of, width_of};

use crate::literals::wrapped;
use crate::scope::Local;
use ir_ast::{Elem, Op, Operand, Ty};
use ir_reader::{Binary, Conversion, Passed, TypeWord, Value};
use sp_ids::{BlockId, ValueId};

/// The type that a word spells; `Void` stands for that of a function's name.
pub fn type_of(ty: TypeWord) -> Ty
    ensures { result ≡ type_of (seen_type ty) }
{
    match ty {
        TypeWord::Void | TypeWord::Plain => Ty::Void,
        TypeWord::Int(width) => Ty::Int(width.bits),
        TypeWord::Managed => Ty::Ptr,
    }
}

/// The source element of a `getelementptr` over integers or pointers.
pub fn element_of(ty: TypeWord) -> Elem
    ensures { result ≡ element_of (seen_type ty) }
{
    match ty {
        TypeWord::Int(width) => Elem::Int(width.bits),
        TypeWord::Managed | TypeWord::Void | TypeWord::Plain => Elem::Ptr,
    }
}

pub fn binary_of(op: Binary) -> Op
    ensures { result ≡ binary_of op }
{
    match op {
        Binary::Add => Op::Add,
        Binary::Sub => Op::Sub,
        Binary::Mul => Op::Mul,
        Binary::Udiv => Op::Udiv,
        Binary::Sdiv => Op::Sdiv,
        Binary::Urem => Op::Urem,
        Binary::Srem => Op::Srem,
        Binary::And => Op::And,
        Binary::Or => Op::Or,
        Binary::Xor => Op::Xor,
        Binary::Shl => Op::Shl,
        Binary::Lshr => Op::Lshr,
        Binary::Ashr => Op::Ashr,
    }
}

pub fn conversion_of(op: Conversion, to: u32) -> Op
    ensures { result ≡ conversion_of op to }
{
    match op {
        Conversion::Trunc => Op::Trunc(to),
        Conversion::Zext => Op::Zext(to),
        Conversion::Sext => Op::Sext(to),
    }
}

impl Local<'_> {
    /// The operand that a value of this type stands for.
    pub fn operand(&self, ty: TypeWord, value: &Value) -> Operand
        ensures { result ≡ operand_in self.now.values (seen_type ty) (seen_value value.now) }
    {
        match value {
            Value::Local(name) => Operand::Value(ValueId(self.values.number(name.bytes))),
            Value::Number(literal) => Operand::Int(wrapped(width_of(ty), *literal)),
            Value::Truth(is_true) => Operand::Int(u64::from(*is_true)),
            Value::Null => Operand::Null,
        }
    }

    /// The block that a label stands for.
    pub fn label(&self, name: &[u8]) -> BlockId
        ensures { result ≡ label_in self.now.blocks name.now }
    {
        BlockId(self.blocks.number(name))
    }
}

fn width_of(ty: TypeWord) -> u32
    ensures { result ≡ width_of (seen_type ty) }
{
    match ty {
        TypeWord::Int(width) => width.bits,
        TypeWord::Managed | TypeWord::Void | TypeWord::Plain => 64,
    }
}

/// The type that a call gives one of what it passes.
pub fn passed_type(passed: &Passed) -> TypeWord
    ensures { seen_type result ≡ passed_type (seen_passed passed.now) }
{
    match passed {
        Passed::Value(ty, _) => *ty,
        Passed::Function(_) => TypeWord::Plain,
    }
}
