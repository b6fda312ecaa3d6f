//! Operands and labels as they stand in a line.
ghost use Rattle.std.specs.Prelude.{◌≡◌, ◌++◌, ℕ, List, codes, OnOk, OnErr};
ghost use Rattle.ir_ast.specs.declared.types.Ty.TheVariants.{Ptr};
ghost use Rattle.ir_printer.specs.Words.{type_text};
ghost use Rattle.ir_printer.specs.Operands.{literal_text, value_text, typed_text, parameter_text, argument_text, label_text, operand_at, label_at};

use crate::puts::put_then;
use crate::words::{Integer, TypeWord};
use ir_ast::{Inst, Operand, Ty};
use piece_writer::{Bytes, Decimal, Piece, PieceSink};
use print_tables::Scope;
use sp_ids::BlockId;
use tool_io::Failed;

// An integer literal of a type.
#[derive(Clone, Copy)]
struct Literal(Ty, u64);

impl Piece for Literal {
    ghost text = { λ piece. literal_text piece.0 piece.1 };

    fn put_into<W: PieceSink>(&self, out: &mut W) -> Result<(), Failed> {
        match self.0 {
            Ty::Int(width) => Integer(width, self.1).put_into(out),
            Ty::Void | Ty::Ptr | Ty::Token => Decimal(self.1).put_into(out),
        }
    }
}

/// An operand of a type, without the type.
#[derive(Drop)]
pub(crate) struct Value<'a> {
    pub scope: &'a Scope<'a>,
    pub ty: Ty,
    pub operand: Operand,
}

impl Piece for Value<'_> {
    ghost text = { λ piece. value_text piece.scope.now piece.ty piece.operand };

    fn put_into<W: PieceSink>(&self, out: &mut W) -> Result<(), Failed> {
        match self.operand {
            Operand::Value(value) => out.put_both(b"%", self.scope.value(value)),
            Operand::Int(number) => Literal(self.ty, number).put_into(out),
            Operand::Null => out.put(b"null"),
            Operand::Fun(func) => out.put_both(b"@", self.scope.function(func)),
        }
    }
}

/// An operand of a type, after the type.
#[derive(Drop)]
pub(crate) struct Typed<'a> {
    pub scope: &'a Scope<'a>,
    pub ty: Ty,
    pub operand: Operand,
}

// Most operands have their type and their `%` put at once. The others stand apart, so that room for
// them isn't cleared for each operand.
impl Typed<'_> {
    #[inline(never)]
    fn put_apart<W: PieceSink>(&self, out: &mut W) -> Result<(), Failed>
        ensures ok { OnOk result (W.took out.old out.new (typed_text self.now.scope.now self.now.ty self.now.operand)) }
        ensures err { OnErr result (W.failed_within out.old out.new (typed_text self.now.scope.now self.now.ty self.now.operand)) }
    {
        let value = Value {
            scope: self.scope,
            ty: self.ty,
            operand: self.operand,
        };
        (TypeWord(self.ty), Bytes(b" "), value).put_into(out)
    }
}

impl Piece for Typed<'_> {
    ghost text = { λ piece. typed_text piece.scope.now piece.ty piece.operand };

    fn put_into<W: PieceSink>(&self, out: &mut W) -> Result<(), Failed> {
        match self.operand {
            Operand::Value(value) => match self.ty {
                Ty::Ptr => out.put_both(b"ptr addrspace(1) %", self.scope.value(value)),
                Ty::Int(64) => out.put_both(b"i64 %", self.scope.value(value)),
                _ => self.put_apart(out),
            },
            Operand::Int(number) => match self.ty {
                Ty::Int(64) => put_then(b"i64 ", &Integer(64, number), out),
                _ => self.put_apart(out),
            },
            _ => self.put_apart(out),
        }
    }
}

/// An operand of a type, after a comma and the type.
#[derive(Drop)]
pub(crate) struct NextTyped<'a> {
    pub scope: &'a Scope<'a>,
    pub ty: Ty,
    pub operand: Operand,
}

impl NextTyped<'_> {
    #[inline(never)]
    fn put_apart<W: PieceSink>(&self, out: &mut W) -> Result<(), Failed>
        ensures ok { OnOk result (W.took out.old out.new (codes ", " ++ typed_text self.now.scope.now self.now.ty self.now.operand)) }
        ensures err { OnErr result (W.failed_within out.old out.new (codes ", " ++ typed_text self.now.scope.now self.now.ty self.now.operand)) }
    {
        let typed = Typed {
            scope: self.scope,
            ty: self.ty,
            operand: self.operand,
        };
        put_then(b", ", &typed, out)
    }
}

impl Piece for NextTyped<'_> {
    ghost text = { λ piece. codes ", " ++ typed_text piece.scope.now piece.ty piece.operand };

    fn put_into<W: PieceSink>(&self, out: &mut W) -> Result<(), Failed> {
        match self.operand {
            Operand::Value(value) => match self.ty {
                Ty::Ptr => out.put_both(b", ptr addrspace(1) %", self.scope.value(value)),
                Ty::Int(64) => out.put_both(b", i64 %", self.scope.value(value)),
                _ => self.put_apart(out),
            },
            Operand::Int(number) => match self.ty {
                Ty::Int(64) => put_then(b", i64 ", &Integer(64, number), out),
                Ty::Int(32) => put_then(b", i32 ", &Integer(32, number), out),
                _ => self.put_apart(out),
            },
            _ => self.put_apart(out),
        }
    }
}

/// The operand with this place in a line, which is a pointer, after a comma and its type.
#[derive(Drop)]
pub(crate) struct NextPointer<'a> {
    pub scope: &'a Scope<'a>,
    pub inst: &'a Inst,
    pub place: usize,
}

impl Piece for NextPointer<'_> {
    ghost text = { λ piece. codes ", " ++ typed_text piece.scope.now Ptr (operand_at piece.inst.now piece.place) };

    #[inline(always)]
    fn put_into<W: PieceSink>(&self, out: &mut W) -> Result<(), Failed> {
        put_next_pointer(self.scope, self.inst, self.place, out)
    }
}

// Takes what it needs apart, so that nothing is stored for it.
#[inline(never)]
fn put_next_pointer<W: PieceSink>(
    scope: &Scope<'_>,
    inst: &Inst,
    place: usize,
    out: &mut W,
) -> Result<(), Failed>
    ensures ok { OnOk result (W.took out.old out.new (codes ", " ++ typed_text scope.now Ptr (operand_at inst.now place))) }
    ensures err { OnErr result (W.failed_within out.old out.new (codes ", " ++ typed_text scope.now Ptr (operand_at inst.now place))) }
{
    match operand_of(inst, place) {
        Operand::Value(value) => out.put_both(b", ptr addrspace(1) %", scope.value(value)),
        operand => {
            let typed = NextTyped {
                scope,
                ty: Ty::Ptr,
                operand,
            };
            typed.put_apart(out)
        }
    }
}

/// An operand of a type, after a comma and without the type.
#[derive(Drop)]
pub(crate) struct NextValue<'a> {
    pub scope: &'a Scope<'a>,
    pub ty: Ty,
    pub operand: Operand,
}

impl Piece for NextValue<'_> {
    ghost text = { λ piece. codes ", " ++ value_text piece.scope.now piece.ty piece.operand };

    fn put_into<W: PieceSink>(&self, out: &mut W) -> Result<(), Failed> {
        match self.operand {
            Operand::Value(value) => out.put_both(b", %", self.scope.value(value)),
            operand => {
                let value = Value {
                    scope: self.scope,
                    ty: self.ty,
                    operand,
                };
                put_then(b", ", &value, out)
            }
        }
    }
}

/// The type of an argument; that of a function's name is `ptr`.
#[derive(Clone, Copy)]
pub(crate) struct ParameterWord(pub Ty);

impl Piece for ParameterWord {
    ghost text = { λ piece. parameter_text piece.0 };

    fn put_into<W: PieceSink>(&self, out: &mut W) -> Result<(), Failed> {
        match self.0 {
            Ty::Void => out.put(b"ptr"),
            ty => TypeWord(ty).put_into(out),
        }
    }
}

/// An argument after its type.
#[derive(Drop)]
pub(crate) struct Argument<'a> {
    pub scope: &'a Scope<'a>,
    pub ty: Ty,
    pub operand: Operand,
}

impl Piece for Argument<'_> {
    ghost text = { λ piece. argument_text piece.scope.now piece.ty piece.operand };

    fn put_into<W: PieceSink>(&self, out: &mut W) -> Result<(), Failed> {
        let (scope, operand) = (self.scope, self.operand);
        match self.ty {
            Ty::Void => {
                let ty = Ty::Void;
                put_then(b"ptr ", &Value { scope, ty, operand }, out)
            }
            ty => Typed { scope, ty, operand }.put_into(out),
        }
    }
}

/// An argument after a comma and its type.
#[derive(Drop)]
pub(crate) struct NextArgument<'a> {
    pub scope: &'a Scope<'a>,
    pub ty: Ty,
    pub operand: Operand,
}

impl Piece for NextArgument<'_> {
    ghost text = { λ piece. codes ", " ++ argument_text piece.scope.now piece.ty piece.operand };

    fn put_into<W: PieceSink>(&self, out: &mut W) -> Result<(), Failed> {
        let (scope, operand) = (self.scope, self.operand);
        match self.ty {
            Ty::Void => {
                let ty = Ty::Void;
                put_then(b", ptr ", &Value { scope, ty, operand }, out)
            }
            ty => NextTyped { scope, ty, operand }.put_into(out),
        }
    }
}

/// The name of a block.
#[derive(Drop)]
pub(crate) struct Label<'a> {
    pub scope: &'a Scope<'a>,
    pub block: BlockId,
}

impl Piece for Label<'_> {
    ghost text = { λ piece. label_text piece.scope.now piece.block };

    fn put_into<W: PieceSink>(&self, out: &mut W) -> Result<(), Failed> {
        out.put_both(b"%", self.scope.block(self.block))
    }
}

/// The operand with this place, which each formed line has.
pub(crate) fn operand_of(inst: &Inst, place: usize) -> Operand
    ensures { result ≡ operand_at inst.now place }
{
    inst.operands().get(place).copied().unwrap_or_default()
}

/// The label with this place, which each formed line has.
pub(crate) fn label_of(inst: &Inst, place: usize) -> BlockId
    ensures { result ≡ label_at inst.now place }
{
    inst.labels().get(place).copied().unwrap_or(BlockId(0))
}
