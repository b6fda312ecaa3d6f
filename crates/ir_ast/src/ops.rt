//! Operators, operands and callees, and their classes.

ghost use Rattle.std.specs.Prelude.{◌≡◌};
ghost use Rattle.ir_ast.specs.Callees.{is_helper, is_leaf};
ghost use Rattle.ir_ast.specs.Lines.{is_rewritten};
ghost use Rattle.ir_ast.specs.Operands.{is_null, same_operand, value_named};
ghost use Rattle.ir_ast.specs.Ops.{is_call, is_member, is_phi, is_relocate, is_statepoint, is_terminator};

use crate::clones::TryClone;
use crate::types::Types;
use smallvec::SmallVec;
use sp_ids::{BlockId, FuncId, Memory, ValueId};
use std::alloc::Global;

/// An operand of an instruction.
#[derive(Clone, Copy, Debug, Default, PartialEq, Eq)]
pub enum Operand {
    /// An argument or the result of an instruction.
    Value(ValueId),
    /// An integer literal, modulo 2 to the width of its type.
    Int(u64),
    #[default]
    Null,
    /// A defined function, as an argument of `task_start`.
    Fun(FuncId),
}

impl Operand {
    /// Whether it is `null`.
    pub fn is_null(self) -> bool
        ensures { result ≡ is_null self }
    {
        matches!(self, Operand::Null)
    }

    /// The value that it names, if it names one.
    pub fn value(self) -> Option<ValueId>
        ensures { result ≡ value_named self }
    {
        match self {
            Operand::Value(value) => Some(value),
            _ => None,
        }
    }

    /// Whether both are one value, one literal, or `null`.
    pub fn is_same(self, other: Operand) -> bool
        ensures { result ≡ same_operand self other }
    {
        match (self, other) {
            (Operand::Value(value), Operand::Value(other)) => value.0 == other.0,
            (Operand::Int(number), Operand::Int(other)) => number == other,
            (Operand::Null, Operand::Null) => true,
            _ => false,
        }
    }
}

/// The operands of an instruction, in the order of its line.
pub type Operands = SmallVec<Operand, 3>;

/// The labels of an instruction, in the order of its line.
pub type Labels = SmallVec<BlockId, 4>;

/// The predicate of an `icmp` (LLVM Language Reference, "'icmp' Instruction").
#[derive(Clone, Copy, Debug, PartialEq, Eq)]
pub enum Pred {
    Eq,
    Ne,
    Ugt,
    Uge,
    Ult,
    Ule,
    Sgt,
    Sge,
    Slt,
    Sle,
}

/// The source element type of a `getelementptr`.
#[derive(Clone, Copy, Debug, PartialEq, Eq)]
pub enum Elem {
    /// `iN`, with its width in bits.
    Int(u32),
    Ptr,
    /// A layout, by its place in the module's list of layouts.
    Layout(u32),
}

/// What a call or a statepoint calls.
#[derive(Clone, Copy, Debug, PartialEq, Eq)]
pub enum Callee {
    /// A defined function.
    Fun(FuncId),
    /// `gc_new.T`, with the place of the layout `%T` in the module's list of layouts.
    New(u32),
    /// `print_i64`.
    Print,
    /// `read_i64`.
    Read,
    /// `task_start`.
    TaskStart,
    /// `gc.safepoint_poll`.
    Poll,
    /// `gc_check`.
    Check,
    /// `gc_same`.
    Same,
}

impl Callee {
    /// Whether it reaches no safepoint, so that a call of it needs no statepoint.
    pub fn is_leaf(self) -> bool
        ensures { result ≡ is_leaf self }
    {
        matches!(
            self,
            Callee::Print | Callee::Read | Callee::Check | Callee::Same
        )
    }

    /// Whether only the rewritten form calls it: a poll or a helper.
    pub fn is_helper(self) -> bool
        ensures { result ≡ is_helper self }
    {
        matches!(self, Callee::Poll | Callee::Check | Callee::Same)
    }
}

/// The operator of an instruction, with what its line says besides types, operands and labels.
#[derive(Debug, Drop)]
pub enum Op {
    Add,
    Sub,
    Mul,
    Udiv,
    Sdiv,
    Urem,
    Srem,
    And,
    Or,
    Xor,
    Shl,
    Lshr,
    Ashr,
    Icmp(Pred),
    /// The width of the result.
    Trunc(u32),
    /// The width of the result.
    Zext(u32),
    /// The width of the result.
    Sext(u32),
    Select,
    Phi,
    /// The source element, the width of the index, and the field's place where the line names a field.
    Gep {
        elem: Elem,
        index_width: u32,
        place: Option<u32>,
    },
    Load,
    Store,
    /// The types of the arguments; `Void` stands for that of a function's name.
    Call {
        callee: Callee,
        types: Types,
    },
    /// The types of the arguments, as for a call (Garbage Collection Safepoints in LLVM,
    /// "'llvm.experimental.gc.statepoint' Intrinsic").
    Statepoint {
        id: u64,
        callee: Callee,
        types: Types,
    },
    /// `llvm.experimental.gc.result`.
    GcResult,
    /// `llvm.experimental.gc.relocate`.
    GcRelocate,
    /// A `br` without a condition.
    Br,
    CondBr,
    Switch,
    Ret,
    Unreachable,
}

impl Op {
    /// Whether it ends a block (LLVM Language Reference, "Terminator Instructions").
    pub fn is_terminator(&self) -> bool
        ensures { result ≡ is_terminator self.now }
    {
        matches!(
            self,
            Op::Br | Op::CondBr | Op::Switch | Op::Ret | Op::Unreachable
        )
    }

    /// Whether it is a phi.
    pub fn is_phi(&self) -> bool
        ensures { result ≡ is_phi self.now }
    {
        matches!(self, Op::Phi)
    }

    /// Whether it is a call of something that may reach a safepoint.
    pub fn is_call(&self) -> bool
        ensures { result ≡ is_call self.now }
    {
        match self {
            Op::Call { callee, .. } => !callee.is_leaf(),
            _ => false,
        }
    }

    /// Whether it is a statepoint.
    pub fn is_statepoint(&self) -> bool
        ensures { result ≡ is_statepoint self.now }
    {
        matches!(self, Op::Statepoint { .. })
    }

    /// Whether it is a result or a relocate, which stand behind their statepoint.
    pub fn is_member(&self) -> bool
        ensures { result ≡ is_member self.now }
    {
        matches!(self, Op::GcResult | Op::GcRelocate)
    }

    /// Whether it is a relocate.
    pub fn is_relocate(&self) -> bool
        ensures { result ≡ is_relocate self.now }
    {
        matches!(self, Op::GcRelocate)
    }

    /// Whether it stands only in the rewritten form.
    pub fn is_rewritten(&self) -> bool
        ensures { result ≡ is_rewritten self.now }
    {
        match self {
            Op::Call { callee, .. } => callee.is_helper(),
            _ => self.is_statepoint() || self.is_member(),
        }
    }
}

impl TryClone for Op {
    fn try_clone_in(&self, alloc: Global) -> Result<Op, Memory> {
        match self {
            Op::Add => Ok(Op::Add),
            Op::Sub => Ok(Op::Sub),
            Op::Mul => Ok(Op::Mul),
            Op::Udiv => Ok(Op::Udiv),
            Op::Sdiv => Ok(Op::Sdiv),
            Op::Urem => Ok(Op::Urem),
            Op::Srem => Ok(Op::Srem),
            Op::And => Ok(Op::And),
            Op::Or => Ok(Op::Or),
            Op::Xor => Ok(Op::Xor),
            Op::Shl => Ok(Op::Shl),
            Op::Lshr => Ok(Op::Lshr),
            Op::Ashr => Ok(Op::Ashr),
            Op::Icmp(pred) => Ok(Op::Icmp(*pred)),
            Op::Trunc(width) => Ok(Op::Trunc(*width)),
            Op::Zext(width) => Ok(Op::Zext(*width)),
            Op::Sext(width) => Ok(Op::Sext(*width)),
            Op::Select => Ok(Op::Select),
            Op::Phi => Ok(Op::Phi),
            Op::Gep {
                elem,
                index_width,
                place,
            } => Ok(Op::Gep {
                elem: *elem,
                index_width: *index_width,
                place: *place,
            }),
            Op::Load => Ok(Op::Load),
            Op::Store => Ok(Op::Store),
            Op::Call { callee, types } => Ok(Op::Call {
                callee: *callee,
                types: types.try_clone_in(alloc)?,
            }),
            Op::Statepoint { id, callee, types } => Ok(Op::Statepoint {
                id: *id,
                callee: *callee,
                types: types.try_clone_in(alloc)?,
            }),
            Op::GcResult => Ok(Op::GcResult),
            Op::GcRelocate => Ok(Op::GcRelocate),
            Op::Br => Ok(Op::Br),
            Op::CondBr => Ok(Op::CondBr),
            Op::Switch => Ok(Op::Switch),
            Op::Ret => Ok(Op::Ret),
            Op::Unreachable => Ok(Op::Unreachable),
        }
    }
}
