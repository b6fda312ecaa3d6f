//! The line of each instruction.
ghost use Rattle.std.specs.Prelude.{◌≡◌, ◌++◌, ℕ, List, [], codes, map, drop, OnOk, OnErr};
ghost use Rattle.std.specs.List.{zip};
ghost use Rattle.ir_ast.specs.declared.types.Ty.TheVariants.{Void, Int};
ghost use Rattle.ir_printer.specs.Words.{type_text};
ghost use Rattle.ir_printer.specs.Operands.{value_text, typed_text, label_text, operand_at};
ghost use Rattle.ir_printer.specs.Lines.{arithmetic_text, comparison_text, conversion_text, select_text, phi_text, phi_entry_text, element_text, place_text, step_text, load_text, store_text, jump_text, branch_text, switch_text, case_text, return_text, operator_text, result_front, line_text};

use crate::calls::{Call, Relocate, ResultCall, Statepoint};
use crate::operands::{
    Label, NextPointer, NextTyped, NextValue, Typed, Value, label_of, operand_of,
};
use crate::puts::{put_then, put_three};
use crate::words::{TypeWord, predicate_bytes};
use ir_ast::{Elem, Inst, Name, Op, Operand, Pred, Ty};
use piece_writer::{Bytes, Decimal, Joined, PairPrinter, Pairs, Piece, PieceSink, Printer};
use print_tables::Scope;
use sp_ids::BlockId;
use tool_io::Failed;

// The operands of a line with two, after its words.
#[derive(Drop)]
struct Both<'a> {
    scope: &'a Scope<'a>,
    inst: &'a Inst,
}

impl Piece for Both<'_> {
    ghost text = { λ piece. typed_text piece.scope.now piece.inst.now.ty (operand_at piece.inst.now 0)
        ++ (codes ", " ++ value_text piece.scope.now piece.inst.now.ty (operand_at piece.inst.now 1)) };

    fn put_into<W: PieceSink>(&self, out: &mut W) -> Result<(), Failed> {
        let ty = *self.inst.ty();
        let left = Typed {
            scope: self.scope,
            ty,
            operand: operand_of(self.inst, 0),
        };
        let right = NextValue {
            scope: self.scope,
            ty,
            operand: operand_of(self.inst, 1),
        };
        (left, right).put_into(out)
    }
}

// What is seldom put stands apart, so that room for it isn't cleared for each line.
impl Both<'_> {
    #[inline(never)]
    fn put_comparison<W: PieceSink>(&self, pred: Pred, out: &mut W) -> Result<(), Failed>
        ensures ok { OnOk result (W.took out.old out.new (comparison_text self.now.scope.now pred self.now.inst.now)) }
        ensures err { OnErr result (W.failed_within out.old out.new (comparison_text self.now.scope.now pred self.now.inst.now)) }
    {
        let word = predicate_bytes(pred);
        (Bytes(b"icmp "), Bytes(word), Bytes(b" "), self).put_into(out)
    }

    #[inline(never)]
    fn put_conversion<W: PieceSink>(
        &self,
        word: &[u8],
        width: u32,
        out: &mut W,
    ) -> Result<(), Failed>
        ensures ok { OnOk result (W.took out.old out.new (conversion_text self.now.scope.now word.now width self.now.inst.now)) }
        ensures err { OnErr result (W.failed_within out.old out.new (conversion_text self.now.scope.now word.now width self.now.inst.now)) }
    {
        let from = Typed {
            scope: self.scope,
            ty: *self.inst.ty(),
            operand: operand_of(self.inst, 0),
        };
        let to = TypeWord(Ty::Int(width));
        (Bytes(word), Bytes(b" "), from, Bytes(b" to "), to).put_into(out)
    }
}

#[derive(Drop)]
struct Select<'a> {
    scope: &'a Scope<'a>,
    inst: &'a Inst,
}

impl Piece for Select<'_> {
    ghost text = { λ piece. select_text piece.scope.now piece.inst.now };

    fn put_into<W: PieceSink>(&self, out: &mut W) -> Result<(), Failed> {
        let scope = self.scope;
        let ty = *self.inst.ty();
        let condition = Typed {
            scope,
            ty: Ty::Int(1),
            operand: operand_of(self.inst, 0),
        };
        let taken = Typed {
            scope,
            ty,
            operand: operand_of(self.inst, 1),
        };
        let other = Typed {
            scope,
            ty,
            operand: operand_of(self.inst, 2),
        };
        (
            Bytes(b"select "),
            condition,
            Bytes(b", "),
            taken,
            Bytes(b", "),
            other,
        )
            .put_into(out)
    }
}

// Puts an entry of a phi.
#[derive(Drop)]
struct PhiEntries<'a> {
    scope: &'a Scope<'a>,
    ty: Ty,
}

impl PairPrinter<Operand, BlockId> for PhiEntries<'_> {
    ghost pair_text = { λ printer operand label. phi_entry_text printer.scope.now printer.ty operand label };

    fn put_pair<W: PieceSink>(
        &self,
        operand: &Operand,
        label: &BlockId,
        out: &mut W,
    ) -> Result<(), Failed> {
        let value = Value {
            scope: self.scope,
            ty: self.ty,
            operand: *operand,
        };
        (
            Bytes(b"[ "),
            value,
            Bytes(b", %"),
            Bytes(self.scope.block(*label)),
            Bytes(b" ]"),
        )
            .put_into(out)
    }
}

#[derive(Drop)]
struct Phi<'a> {
    scope: &'a Scope<'a>,
    inst: &'a Inst,
}

impl Piece for Phi<'_> {
    ghost text = { λ piece. phi_text piece.scope.now piece.inst.now };

    fn put_into<W: PieceSink>(&self, out: &mut W) -> Result<(), Failed> {
        let ty = *self.inst.ty();
        let entries = Joined {
            separator: b", ",
            row: Pairs {
                printer: PhiEntries {
                    scope: self.scope,
                    ty,
                },
                first: self.inst.operands(),
                second: self.inst.labels(),
            },
        };
        (Bytes(b"phi "), TypeWord(ty), Bytes(b" "), entries).put_into(out)
    }
}

// The source element of a `getelementptr`.
#[derive(Drop)]
struct Element<'a> {
    scope: &'a Scope<'a>,
    elem: Elem,
}

impl Piece for Element<'_> {
    ghost text = { λ piece. element_text piece.scope.now piece.elem };

    fn put_into<W: PieceSink>(&self, out: &mut W) -> Result<(), Failed> {
        match self.elem {
            Elem::Int(width) => TypeWord(Ty::Int(width)).put_into(out),
            Elem::Ptr => TypeWord(Ty::Ptr).put_into(out),
            Elem::Layout(layout) => out.put_both(b"%", self.scope.layout(layout)),
        }
    }
}

// The place of a field, where the line names one.
#[derive(Clone, Copy)]
struct Place(Option<u32>);

impl Piece for Place {
    ghost text = { λ piece. place_text piece.0 };

    fn put_into<W: PieceSink>(&self, out: &mut W) -> Result<(), Failed> {
        match self.0 {
            None => Ok(()),
            Some(place) => put_then(b", i32 ", &Decimal(place as u64), out),
        }
    }
}

#[derive(Drop)]
struct Step<'a> {
    scope: &'a Scope<'a>,
    elem: Elem,
    index_width: u32,
    place: Option<u32>,
    inst: &'a Inst,
}

impl Piece for Step<'_> {
    ghost text = { λ piece. step_text piece.scope.now piece.elem piece.index_width piece.place piece.inst.now };

    fn put_into<W: PieceSink>(&self, out: &mut W) -> Result<(), Failed> {
        let scope = self.scope;
        let start = StepStart {
            scope,
            elem: self.elem,
        };
        let pointer = NextPointer {
            scope,
            inst: self.inst,
            place: 0,
        };
        let index = NextTyped {
            scope,
            ty: Ty::Int(self.index_width),
            operand: operand_of(self.inst, 1),
        };
        (start, pointer, index, Place(self.place)).put_into(out)
    }
}

// What a `getelementptr` begins with: its source element too.
#[derive(Drop)]
struct StepStart<'a> {
    scope: &'a Scope<'a>,
    elem: Elem,
}

impl Piece for StepStart<'_> {
    ghost text = { λ piece. codes "getelementptr " ++ element_text piece.scope.now piece.elem };

    fn put_into<W: PieceSink>(&self, out: &mut W) -> Result<(), Failed> {
        let scope = self.scope;
        match self.elem {
            Elem::Layout(layout) => out.put_both(b"getelementptr %", scope.layout(layout)),
            elem => put_then(b"getelementptr ", &Element { scope, elem }, out),
        }
    }
}

#[derive(Drop)]
struct Load<'a> {
    scope: &'a Scope<'a>,
    inst: &'a Inst,
}

impl Piece for Load<'_> {
    ghost text = { λ piece. load_text piece.scope.now piece.inst.now };

    fn put_into<W: PieceSink>(&self, out: &mut W) -> Result<(), Failed> {
        let pointer = NextPointer {
            scope: self.scope,
            inst: self.inst,
            place: 0,
        };
        match *self.inst.ty() {
            Ty::Int(64) => put_then(b"load i64", &pointer, out),
            ty => put_then(b"load ", &(TypeWord(ty), pointer), out),
        }
    }
}

#[derive(Drop)]
struct Store<'a> {
    scope: &'a Scope<'a>,
    inst: &'a Inst,
}

impl Piece for Store<'_> {
    ghost text = { λ piece. store_text piece.scope.now piece.inst.now };

    fn put_into<W: PieceSink>(&self, out: &mut W) -> Result<(), Failed> {
        let value = Typed {
            scope: self.scope,
            ty: *self.inst.ty(),
            operand: operand_of(self.inst, 0),
        };
        let pointer = NextPointer {
            scope: self.scope,
            inst: self.inst,
            place: 1,
        };
        put_then(b"store ", &(value, pointer), out)
    }
}

#[derive(Drop)]
struct Branch<'a> {
    scope: &'a Scope<'a>,
    inst: &'a Inst,
}

impl Piece for Branch<'_> {
    ghost text = { λ piece. branch_text piece.scope.now piece.inst.now };

    fn put_into<W: PieceSink>(&self, out: &mut W) -> Result<(), Failed> {
        let scope = self.scope;
        let condition = Typed {
            scope,
            ty: Ty::Int(1),
            operand: operand_of(self.inst, 0),
        };
        let taken = Label {
            scope,
            block: label_of(self.inst, 0),
        };
        let other = Label {
            scope,
            block: label_of(self.inst, 1),
        };
        (
            Bytes(b"br "),
            condition,
            Bytes(b", label "),
            taken,
            Bytes(b", label "),
            other,
        )
            .put_into(out)
    }
}

// Puts the line of a case.
#[derive(Drop)]
struct Cases<'a> {
    scope: &'a Scope<'a>,
    ty: Ty,
}

impl PairPrinter<Operand, BlockId> for Cases<'_> {
    ghost pair_text = { λ printer operand label. case_text printer.scope.now printer.ty operand label };

    fn put_pair<W: PieceSink>(
        &self,
        operand: &Operand,
        label: &BlockId,
        out: &mut W,
    ) -> Result<(), Failed> {
        let value = Typed {
            scope: self.scope,
            ty: self.ty,
            operand: *operand,
        };
        let label = Label {
            scope: self.scope,
            block: *label,
        };
        (
            Bytes(b"    "),
            value,
            Bytes(b", label "),
            label,
            Bytes(b"\n"),
        )
            .put_into(out)
    }
}

#[derive(Drop)]
struct Switch<'a> {
    scope: &'a Scope<'a>,
    inst: &'a Inst,
}

impl Piece for Switch<'_> {
    ghost text = { λ piece. switch_text piece.scope.now piece.inst.now };

    fn put_into<W: PieceSink>(&self, out: &mut W) -> Result<(), Failed> {
        let scope = self.scope;
        let ty = *self.inst.ty();
        let value = Typed {
            scope,
            ty,
            operand: operand_of(self.inst, 0),
        };
        let default = Label {
            scope,
            block: label_of(self.inst, 0),
        };
        let cases = Joined {
            separator: b"",
            row: Pairs {
                printer: Cases { scope, ty },
                first: after_first_operand(self.inst.operands()),
                second: after_first_label(self.inst.labels()),
            },
        };
        (
            Bytes(b"switch "),
            value,
            Bytes(b", label "),
            default,
            Bytes(b" [\n"),
            cases,
            Bytes(b"  ]"),
        )
            .put_into(out)
    }
}

fn after_first_operand(operands: &[Operand]) -> &[Operand]
    ensures { result.now ≡ drop 1 operands.now }
{
    match operands {
        [_, rest @ ..] => rest,
        [] => &[],
    }
}

fn after_first_label(labels: &[BlockId]) -> &[BlockId]
    ensures { result.now ≡ drop 1 labels.now }
{
    match labels {
        [_, rest @ ..] => rest,
        [] => &[],
    }
}

// What a `ret` answers.
#[derive(Drop)]
struct Answer<'a> {
    scope: &'a Scope<'a>,
    ty: Ty,
    inst: &'a Inst,
}

impl Piece for Answer<'_> {
    ghost text = { λ piece. codes "ret " ++ typed_text piece.scope.now piece.ty (operand_at piece.inst.now 0) };

    fn put_into<W: PieceSink>(&self, out: &mut W) -> Result<(), Failed> {
        let answer = Typed {
            scope: self.scope,
            ty: self.ty,
            operand: operand_of(self.inst, 0),
        };
        put_then(b"ret ", &answer, out)
    }
}

#[derive(Drop)]
struct Return<'a> {
    scope: &'a Scope<'a>,
    ty: Ty,
    inst: &'a Inst,
}

impl Piece for Return<'_> {
    ghost text = { λ piece. return_text piece.scope.now piece.ty piece.inst.now };

    fn put_into<W: PieceSink>(&self, out: &mut W) -> Result<(), Failed> {
        let (scope, inst) = (self.scope, self.inst);
        match self.ty {
            Ty::Void => out.put(b"ret void"),
            ty => Answer { scope, ty, inst }.put_into(out),
        }
    }
}

// What stands before the operator: two spaces, and `%x = ` where the line has a result.
#[derive(Drop)]
struct Front<'a>(&'a Option<Name>);

impl Piece for Front<'_> {
    ghost text = { λ piece. codes "  " ++ result_front piece.0.now };

    fn put_into<W: PieceSink>(&self, out: &mut W) -> Result<(), Failed> {
        match self.0 {
            None => out.put(b"  "),
            Some(name) => put_three(b"  %", name.bytes(), b" = ", out),
        }
    }
}

// A line after its result.
#[derive(Drop)]
struct Operation<'a> {
    op: &'a Op,
    both: Both<'a>,
}

impl Piece for Operation<'_> {
    ghost text = { λ piece. operator_text piece.both.scope.now piece.op.now piece.both.inst.now };

    fn put_into<W: PieceSink>(&self, out: &mut W) -> Result<(), Failed> {
        let (scope, inst) = (self.both.scope, self.both.inst);
        match self.op {
            Op::Add => put_then(b"add ", &self.both, out),
            Op::Sub => put_then(b"sub ", &self.both, out),
            Op::Mul => put_then(b"mul ", &self.both, out),
            Op::Udiv => put_then(b"udiv ", &self.both, out),
            Op::Sdiv => put_then(b"sdiv ", &self.both, out),
            Op::Urem => put_then(b"urem ", &self.both, out),
            Op::Srem => put_then(b"srem ", &self.both, out),
            Op::And => put_then(b"and ", &self.both, out),
            Op::Or => put_then(b"or ", &self.both, out),
            Op::Xor => put_then(b"xor ", &self.both, out),
            Op::Shl => put_then(b"shl ", &self.both, out),
            Op::Lshr => put_then(b"lshr ", &self.both, out),
            Op::Ashr => put_then(b"ashr ", &self.both, out),
            Op::Icmp(pred) => self.both.put_comparison(*pred, out),
            Op::Trunc(width) => self.both.put_conversion(b"trunc", *width, out),
            Op::Zext(width) => self.both.put_conversion(b"zext", *width, out),
            Op::Sext(width) => self.both.put_conversion(b"sext", *width, out),
            Op::Select => Select { scope, inst }.put_into(out),
            Op::Phi => Phi { scope, inst }.put_into(out),
            Op::Gep {
                elem,
                index_width,
                place,
            } => Step {
                scope,
                elem: *elem,
                index_width: *index_width,
                place: *place,
                inst,
            }
            .put_into(out),
            Op::Load => Load { scope, inst }.put_into(out),
            Op::Store => Store { scope, inst }.put_into(out),
            Op::Call { callee, types } => Call {
                scope,
                callee: *callee,
                types: types.list(),
                inst,
            }
            .put_into(out),
            Op::Statepoint { id, callee, types } => Statepoint {
                scope,
                id: *id,
                callee: *callee,
                types: types.list(),
                inst,
            }
            .put_into(out),
            Op::GcResult => ResultCall { scope, inst }.put_into(out),
            Op::GcRelocate => Relocate { scope, inst }.put_into(out),
            Op::Br => {
                let block = label_of(inst, 0);
                put_then(b"br label ", &Label { scope, block }, out)
            }
            Op::CondBr => Branch { scope, inst }.put_into(out),
            Op::Switch => Switch { scope, inst }.put_into(out),
            Op::Ret => {
                let ty = *inst.ty();
                Return { scope, ty, inst }.put_into(out)
            }
            Op::Unreachable => out.put(b"unreachable"),
        }
    }
}

/// Puts the line of an instruction.
#[derive(Drop)]
pub(crate) struct Lines<'a>(pub &'a Scope<'a>);

impl Printer<Inst> for Lines<'_> {
    ghost element_text = { λ printer inst. line_text printer.0.now inst };

    fn put_element<W: PieceSink>(&self, inst: &Inst, out: &mut W) -> Result<(), Failed> {
        let operation = Operation {
            op: inst.op(),
            both: Both {
                scope: self.0,
                inst,
            },
        };
        (Front(inst.result()), operation, Bytes(b"\n")).put_into(out)
    }
}
