//! Instructions: their parts, and what other crates ask of them.

ghost use Rattle.std.specs.Prelude.{◌≡◌, ◌≤◌, drop, length, slice_get, take, OnErr, OnOk};
ghost use Rattle.std.specs.Borrow.{sem};
ghost use Rattle.ir_ast.specs.Funcs.{phis_of};
ghost use Rattle.ir_ast.specs.Lends.{lends_operands};
ghost use Rattle.ir_ast.specs.Operands.{arguments_of, entries_of, index_in, operand_at};

use crate::clones::TryClone;
use crate::names::Name;
use crate::ops::{Op, Operand, Operands};
use crate::rest::Rest;
use crate::types::Ty;
use smallvec::SmallVec;
use sp_ids::{BlockId, Memory};
use std::alloc::Global;
use std::marker::Model;

/// An instruction. Its parts follow its line; contracts see an `Instruction`.
///
/// The type is that of the operands for an arithmetic line, an `icmp`, a `trunc`, `zext` or `sext`, the
/// chosen type of a `select`, `Ptr` for a `getelementptr` or a relocate, `i1` for a `br` with a
/// condition, the callee's answer for a call or a statepoint, and `Void` where the line has none.
/// A statepoint has its arguments first and then its "gc-live" entries, a relocate its token and its two
/// indices as `Int`, a switch its value and then its case values, with its default label first.
#[derive(Debug, Drop)]
pub struct Inst {
    result: Option<Name>,
    op: Op,
    ty: Ty,
    operands: Operands,
    rest: Rest,
}

impl Model for Inst {
    ghost use Rattle.ir_ast.specs.Insts.{Instruction};

    ghost Value = { Instruction };

    ghost view = { λ inst. record {
      result = inst.result;
      op = inst.op;
      ty = inst.ty;
      operands = inst.operands.items;
      labels = inst.rest.labels;
      bundle = inst.rest.bundle;
    } };
}

impl Inst {
    /// The instruction with these parts; `rest` has its labels and its "deopt" bundle.
    pub fn of(named: Option<Name>, op: Op, ty: Ty, operands: Operands, rest: Rest) -> Inst
        ensures { result ≡ record {
          result = named;
          op = op;
          ty = ty;
          operands = operands.items;
          labels = rest.labels;
          bundle = rest.bundle;
        } }
    {
        Inst {
            result: named,
            op,
            ty,
            operands,
            rest,
        }
    }

    /// Gives its parts back.
    pub fn into_parts(self) -> (Option<Name>, Op, Ty, Operands, Rest)
        ensures named { result.0 ≡ self.result }
        ensures op { result.1 ≡ self.op }
        ensures ty { result.2 ≡ self.ty }
        ensures operands { result.3.items ≡ self.operands }
        ensures labels { result.4.labels ≡ self.labels }
        ensures bundle { result.4.bundle ≡ self.bundle }
    {
        (self.result, self.op, self.ty, self.operands, self.rest)
    }

    /// The name of its result, if it has one.
    pub fn result(&self) -> &Option<Name>
        ensures { result.now ≡ self.now.result }
    {
        &self.result
    }

    /// Its operator.
    pub fn op(&self) -> &Op
        ensures { result.now ≡ self.now.op }
    {
        &self.op
    }

    /// The type of its line.
    pub fn ty(&self) -> &Ty
        ensures { result.now ≡ self.now.ty }
    {
        &self.ty
    }

    /// Its operands, in the order of its line.
    pub fn operands(&self) -> &[Operand]
        ensures { result.now ≡ self.now.operands }
    {
        self.operands.as_slice()
    }

    /// The operand at a place, or the literal 0 where there is none.
    pub fn operand_at(&self, place: usize) -> Operand
        ensures { result ≡ operand_at self.now.operands place }
    {
        self.operands()
            .get(place)
            .copied()
            .unwrap_or(Operand::Int(0))
    }

    /// The literal at a place of its operands, or 0 where there is none.
    pub fn index_at(&self, place: usize) -> u64
        ensures { result ≡ index_in (slice_get self.now.operands place) }
    {
        match self.operands().get(place) {
            Some(Operand::Int(number)) => *number,
            _ => 0,
        }
    }

    /// The arguments of a call or a statepoint.
    pub fn arguments(&self) -> &[Operand]
        ensures { result.now ≡ arguments_of self.now }
    {
        match &self.op {
            Op::Statepoint { types, .. } => front(self.operands(), types.list().len()),
            _ => self.operands(),
        }
    }

    /// The "gc-live" entries of a statepoint.
    pub fn live_entries(&self) -> &[Operand]
        ensures { result.now ≡ entries_of self.now }
    {
        match &self.op {
            Op::Statepoint { types, .. } => behind(self.operands(), types.list().len()),
            _ => &[],
        }
    }

    /// How many phis stand before the first other of these instructions.
    pub fn phi_count(insts: &[Inst]) -> usize
        ensures value { result ≡ phis_of insts.now }
        ensures within { result ≤ length insts.now }
    {
        let mut count = 0;
        while count < insts.len() && insts[count].op().is_phi() {
            count += 1;
        }
        count
    }

    /// Its operands, for writing.
    pub fn operands_mut(&mut self) -> &mut [Operand]
        ensures* writes_back { sem 𝓛 (lends_operands self.entry result) }
        ensures value { result.now ≡ self.old.operands }
    {
        self.operands.as_mut_slice()
    }

    /// Its labels, in the order of its line.
    pub fn labels(&self) -> &[BlockId]
        ensures { result.now ≡ self.now.labels }
    {
        self.rest.labels()
    }

    /// The operands of its "deopt" bundle, with their types.
    pub fn bundle(&self) -> &[(Ty, Operand)]
        ensures { result.now ≡ self.now.bundle }
    {
        self.rest.bundle()
    }

    /// Puts another "deopt" bundle in place of its own; where memory is lacking it keeps its own.
    pub fn set_bundle(&mut self, alloc: Global, bundle: Vec<(Ty, Operand)>) -> Result<(), Memory>
        ensures set { OnOk result (self.new ≡ record self.old { bundle = bundle.items }) }
        ensures kept { OnErr result (self.new ≡ self.old) }
    {
        self.rest = Rest::of(alloc, self.rest.labels(), bundle)?;
        Ok(())
    }
}

fn front(operands: &[Operand], count: usize) -> &[Operand]
    ensures { result.now ≡ take count operands.now }
{
    if count < operands.len() {
        &operands[..count]
    } else {
        operands
    }
}

fn behind(operands: &[Operand], count: usize) -> &[Operand]
    ensures { result.now ≡ drop count operands.now }
{
    if count < operands.len() {
        &operands[count..]
    } else {
        &[]
    }
}

impl TryClone for Inst {
    fn try_clone_in(&self, alloc: Global) -> Result<Inst, Memory> {
        Ok(Inst {
            result: self.result.try_clone_in(alloc)?,
            op: self.op.try_clone_in(alloc)?,
            ty: self.ty,
            operands: SmallVec::from_slice(alloc, self.operands.as_slice())?,
            rest: self.rest.try_clone_in(alloc)?,
        })
    }
}
