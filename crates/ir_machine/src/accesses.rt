//! Lines that touch pointers.

ghost use Rattle.std.specs.Prelude.{◌≡◌, ◌∷◌, ◌%◌, ◌^◌, ◌==◌, ◌&&◌, false, IfOk};
ghost use Rattle.ir_ast.specs.Sizes.{begins_at, fields_in};
ghost use Rattle.object_meaning.specs.Accesses.{cell_named};
ghost use Rattle.object_meaning.specs.Comparisons.{bit};
ghost use Rattle.object_meaning.specs.Computing.{element_bytes, field_bytes};
ghost use Rattle.object_meaning.specs.Numbers.{width_of};
ghost use Rattle.machine_meaning.specs.Machines.{Machine};
ghost use Rattle.machine_meaning.specs.MachineSteps.{denied, stepped_word};
ghost use Rattle.machine_lines.specs.Decoding.{decoded_of};
ghost use Rattle.ir_machine.specs.Executors.{machinery, DoesSo, acts_at, calls_at};
ghost use Rattle.ir_ast.specs.Ops.{is_statepoint};
ghost use Rattle.run_tasks.specs.Dids.{effect_of};

use crate::executor::{Executor, Program};
use flat_code::width_of;
use ir_ast::{Callee, Cell, Elem, Inst, Layout, Op, Operand, Ty};
use machine_lines::{Decoded, Lines, cell_named, stepped_word};
use moving_heap::Deny;
use run_tasks::Did;
use sp_ids::{End, Memory, Trap, sign};

impl<'m, 'i> Executor<'m, 'i> {
    // `getelementptr` adds to the word.
    #[inline(always)]
    pub(crate) fn advance(
        &mut self,
        program: &'m Program<'_, '_>,
        inst: &Inst,
        one: &Decoded,
        rest: Lines<'m>,
        elem: Elem,
        index_width: u32,
        place: Option<u32>,
    ) -> Result<Did, Memory>
        requires is { inst.now.op ≡ Op.Gep elem index_width place }
        requires decoded { one.now ≡ decoded_of inst.now }
        ensures { IfOk result (DoesSo (acts_at (machinery program.now) self.old inst.now rest.entry.insts.now inst.now.op) self.new) }
    {
        let layouts = program.code.module().layouts();
        let from = self.first(inst, one);
        let index = self.second(inst, one);
        let word = stepped_word(layouts, elem, index_width, place, from, index);
        self.pass(inst, rest, word)
    }

    #[inline(always)]
    pub(crate) fn load(
        &mut self,
        program: &'m Program<'_, '_>,
        inst: &Inst,
        one: &Decoded,
        rest: Lines<'m>,
    ) -> Result<Did, Memory>
        requires is { inst.now.op ≡ Op.Load }
        requires decoded { one.now ≡ decoded_of inst.now }
        ensures { IfOk result (DoesSo (acts_at (machinery program.now) self.old inst.now rest.entry.insts.now inst.now.op) self.new) }
    {
        let place = self.first(inst, one);
        match self.hints.load(&self.heap, place) {
            Ok(word) => self.pass(inst, rest, word),
            Err(deny) => Ok(denied(deny)),
        }
    }

    #[inline(always)]
    pub(crate) fn store(
        &mut self,
        program: &'m Program<'_, '_>,
        inst: &Inst,
        one: &Decoded,
        rest: Lines<'m>,
    ) -> Result<Did, Memory>
        requires is { inst.now.op ≡ Op.Store }
        requires decoded { one.now ≡ decoded_of inst.now }
        ensures { IfOk result (DoesSo (acts_at (machinery program.now) self.old inst.now rest.entry.insts.now inst.now.op) self.new) }
    {
        let word = self.first(inst, one);
        let place = self.second(inst, one);
        match self.hints.store(&mut self.heap, place, word) {
            Ok(()) => self.pass(inst, rest, 0),
            Err(deny) => Ok(denied(deny)),
        }
    }

    pub(crate) fn check(
        &mut self,
        program: &'m Program<'_, '_>,
        inst: &Inst,
        one: &Decoded,
        rest: Lines<'m>,
        operands: &[Operand],
    ) -> Result<Did, Memory>
        requires { one.now ≡ decoded_of inst.now }
        ensures { IfOk result (DoesSo (calls_at (machinery program.now) self.old inst.now rest.entry.insts.now Callee.Check operands.now) self.new) }
    {
        let base = self.first(inst, one);
        let place = self.second(inst, one);
        let cell = cell_named(self.third(inst, one));
        match self.hints.check(&self.heap, base, place, cell) {
            Ok(()) => self.go_on(0),
            Err(deny) => Ok(denied(deny)),
        }
    }

    // A check by a call that is no statepoint.
    #[inline(always)]
    pub(crate) fn check_past(
        &mut self,
        program: &'m Program<'_, '_>,
        inst: &Inst,
        one: &Decoded,
        rest: Lines<'m>,
        operands: &[Operand],
    ) -> Result<Did, Memory>
        requires stands { self.old.run.frame.rest.insts.now ≡ inst.now ∷ rest.insts.now }
        requires plain { is_statepoint inst.now.op ≡ false }
        requires decoded { one.now ≡ decoded_of inst.now }
        ensures { IfOk result (DoesSo (calls_at (machinery program.now) self.old inst.now rest.entry.insts.now Callee.Check operands.now) self.new) }
    {
        let base = self.first(inst, one);
        let place = self.second(inst, one);
        let kind = cell_named(self.third(inst, one));
        match self.hints.check(&self.heap, base, place, kind) {
            Ok(()) => self.pass(inst, rest, 0),
            Err(deny) => Ok(denied(deny)),
        }
    }

    pub(crate) fn same(
        &mut self,
        program: &'m Program<'_, '_>,
        inst: &Inst,
        rest: Lines<'m>,
        operands: &[Operand],
    ) -> Result<Did, Memory>
        ensures { IfOk result (DoesSo (calls_at (machinery program.now) self.old inst.now rest.entry.insts.now Callee.Same operands.now) self.new) }
    {
        let base = self.word(inst, 0);
        let place = self.word(inst, 1);
        let other_base = self.word(inst, 2);
        let other_place = self.word(inst, 3);
        self.go_on(same_bit(base, place, other_base, other_place))
    }
}

fn denied(deny: Deny) -> Did
    ensures { (machine : Machine) → effect_of result machine ≡ denied machine deny }
{
    match deny {
        Deny::Null => Did::Ends(End::Trap(Trap::Null)),
        Deny::Bounds => Did::Ends(End::Trap(Trap::Bounds)),
        Deny::Kind => Did::Ends(End::Trap(Trap::Kind)),
        Deny::Poison => Did::Ends(End::Poison),
    }
}

// Whether two pointers are the same: equal bases and equal addresses.
fn same_bit(base: u64, place: u64, other_base: u64, other_place: u64) -> u64
    ensures { result ≡ bit ((base == other_base) && (place == other_place)) }
{
    u64::from(base == other_base && place == other_place)
}
