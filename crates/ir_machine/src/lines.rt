//! A step: the line at which the running frame stands.

ghost use Rattle.std.specs.Prelude.{◌≡◌, ◌∷◌, ◌<◌, [], List, map, take, drop, length, true, IfOk, OnOk};
ghost use Rattle.ir_ast.specs.Objects.{number};
ghost use Rattle.object_meaning.specs.Calls.{stepped};
ghost use Rattle.object_meaning.specs.Effects.{goes_on, ends};
ghost use Rattle.object_meaning.specs.Jumps.{jumped, label_at, branch_taken, case_taken};
ghost use Rattle.object_meaning.specs.Lines.{following};
ghost use Rattle.object_meaning.specs.Registers.{operand};
ghost use Rattle.machine_meaning.specs.Machines.{lifted};
ghost use Rattle.machine_meaning.specs.MachineSteps.{machine_step, passes};
ghost use Rattle.machine_meaning.specs.Words.{worded_operand};
ghost use Rattle.machine_lines.specs.Decoding.{decoded_of, is_plain};
ghost use Rattle.machine_lines.specs.Going.{GoesOver};
ghost use Rattle.machine_lines.specs.Lines.{line_of, lines_left};
ghost use Rattle.ir_ast.specs.declared.ops.Operand.{Operand};
ghost use Rattle.ir_machine.specs.Executors.{machinery, seen, DoesSo, GoesOnTo, acts_at, calls_at, calls_kept, skipped_at};

use crate::executor::{Executor, Program};
use ir_ast::{Callee, Inst, Op, Operand};
use machine_lines::{
    Decoded, Lines, branch_taken, case_taken, computed, go_over, is_plain, label_at, word_at,
};
use run_tasks::Did;
use sp_ids::limits::FRAMES;
use sp_ids::{End, Memory, Trap};

impl<'m, 'i> Executor<'m, 'i> {
    /// One step of the running task.
    #[inline(always)]
    pub fn step(&mut self, program: &'m Program<'_, '_>) -> Result<Did, Memory>
        ensures { IfOk result (DoesSo (machine_step (machinery program.now) (seen self.old)) self.new) }
    {
        match self.run.frame.rest.front() {
            None => Ok(Did::Ends(End::Trap(Trap::Unreachable))),
            Some(parts) => self.act(program, parts.0, parts.1, parts.2),
        }
    }

    /// The running task goes on over lines that stay in their frame, up to one that leaves it, is denied or traps.
    #[inline(always)]
    pub fn go_over(&mut self, program: &'m Program<'_, '_>)
        ensures over { GoesOver (machinery program.now) (seen self.old) (seen self.new) }
        ensures stands { self.new.heap.stands ≡ self.old.heap.stands }
    {
        if self.may_stay() {
            self.go_over_lines(program);
        }
    }

    // Whether the line that comes next may stay in its frame.
    #[inline(always)]
    fn may_stay(&self) -> bool {
        match self.run.frame.rest.front() {
            None => false,
            Some(parts) => parts.1.stays,
        }
    }

    #[inline(always)]
    fn go_over_lines(&mut self, program: &'m Program<'_, '_>)
        ensures over { GoesOver (machinery program.now) (seen self.old) (seen self.new) }
        ensures stands { self.new.heap.stands ≡ self.old.heap.stands }
    {
        let lines = self.run.frame.rest;
        let first = self.run.frame.next;
        let layouts = program.code.module().layouts();
        let (count, next) = go_over(
            self.run.frame.registers.as_mut_slice(),
            &mut self.heap,
            &mut self.hints,
            layouts,
            first,
            lines,
        );
        self.run.frame.next = next;
        self.run.frame.rest = lines.behind(count);
    }

    /// The running task takes a jump, a call, a return, or a poll at which nothing happens, if it stands at one and has steps left. Whether it does.
    #[inline(always)]
    pub fn fast_step(&mut self, program: &'m Program<'_, '_>) -> Result<bool, Memory>
        ensures { IfOk result (λ went. GoesOnTo (machine_step (machinery program.now) (seen self.old)) (seen self.old) went (seen self.new)) }
    {
        match self.run.frame.rest.front() {
            None => Ok(false),
            Some(parts) => self.fast_step_at(program, parts.0, parts.1, parts.2),
        }
    }

    #[inline(always)]
    fn fast_step_at(
        &mut self,
        program: &'m Program<'_, '_>,
        inst: &Inst,
        one: &Decoded,
        rest: Lines<'m>,
    ) -> Result<bool, Memory>
        requires stands { self.old.run.frame.rest.insts.now ≡ inst.now ∷ rest.insts.now }
        requires decoded { one.now ≡ decoded_of inst.now }
        ensures { IfOk result (λ went. GoesOnTo (acts_at (machinery program.now) self.old inst.now rest.entry.insts.now inst.now.op) (seen self.old) went (seen self.new)) }
    {
        match inst.op() {
            Op::Br => self.fast_jump(program, label_at(inst.labels(), 0)),
            Op::CondBr => {
                let taken = branch_taken(self.first(inst, one));
                self.fast_jump(program, label_at(inst.labels(), taken))
            }
            Op::Statepoint { callee, types, .. } => match callee {
                Callee::Poll => self.fast_poll(program, inst, rest, types.list().len()),
                Callee::Fun(func) => {
                    self.fast_call(program, inst, rest, func.0, types.list().len())
                }
                _ => Ok(false),
            },
            Op::Ret => self.fast_return(program, inst, one, rest),
            _ => Ok(false),
        }
    }

    // A jump, if there is a step left.
    #[inline(always)]
    fn fast_jump(&mut self, program: &'m Program<'_, '_>, block: u32) -> Result<bool, Memory>
        ensures { IfOk result (λ went. GoesOnTo (lifted (seen self.old) (stepped (machinery program.now).setting (seen self.old).state (jumped (machinery program.now).setting block))) (seen self.old) went (seen self.new)) }
    {
        if self.steps >= program.bound {
            return Ok(false);
        }
        self.steps += 1;
        self.run
            .frame
            .arrive(&program.code, &mut self.moves, block)?;
        Ok(true)
    }

    // A poll of a statepoint under a plan without lines.
    #[inline(always)]
    fn fast_poll(
        &mut self,
        program: &'m Program<'_, '_>,
        inst: &Inst,
        rest: Lines<'m>,
        arguments: usize,
    ) -> Result<bool, Memory>
        requires stands { self.old.run.frame.rest.insts.now ≡ inst.now ∷ rest.insts.now }
        ensures { IfOk result (λ went. GoesOnTo (calls_kept (machinery program.now) self.old inst.now rest.entry.insts.now Callee.Poll arguments) (seen self.old) went (seen self.new)) }
    {
        if !program.plan.is_empty() {
            return Ok(false);
        }
        self.run.keep(inst, arguments)?;
        self.pass_poll(program, inst, rest)?;
        Ok(true)
    }

    // A call of a statepoint, if there is a step left and the task has frames left.
    #[inline(always)]
    fn fast_call(
        &mut self,
        program: &'m Program<'_, '_>,
        inst: &Inst,
        rest: Lines<'m>,
        func: u32,
        arguments: usize,
    ) -> Result<bool, Memory>
        ensures { IfOk result (λ went. GoesOnTo (calls_kept (machinery program.now) self.old inst.now rest.entry.insts.now (Callee.Fun (record { 0 = func })) arguments) (seen self.old) went (seen self.new)) }
    {
        if self.steps >= program.bound {
            return Ok(false);
        }
        if self.run.below.len() >= FRAMES as usize - 1 {
            return Ok(false);
        }
        self.run.keep(inst, arguments)?;
        self.go_in(program, inst, rest, func, front(inst.operands(), arguments))?;
        Ok(true)
    }

    // The frame of a call runs.
    #[inline(always)]
    fn go_in(
        &mut self,
        program: &'m Program<'_, '_>,
        inst: &Inst,
        rest: Lines<'m>,
        func: u32,
        operands: &[Operand],
    ) -> Result<(), Memory>
        requires left { self.old.steps < program.now.bound }
        requires few { length self.old.run.below.items < 4095 }
        ensures { OnOk result (calls_at (machinery program.now) self.old inst.now rest.entry.insts.now (Callee.Fun (record { 0 = func })) operands.now ≡ goes_on (seen self.new)) }
    {
        self.steps += 1;
        let address = self
            .run
            .frame
            .address_behind(&program.code, inst, rest.insts);
        self.run
            .call(self.alloc, &program.code, func, operands, address)
    }

    // A return to a frame that waits, if there is a step left.
    #[inline(always)]
    fn fast_return(
        &mut self,
        program: &'m Program<'_, '_>,
        inst: &Inst,
        one: &Decoded,
        rest: Lines<'m>,
    ) -> Result<bool, Memory>
        requires is { inst.now.op ≡ Op.Ret }
        requires decoded { one.now ≡ decoded_of inst.now }
        ensures { IfOk result (λ went. GoesOnTo (acts_at (machinery program.now) self.old inst.now rest.entry.insts.now inst.now.op) (seen self.old) went (seen self.new)) }
    {
        if self.steps >= program.bound {
            return Ok(false);
        }
        if self.run.below.is_empty() {
            return Ok(false);
        }
        self.steps += 1;
        let answer = self.first(inst, one);
        let left = self.run.leave(&program.code)?;
        if !left {
            return Err(Memory);
        }
        self.run.go_on(answer)?;
        Ok(true)
    }

    // A poll at which nothing happens is counted.
    #[inline(always)]
    fn pass_poll(
        &mut self,
        program: &'m Program<'_, '_>,
        inst: &Inst,
        rest: Lines<'m>,
    ) -> Result<(), Memory>
        requires stands { self.old.run.frame.rest.insts.now ≡ inst.now ∷ rest.insts.now }
        requires nothing { program.now.plan.now ≡ [] }
        ensures { OnOk result ((operands : List Operand) → calls_at (machinery program.now) self.old inst.now rest.entry.insts.now Callee.Poll operands ≡ goes_on (seen self.new)) }
    {
        self.events = self.events.saturating_add(1);
        self.run.go_behind(inst, rest, 0)
    }

    #[inline(always)]
    fn act(
        &mut self,
        program: &'m Program<'_, '_>,
        inst: &Inst,
        one: &Decoded,
        rest: Lines<'m>,
    ) -> Result<Did, Memory>
        requires stands { self.old.run.frame.rest.insts.now ≡ inst.now ∷ rest.insts.now }
        requires decoded { one.now ≡ decoded_of inst.now }
        ensures { IfOk result (DoesSo (acts_at (machinery program.now) self.old inst.now rest.entry.insts.now inst.now.op) self.new) }
    {
        if is_plain(inst.op()) {
            return self.compute(program, inst, rest);
        }
        match inst.op() {
            Op::Gep {
                elem,
                index_width,
                place,
            } => self.advance(program, inst, one, rest, *elem, *index_width, *place),
            Op::Load => self.load(program, inst, one, rest),
            Op::Store => self.store(program, inst, one, rest),
            Op::Call { callee, .. } => {
                self.plain_call(program, inst, one, rest, *callee, inst.operands())
            }
            Op::Statepoint { callee, types, .. } => {
                self.statepoint(program, inst, one, rest, *callee, types.list().len())
            }
            Op::Ret => self.ret(program, inst, rest),
            Op::Br => self.jump(program, label_at(inst.labels(), 0)),
            Op::CondBr => self.branch(program, inst),
            Op::Switch => self.switch(program, inst),
            Op::Unreachable => Ok(self.unreachable(program)),
            Op::Phi => self.skip(inst, rest),
            Op::GcResult => self.skip(inst, rest),
            Op::GcRelocate => self.skip(inst, rest),
            _ => Err(Memory),
        }
    }

    // The word of an operand of the line at which the running frame stands.
    pub(crate) fn word(&self, inst: &Inst, place: usize) -> u64
        ensures { operand (map number self.now.run.frame.registers.items) (map worded_operand inst.now.operands) place ≡ number result }
    {
        word_at(self.run.frame.registers.as_slice(), inst.operands(), place)
    }

    // The same of the first operand, by what is decoded of the line.
    pub(crate) fn first(&self, inst: &Inst, one: &Decoded) -> u64
        requires { one.now ≡ decoded_of inst.now }
        ensures { operand (map number self.now.run.frame.registers.items) (map worded_operand inst.now.operands) 0 ≡ number result }
    {
        one.first_word(self.run.frame.registers.as_slice())
    }

    // Of the second one.
    pub(crate) fn second(&self, inst: &Inst, one: &Decoded) -> u64
        requires { one.now ≡ decoded_of inst.now }
        ensures { operand (map number self.now.run.frame.registers.items) (map worded_operand inst.now.operands) 1 ≡ number result }
    {
        one.second_word(self.run.frame.registers.as_slice())
    }

    // Of the third one.
    pub(crate) fn third(&self, inst: &Inst, one: &Decoded) -> u64
        requires { one.now ≡ decoded_of inst.now }
        ensures { operand (map number self.now.run.frame.registers.items) (map worded_operand inst.now.operands) 2 ≡ number result }
    {
        one.third_word(self.run.frame.registers.as_slice())
    }

    // The running frame goes on behind the line with this word.
    pub(crate) fn pass(&mut self, inst: &Inst, rest: Lines<'m>, word: u64) -> Result<Did, Memory>
        ensures { IfOk result (DoesSo (goes_on (passes (seen self.old) (line_of self.old.run.frame.next inst.now) (lines_left (following self.old.run.frame.next inst.now) rest.entry.insts.now) word)) self.new) }
    {
        self.run.frame.pass(inst, rest, word)?;
        Ok(Did::GoesOn)
    }

    fn compute(
        &mut self,
        program: &'m Program<'_, '_>,
        inst: &Inst,
        rest: Lines<'m>,
    ) -> Result<Did, Memory>
        requires plain { is_plain inst.now.op ≡ true }
        ensures { IfOk result (DoesSo (acts_at (machinery program.now) self.old inst.now rest.entry.insts.now inst.now.op) self.new) }
    {
        let first = self.word(inst, 0);
        let second = self.word(inst, 1);
        let third = self.word(inst, 2);
        match computed(inst.op(), inst.ty(), first, second, third) {
            Ok(word) => self.pass(inst, rest, word),
            Err(trap) => Ok(Did::Ends(End::Trap(trap))),
        }
    }

    // A phi took effect at the jump, and a group's members with their statepoint.
    fn skip(&mut self, inst: &Inst, rest: Lines<'m>) -> Result<Did, Memory>
        ensures { IfOk result (DoesSo (goes_on (skipped_at self.old inst.now rest.entry.insts.now)) self.new) }
    {
        self.run.frame.skip(inst, rest)?;
        Ok(Did::GoesOn)
    }

    // A statepoint keeps its entries in slots, and calls.
    #[inline(always)]
    fn statepoint(
        &mut self,
        program: &'m Program<'_, '_>,
        inst: &Inst,
        one: &Decoded,
        rest: Lines<'m>,
        callee: Callee,
        arguments: usize,
    ) -> Result<Did, Memory>
        requires stands { self.old.run.frame.rest.insts.now ≡ inst.now ∷ rest.insts.now }
        requires decoded { one.now ≡ decoded_of inst.now }
        ensures { IfOk result (DoesSo (calls_kept (machinery program.now) self.old inst.now rest.entry.insts.now callee arguments) self.new) }
    {
        self.run.keep(inst, arguments)?;
        self.call(
            program,
            inst,
            one,
            rest,
            callee,
            front(inst.operands(), arguments),
        )
    }

    pub(crate) fn jump(&mut self, program: &'m Program<'_, '_>, block: u32) -> Result<Did, Memory>
        ensures { IfOk result (DoesSo (lifted (seen self.old) (stepped (machinery program.now).setting (seen self.old).state (jumped (machinery program.now).setting block))) self.new) }
    {
        let bound = program.bound;
        if self.steps >= bound {
            return Ok(Did::Ends(End::OutOfSteps));
        }
        self.steps += 1;
        self.run
            .frame
            .arrive(&program.code, &mut self.moves, block)?;
        Ok(Did::GoesOn)
    }

    fn branch(&mut self, program: &'m Program<'_, '_>, inst: &Inst) -> Result<Did, Memory>
        ensures { IfOk result (DoesSo (lifted (seen self.old) (stepped (machinery program.now).setting (seen self.old).state (jumped (machinery program.now).setting (label_at inst.now.labels (branch_taken (operand (map number self.old.run.frame.registers.items) (map worded_operand inst.now.operands) 0)))))) self.new) }
    {
        let taken = branch_taken(self.word(inst, 0));
        self.jump(program, label_at(inst.labels(), taken))
    }

    fn switch(&mut self, program: &'m Program<'_, '_>, inst: &Inst) -> Result<Did, Memory>
        ensures { IfOk result (DoesSo (lifted (seen self.old) (stepped (machinery program.now).setting (seen self.old).state (jumped (machinery program.now).setting (label_at inst.now.labels (case_taken (operand (map number self.old.run.frame.registers.items) (map worded_operand inst.now.operands) 0) (drop 1 (map worded_operand inst.now.operands))))))) self.new) }
    {
        let taken = case_taken(self.word(inst, 0), inst.operands());
        self.jump(program, label_at(inst.labels(), taken))
    }

    fn unreachable(&mut self, program: &'m Program<'_, '_>) -> Did
        ensures { DoesSo (lifted (seen self.old) (stepped (machinery program.now).setting (seen self.old).state (ends (End.Trap Trap.Unreachable)))) self.new result }
    {
        let bound = program.bound;
        if self.steps >= bound {
            Did::Ends(End::OutOfSteps)
        } else {
            self.steps += 1;
            Did::Ends(End::Trap(Trap::Unreachable))
        }
    }
}

fn front(operands: &[Operand], count: usize) -> &[Operand]
    ensures { result.now ≡ take count operands.now }
{
    if count < operands.len() {
        &operands[..count]
    } else {
        operands
    }
}
