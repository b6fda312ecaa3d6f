//! Calls and returns.

ghost use Rattle.std.specs.Prelude.{◌≡◌, ◌∷◌, ◌≤◌, None, [], false, map, IfOk, slice_get, slice_set, unwrap_or};
ghost use Rattle.ir_ast.specs.Objects.{number};
ghost use Rattle.object_meaning.specs.Calls.{function_in};
ghost use Rattle.object_meaning.specs.Effects.{goes_on};
ghost use Rattle.object_meaning.specs.Registers.{operand};
ghost use Rattle.machine_meaning.specs.Machines.{gone_on};
ghost use Rattle.machine_meaning.specs.MachineTasks.{ended_machine, handed_machine};
ghost use Rattle.machine_meaning.specs.Words.{worded_operand};
ghost use Rattle.machine_lines.specs.Decoding.{decoded_of};
ghost use Rattle.ir_machine.specs.Executors.{machinery, seen, DoesSo, acts_at, calls_at};
ghost use Rattle.ir_ast.specs.Ops.{is_statepoint};

use crate::executor::{Executor, Program};
use flat_code::width_of;
use ir_ast::{Callee, Inst, Op, Operand};
use machine_frames::Task;
use machine_lines::{Decoded, Lines, word_at};
use run_tasks::{Did, first_of, rest_of};
use sp_ids::limits::{FRAMES, TASKS};
use sp_ids::{End, Memory, Trap, sign};
use std::mem;

impl<'m, 'i> Executor<'m, 'i> {
    /// A call that is no statepoint. A check, which is the most frequent one, goes on at once.
    #[inline(always)]
    pub(crate) fn plain_call(
        &mut self,
        program: &'m Program<'_, '_>,
        inst: &Inst,
        one: &Decoded,
        rest: Lines<'m>,
        callee: Callee,
        operands: &[Operand],
    ) -> Result<Did, Memory>
        requires stands { self.old.run.frame.rest.insts.now ≡ inst.now ∷ rest.insts.now }
        requires plain { is_statepoint inst.now.op ≡ false }
        requires decoded { one.now ≡ decoded_of inst.now }
        ensures { IfOk result (DoesSo (calls_at (machinery program.now) self.old inst.now rest.entry.insts.now callee operands.now) self.new) }
    {
        match callee {
            Callee::Check => self.check_past(program, inst, one, rest, operands),
            _ => self.call(program, inst, one, rest, callee, operands),
        }
    }

    /// A call with these arguments, whose live entries are in their slots.
    pub(crate) fn call(
        &mut self,
        program: &'m Program<'_, '_>,
        inst: &Inst,
        one: &Decoded,
        rest: Lines<'m>,
        callee: Callee,
        operands: &[Operand],
    ) -> Result<Did, Memory>
        requires stands { self.old.run.frame.rest.insts.now ≡ inst.now ∷ rest.insts.now }
        requires decoded { one.now ≡ decoded_of inst.now }
        ensures { IfOk result (DoesSo (calls_at (machinery program.now) self.old inst.now rest.entry.insts.now callee operands.now) self.new) }
    {
        match callee {
            Callee::Fun(func) => self.enter(program, inst, rest, func.0, operands),
            Callee::New(layout) => self.make(program, inst, rest.insts, layout, operands),
            Callee::Print => self.print(program, inst, rest, operands),
            Callee::Read => self.read(program, inst, rest, operands),
            Callee::TaskStart => self.start(program, inst, rest, operands),
            Callee::Poll => self.poll(program, inst, rest.insts, operands),
            Callee::Check => self.check(program, inst, one, rest, operands),
            Callee::Same => self.same(program, inst, rest, operands),
        }
    }

    // The running frame, which stands at a call, goes on behind it with the answer.
    pub(crate) fn go_on(&mut self, answer: u64) -> Result<Did, Memory>
        ensures { IfOk result (DoesSo (goes_on (gone_on (number answer) (seen self.old))) self.new) }
    {
        self.run.go_on(answer)?;
        Ok(Did::GoesOn)
    }

    // The word of an operand of a call.
    pub(crate) fn argument(&self, operands: &[Operand], place: usize) -> u64
        ensures { operand (map number self.now.run.frame.registers.items) (map worded_operand operands.now) place ≡ number result }
    {
        word_at(self.run.frame.registers.as_slice(), operands, place)
    }

    fn enter(
        &mut self,
        program: &'m Program<'_, '_>,
        inst: &Inst,
        rest: Lines<'m>,
        func: u32,
        operands: &[Operand],
    ) -> Result<Did, Memory>
        ensures { IfOk result (DoesSo (calls_at (machinery program.now) self.old inst.now rest.entry.insts.now (Callee.Fun (record { 0 = func })) operands.now) self.new) }
    {
        let bound = program.bound;
        if self.steps >= bound {
            return Ok(Did::Ends(End::OutOfSteps));
        }
        self.steps += 1;
        if self.run.below.len() >= FRAMES as usize - 1 {
            return Ok(Did::Ends(End::Trap(Trap::Depth)));
        }
        let address = self
            .run
            .frame
            .address_behind(&program.code, inst, rest.insts);
        self.run
            .call(self.alloc, &program.code, func, operands, address)?;
        Ok(Did::GoesOn)
    }

    fn print(
        &mut self,
        program: &'m Program<'_, '_>,
        inst: &Inst,
        rest: Lines<'m>,
        operands: &[Operand],
    ) -> Result<Did, Memory>
        ensures { IfOk result (DoesSo (calls_at (machinery program.now) self.old inst.now rest.entry.insts.now Callee.Print operands.now) self.new) }
    {
        let number = self.argument(operands, 0);
        self.run.go_on(0)?;
        Ok(Did::Prints(number))
    }

    fn read(
        &mut self,
        program: &'m Program<'_, '_>,
        inst: &Inst,
        rest: Lines<'m>,
        operands: &[Operand],
    ) -> Result<Did, Memory>
        ensures { IfOk result (DoesSo (calls_at (machinery program.now) self.old inst.now rest.entry.insts.now Callee.Read operands.now) self.new) }
    {
        match first_of(self.input) {
            None => Ok(Did::Ends(End::Trap(Trap::Input))),
            Some(first) => {
                self.input = rest_of(self.input);
                self.go_on(first.cast_unsigned())
            }
        }
    }

    // A new task goes on at once.
    fn start(
        &mut self,
        program: &'m Program<'_, '_>,
        inst: &Inst,
        rest: Lines<'m>,
        operands: &[Operand],
    ) -> Result<Did, Memory>
        ensures { IfOk result (DoesSo (calls_at (machinery program.now) self.old inst.now rest.entry.insts.now Callee.TaskStart operands.now) self.new) }
    {
        if self.tasks.len() >= TASKS as usize {
            return Ok(Did::Ends(End::Trap(Trap::Tasks)));
        }
        let func = function_in(operands);
        let argument = self.argument(operands, 1);
        let run = Task::begin(self.alloc, &program.code, func, &[argument])?;
        let task = self.tasks.len() as u64;
        let waits = mem::replace(&mut self.run, run);
        set_task(&mut self.tasks, self.task, Some(waits));
        self.tasks.push(None)?;
        self.task = task;
        Ok(Did::GoesOn)
    }

    // `ret`: the frame's words leave the stack; the frame below goes on with the answer, or the task ends.
    #[inline(always)]
    pub(crate) fn ret(
        &mut self,
        program: &'m Program<'_, '_>,
        inst: &Inst,
        rest: Lines<'m>,
    ) -> Result<Did, Memory>
        requires is { inst.now.op ≡ Op.Ret }
        ensures { IfOk result (DoesSo (acts_at (machinery program.now) self.old inst.now rest.entry.insts.now inst.now.op) self.new) }
    {
        let bound = program.bound;
        if self.steps >= bound {
            return Ok(Did::Ends(End::OutOfSteps));
        }
        self.steps += 1;
        let answer = self.word(inst, 0);
        let left = self.run.leave(&program.code)?;
        if left {
            self.go_on(answer)
        } else {
            self.end_task(width_of(inst.ty()), answer)
        }
    }

    // The running task returns from its first frame: the end of task 0 ends the run, another hands over to task 0.
    fn end_task(&mut self, width: u32, answer: u64) -> Result<Did, Memory>
        requires some_bits { 1 ≤ width }
        requires word { width ≤ 64 }
        ensures { IfOk result (DoesSo (ended_machine (seen self.old) width (number answer)) self.new) }
    {
        if self.task == 0 {
            return Ok(Did::Ends(End::Return(sign(width, answer))));
        }
        self.hand_over()
    }

    fn hand_over(&mut self) -> Result<Did, Memory>
        ensures { IfOk result (DoesSo (handed_machine (seen self.old) (slice_get (seen self.old).state.tasks 0)) self.new) }
    {
        let Some(run) = take_task(&mut self.tasks, 0) else {
            return Ok(Did::Ends(End::Trap(Trap::Unreachable)));
        };
        self.run = run;
        self.task = 0;
        self.go_on(0)
    }
}

/// The frames of a task, which has none from then on.
pub(crate) fn take_task<'m>(tasks: &mut Vec<Option<Task<'m>>>, task: u64) -> Option<Task<'m>>
    ensures given { result ≡ unwrap_or (slice_get tasks.old.items task) None }
    ensures tasks { tasks.new.items ≡ slice_set tasks.old.items task None }
{
    if task < tasks.len() as u64 {
        tasks[task as usize].take()
    } else {
        None
    }
}

pub(crate) fn set_task<'m>(tasks: &mut Vec<Option<Task<'m>>>, task: u64, frames: Option<Task<'m>>)
    ensures { tasks.new.items ≡ slice_set tasks.old.items task frames.entry }
{
    if task < tasks.len() as u64 {
        tasks[task as usize] = frames;
    }
}

// The function that a `task_start` names.
fn function_in(operands: &[Operand]) -> u32
    ensures { result ≡ function_in (slice_get (map worded_operand operands.now) 0) }
{
    match operands.first() {
        Some(Operand::Fun(func)) => func.0,
        _ => 0,
    }
}
