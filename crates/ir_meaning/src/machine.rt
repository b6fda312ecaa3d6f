//! One turn of the running task: a straight part of a block, and its exit.

ghost use Rattle.std.specs.Prelude.{◌≡◌, ◌+◌, ◌-◌, ◌<◌, ◌≤◌, None, IfOk, IfSome, OnOk, length, drop, slice_get, slice_set, unwrap_or};
ghost use Rattle.std.specs.List.{position};
ghost use Rattle.std.specs.Option.{option_map_or};
ghost use Rattle.object_meaning.specs.Frames.{resumed};
ghost use Rattle.object_meaning.specs.Jumps.{case_taken, is_case};
ghost use Rattle.object_meaning.specs.Tasks.{task_ended, handed_over};
ghost use Rattle.object_store.specs.Words.{datum};
ghost use Rattle.flat_code.specs.Codes.{Fits};
ghost use Rattle.ir_meaning.specs.Machines.{state_of, exit_of, seen_of, switched_so, gone_to, today, StandsAt, LeadsAlong, SwitchesAt, Turned, Does};

use crate::computing::is_set;
use crate::stacks::{Move, Stack};
use flat_code::{Code, Edge, Exit, Segment, cases_of};
use ir_ast::Operand;
use move_plan::Plan;
use object_store::{Objects, Word};
use run_tasks::{Did, first_of, function_in, rest_of};
use sp_ids::limits::{FRAMES, TASKS};
use sp_ids::{End, Memory, Trap, sign};
use std::alloc::Global;
use std::mem;
use waiting_frames::Spot;

/// A run: the frames of its task, room for the moves of phis and for arguments, the number of the task and the frames of the
/// others by number, the objects, what is left of the input, and the steps and events so far.
#[derive(Drop)]
pub struct Machine<'m, 'i> {
    pub stack: Stack,
    pub moves: Vec<Move>,
    pub args: Vec<Word>,
    pub alloc: Global,
    pub task: u64,
    pub tasks: Vec<Option<Stack>>,
    pub objects: Objects<'m>,
    pub input: &'i [i64],
    pub steps: u64,
    pub events: u64,
}

impl Machine<'_, '_> {
    /// One turn: the lines of the running frame's segment and its exit, unless the run ends.
    pub fn turn(&mut self, code: &Code, plan: &Plan, bound: u64) -> Result<Did, Memory>
        requires layouts { self.old.objects.layouts ≡ code.now.content.layouts }
        ensures turned { IfOk result (λ did. Turned (today code.now plan.now bound) (state_of code.now self.old) did (state_of code.now self.new)) }
        ensures layouts { self.new.objects.layouts ≡ self.old.objects.layouts }
    {
        let spot = self.stack.spot();
        match code.segment(spot.func, spot.segment) {
            None => Ok(Did::Ends(End::Trap(Trap::Unreachable))),
            Some(segment) => self.run_segment(code, plan, bound, segment),
        }
    }

    fn run_segment(
        &mut self,
        code: &Code,
        plan: &Plan,
        bound: u64,
        segment: &Segment,
    ) -> Result<Did, Memory>
        requires fits { Fits code.now self.old.stack.running.spot.func self.old.stack.running.spot.segment segment.now }
        requires layouts { self.old.objects.layouts ≡ code.now.content.layouts }
        ensures turned { IfOk result (λ did. Turned (today code.now plan.now bound) (state_of code.now self.old) did (state_of code.now self.new)) }
        ensures layouts { self.new.objects.layouts ≡ self.old.objects.layouts }
    {
        match self
            .stack
            .run_lines(&mut self.objects, segment.lines.as_slice())
        {
            Some(trap) => Ok(Did::Ends(End::Trap(trap))),
            None => self.leave(code, plan, bound, segment),
        }
    }

    // The exit of the running frame's segment.
    fn leave(
        &mut self,
        code: &Code,
        plan: &Plan,
        bound: u64,
        segment: &Segment,
    ) -> Result<Did, Memory>
        requires fits { Fits code.now self.old.stack.running.spot.func self.old.stack.running.spot.segment segment.now }
        requires layouts { self.old.objects.layouts ≡ code.now.content.layouts }
        ensures turned { IfOk result (λ did. Turned (today code.now plan.now bound) (exit_of code.now self.old) did (state_of code.now self.new)) }
        ensures layouts { self.new.objects.layouts ≡ self.old.objects.layouts }
    {
        match &segment.exit {
            None => Ok(Did::Ends(End::Trap(Trap::Unreachable))),
            Some(exit) => self.take(code, plan, bound, segment, exit),
        }
    }

    fn take(
        &mut self,
        code: &Code,
        plan: &Plan,
        bound: u64,
        segment: &Segment,
        exit: &Exit,
    ) -> Result<Did, Memory>
        requires stands { StandsAt code.now self.old.stack segment.now exit.now }
        requires layouts { self.old.objects.layouts ≡ code.now.content.layouts }
        ensures turned { IfOk result (λ did. Turned (today code.now plan.now bound) (exit_of code.now self.old) did (state_of code.now self.new)) }
        ensures layouts { self.new.objects.layouts ≡ self.old.objects.layouts }
    {
        match exit {
            Exit::Poll => self.poll(code, plan, bound, segment),
            Exit::Enter(func) => self.enter(code, plan, bound, segment, *func),
            Exit::New(layout) => self.make(code, plan, bound, segment, *layout),
            Exit::Print => self.print(code, plan, bound, segment),
            Exit::Read => self.read(code, plan, bound, segment),
            Exit::Start => self.start(code, plan, bound, segment),
            Exit::Jump(edge) => self.jump(code, plan, bound, edge),
            Exit::Branch { yes, no } => {
                if is_set(self.stack.operand(segment.operands.as_slice(), 0)) {
                    self.jump(code, plan, bound, yes)
                } else {
                    self.jump(code, plan, bound, no)
                }
            }
            Exit::Switch(edges) => self.choose(code, plan, bound, segment, edges.as_slice()),
            Exit::Return(width) => self.ret(code, plan, bound, segment, *width),
            Exit::Unreachable => Ok(self.unreachable(code, plan, bound, segment)),
        }
    }

    // A poll is an event; then its `go` line holds, and the task that runs goes on.
    fn poll(
        &mut self,
        code: &Code,
        plan: &Plan,
        bound: u64,
        segment: &Segment,
    ) -> Result<Did, Memory>
        requires stands { StandsAt code.now self.old.stack segment.now Exit.Poll }
        ensures turned { IfOk result (λ did. Turned (today code.now plan.now bound) (exit_of code.now self.old) did (state_of code.now self.new)) }
        ensures layouts { self.new.objects.layouts ≡ self.old.objects.layouts }
    {
        self.events = self.events.saturating_add(1);
        self.go_to(plan.go(self.events));
        self.answered(code, Word::of(0))?;
        Ok(Did::GoesOn)
    }

    // The task of a `go` line runs, if there is one.
    fn go_to(&mut self, to: Option<u64>)
        ensures frames { seen_of self.new ≡ gone_to (seen_of self.old) to }
        ensures layouts { self.new.objects.layouts ≡ self.old.objects.layouts }
    {
        match to {
            None => {}
            Some(to) => self.switch(to),
        }
    }

    // Another task runs, if it was started, has not ended and isn't the running one.
    fn switch(&mut self, to: u64)
        ensures frames { seen_of self.new ≡ switched_so (seen_of self.old) to (slice_get self.old.tasks.items to) }
        ensures layouts { self.new.objects.layouts ≡ self.old.objects.layouts }
    {
        let Some(stack) = take_task(&mut self.tasks, to) else {
            return;
        };
        let waits = mem::replace(&mut self.stack, stack);
        set_task(&mut self.tasks, self.task, Some(waits));
        set_task(&mut self.tasks, to, None);
        self.task = to;
    }

    // The running frame, which waited at an exit, goes on behind it with its answer.
    fn answered(&mut self, code: &Code, answer: Word) -> Result<(), Memory>
        ensures resumes { OnOk result (state_of code.now self.new ≡ resumed (exit_of code.now self.old) (datum answer)) }
        ensures layouts { self.new.objects.layouts ≡ self.old.objects.layouts }
    {
        let spot = self.stack.spot();
        match code.segment(spot.func, spot.segment) {
            None => Err(Memory),
            Some(segment) => self.answered_at(code, segment, answer),
        }
    }

    fn answered_at(&mut self, code: &Code, segment: &Segment, answer: Word) -> Result<(), Memory>
        requires fits { Fits code.now self.old.stack.running.spot.func self.old.stack.running.spot.segment segment.now }
        ensures resumes { OnOk result (state_of code.now self.new ≡ resumed (exit_of code.now self.old) (datum answer)) }
        ensures layouts { self.new.objects.layouts ≡ self.old.objects.layouts }
    {
        match &segment.exit {
            None => Err(Memory),
            Some(_exit) => self.stack.pass(segment.to, answer),
        }
    }

    fn jump(&mut self, code: &Code, plan: &Plan, bound: u64, edge: &Edge) -> Result<Did, Memory>
        requires { LeadsAlong code.now self.old.stack (today code.now plan.now bound) (exit_of code.now self.old) edge.now }
        ensures turned { IfOk result (λ did. Turned (today code.now plan.now bound) (exit_of code.now self.old) did (state_of code.now self.new)) }
        ensures layouts { self.new.objects.layouts ≡ self.old.objects.layouts }
    {
        if self.steps >= bound {
            return Ok(Did::Ends(End::OutOfSteps));
        }
        self.steps += 1;
        let func = self.stack.spot().func;
        match code.start(func, edge.block) {
            None => Ok(Did::Ends(End::Trap(Trap::Unreachable))),
            Some(segment) => {
                let spot = Spot { func, segment };
                self.stack
                    .arrive(&mut self.moves, edge.copies.as_slice(), spot)?;
                Ok(Did::GoesOn)
            }
        }
    }

    // A `switch`.
    fn choose(
        &mut self,
        code: &Code,
        plan: &Plan,
        bound: u64,
        segment: &Segment,
        edges: &[Edge],
    ) -> Result<Did, Memory>
        requires stands { SwitchesAt code.now self.old.stack segment.now edges.now }
        ensures turned { IfOk result (λ did. Turned (today code.now plan.now bound) (exit_of code.now self.old) did (state_of code.now self.new)) }
        ensures layouts { self.new.objects.layouts ≡ self.old.objects.layouts }
    {
        let operands = segment.operands.as_slice();
        let taken = case_taken(self.stack.operand(operands, 0), operands);
        self.jump(code, plan, bound, &edges[taken])
    }

    fn unreachable(&mut self, code: &Code, plan: &Plan, bound: u64, segment: &Segment) -> Did
        requires stands { StandsAt code.now self.old.stack segment.now Exit.Unreachable }
        ensures turned { Turned (today code.now plan.now bound) (exit_of code.now self.old) result (state_of code.now self.new) }
        ensures layouts { self.new.objects.layouts ≡ self.old.objects.layouts }
    {
        if self.steps >= bound {
            Did::Ends(End::OutOfSteps)
        } else {
            self.steps += 1;
            Did::Ends(End::Trap(Trap::Unreachable))
        }
    }

    fn ret(
        &mut self,
        code: &Code,
        plan: &Plan,
        bound: u64,
        segment: &Segment,
        width: u32,
    ) -> Result<Did, Memory>
        requires stands { StandsAt code.now self.old.stack segment.now (Exit.Return width) }
        ensures turned { IfOk result (λ did. Turned (today code.now plan.now bound) (exit_of code.now self.old) did (state_of code.now self.new)) }
        ensures layouts { self.new.objects.layouts ≡ self.old.objects.layouts }
    {
        if self.steps >= bound {
            return Ok(Did::Ends(End::OutOfSteps));
        }
        self.steps += 1;
        let answer = self.stack.operand(segment.operands.as_slice(), 0);
        if self.stack.waiting() == 0 {
            return self.end_task(code, width, answer);
        }
        self.stack.leave();
        self.answered(code, answer)?;
        Ok(Did::GoesOn)
    }

    // The running task returns from its first frame: the end of task 0 ends the run, another hands over to task 0.
    fn end_task(&mut self, code: &Code, width: u32, answer: Word) -> Result<Did, Memory>
        requires some_bits { 1 ≤ width }
        requires word { width ≤ 64 }
        ensures effect { IfOk result (λ did. Does did (task_ended (exit_of code.now self.old) width (datum answer)) (state_of code.now self.new)) }
        ensures layouts { self.new.objects.layouts ≡ self.old.objects.layouts }
    {
        if self.task == 0 {
            return Ok(Did::Ends(End::Return(sign(width, answer.number()))));
        }
        self.hand_over(code)
    }

    fn hand_over(&mut self, code: &Code) -> Result<Did, Memory>
        ensures effect { IfOk result (λ did. Does did (handed_over (exit_of code.now self.old) (slice_get (exit_of code.now self.old).tasks 0)) (state_of code.now self.new)) }
        ensures layouts { self.new.objects.layouts ≡ self.old.objects.layouts }
    {
        let Some(stack) = take_task(&mut self.tasks, 0) else {
            return Ok(Did::Ends(End::Trap(Trap::Unreachable)));
        };
        self.stack = stack;
        self.task = 0;
        self.answered(code, Word::of(0))?;
        Ok(Did::GoesOn)
    }

    fn enter(
        &mut self,
        code: &Code,
        plan: &Plan,
        bound: u64,
        segment: &Segment,
        func: u32,
    ) -> Result<Did, Memory>
        requires stands { StandsAt code.now self.old.stack segment.now (Exit.Enter func) }
        ensures turned { IfOk result (λ did. Turned (today code.now plan.now bound) (exit_of code.now self.old) did (state_of code.now self.new)) }
        ensures layouts { self.new.objects.layouts ≡ self.old.objects.layouts }
    {
        if self.steps >= bound {
            return Ok(Did::Ends(End::OutOfSteps));
        }
        self.steps += 1;
        if self.stack.waiting() >= FRAMES as usize - 1 {
            return Ok(Did::Ends(End::Trap(Trap::Depth)));
        }
        let count = code.registers(func);
        let front = Spot { func, segment: 0 };
        self.stack
            .enter(&mut self.args, front, segment.operands.as_slice(), count)?;
        Ok(Did::GoesOn)
    }

    fn print(
        &mut self,
        code: &Code,
        plan: &Plan,
        bound: u64,
        segment: &Segment,
    ) -> Result<Did, Memory>
        requires stands { StandsAt code.now self.old.stack segment.now Exit.Print }
        ensures turned { IfOk result (λ did. Turned (today code.now plan.now bound) (exit_of code.now self.old) did (state_of code.now self.new)) }
        ensures layouts { self.new.objects.layouts ≡ self.old.objects.layouts }
    {
        let number = self.stack.operand(segment.operands.as_slice(), 0).number();
        self.stack.pass(segment.to, Word::of(0))?;
        Ok(Did::Prints(number))
    }

    fn read(
        &mut self,
        code: &Code,
        plan: &Plan,
        bound: u64,
        segment: &Segment,
    ) -> Result<Did, Memory>
        requires stands { StandsAt code.now self.old.stack segment.now Exit.Read }
        ensures turned { IfOk result (λ did. Turned (today code.now plan.now bound) (exit_of code.now self.old) did (state_of code.now self.new)) }
        ensures layouts { self.new.objects.layouts ≡ self.old.objects.layouts }
    {
        match first_of(self.input) {
            None => Ok(Did::Ends(End::Trap(Trap::Input))),
            Some(first) => {
                self.input = rest_of(self.input);
                self.stack
                    .pass(segment.to, Word::of(first.cast_unsigned()))?;
                Ok(Did::GoesOn)
            }
        }
    }

    // A new object is an event.
    fn make(
        &mut self,
        code: &Code,
        plan: &Plan,
        bound: u64,
        segment: &Segment,
        layout: u32,
    ) -> Result<Did, Memory>
        requires stands { StandsAt code.now self.old.stack segment.now (Exit.New layout) }
        requires layouts { self.old.objects.layouts ≡ code.now.content.layouts }
        ensures turned { IfOk result (λ did. Turned (today code.now plan.now bound) (exit_of code.now self.old) did (state_of code.now self.new)) }
        ensures layouts { self.new.objects.layouts ≡ self.old.objects.layouts }
    {
        self.events = self.events.saturating_add(1);
        let count = sign(
            64,
            self.stack.operand(segment.operands.as_slice(), 0).number(),
        );
        if count < 0 {
            return Ok(Did::Ends(End::Trap(Trap::Count)));
        }
        match self.objects.add(layout, count.unsigned_abs())? {
            None => Ok(Did::Ends(End::Trap(Trap::Full))),
            Some(object) => {
                self.stack.pass(segment.to, Word::to(object, 0))?;
                Ok(Did::GoesOn)
            }
        }
    }

    // A new task goes on at once.
    fn start(
        &mut self,
        code: &Code,
        plan: &Plan,
        bound: u64,
        segment: &Segment,
    ) -> Result<Did, Memory>
        requires stands { StandsAt code.now self.old.stack segment.now Exit.Start }
        ensures turned { IfOk result (λ did. Turned (today code.now plan.now bound) (exit_of code.now self.old) did (state_of code.now self.new)) }
        ensures layouts { self.new.objects.layouts ≡ self.old.objects.layouts }
    {
        if self.tasks.len() >= TASKS as usize {
            return Ok(Did::Ends(End::Trap(Trap::Tasks)));
        }
        let operands = segment.operands.as_slice();
        let func = function_in(operands);
        let argument = self.stack.operand(operands, 1);
        let count = code.registers(func);
        let front = Spot { func, segment: 0 };
        let stack = Stack::started(self.alloc, front, argument, count)?;
        let task = self.tasks.len() as u64;
        let waits = mem::replace(&mut self.stack, stack);
        set_task(&mut self.tasks, self.task, Some(waits));
        self.tasks.push(None)?;
        self.task = task;
        Ok(Did::GoesOn)
    }
}

// The frames of a task, which has none from then on.
fn take_task(tasks: &mut Vec<Option<Stack>>, task: u64) -> Option<Stack>
    ensures given { result ≡ unwrap_or (slice_get tasks.old.items task) None }
    ensures tasks { tasks.new.items ≡ slice_set tasks.old.items task None }
{
    if task < tasks.len() as u64 {
        tasks[task as usize].take()
    } else {
        None
    }
}

fn set_task(tasks: &mut Vec<Option<Stack>>, task: u64, frames: Option<Stack>)
    ensures { tasks.new.items ≡ slice_set tasks.old.items task frames }
{
    if task < tasks.len() as u64 {
        tasks[task as usize] = frames;
    }
}

// Which edge of a `switch` is taken: the first equal case's, or the default's, which stands first.
fn case_taken(word: Word, operands: &[Operand]) -> usize
    ensures value { result ≡ case_taken (datum word) (drop 1 operands.now) }
    ensures within { result ≤ length operands.now - 1 }
{
    case_among(word.number(), cases_of(operands))
}

fn case_among(number: u64, cases: &[Operand]) -> usize
    ensures value { result ≡ option_map_or (λ place. place + 1) (position (is_case number) cases.now) 0 }
    ensures within { result ≤ length cases.now }
{
    match place_of(number, cases) {
        None => 0,
        Some(place) => place + 1,
    }
}

fn place_of(number: u64, cases: &[Operand]) -> Option<usize>
    ensures value { result ≡ position (is_case number) cases.now }
    ensures within { IfSome result (λ place. place < length cases.now) }
{
    cases.iter().position(|one| is_case(number, one))
}

fn is_case(number: u64, operand: &Operand) -> bool
    ensures { result ≡ is_case number operand.now }
{
    match operand {
        Operand::Int(literal) => *literal == number,
        _ => false,
    }
}
