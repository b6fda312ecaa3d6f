//! The frames of a task, and its stack.

ghost use Rattle.std.specs.Prelude.{◌≡◌, ◌+◌, ◌++◌, ◌∷◌, ◌↔◌, [], drop, map, replicate, IfOk, IsTrue, OnOk, Ok, Err};
ghost use Rattle.ir_ast.specs.Objects.{number};
ghost use Rattle.object_meaning.specs.Registers.{value};
ghost use Rattle.machine_meaning.specs.Code.{words_in};
ghost use Rattle.machine_meaning.specs.Words.{worded_operand};
ghost use Rattle.machine_meaning.specs.Machines.{gone_behind, gone_from, over};
ghost use Rattle.machine_lines.specs.Lines.{line_of, lines_left};
ghost use Rattle.object_meaning.specs.Lines.{following};
ghost use Rattle.machine_frames.specs.Frames.{frame_of, entered_in, below_of, kept_in, CanGoOn};
ghost use Rattle.machine_frames.specs.Tasks.{Begins, Enters, Leaves};

use crate::code::Code;
use crate::frames::Frame;
use crate::slots::keep;
use frame_walk::Stack;
use ir_ast::{Inst, Operand};
use machine_lines::Lines;
use sp_ids::Memory;
use std::alloc::Global;
use std::mem;

/// The frame of a task that runs, or that waits as its newest; those below, the newest last; and its stack. The registers of
/// frames that are gone are room for those of new ones.
#[derive(Drop)]
pub struct Task<'m> {
    pub frame: Frame<'m>,
    pub below: Vec<Frame<'m>>,
    pub stack: Stack,
    room: Vec<Vec<u64>>,
}

impl<'m> Task<'m> {
    /// A task that begins with a call, whose return address is 0.
    pub fn begin(
        alloc: Global,
        code: &'m Code<'_>,
        func: u32,
        arguments: &[u64],
    ) -> Result<Task<'m>, Memory>
        ensures { IfOk result (Begins code.now func (map number arguments.now)) }
    {
        let frame = Frame::entered(Vec::new(alloc), code, func, arguments)?;
        let mut stack = Stack::new(alloc);
        stack.push_frame(code.frame_words(func)?, 0)?;
        Ok(Task {
            frame,
            below: Vec::new(alloc),
            stack,
            room: Vec::new(alloc),
        })
    }

    /// A call: a new frame runs, whose call returns to this address, and the one that ran waits.
    pub fn enter(
        &mut self,
        alloc: Global,
        code: &'m Code<'_>,
        func: u32,
        arguments: &[u64],
        address: u64,
    ) -> Result<(), Memory>
        ensures { OnOk result (Enters code.now func (map number arguments.now) address self.old self.new) }
    {
        let room = self.room.pop().unwrap_or(Vec::new(alloc));
        let frame = Frame::entered(room, code, func, arguments)?;
        let words = code.frame_words(func)?;
        self.stack.push_frame(words, address)?;
        let waits = mem::replace(&mut self.frame, frame);
        self.below.push(waits)?;
        Ok(())
    }

    /// The same of a call whose arguments are what these operands are in the frame that runs.
    #[inline(always)]
    pub fn call(
        &mut self,
        alloc: Global,
        code: &'m Code<'_>,
        func: u32,
        operands: &[Operand],
        address: u64,
    ) -> Result<(), Memory>
        ensures { OnOk result (Enters code.now func (map (value (map number self.old.frame.registers.items)) (map worded_operand operands.now)) address self.old self.new) }
    {
        let room = self.room.pop().unwrap_or(Vec::new(alloc));
        let from = self.frame.registers.as_slice();
        let frame = Frame::called(room, code, func, from, operands)?;
        let words = code.frame_words(func)?;
        self.stack.push_frame(words, address)?;
        let waits = mem::replace(&mut self.frame, frame);
        self.below.push(waits)?;
        Ok(())
    }

    /// The frame that runs stands at a statepoint with so many arguments, which writes what it keeps into its slots.
    #[inline(always)]
    pub fn keep(&mut self, inst: &Inst, arguments: usize) -> Result<(), Memory>
        ensures { OnOk result (self.new ≡ record self.old { stack = over (kept_in (map number self.old.frame.registers.items) inst.now arguments) self.old.stack }) }
    {
        let registers = self.frame.registers.as_slice();
        keep(&mut self.stack, registers, inst, arguments)
    }

    /// Whether the frame that runs can go on behind the call at which it stands. It may be asked before an event.
    #[inline(always)]
    pub fn can_go_on(&self) -> bool
        ensures { IsTrue result ↔ CanGoOn self.now.frame }
    {
        self.frame.can_go_on()
    }

    /// The frame that runs and stands at a call goes on behind it with the answer.
    #[inline(always)]
    pub fn resume(&mut self, answer: u64)
        requires { CanGoOn self.old.frame }
        ensures frame { frame_of self.new.frame ≡ gone_from self.old.stack (frame_of self.old.frame) (frame_of self.old.frame).rest (number answer) }
        ensures others { self.new ≡ record self.old { frame = self.new.frame } }
    {
        self.frame.go_on(&self.stack, answer)
    }

    /// The same of any frame.
    #[inline(always)]
    pub fn go_on(&mut self, answer: u64) -> Result<(), Memory>
        ensures frame { OnOk result (frame_of self.new.frame ≡ gone_from self.old.stack (frame_of self.old.frame) (frame_of self.old.frame).rest (number answer)) }
        ensures others { self.new ≡ record self.old { frame = self.new.frame } }
    {
        if !self.frame.can_go_on() {
            return Err(Memory);
        }
        self.frame.go_on(&self.stack, answer);
        Ok(())
    }

    /// The same of a frame that stands at this call.
    #[inline(always)]
    pub fn go_behind(&mut self, inst: &Inst, rest: Lines<'m>, answer: u64) -> Result<(), Memory>
        ensures frame { OnOk result (frame_of self.new.frame ≡ gone_behind self.old.stack (frame_of self.old.frame) (line_of self.old.frame.next inst.now) (lines_left (following self.old.frame.next inst.now) rest.entry.insts.now) (number answer) inst.now.op) }
        ensures others { self.new ≡ record self.old { frame = self.new.frame } }
    {
        if rest.insts.len() >= usize::MAX - self.frame.next {
            return Err(Memory);
        }
        self.frame.go_behind(&self.stack, inst, rest, answer);
        Ok(())
    }

    /// The newest of the frames that wait runs again, and the running one is gone. Whether there was one.
    #[inline(always)]
    pub fn leave(&mut self, code: &Code) -> Result<bool, Memory>
        ensures { IfOk result (λ left. Leaves code.now self.old left self.new) }
    {
        let words = code.frame_words(self.frame.func)?;
        if self.below.is_empty() {
            return Ok(false);
        }
        let Some(frame) = self.below.pop() else {
            return Err(Memory);
        };
        if words as usize >= self.stack.len() {
            return Err(Memory);
        }
        let _ = self.stack.pop_frame(words);
        let left = mem::replace(&mut self.frame, frame);
        self.room.push(left.registers)?;
        Ok(true)
    }
}
