//! A frame: where it stands, and its registers.

ghost use Rattle.std.specs.Prelude.{◌≡◌, ◌==◌, ◌≤◌, ◌<◌, ◌+◌, ◌-◌, ◌^◌, ◌++◌, ◌↔◌, ℕ, IsTrue, true, List, drop, length, map, replicate, IfOk, OnOk};
ghost use Rattle.std.specs.Option.{option_map_or};
ghost use Rattle.std.specs.List.{position};
ghost use Rattle.ir_ast.specs.Objects.{number};
ghost use Rattle.object_meaning.specs.Lines.{following, after_all};
ghost use Rattle.object_meaning.specs.Registers.{nothing, put, put_all, value};
ghost use Rattle.object_meaning.specs.Jumps.{arrived, incoming, phi_write};
ghost use Rattle.map_bytes.specs.Maps.{StackMap};
ghost use Rattle.move_plan.specs.declared.plan_lines.PlanLine.{PlanLine};
ghost use Rattle.machine_meaning.specs.Code.{machinery_of};
ghost use Rattle.machine_meaning.specs.Words.{worded_operand};
ghost use Rattle.machine_meaning.specs.Machines.{behind, gone_from, gone_behind, regrouped_by, slot_put, return_address, address_behind};
ghost use Rattle.machine_frames.specs.Frames.{lines_in, frame_of, entered_in, write_of, CanGoOn};
ghost use Rattle.machine_frames.specs.Landings.{phis_of};
ghost use Rattle.machine_lines.specs.Decoding.{decoded_of};
ghost use Rattle.machine_lines.specs.Lines.{line_of, lines_left};
ghost use Rattle.ir_ast.specs.Ops.{is_statepoint};

use crate::code::Code;
use crate::copies::copy_all;
use crate::landings::Landing;
use crate::numbering::{following, member_count, next_behind, register_of};
use crate::slots::member_word;
use frame_walk::Stack;
use ir_ast::{Inst, Op, Operand};
use machine_lines::{Decoded, Lines, put, word, word_at};
use sp_ids::{BlockId, Memory};

/// A word that a phi assigns, and the register that it goes to.
#[derive(Clone, Copy, Debug, PartialEq, Eq)]
pub struct Move {
    pub to: Option<usize>,
    pub word: u64,
}

/// A frame: its function and block, the instructions of the block from where it stands, the register of the next result, and
/// its registers.
#[derive(Drop)]
pub struct Frame<'m> {
    pub func: u32,
    pub block: u32,
    pub rest: Lines<'m>,
    pub next: usize,
    pub registers: Vec<u64>,
}

impl<'m> Frame<'m> {
    /// The first frame of a call with these arguments, whose registers take this room.
    pub fn entered(
        room: Vec<u64>,
        code: &'m Code<'_>,
        func: u32,
        arguments: &[u64],
    ) -> Result<Frame<'m>, Memory>
        ensures { IfOk result (λ frame. frame_of frame ≡ entered_in code.now func (map number arguments.now)) }
    {
        let registers = registers_of(room, arguments, code.registers(func))?;
        Ok(Frame {
            func,
            block: 0,
            rest: code.lines(func, 0),
            next: code.first(func, 0),
            registers,
        })
    }

    /// The same of a call whose arguments are what these operands are in the frame that calls.
    #[inline(always)]
    pub(crate) fn called(
        room: Vec<u64>,
        code: &'m Code<'_>,
        func: u32,
        from: &[u64],
        operands: &[Operand],
    ) -> Result<Frame<'m>, Memory>
        ensures { IfOk result (λ frame. frame_of frame ≡ entered_in code.now func (map (value (map number from.now)) (map worded_operand operands.now))) }
    {
        let registers = filled(room, code.registers(func), from, operands)?;
        Ok(Frame {
            func,
            block: 0,
            rest: code.lines(func, 0),
            next: code.first(func, 0),
            registers,
        })
    }

    /// Goes on behind a line with this result.
    pub fn pass(&mut self, inst: &Inst, rest: Lines<'m>, word: u64) -> Result<(), Memory>
        ensures { OnOk result (frame_of self.new ≡ record (frame_of self.old) { rest = lines_left (following self.old.next inst.now) rest.entry.insts.now; registers = put (line_of self.old.next inst.now).to (number word) (frame_of self.old).registers }) }
    {
        let next = following(self.next, inst)?;
        self.pass_to(next, inst, rest, word);
        Ok(())
    }

    /// Goes on behind a line that takes effect elsewhere.
    pub fn skip(&mut self, inst: &Inst, rest: Lines<'m>) -> Result<(), Memory>
        ensures { OnOk result (frame_of self.new ≡ record (frame_of self.old) { rest = lines_left (following self.old.next inst.now) rest.entry.insts.now }) }
    {
        let next = following(self.next, inst)?;
        self.rest = rest;
        self.next = next;
        Ok(())
    }

    /// Whether it can go on behind the call at which it stands: the results that are left have registers below 2^64.
    #[inline(always)]
    pub fn can_go_on(&self) -> bool
        ensures { IsTrue result ↔ CanGoOn self.now }
    {
        self.rest.insts.len() <= usize::MAX - self.next
    }

    /// A frame that stands at a call goes on behind it with the answer, and its group with what its slots hold now.
    pub fn go_on(&mut self, stack: &Stack, answer: u64)
        requires { CanGoOn self.old }
        ensures { frame_of self.new ≡ gone_from stack.now (frame_of self.old) (frame_of self.old).rest (number answer) }
    {
        match self.rest.front() {
            None => {}
            Some(parts) => self.go_behind(stack, parts.0, parts.2, answer),
        }
    }

    /// The same of a frame that stands at this call.
    #[inline(always)]
    pub(crate) fn go_behind(&mut self, stack: &Stack, inst: &Inst, rest: Lines<'m>, answer: u64)
        requires { self.old.next + 1 + length rest.insts.now < 2 ^ 64 }
        ensures { frame_of self.new ≡ gone_behind stack.now (frame_of self.old) (line_of self.old.next inst.now) (lines_left (following self.old.next inst.now) rest.entry.insts.now) (number answer) inst.now.op }
    {
        let next = next_behind(self.next, inst);
        if inst.op().is_statepoint() {
            self.regroup(stack, next, rest, answer)
        } else {
            self.pass_to(next, inst, rest, answer)
        }
    }

    // Goes on behind a line with this result, where the next one goes to this register.
    #[inline(always)]
    fn pass_to(&mut self, next: usize, inst: &Inst, rest: Lines<'m>, word: u64)
        requires { next ≡ following self.old.next inst.now }
        ensures { frame_of self.new ≡ record (frame_of self.old) { rest = lines_left (following self.old.next inst.now) rest.entry.insts.now; registers = put (line_of self.old.next inst.now).to (number word) (frame_of self.old).registers } }
    {
        put(
            self.registers.as_mut_slice(),
            register_of(self.next, inst),
            word,
        );
        self.rest = rest;
        self.next = next;
    }

    // Goes on behind the group of a statepoint, of which the first result goes to the register `first`.
    #[inline(always)]
    fn regroup(&mut self, stack: &Stack, first: usize, rest: Lines<'m>, answer: u64)
        requires { first + length rest.insts.now < 2 ^ 64 }
        ensures { frame_of self.new ≡ regrouped_by stack.now (frame_of self.old) (lines_left first rest.entry.insts.now) (number answer) }
    {
        let count = member_count(rest.insts);
        let members = rest.front_of(count);
        let next = put_members(self.registers.as_mut_slice(), stack, first, members, answer);
        self.rest = rest.behind(count);
        self.next = next;
    }

    /// Goes to another block, whose phis take effect together. `moves` is room for them.
    #[inline(always)]
    pub fn arrive(
        &mut self,
        code: &'m Code<'_>,
        moves: &mut Vec<Move>,
        block: u32,
    ) -> Result<(), Memory>
        ensures { OnOk result (frame_of self.new ≡ arrived (frame_of self.old) block (lines_in code.now self.old.func block)) }
    {
        match code.landing(self.func, block) {
            None => {
                self.block = block;
                self.rest = Lines::none();
                Ok(())
            }
            Some(landing) => {
                carry(self.registers.as_mut_slice(), moves, landing, self.block)?;
                self.block = block;
                self.rest = landing.rest();
                self.next = landing.next();
                Ok(())
            }
        }
    }

    /// The return address of the call at which it stands, or 0.
    pub fn return_address(&self, code: &Code) -> u64
        ensures { (map : StackMap) → (plan : List PlanLine) → (bound : ℕ) → return_address (machinery_of code.now map plan bound) (frame_of self.now) ≡ result }
    {
        match self.rest.front() {
            None => 0,
            Some(parts) => self.address_behind(code, parts.0, parts.2.insts),
        }
    }

    /// The address behind a call, its group taken along.
    pub fn address_behind(&self, code: &Code, inst: &Inst, rest: &[Inst]) -> u64
        ensures { (map : StackMap) → (plan : List PlanLine) → (bound : ℕ) → address_behind (machinery_of code.now map plan bound) (frame_of self.now) (line_of self.now.next inst.now) (lines_left (following self.now.next inst.now) rest.now) ≡ result }
    {
        let insts = code.insts(self.func, self.block);
        let all = insts.len();
        let left = left_behind(inst.op(), rest);
        code.address(self.func, self.block, all.saturating_sub(left))
    }
}

// How many instructions are left behind a call, its group taken along.
fn left_behind(op: &Op, rest: &[Inst]) -> usize
    ensures { (next : ℕ) → length (behind op.now (lines_left next rest.now)) ≡ result }
{
    if op.is_statepoint() {
        rest.len() - member_count(rest)
    } else {
        rest.len()
    }
}

// These arguments, and 0 in so many registers at least.
fn registers_of(room: Vec<u64>, arguments: &[u64], count: usize) -> Result<Vec<u64>, Memory>
    ensures { IfOk result (λ registers. registers.items ≡ arguments.now ++ replicate (count - length arguments.now) 0) }
{
    let mut registers = room;
    registers.clear();
    registers.reserve(count)?;
    registers.extend_from_slice(arguments)?;
    registers.resize(count.max(arguments.len()), 0)?;
    Ok(registers)
}

// What these operands are in a frame with the registers `from`, and 0 in so many registers at least.
#[inline(always)]
fn filled(
    room: Vec<u64>,
    count: usize,
    from: &[u64],
    operands: &[Operand],
) -> Result<Vec<u64>, Memory>
    ensures { IfOk result (λ registers. map number registers.items ≡ map (value (map number from.now)) (map worded_operand operands.now) ++ replicate (count - length operands.now) nothing) }
{
    let mut registers = room;
    registers.resize(count.max(operands.len()), 0)?;
    fill(registers.as_mut_slice(), from, operands);
    Ok(registers)
}

// What these operands are in a frame with the registers `from`, and 0 in all registers behind them.
#[inline(always)]
fn fill(registers: &mut [u64], from: &[u64], operands: &[Operand])
    requires { length operands.now ≤ length registers.old }
    ensures { map number registers.new ≡ map (value (map number from.now)) (map worded_operand operands.now) ++ replicate (length registers.old - length operands.now) nothing }
{
    for (place, operand) in operands.iter().enumerate() {
        registers[place] = word(from, *operand);
    }
    for place in operands.len()..registers.len() {
        registers[place] = 0;
    }
}

// The members of a group get their values, of which the first goes to the register `first`. The register of the next result
// behind them.
#[inline(always)]
fn put_members(
    registers: &mut [u64],
    stack: &Stack,
    first: usize,
    members: Lines<'_>,
    answer: u64,
) -> usize
    requires { first + length members.insts.now < 2 ^ 64 }
    ensures put { map number registers.new ≡ put_all (map (slot_put stack.now (number answer)) (lines_left first members.entry.insts.now)) (map number registers.old) }
    ensures next { result ≡ after_all first members.entry.insts.now }
{
    put_each(
        registers,
        stack,
        first,
        members.insts,
        members.decoded(),
        answer,
    )
}

#[inline(always)]
fn put_each(
    registers: &mut [u64],
    stack: &Stack,
    first: usize,
    members: &[Inst],
    decoded: &[Decoded],
    answer: u64,
) -> usize
    requires decoded { decoded.now ≡ map decoded_of members.now }
    requires small { first + length members.now < 2 ^ 64 }
    ensures put { map number registers.new ≡ put_all (map (slot_put stack.now (number answer)) (lines_left first members.now)) (map number registers.old) }
    ensures next { result ≡ after_all first members.now }
{
    let mut next = first;
    for (place, member) in members.iter().enumerate() {
        let word = member_word(stack, member, &decoded[place], answer);
        put(registers, register_of(next, member), word);
        next = next_behind(next, member);
    }
    next
}

// The phis of a block take effect together on the edge from another. `moves` is room for them.
#[inline(always)]
fn carry(
    registers: &mut [u64],
    moves: &mut Vec<Move>,
    landing: &Landing<'_>,
    from: u32,
) -> Result<(), Memory>
    ensures { OnOk result (map number registers.new ≡ put_all (map (phi_write from (map number registers.old)) (lines_left landing.now.first (phis_of landing.now.insts))) (map number registers.old)) }
{
    match landing.copies(from) {
        None => carry_sought(registers, moves, landing, from),
        Some(copies) => copy_all(registers, moves, copies),
    }
}

// The same where each phi is sought the entry of the edge.
#[cold]
fn carry_sought(
    registers: &mut [u64],
    moves: &mut Vec<Move>,
    landing: &Landing<'_>,
    from: u32,
) -> Result<(), Memory>
    ensures { OnOk result (map number registers.new ≡ put_all (map (phi_write from (map number registers.old)) (lines_left landing.now.first (phis_of landing.now.insts))) (map number registers.old)) }
{
    gather(moves, registers, from, landing.first(), landing.phis())?;
    do_moves(registers, moves.as_slice());
    Ok(())
}

// What phis assign on the edge from a block, all read before any is written.
fn gather(
    moves: &mut Vec<Move>,
    registers: &[u64],
    from: u32,
    first: usize,
    phis: &[Inst],
) -> Result<(), Memory>
    ensures { OnOk result (map write_of moves.new.items ≡ map (phi_write from (map number registers.now)) (lines_left first phis.now)) }
{
    moves.clear();
    let mut next = first;
    for phi in phis {
        moves.push(Move {
            to: register_of(next, phi),
            word: sought(registers, from, phi),
        })?;
        let after = following(next, phi)?;
        next = after;
    }
    Ok(())
}

// The word of a phi on the edge from a block.
fn sought(registers: &[u64], from: u32, phi: &Inst) -> u64
    ensures { incoming from (map number registers.now) (line_of 0 phi.now).inst ≡ number result }
{
    match place_of(from, phi.labels()) {
        None => 0,
        Some(place) => word_at(registers, phi.operands(), place),
    }
}

fn place_of(from: u32, labels: &[BlockId]) -> Option<usize>
    ensures { result ≡ position (λ label. label.0 == from) labels.now }
{
    labels.iter().position(|label| label.0 == from)
}

/// The words of phis are written, which were all read before.
pub(crate) fn do_moves(registers: &mut [u64], moves: &[Move])
    ensures { map number registers.new ≡ put_all (map write_of moves.now) (map number registers.old) }
{
    for one in moves {
        put(registers, one.to, one.word);
    }
}
