//! The lines of a block, each beside what a line that computes numbers needs of its type and its operands.

ghost use Rattle.std.specs.Prelude.{◌≡◌, ◌==◌, ◌∷◌, ◌≤◌, ℕ, List, false, [], take, drop, length, map, MatchOption, IfOk, IfSome, slice_get};
ghost use Rattle.std.specs.Option.{option_map_or};
ghost use Rattle.ir_ast.specs.Insts.{Instruction};
ghost use Rattle.ir_ast.specs.Objects.{number};
ghost use Rattle.object_meaning.specs.Frames.{index_in};
ghost use Rattle.object_meaning.specs.Jumps.{incoming};
ghost use Rattle.object_meaning.specs.Registers.{operand};
ghost use Rattle.machine_meaning.specs.Words.{worded_operand};
ghost use Rattle.machine_lines.specs.Decoding.{decoded_of, source_at, source_of, found_word, stays};
ghost use Rattle.machine_lines.specs.Lines.{line_of};

use crate::computing::is_plain;
use flat_code::width_of;
use ir_ast::{Inst, Op, Operand};
use sp_ids::{BlockId, Memory};
use std::alloc::Global;

/// Where an operand is found: in a register, or as a literal.
#[derive(Clone, Copy, Debug)]
pub enum Source {
    Register(usize),
    Literal(u64),
}

/// Whether a line may stay in its frame, has a result, and computes it as a number of numbers; the bits of its type, and its first
/// three operands.
#[derive(Clone, Copy, Debug)]
pub struct Decoded {
    pub stays: bool,
    pub gives: bool,
    pub plain: bool,
    pub width: u32,
    pub first: Source,
    pub second: Source,
    pub third: Source,
}

/// Instructions that follow one another, and each decoded.
#[derive(Clone, Copy, Debug)]
pub struct Lines<'m> {
    pub insts: &'m [Inst],
    pub(crate) decoded: &'m [Decoded],
    ghost tied: { decoded.now ≡ map decoded_of insts.now },
}

impl<'m> Lines<'m> {
    /// No instructions.
    pub fn none() -> Lines<'m>
        ensures { result.insts.now ≡ [] }
    {
        Lines {
            insts: &[],
            decoded: &[],
        }
    }

    /// These instructions, which were decoded to these.
    pub fn of(insts: &'m [Inst], decoded: &'m [Decoded]) -> Lines<'m>
        requires tied { decoded.now ≡ map decoded_of insts.now }
        ensures { result.insts.now ≡ insts.now }
    {
        Lines { insts, decoded }
    }

    /// The first instruction, decoded too, and the others.
    pub fn front(self) -> Option<(&'m Inst, &'m Decoded, Lines<'m>)>
        ensures insts { MatchOption result (self.entry.insts.now ≡ []) (λ parts. self.entry.insts.now ≡ parts.0.now ∷ parts.2.insts.now) }
        ensures decoded { MatchOption result (self.entry.insts.now ≡ []) (λ parts. parts.1.now ≡ decoded_of parts.0.now) }
    {
        match self.insts {
            [] => None,
            [inst, insts @ ..] => match self.decoded {
                [] => None,
                [one, decoded @ ..] => Some((inst, one, Lines { insts, decoded })),
            },
        }
    }

    /// What is decoded of each instruction.
    pub fn decoded(self) -> &'m [Decoded]
        ensures { result.now ≡ map decoded_of self.entry.insts.now }
    {
        self.decoded
    }

    /// So many instructions that stand first.
    pub fn front_of(self, count: usize) -> Lines<'m>
        requires { count ≤ length self.insts.now }
        ensures { result.insts.now ≡ take count self.entry.insts.now }
    {
        let (insts, _behind) = self.insts.split_at(count);
        let (decoded, _behind) = self.decoded.split_at(count);
        Lines { insts, decoded }
    }

    /// The instructions behind so many.
    pub fn behind(self, count: usize) -> Lines<'m>
        requires { count ≤ length self.insts.now }
        ensures { result.insts.now ≡ drop count self.entry.insts.now }
    {
        let (_before, insts) = self.insts.split_at(count);
        let (_before, decoded) = self.decoded.split_at(count);
        Lines { insts, decoded }
    }
}

impl Decoded {
    /// The word of the first operand of a line that is decoded so, in a frame with these registers.
    pub fn first_word(&self, registers: &[u64]) -> u64
        ensures { (inst : Instruction) → self.now ≡ decoded_of inst → operand (map number registers.now) (map worded_operand inst.operands) 0 ≡ number result }
    {
        self.first.word(registers)
    }

    /// The word of the second operand.
    pub fn second_word(&self, registers: &[u64]) -> u64
        ensures { (inst : Instruction) → self.now ≡ decoded_of inst → operand (map number registers.now) (map worded_operand inst.operands) 1 ≡ number result }
    {
        self.second.word(registers)
    }

    /// The word of the third operand.
    pub fn third_word(&self, registers: &[u64]) -> u64
        ensures { (inst : Instruction) → self.now ≡ decoded_of inst → operand (map number registers.now) (map worded_operand inst.operands) 2 ≡ number result }
    {
        self.third.word(registers)
    }

    /// The index that a relocate names which is decoded so.
    #[inline(always)]
    pub fn index(&self) -> u64
        ensures { (member : Instruction) → self.now ≡ decoded_of member → index_in (slice_get (map worded_operand member.operands) 2) ≡ result }
    {
        match self.third {
            Source::Register(_) => 0,
            Source::Literal(index) => index,
        }
    }
}

impl Source {
    /// The word that it is in a frame with these registers, of which those that aren't there are 0.
    #[inline(always)]
    pub fn word(self, registers: &[u64]) -> u64
        ensures { result ≡ found_word registers.now self }
    {
        match self {
            Source::Register(place) => registers.get(place).copied().unwrap_or(0),
            Source::Literal(word) => word,
        }
    }
}

/// Where a phi finds its word on the edge from a block, where that is among the blocks of its first two entries.
pub fn incoming_source(phi: &Inst, from: u32) -> Option<Source>
    ensures { IfSome result (λ source. (registers : List ℕ) → incoming from (map number registers) (line_of 0 phi.now).inst ≡ number (found_word registers source)) }
{
    if is_from(phi.labels(), 0, from) {
        Some(source_at(phi.operands(), 0))
    } else if is_from(phi.labels(), 1, from) {
        Some(source_at(phi.operands(), 1))
    } else {
        None
    }
}

// Whether there is a label at this place, and it is this block.
fn is_from(labels: &[BlockId], place: usize, from: u32) -> bool
    ensures { result ≡ option_map_or (λ label. label.0 == from) (slice_get labels.now place) false }
{
    match labels.get(place) {
        None => false,
        Some(label) => label.0 == from,
    }
}

/// These instructions, decoded.
pub fn decoded_all(alloc: Global, insts: &[Inst]) -> Result<Vec<Decoded>, Memory>
    ensures { IfOk result (λ list. list.items ≡ map decoded_of insts.now) }
{
    let mut list = Vec::with_capacity(alloc, insts.len())?;
    for inst in insts {
        list.push(decoded_of(inst))?;
    }
    Ok(list)
}

fn decoded_of(inst: &Inst) -> Decoded
    ensures { result ≡ decoded_of inst.now }
{
    Decoded {
        stays: stays(inst.op()),
        gives: inst.result().is_some(),
        plain: is_plain(inst.op()) && inst.result().is_some(),
        width: width_of(inst.ty()),
        first: source_at(inst.operands(), 0),
        second: source_at(inst.operands(), 1),
        third: source_at(inst.operands(), 2),
    }
}

// Whether a line with this operator may stay in its frame.
fn stays(op: &Op) -> bool
    ensures { result ≡ stays op.now }
{
    match op {
        Op::Gep { .. } => true,
        Op::Load => true,
        Op::Store => true,
        Op::Call { .. } => true,
        _ => is_plain(op),
    }
}

fn source_at(operands: &[Operand], place: usize) -> Source
    ensures { result ≡ source_at operands.now place }
{
    match operands.get(place) {
        None => Source::Literal(0),
        Some(operand) => source_of(*operand),
    }
}

fn source_of(operand: Operand) -> Source
    ensures { result ≡ source_of operand }
{
    match operand {
        Operand::Value(id) => Source::Register(id.0 as usize),
        Operand::Int(number) => Source::Literal(number),
        Operand::Null => Source::Literal(0),
        Operand::Fun(_) => Source::Literal(0),
    }
}
