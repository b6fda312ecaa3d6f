//! The frames of a task, with their registers in one list.

ghost use Rattle.std.specs.Prelude.{◌≡◌, ◌-◌, ◌++◌, ◌<◌, ◌≤◌, [], ◌∷◌, length, map, replicate, IfOk, OnOk, OnErr};
ghost use Rattle.std.specs.List.{All};
ghost use Rattle.tool_io.specs.Counts.{Rose};
ghost use Rattle.tool_io.specs.Sink.{append_known, AppendsFront};
ghost use Rattle.piece_writer.specs.LinePuts.{IsShort, PutsFirst, PutsLines, told_by};
ghost use Rattle.object_store.specs.Words.{number_word};
ghost use Rattle.object_meaning.specs.Registers.{put};
ghost use Rattle.flat_code.specs.Flats.{IsSizedLine, lines_done};
ghost use Rattle.waiting_frames.specs.Shown.{frames_lines, frames_text};
ghost use Rattle.ir_meaning.specs.Straights.{held_in, outcome};
ghost use Rattle.ir_meaning.specs.Stacks.{passed_spot, passed_frame, word, word_at, move_of, moved, entered_frames, arrived_frames};

use crate::computing::word;
use crate::straight::{put, straight};
use flat_code::{Code, Copied, FlatLine};
use ir_ast::Operand;
use object_store::{Objects, Word};
use sp_ids::{Memory, Trap};
use std::alloc::Global;
use std::marker::Model;
use tool_io::{Failed, Sink};
use waiting_frames::{Saved, Spot, show_frames};

/// A word that a phi assigns, and the register that it goes to.
#[derive(Clone, Copy, Debug, PartialEq, Eq)]
pub struct Move {
    pub to: Option<u32>,
    pub word: Word,
}

/// The frames of a task. Contracts see them as `Frames`, each with registers of its own.
#[derive(Drop)]
pub struct Stack {
    registers: Vec<Word>,
    saved: Vec<Saved>,
    spot: Spot,
    base: u32,
}

impl Model for Stack {
    ghost use Rattle.std.specs.Prelude.{drop, take, reverse};
    ghost use Rattle.waiting_frames.specs.Frames.{frames_below};
    ghost use Rattle.ir_meaning.specs.Stacks.{Frames};

    ghost Value = { Frames };

    ghost view = { λ stack. record {
      running = record { spot = stack.spot; registers = drop stack.base stack.registers.items };
      below = frames_below (reverse stack.saved.items) (take stack.base stack.registers.items);
    } };
}

impl Stack {
    /// One frame, which has these many registers.
    pub fn new(alloc: Global, spot: Spot, count: usize) -> Result<Stack, Memory>
        ensures { IfOk result (λ stack. stack ≡ record { running = record { spot = spot; registers = replicate count (number_word 0) }; below = [] }) }
    {
        let mut registers = Vec::with_capacity(alloc, count)?;
        fill(&mut registers, count)?;
        Ok(Stack {
            registers,
            saved: Vec::new(alloc),
            spot,
            base: 0,
        })
    }

    /// One frame with this argument, which has so many registers at least.
    pub fn started(alloc: Global, spot: Spot, argument: Word, count: usize) -> Result<Stack, Memory>
        ensures { IfOk result (λ stack. stack ≡ record { running = record { spot = spot; registers = argument ∷ replicate (count - 1) (number_word 0) }; below = [] }) }
    {
        let mut registers = Vec::new(alloc);
        extend(&mut registers, &[argument], count)?;
        Ok(Stack {
            registers,
            saved: Vec::new(alloc),
            spot,
            base: 0,
        })
    }

    /// The segment of the running frame.
    pub fn spot(&self) -> Spot
        ensures { result ≡ self.now.running.spot }
    {
        self.spot
    }

    /// How many frames wait.
    pub fn waiting(&self) -> usize
        ensures { result ≡ length self.now.below }
    {
        self.saved.len()
    }

    /// Puts what the frames that wait show at a trap, each line by one call where none has more than 8,192 bytes.
    pub fn show<O: Sink>(&self, code: &Code, out: &mut O) -> Result<(), Failed>
        ensures ok { OnOk result (O.written out.new ≡ append_known (O.written out.old) (frames_text code.now 1 self.now.below)) }
        ensures err { OnErr result (AppendsFront (O.written out.old) (O.written out.new) (frames_text code.now 1 self.now.below)) }
        ensures by_one_put { All IsShort (frames_lines code.now 1 self.now.below) → OnOk result (PutsLines (told_by O.written O.puts out.old) (told_by O.written O.puts out.new) (frames_lines code.now 1 self.now.below)) }
        ensures cut { All IsShort (frames_lines code.now 1 self.now.below) → OnErr result (PutsFirst (told_by O.written O.puts out.old) (told_by O.written O.puts out.new) (frames_lines code.now 1 self.now.below)) }
        ensures failed { OnErr result (Rose (O.faults out.old) (O.faults out.new)) }
        ensures count { O.faults out.old ≤ O.faults out.new }
    {
        let at = (self.base as usize).min(self.registers.len());
        show_frames(code, self.saved.as_slice(), &self.registers[..at], out)
    }

    /// What an operand of the running frame's line is.
    pub fn operand(&self, operands: &[Operand], place: usize) -> Word
        ensures { result ≡ word_at self.now.running.registers operands.now place }
    {
        match operands.get(place) {
            None => Word::of(0),
            Some(operand) => self.value(*operand),
        }
    }

    fn value(&self, operand: Operand) -> Word
        ensures { result ≡ word self.now.running.registers operand }
    {
        let at = (self.base as usize).min(self.registers.len());
        word(&self.registers[at..], operand)
    }

    /// These lines, up to a trap.
    pub fn run_lines(&mut self, objects: &mut Objects, lines: &[FlatLine]) -> Option<Trap>
        requires { All IsSizedLine lines.now }
        ensures done { outcome result (held_in self.new.running.registers objects.new) ≡ lines_done objects.old.layouts (held_in self.old.running.registers objects.old) lines.now }
        ensures kept { self.new ≡ record self.old { running = record self.old.running { registers = self.new.running.registers } } }
        ensures layouts { objects.new.layouts ≡ objects.old.layouts }
    {
        let at = (self.base as usize).min(self.registers.len());
        straight(&mut self.registers.as_mut_slice()[at..], objects, lines)
    }

    /// The running frame goes on behind the exit of its segment with this result.
    pub fn pass(&mut self, to: Option<u32>, outcome: Word) -> Result<(), Memory>
        ensures { OnOk result (self.new ≡ record self.old { running = passed_frame self.old.running to outcome }) }
    {
        let segment = self.spot.segment.checked_add(1).ok_or(Memory)?;
        self.put(to, outcome);
        self.spot.segment = segment;
        Ok(())
    }

    fn put(&mut self, to: Option<u32>, word: Word)
        ensures { self.new ≡ record self.old { running = record self.old.running { registers = put to word self.old.running.registers } } }
    {
        let at = (self.base as usize).min(self.registers.len());
        put(&mut self.registers.as_mut_slice()[at..], to, word);
    }

    /// A new frame runs, with these operands of the old one as its first registers and so many registers at
    /// least; the old one waits. `args` is room for the operands.
    pub fn enter(
        &mut self,
        args: &mut Vec<Word>,
        spot: Spot,
        operands: &[Operand],
        count: usize,
    ) -> Result<(), Memory>
        ensures { OnOk result (self.new ≡ entered_frames self.old spot operands.now count) }
    {
        let base = base_of(self.registers.len())?;
        self.arguments(args, operands)?;
        extend(&mut self.registers, args.as_slice(), count)?;
        self.saved.push(Saved {
            spot: self.spot,
            base: self.base,
        })?;
        self.spot = spot;
        self.base = base;
        Ok(())
    }

    // The values of these operands.
    fn arguments(&self, args: &mut Vec<Word>, operands: &[Operand]) -> Result<(), Memory>
        ensures { OnOk result (args.new.items ≡ map (word self.now.running.registers) operands.now) }
    {
        args.clear();
        for operand in operands {
            args.push(self.value(*operand))?;
        }
        Ok(())
    }

    /// The newest of the frames that wait runs again, and the running one is gone.
    pub fn leave(&mut self)
        requires { 0 < length self.old.below }
        ensures { self.old.below ≡ self.new.running ∷ self.new.below }
    {
        if let Some(saved) = self.saved.pop() {
            self.registers.truncate(self.base as usize);
            self.spot = saved.spot;
            self.base = saved.base;
        }
    }

    /// The running frame goes to another segment, whose block's phis take effect together. `moves` is room for them.
    pub fn arrive(
        &mut self,
        moves: &mut Vec<Move>,
        copies: &[Copied],
        spot: Spot,
    ) -> Result<(), Memory>
        ensures { OnOk result (self.new ≡ arrived_frames self.old copies.now spot) }
    {
        self.gather(moves, copies)?;
        self.do_moves(moves.as_slice());
        self.spot = spot;
        Ok(())
    }

    // What these copies assign.
    fn gather(&self, moves: &mut Vec<Move>, copies: &[Copied]) -> Result<(), Memory>
        ensures { OnOk result (moves.new.items ≡ map (move_of self.now.running.registers) copies.now) }
    {
        moves.clear();
        for copy in copies {
            moves.push(self.move_of(*copy))?;
        }
        Ok(())
    }

    fn move_of(&self, copy: Copied) -> Move
        ensures { result ≡ move_of self.now.running.registers copy }
    {
        Move {
            to: copy.to,
            word: self.value(copy.from),
        }
    }

    fn do_moves(&mut self, moves: &[Move])
        ensures { self.new ≡ record self.old { running = record self.old.running { registers = moved moves.now self.old.running.registers } } }
    {
        for one in moves {
            self.put(one.to, one.word);
        }
    }
}

fn base_of(count: usize) -> Result<u32, Memory>
    ensures { IfOk result (λ base. base ≡ count) }
{
    if count <= u32::MAX as usize {
        Ok(count as u32)
    } else {
        Err(Memory)
    }
}

// More registers: these words first, and each other one 0.
fn extend(registers: &mut Vec<Word>, words: &[Word], count: usize) -> Result<(), Memory>
    ensures { OnOk result (registers.new.items ≡ registers.old.items ++ words.now ++ replicate (count - length words.now) (number_word 0)) }
{
    registers.extend_from_slice(words)?;
    fill(registers, count.saturating_sub(words.len()))
}

// More registers, each 0.
fn fill(registers: &mut Vec<Word>, count: usize) -> Result<(), Memory>
    ensures { OnOk result (registers.new.items ≡ registers.old.items ++ replicate count (number_word 0)) }
{
    for _ in 0..count {
        registers.push(Word::of(0))?;
    }
    Ok(())
}
