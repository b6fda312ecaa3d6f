//! Functions and their arguments.

ghost use Rattle.std.specs.Prelude.{◌≡◌, length, replicate, slice_index};
ghost use Rattle.ir_ast.specs.Funcs.{instructions_of, insts_in, IsSmall};

use crate::blocks::Block;
use crate::clones::{TryClone, try_clone_all};
use crate::insts::Inst;
use crate::names::Name;
use crate::types::Ty;
use sp_ids::Memory;
use std::alloc::Global;
use std::marker::Model;

/// An argument of a function.
#[derive(Debug, Drop)]
pub struct Arg {
    pub name: Name,
    pub ty: Ty,
}

/// A defined function with the strategy `statepoint-example`. Contracts see its content, a `Function`,
/// and beside it its lines: for each instruction, in text order, the number of its line in the text
/// that was read, or 0. It has fewer than 2^30 arguments, blocks and instructions.
#[derive(Debug, Drop)]
pub struct Func {
    name: Name,
    answer: Ty,
    args: Vec<Arg>,
    blocks: Vec<Block>,
    // Empty where each line is 0.
    lines: Vec<u32>,
}

impl Model for Func {
    ghost use Rattle.ir_ast.specs.Funcs.{LinedFunction, IsFunction, lines_or_zeros};

    ghost Value = { LinedFunction };

    ghost view = { λ func. record {
      content = record { name = func.name; answer = func.answer; args = func.args.items; blocks = func.blocks.items };
      lines = lines_or_zeros func.blocks.items func.lines.items;
    } };

    ghost invariant = { λ func. IsFunction func.args.items func.blocks.items func.lines.items };
}

impl Func {
    /// The function with these parts; each line is 0.
    pub fn of(name: Name, answer: Ty, args: Vec<Arg>, blocks: Vec<Block>) -> Func
        requires { IsSmall args.items blocks.items }
        ensures content { result.content ≡ record { name = name; answer = answer; args = args.items; blocks = blocks.items } }
        ensures lines { result.lines ≡ replicate (length (instructions_of blocks.items)) 0 }
    {
        let lines = Vec::new(*blocks.allocator());
        Func {
            name,
            answer,
            args,
            blocks,
            lines,
        }
    }

    /// The same function with these lines, one for each instruction in text order.
    pub fn with_lines(self, lines: Vec<u32>) -> Func
        requires { length lines.items ≡ length (instructions_of self.content.blocks) }
        ensures content { result.content ≡ self.content }
        ensures lines { result.lines ≡ lines.items }
    {
        Func {
            name: self.name,
            answer: self.answer,
            args: self.args,
            blocks: self.blocks,
            lines,
        }
    }

    /// Gives its parts back, but not its lines.
    pub fn into_parts(self) -> (Name, Ty, Vec<Arg>, Vec<Block>)
        ensures name { result.0 ≡ self.content.name }
        ensures answer { result.1 ≡ self.content.answer }
        ensures args { result.2.items ≡ self.content.args }
        ensures blocks { result.3.items ≡ self.content.blocks }
        ensures small { IsSmall self.content.args self.content.blocks }
    {
        (self.name, self.answer, self.args, self.blocks)
    }

    /// Its name, without the `@`.
    pub fn name(&self) -> &Name
        ensures { result.now ≡ self.now.content.name }
    {
        &self.name
    }

    /// The type that it answers.
    pub fn answer(&self) -> &Ty
        ensures { result.now ≡ self.now.content.answer }
    {
        &self.answer
    }

    /// Its arguments.
    pub fn args(&self) -> &[Arg]
        ensures value { result.now ≡ self.now.content.args }
        ensures small { IsSmall self.now.content.args self.now.content.blocks }
    {
        self.args.as_slice()
    }

    /// Its blocks, the entry first.
    pub fn blocks(&self) -> &[Block]
        ensures value { result.now ≡ self.now.content.blocks }
        ensures small { IsSmall self.now.content.args self.now.content.blocks }
    {
        self.blocks.as_slice()
    }

    /// The instructions of a block, none where it has no such block.
    pub fn insts_in(&self, block: u32) -> &[Inst]
        ensures { result.now ≡ insts_in self.now.content block }
    {
        match self.blocks.get(block as usize) {
            None => &[],
            Some(block) => block.insts(),
        }
    }

    /// The line of the instruction with this number, from 0 in text order, or 0 where the function
    /// has no such instruction.
    pub fn line_of(&self, place: u32) -> u32
        ensures { result ≡ slice_index self.now.lines place }
    {
        self.lines.get(place as usize).copied().unwrap_or(0)
    }
}

impl TryClone for Arg {
    fn try_clone_in(&self, alloc: Global) -> Result<Arg, Memory> {
        Ok(Arg {
            name: self.name.try_clone_in(alloc)?,
            ty: self.ty,
        })
    }
}

impl TryClone for Func {
    fn try_clone_in(&self, alloc: Global) -> Result<Func, Memory> {
        Ok(Func {
            name: self.name.try_clone_in(alloc)?,
            answer: self.answer,
            args: try_clone_all(alloc, self.args.as_slice())?,
            blocks: try_clone_all(alloc, self.blocks.as_slice())?,
            lines: Vec::from_slice(alloc, self.lines.as_slice())?,
        })
    }
}
