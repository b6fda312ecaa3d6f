//! Basic blocks.

ghost use Rattle.std.specs.Prelude.{◌≡◌};
ghost use Rattle.ir_ast.specs.Blocks.{EndsAtTerminator};

use crate::clones::{TryClone, try_clone_all};
use crate::insts::Inst;
use crate::names::Name;
use sp_ids::Memory;
use std::alloc::Global;
use std::marker::Model;

/// A basic block: its name and its instructions, of which the last and no other is a terminator (LLVM
/// Language Reference, "Functions"). Contracts see a `BasicBlock`.
#[derive(Debug, Drop)]
pub struct Block {
    name: Name,
    insts: Vec<Inst>,
}

impl Model for Block {
    ghost use Rattle.ir_ast.specs.Blocks.{BasicBlock, EndsAtTerminator};

    ghost Value = { BasicBlock };

    ghost view = { λ block. record { name = block.name; insts = block.insts.items } };

    ghost invariant = { λ block. EndsAtTerminator block.insts.items };
}

impl Block {
    /// The block with this name and these instructions.
    pub fn of(name: Name, insts: Vec<Inst>) -> Block
        requires { EndsAtTerminator insts.items }
        ensures { result ≡ record { name = name; insts = insts.items } }
    {
        Block { name, insts }
    }

    /// Gives its name and its instructions back.
    pub fn into_parts(self) -> (Name, Vec<Inst>)
        ensures name { result.0 ≡ self.name }
        ensures insts { result.1.items ≡ self.insts }
        ensures ends { EndsAtTerminator self.insts }
    {
        (self.name, self.insts)
    }

    /// Its name, without the `:`.
    pub fn name(&self) -> &Name
        ensures { result.now ≡ self.now.name }
    {
        &self.name
    }

    /// Its instructions, the terminator last.
    pub fn insts(&self) -> &[Inst]
        ensures value { result.now ≡ self.now.insts }
        ensures ends { EndsAtTerminator self.now.insts }
    {
        self.insts.as_slice()
    }
}

impl TryClone for Block {
    fn try_clone_in(&self, alloc: Global) -> Result<Block, Memory> {
        Ok(Block {
            name: self.name.try_clone_in(alloc)?,
            insts: try_clone_all(alloc, self.insts.as_slice())?,
        })
    }
}
