//! The layout of a module.
ghost use Rattle.std.specs.Prelude.{◌≡◌, ◌≤◌, ◌<◌, ◌^◌, ◌+◌, ◌*◌, ◌∷◌, ◌++◌, [], length, slice_index, OnOk, IfOk, IfSome, IsSome};
ghost use Rattle.frame_forms.specs.FrameSizes.{slot};
ghost use Rattle.frame_forms.specs.ModuleLayouts.{address_in, deopt_word_in, frame_bytes_in, layout_of, returns_in, statepoints_in};

use crate::bundles::word_at;
use crate::entries::{Entry, add, next_start};
use ir_ast::Module;
use sp_ids::{FuncId, Memory};
use std::alloc::Global;
use std::marker::Model;

/// Where the first function starts.
const FIRST_START: u64 = 4_096;

/// Where the functions of a module stand, and what their frames hold. Contracts see a list of one
/// `FunctionLayout` for each function.
#[derive(Drop)]
pub struct Layouts {
    entries: Vec<Entry>,
    returns: Vec<u32>,
}

impl Model for Layouts {
    ghost use Rattle.std.specs.Prelude.{List};
    ghost use Rattle.frame_forms.specs.ModuleLayouts.{FunctionLayout};
    ghost use Rattle.frame_slots.specs.Tables.{layouts_in, AreWithin};

    ghost Value = { List FunctionLayout };

    ghost view = { λ layouts. layouts_in layouts.returns.items layouts.entries.items };

    ghost invariant = { λ layouts. AreWithin layouts.returns.items layouts.entries.items };
}

impl Layouts {
    /// The layout of a module of at most 4,096 functions.
    pub fn of(alloc: Global, module: &Module) -> Result<Layouts, Memory>
        requires few_functions { length «module».now.content.funcs ≤ 4096 }
        ensures value { IfOk result (λ layouts. layouts ≡ layout_of «module».now.content) }
    {
        let funcs = module.funcs();
        let mut entries = Vec::with_capacity(alloc, funcs.len())?;
        let mut returns = Vec::new(alloc);
        let mut start = FIRST_START;
        for func in funcs {
            add(alloc, &mut entries, &mut returns, start, func)?;
            start = next_start(start, func);
        }
        Ok(Layouts { entries, returns })
    }

    /// How many functions there are.
    pub fn function_count(&self) -> usize
        ensures { result ≡ length self.now }
    {
        self.entries.len()
    }

    /// The address of the first instruction of a function.
    pub fn address(&self, func: FuncId) -> u64
        requires { func.0 < length self.now }
        ensures { result ≡ address_in self.now func.0 }
    {
        self.entries[func.0 as usize].address
    }

    /// How many bytes the frames of a function have, without the word of the return address.
    pub fn frame_bytes(&self, func: FuncId) -> u64
        requires { func.0 < length self.now }
        ensures { result ≡ frame_bytes_in self.now func.0 }
    {
        self.entries[func.0 as usize].frame_bytes
    }

    /// How many statepoints a function has.
    pub fn statepoints(&self, func: FuncId) -> usize
        requires { func.0 < length self.now }
        ensures { result ≡ statepoints_in self.now func.0 }
    {
        self.entries[func.0 as usize].statepoints
    }

    /// Where the call at this place of a function returns to, in bytes from the function's start. The
    /// place is the number of an instruction in its function, from 0 in text order.
    pub fn return_offset(&self, func: FuncId, place: u32) -> u32
        requires exists { func.0 < length self.now }
        requires within { place < length (returns_in self.now func.0) }
        ensures { result ≡ slice_index (returns_in self.now func.0) place }
    {
        let entry = &self.entries[func.0 as usize];
        self.returns[entry.first + place as usize]
    }

    /// The slot of a live entry of a statepoint, by its number in the "gc-live" list, in bytes from the
    /// stack pointer.
    pub fn slot(&self, live_index: u32) -> u32
        requires { live_index < 2 ^ 29 }
        ensures { result ≡ slot live_index }
    {
        8 * live_index
    }
    /// The slot of a named operand of the "deopt" bundle of the statepoint at this place of a function, by its number in
    /// the bundle, in bytes from the stack pointer. It looks through the function's statepoints with bundles.
    pub fn deopt_slot(&self, func: FuncId, place: u32, operand: u32) -> u32
        requires exists { func.0 < length self.now }
        requires kept { IsSome (deopt_word_in self.now func.0 place operand) }
        requires small { IfSome (deopt_word_in self.now func.0 place operand) (λ word. word < 2 ^ 29) }
        ensures { IfSome (deopt_word_in self.now func.0 place operand) (λ word. result ≡ slot word) }
    {
        let entry = &self.entries[func.0 as usize];
        match word_at(&entry.bundles, place, operand) {
            Some(word) => 8 * word as u32,
            None => 0,
        }
    }
}
