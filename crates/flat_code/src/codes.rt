//! A module as it is run: its functions, decoded.

ghost use Rattle.std.specs.Prelude.{◌≡◌, [], Some, None, IfOk, MatchOption, slice_get};
ghost use Rattle.std.specs.Option.{option_map};
ghost use Rattle.object_meaning.specs.Lines.{insts_of, register_count};
ghost use Rattle.flat_code.specs.Segments.{IsFunction};
ghost use Rattle.flat_code.specs.Codes.{IsReadyModule, function_at, segment_at, Fits, HasFront, Begins, AreDecoded};

use crate::decode::function;
use crate::lines::{Function, Segment};
use crate::sources::Source;
use ir_ast::{Func, Module};
use sp_ids::Memory;
use std::alloc::Global;
use std::marker::Model;

/// A module whose functions are decoded. Contracts see them with its content.
#[derive(Drop)]
pub struct Code<'m> {
    module: &'m Module,
    functions: Vec<Function>,
    nowhere: Function,
}

impl<'m> Model for Code<'m> {
    ghost use Rattle.flat_code.specs.Codes.{FlatModule, AreFunctions};

    ghost Value = { FlatModule };

    ghost view = { λ code. record { content = code.«module».now.content; functions = code.functions.items; nowhere = code.nowhere } };

    ghost invariant = { λ code. AreFunctions (record { content = code.«module».now.content; functions = code.functions.items; nowhere = code.nowhere }) };
}

impl<'m> Code<'m> {
    /// Decodes a module of the source form.
    pub fn of(alloc: Global, module: &'m Module) -> Result<Code<'m>, Memory>
        requires { IsReadyModule «module».now.content }
        ensures { IfOk result (λ code. code.content ≡ «module».now.content) }
    {
        let functions = all_functions(alloc, module)?;
        let nowhere = function_of(alloc, module, module.funcs().len())?;
        Ok(Code {
            module,
            functions,
            nowhere,
        })
    }

    /// Its module.
    pub fn module(&self) -> &Module
        ensures { result.now.content ≡ self.now.content }
    {
        self.module
    }

    /// A function of its module.
    pub fn func(&self, func: u32) -> Option<&Func>
        ensures { option_map (λ func. func.now.content) result ≡ slice_get self.now.content.funcs func }
    {
        self.module.func_at(func as usize)
    }

    /// The segment at a place of a function.
    pub fn segment(&self, func: u32, place: u32) -> Option<&Segment>
        ensures { MatchOption result (segment_at self.now func place ≡ None) (λ segment. Fits self.now func place segment.now) }
    {
        match segment_in(self.function(func).segments.as_slice(), place as usize) {
            None => None,
            Some(segment) => Some(segment),
        }
    }

    /// How many registers a function has, which begins at its segment 0.
    pub fn registers(&self, func: u32) -> usize
        ensures value { result ≡ register_count self.now.content func }
        ensures front { HasFront self.now func }
    {
        self.function(func).registers
    }

    /// The place of the segment behind the phis of a block.
    pub fn start(&self, func: u32, block: u32) -> Option<u32>
        ensures { MatchOption result (insts_of self.now.content func block ≡ []) (Begins self.now func block) }
    {
        match start_in(self.function(func).starts.as_slice(), block as usize) {
            None => None,
            Some(place) => Some(place),
        }
    }

    fn function(&self, func: u32) -> &Function
        ensures value { result.now ≡ function_at self.now func }
        ensures fits { IsFunction self.now.content.layouts (slice_get self.now.content.funcs func) result.now }
    {
        match self.functions.get(func as usize) {
            None => &self.nowhere,
            Some(function) => function,
        }
    }
}

fn all_functions(alloc: Global, module: &Module) -> Result<Vec<Function>, Memory>
    requires { IsReadyModule «module».now.content }
    ensures { IfOk result (λ functions. AreDecoded «module».now.content functions.items) }
{
    let mut functions = Vec::new(alloc);
    for place in 0..module.funcs().len() {
        functions.push(function_of(alloc, module, place)?)?;
    }
    Ok(functions)
}

// The decoded function of this number, or a function without lines.
fn function_of(alloc: Global, module: &Module, place: usize) -> Result<Function, Memory>
    requires { IsReadyModule «module».now.content }
    ensures { IfOk result (λ func. IsFunction «module».now.content.layouts (slice_get «module».now.content.funcs place) func) }
{
    let source = Source::of(alloc, module.layouts(), module.func_at(place))?;
    function(alloc, &source)
}

fn segment_in(segments: &[Segment], place: usize) -> Option<&Segment>
    ensures { MatchOption result (slice_get segments.now place ≡ None) (λ segment. slice_get segments.now place ≡ Some segment.now) }
{
    segments.get(place)
}

fn start_in(starts: &[u32], block: usize) -> Option<u32>
    ensures { result ≡ slice_get starts.now block }
{
    starts.get(block).copied()
}
