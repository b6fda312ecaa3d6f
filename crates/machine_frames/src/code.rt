//! A rewritten module as it is run: its instructions, the registers of their results, and their addresses.

ghost use Rattle.std.specs.Prelude.{◌≡◌, [], ◌≤◌, ◌<◌, IfOk, OnOk, length, map, MatchOption, None, Some, slice_get, slice_index, ◌-◌};
ghost use Rattle.std.specs.List.{All};
ghost use Rattle.std.specs.Option.{option_map, option_map_or};
ghost use Rattle.ir_ast.specs.Funcs.{content_of};
ghost use Rattle.object_meaning.specs.Lines.{insts_in, insts_of, first_register, register_count};
ghost use Rattle.machine_meaning.specs.Code.{code_address, words_in};
ghost use Rattle.machine_frames.specs.Tables.{site_of, table_of, before_in, IsSmallFunction};

use crate::landings::{Landing, landings_of};
use crate::numbering::{befores_of, registers_of};
use frame_slots::Layouts;
use ir_ast::{Func, Inst, Module};
use machine_lines::Lines;
use sp_ids::limits::FUNCTIONS;
use sp_ids::{FuncId, Memory};
use std::alloc::Global;
use std::marker::Model;

/// How many instructions stand before each block of a function, and last how many it has; the register of the first result of each; last the
/// number of its registers. The blocks as jumps come to them.
#[derive(Drop)]
pub(crate) struct Table<'m> {
    befores: Vec<usize>,
    firsts: Vec<usize>,
    landings: Vec<Landing<'m>>,
}

impl<'m> Model for Table<'m> {
    ghost use Rattle.machine_frames.specs.Tables.{Tabled};

    ghost Value = { Tabled };

    ghost view = { λ table. record { befores = table.befores.items; firsts = table.firsts.items; sites = table.landings.items } };
}

/// A module with what is counted once of its functions. Contracts see the module's content.
#[derive(Drop)]
pub struct Code<'m> {
    module: &'m Module,
    layouts: Layouts,
    tables: Vec<Table<'m>>,
}

impl<'m> Model for Code<'m> {
    ghost use Rattle.ir_ast.specs.Modules.{ModuleContent};
    ghost use Rattle.machine_frames.specs.Tables.{AreOf};

    ghost Value = { ModuleContent };

    ghost view = { λ code. code.«module».now.content };

    ghost invariant = { λ code. AreOf code.«module».now.content code.layouts code.tables.items };
}

impl<'m> Code<'m> {
    /// Counts what is counted once.
    pub fn of(alloc: Global, module: &'m Module) -> Result<Code<'m>, Memory>
        ensures { IfOk result (λ code. code ≡ «module».now.content) }
    {
        if module.funcs().len() > FUNCTIONS as usize {
            return Err(Memory);
        }
        let layouts = Layouts::of(alloc, module)?;
        let tables = tables_of(alloc, module.funcs())?;
        Ok(Code {
            module,
            layouts,
            tables,
        })
    }

    /// The module.
    pub fn module(&self) -> &'m Module
        ensures { result.now.content ≡ self.now }
    {
        self.module
    }

    /// The instructions of a block; none, where there is no such block.
    pub fn lines(&self, func: u32, block: u32) -> Lines<'_>
        ensures { result.insts.now ≡ insts_of self.now func block }
    {
        match self.landing(func, block) {
            None => Lines::none(),
            Some(landing) => landing.lines(),
        }
    }

    /// A block of a function as a jump comes to it; none, where there is no such block.
    #[inline(always)]
    pub(crate) fn landing(&self, func: u32, block: u32) -> Option<&Landing<'m>>
        ensures { MatchOption result (insts_of self.now func block ≡ []) (λ landing. landing.now ≡ site_of self.now func block) }
    {
        match table_in(self.tables.as_slice(), func as usize) {
            None => None,
            Some(table) => table.landing(block),
        }
    }

    /// The instructions of a block; none, where there is no such block.
    pub fn insts(&self, func: u32, block: u32) -> &'m [Inst]
        ensures { result.now ≡ insts_of self.now func block }
    {
        match func_at(self.module, func as usize) {
            None => &[],
            Some(func) => insts_in(func, block),
        }
    }

    /// The register of the first result of a block.
    pub fn first(&self, func: u32, block: u32) -> usize
        ensures { result ≡ first_register self.now func block }
    {
        match self.tables.get(func as usize) {
            None => 0,
            Some(table) => table.first(block),
        }
    }

    /// How many registers a function has.
    pub fn registers(&self, func: u32) -> usize
        ensures { result ≡ register_count self.now func }
    {
        match self.tables.get(func as usize) {
            None => 0,
            Some(table) => table.last(),
        }
    }

    /// How many words the frames of a function have, without the return word.
    pub fn frame_words(&self, func: u32) -> Result<u32, Memory>
        ensures { IfOk result (λ words. words ≡ words_in self.now func) }
    {
        if func as usize >= self.layouts.function_count() {
            return Ok(0);
        }
        let words = self.layouts.frame_bytes(FuncId(func)) / 8;
        if words > u64::from(u32::MAX) {
            return Err(Memory);
        }
        Ok(words as u32)
    }

    /// The address of the instruction with this place in its block. It is below 2^64, since functions are small and few.
    pub fn address(&self, func: u32, block: u32, place: usize) -> u64
        requires { place ≤ length (insts_of self.now func block) }
        ensures { result ≡ code_address self.now func block place }
    {
        match table_in(self.tables.as_slice(), func as usize) {
            None => 0,
            Some(table) => {
                let start = self.layouts.address(FuncId(func));
                start + 4 * (table.ahead(block) + place) as u64
            }
        }
    }
}

impl<'m> Table<'m> {
    fn first(&self, block: u32) -> usize
        ensures { result ≡ slice_index self.now.firsts block }
    {
        self.firsts.get(block as usize).copied().unwrap_or(0)
    }

    #[inline(always)]
    fn landing(&self, block: u32) -> Option<&Landing<'m>>
        ensures { MatchOption result (slice_get self.now.sites block ≡ None) (λ landing. slice_get self.now.sites block ≡ Some landing.now) }
    {
        self.landings.get(block as usize)
    }

    fn last(&self) -> usize
        ensures { result ≡ slice_index self.now.firsts (length self.now.firsts - 1) }
    {
        self.firsts.last().copied().unwrap_or(0)
    }

    fn ahead(&self, block: u32) -> usize
        ensures { result ≡ before_in self.now.befores block }
    {
        let all = self.befores.last().copied().unwrap_or(0);
        self.befores.get(block as usize).copied().unwrap_or(all)
    }
}

fn tables_of(alloc: Global, funcs: &[Func]) -> Result<Vec<Table<'_>>, Memory>
    ensures tables { IfOk result (λ tables. tables.items ≡ map (λ func. table_of func.content) funcs.now) }
    ensures small { OnOk result (All (λ func. IsSmallFunction func.content) funcs.now) }
{
    let mut tables = Vec::new(alloc);
    for func in funcs {
        tables.push(table_of(alloc, func)?)?;
    }
    Ok(tables)
}

fn table_of(alloc: Global, func: &Func) -> Result<Table<'_>, Memory>
    ensures table { IfOk result (λ table. table ≡ table_of func.now.content) }
    ensures small { IsSmallFunction func.now.content }
{
    let befores = befores_of(alloc, func.blocks())?;
    let firsts = registers_of(alloc, func)?;
    let landings = landings_of(alloc, func)?;
    Ok(Table {
        befores,
        firsts,
        landings,
    })
}

fn func_at(module: &Module, place: usize) -> Option<&Func>
    ensures { option_map (λ func. func.now.content) result ≡ slice_get «module».now.content.funcs place }
{
    match func_in(module.funcs(), place) {
        None => None,
        Some(func) => Some(func),
    }
}

fn func_in(funcs: &[Func], place: usize) -> Option<&Func>
    ensures { MatchOption result (slice_get funcs.now place ≡ None) (λ func. slice_get funcs.now place ≡ Some func.now) }
{
    funcs.get(place)
}

#[inline(always)]
fn table_in<'t, 'm>(tables: &'t [Table<'m>], place: usize) -> Option<&'t Table<'m>>
    ensures { MatchOption result (slice_get tables.now place ≡ None) (λ table. slice_get tables.now place ≡ Some table.now) }
{
    tables.get(place)
}

fn insts_in(func: &Func, block: u32) -> &[Inst]
    ensures { result.now ≡ insts_in func.now.content block }
{
    match func.blocks().get(block as usize) {
        None => &[],
        Some(block) => block.insts(),
    }
}
