//! From the facts that are asked to all that these rest on.

ghost use Rattle.std.specs.Prelude.{◌≡◌, ◌<◌, true, length, IfOk, slice_get};
ghost use Rattle.ir_cfg.specs.Graphs.{graph_of, Edge};
ghost use Rattle.object_meaning.specs.Jumps.{phi_count};
ghost use Rattle.pair_facts.specs.Lines.{lines_at};
ghost use Rattle.pair_facts.specs.Pairs.{at_entry};
ghost use Rattle.fact_tables.specs.Tables.{AreTables};
ghost use Rattle.since_statepoint.specs.Splits.{IsSince};
ghost use Rattle.base_facts.specs.Facts.{operand_in, base_in};
ghost use Rattle.base_facts.specs.Settled.{IsDefined};
ghost use Rattle.base_facts.specs.Asked.{IsReached, IsAsked, IsFact};
ghost use Rattle.base_facts.specs.Sources.{IsSource};
ghost use Rattle.base_facts.specs.Closing.{AskedAlong, HasClosed, AllClosed, CanStep, HasStepped};

use crate::edges::{along_edge, holds_at_entry};
use crate::facts::{Fact, Pointer};
use crate::search::{Asked, ask, fail};
use crate::sources::{Source, source_of};
use crate::steps::{Step, step_of};
use fact_tables::tables::{Tables, front_of};
use ir_ast::Func;
use ir_cfg::Cfg;
use since_statepoint::Since;
use sp_ids::{BlockId, Memory};
use std::alloc::Global;

/// Goes on from fact to fact, until each has asked for what it needs.
pub(crate) fn close(
    alloc: Global,
    func: &Func,
    cfg: &Cfg,
    tables: &Tables,
    since: &Since,
    asked: &mut Asked,
) -> Result<(), Memory>
    requires tables { AreTables func.now.content tables.now }
    requires since { IsSince func.now.content since.now }
    requires edges { cfg.now ≡ graph_of func.now.content }
    requires asked { IsAsked func.now.content asked.old }
    ensures { IfOk result (λ _. AllClosed func.now.content asked.old asked.new) }
{
    for number in 0..usize::MAX {
        match fact_of(asked, number) {
            None => return Ok(()),
            Some(fact) => expand(alloc, func, cfg, tables, since, asked, number, fact)?,
        }
    }
    Err(Memory)
}

fn fact_of(asked: &Asked, number: usize) -> Option<Fact>
    ensures { result ≡ slice_get asked.now.facts.keys number }
{
    asked.facts.get_index(number).copied()
}

fn expand(
    alloc: Global,
    func: &Func,
    cfg: &Cfg,
    tables: &Tables,
    since: &Since,
    asked: &mut Asked,
    number: usize,
    fact: Fact,
) -> Result<(), Memory>
    requires tables { AreTables func.now.content tables.now }
    requires since { IsSince func.now.content since.now }
    requires edges { cfg.now ≡ graph_of func.now.content }
    requires asked { IsAsked func.now.content asked.old }
    requires stands { IsFact asked.old number fact }
    ensures { IfOk result (λ _. HasClosed func.now.content number fact asked.old asked.new) }
{
    if fact.place == front_of(func, tables, fact.block) {
        expand_front(alloc, func, cfg, tables, since, asked, number, fact)
    } else {
        expand_definition(alloc, func, tables, asked, number, fact)
    }
}

// A fact behind the phis of a block asks for what it is at the end of the block where it was given last, or of each block
// before.
fn expand_front(
    alloc: Global,
    func: &Func,
    cfg: &Cfg,
    tables: &Tables,
    since: &Since,
    asked: &mut Asked,
    number: usize,
    fact: Fact,
) -> Result<(), Memory>
    requires tables { AreTables func.now.content tables.now }
    requires since { IsSince func.now.content since.now }
    requires edges { cfg.now ≡ graph_of func.now.content }
    requires block { fact.block < length func.now.content.blocks }
    requires asked { IsAsked func.now.content asked.old }
    requires stands { IsFact asked.old number fact }
    requires front { fact.place ≡ phi_count (lines_at func.now.content fact.block) }
    ensures { IfOk result (λ _. HasClosed func.now.content number fact asked.old asked.new) }
{
    if fact.block == 0 && !holds_at_entry(func, fact) {
        return fail(func, asked, number);
    }
    match source_of(func, cfg, tables, since, fact) {
        Source::Edges => ask_edges(alloc, func, cfg, tables, asked, number, fact),
        Source::Nowhere => fail(func, asked, number),
        Source::Behind(block) => ask_behind(alloc, func, tables, asked, number, fact, block),
    }
}

// The fact asks for what it is at the end of each block before.
fn ask_edges(
    alloc: Global,
    func: &Func,
    cfg: &Cfg,
    tables: &Tables,
    asked: &mut Asked,
    number: usize,
    fact: Fact,
) -> Result<(), Memory>
    requires tables { AreTables func.now.content tables.now }
    requires edges { cfg.now ≡ graph_of func.now.content }
    requires block { fact.block < length func.now.content.blocks }
    requires asked { IsAsked func.now.content asked.old }
    requires stands { IsFact asked.old number fact }
    requires front { fact.place ≡ phi_count (lines_at func.now.content fact.block) }
    requires entry { fact.block ≡ 0 → at_entry func.now.content (operand_in fact.pointer) (base_in fact.base) ≡ true }
    ensures { IfOk result (λ _. HasClosed func.now.content number fact asked.old asked.new) }
{
    for pred in cfg.preds(block_id(func, fact.block)) {
        ask_if_reached(alloc, func, cfg, tables, asked, number, fact, *pred)?;
    }
    Ok(())
}

fn block_id(func: &Func, block: usize) -> BlockId
    requires { block < length func.now.content.blocks }
    ensures { result.0 ≡ block }
{
    let _blocks = func.blocks();
    BlockId(block as u32)
}

fn ask_if_reached(
    alloc: Global,
    func: &Func,
    cfg: &Cfg,
    tables: &Tables,
    asked: &mut Asked,
    number: usize,
    fact: Fact,
    from: BlockId,
) -> Result<(), Memory>
    requires tables { AreTables func.now.content tables.now }
    requires edges { cfg.now ≡ graph_of func.now.content }
    requires edge { Edge (graph_of func.now.content) from.0 fact.block }
    requires block { fact.block < length func.now.content.blocks }
    requires asked { IsAsked func.now.content asked.old }
    requires stands { IsFact asked.old number fact }
    requires front { fact.place ≡ phi_count (lines_at func.now.content fact.block) }
    ensures { IfOk result (λ _. AskedAlong func.now.content number fact from.0 asked.old asked.new) }
{
    if cfg.reached(from) {
        ask_along(alloc, func, tables, asked, number, fact, from)
    } else {
        Ok(())
    }
}

fn ask_along(
    alloc: Global,
    func: &Func,
    tables: &Tables,
    asked: &mut Asked,
    number: usize,
    fact: Fact,
    from: BlockId,
) -> Result<(), Memory>
    requires tables { AreTables func.now.content tables.now }
    requires edge { Edge (graph_of func.now.content) from.0 fact.block }
    requires reached { IsReached func.now.content from.0 }
    requires block { fact.block < length func.now.content.blocks }
    requires asked { IsAsked func.now.content asked.old }
    requires stands { IsFact asked.old number fact }
    requires front { fact.place ≡ phi_count (lines_at func.now.content fact.block) }
    ensures { IfOk result (λ _. AskedAlong func.now.content number fact from.0 asked.old asked.new) }
{
    let end = count_insts(func, from);
    match along_edge(func, tables, from, end, fact) {
        Some(other) => ask(alloc, func, tables, asked, number, other),
        None => fail(func, asked, number),
    }
}

// The fact asks for what it is at the end of a block.
fn ask_behind(
    alloc: Global,
    func: &Func,
    tables: &Tables,
    asked: &mut Asked,
    number: usize,
    fact: Fact,
    block: usize,
) -> Result<(), Memory>
    requires tables { AreTables func.now.content tables.now }
    requires asked { IsAsked func.now.content asked.old }
    requires stands { IsFact asked.old number fact }
    requires front { fact.place ≡ phi_count (lines_at func.now.content fact.block) }
    requires source { IsSource func.now.content fact block }
    ensures { IfOk result (λ _. HasClosed func.now.content number fact asked.old asked.new) }
{
    let place = count_insts(func, block_id(func, block));
    let other = Fact {
        block,
        place,
        pointer: fact.pointer,
        base: fact.base,
    };
    ask(alloc, func, tables, asked, number, other)
}

fn count_insts(func: &Func, block: BlockId) -> usize
    requires { block.0 < length func.now.content.blocks }
    ensures { result ≡ length (lines_at func.now.content block.0) }
{
    func.blocks()[block.0 as usize].insts().len()
}

// A fact behind the definition of its pointer asks for what the line of the definition needs.
fn expand_definition(
    alloc: Global,
    func: &Func,
    tables: &Tables,
    asked: &mut Asked,
    number: usize,
    fact: Fact,
) -> Result<(), Memory>
    requires tables { AreTables func.now.content tables.now }
    requires block { fact.block < length func.now.content.blocks }
    requires asked { IsAsked func.now.content asked.old }
    requires stands { IsFact asked.old number fact }
    requires defined { IsDefined func.now.content fact }
    ensures { IfOk result (λ _. HasClosed func.now.content number fact asked.old asked.new) }
{
    match fact.pointer {
        Pointer::Null => Ok(()),
        Pointer::Value(value) => {
            let at = fact.place - 1;
            let step = step_of(func, tables, fact, value, at);
            take_step(alloc, func, tables, asked, number, step)
        }
    }
}

fn take_step(
    alloc: Global,
    func: &Func,
    tables: &Tables,
    asked: &mut Asked,
    number: usize,
    step: Step,
) -> Result<(), Memory>
    requires tables { AreTables func.now.content tables.now }
    requires asked { IsAsked func.now.content asked.old }
    requires step { CanStep func.now.content asked.old number step }
    ensures { IfOk result (λ _. HasStepped func.now.content number step asked.old asked.new) }
{
    match step {
        Step::Known(holds) => {
            if holds {
                Ok(())
            } else {
                fail(func, asked, number)
            }
        }
        Step::One(first) => ask(alloc, func, tables, asked, number, first),
        Step::Two(first, second) => {
            ask(alloc, func, tables, asked, number, first)?;
            ask(alloc, func, tables, asked, number, second)
        }
    }
}
