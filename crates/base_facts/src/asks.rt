//! Facts that are asked of a function, each with its answer.

ghost use Rattle.std.specs.Prelude.{◌≡◌, ◌<◌, false, Some, length, map, IfOk, slice_get};
ghost use Rattle.std.specs.List.{All, AllZip};
ghost use Rattle.ir_ast.specs.Formed.{IsFormed};
ghost use Rattle.ir_cfg.specs.Graphs.{graph_of};
ghost use Rattle.object_meaning.specs.Frames.{is_member};
ghost use Rattle.pair_facts.specs.Lines.{lines_at, line_in};
ghost use Rattle.fact_tables.specs.Tables.{AreTables, IsPlace};
ghost use Rattle.base_facts.specs.Asked.{IsAsked, IsReached};
ghost use Rattle.base_facts.specs.Answers.{IsAskable, IsAnswered};
ghost use Rattle.base_facts.specs.Found.{HasFound, HasFoundFact, told_by};

use crate::closing::close;
use crate::facts::{Fact, fact_at};
use crate::missed::missed;
use crate::search::{Asked, nothing_asked, number_of};
use crate::settle::{Answer, settled};
use fact_tables::tables::{Tables, tables_of};
use ir_ast::{Func, Operand};
use ir_cfg::Cfg;
use pair_facts::Base;
use since_statepoint::Since;
use sp_ids::{BlockId, Memory};
use std::alloc::Global;
use std::marker::Model;

/// A pair at a place of a function: whether the pointer has the base before the line at this place of this block. With the
/// base `Any` it is asked whether the pointer is fresh.
#[derive(Clone, Copy, Debug, PartialEq, Eq)]
pub struct Ask {
    pub block: BlockId,
    /// The place in the block, from 0; that of the block's end stands behind its last line.
    pub place: u32,
    pub pointer: Operand,
    pub base: Base,
}

/// Whether pairs stand on every path to their places (Garbage Collection Safepoints in LLVM, "Base & Derived Pointers").
/// Contracts see a list of truth values, one for each pair that was asked.
#[derive(Drop)]
pub struct Facts {
    answers: Vec<bool>,
}

impl Model for Facts {
    ghost use Rattle.std.specs.Prelude.{List, Bool};

    ghost Value = { List Bool };

    ghost view = { λ facts. facts.answers.items };
}

impl Facts {
    /// The answers to these asks, of places that stand behind the phis of their blocks and before no result or relocate.
    /// The table of all pairs isn't made: only what the asks need is looked at. `cfg` has the edges of the function.
    pub fn of(alloc: Global, func: &Func, cfg: &Cfg, asks: &[Ask]) -> Result<Facts, Memory>
        requires formed { IsFormed func.now.content }
        requires edges { cfg.now ≡ graph_of func.now.content }
        requires asks { All (IsAskable func.now.content) asks.now }
        ensures { IfOk result (λ facts. AllZip (IsAnswered func.now.content) asks.now facts) }
    {
        Ok(Facts {
            answers: answers(alloc, func, cfg, asks)?,
        })
    }

    /// Whether the pair that was asked with this number stands before its place on every path there. Where no path leads
    /// there, it does.
    pub fn holds_before(&self, ask: usize) -> bool
        requires { ask < length self.now }
        ensures { slice_get self.now ask ≡ Some result }
    {
        self.answers[ask]
    }

    /// How many pairs were asked.
    pub fn len(&self) -> usize
        ensures { result ≡ length self.now }
    {
        self.answers.len()
    }
}

// What is known of an ask before the facts have asked one another.
#[derive(Clone, Copy)]
enum Found {
    Known(bool),
    /// It stands where the fact with this number holds.
    Numbered(usize),
}

fn answers(alloc: Global, func: &Func, cfg: &Cfg, asks: &[Ask]) -> Result<Vec<bool>, Memory>
    requires formed { IsFormed func.now.content }
    requires edges { cfg.now ≡ graph_of func.now.content }
    requires asks { All (IsAskable func.now.content) asks.now }
    ensures { IfOk result (λ answers. AllZip (IsAnswered func.now.content) asks.now answers.items) }
{
    let tables = tables_of(alloc, func)?;
    let mut asked = nothing_asked(alloc);
    let mut found = Vec::new(alloc);
    for ask in asks {
        found.push(find(alloc, func, cfg, &tables, &mut asked, *ask)?)?;
    }
    let since = Since::of(alloc, func, cfg, &tables)?;
    close(alloc, func, cfg, &tables, &since, &mut asked)?;
    let marks = missed(alloc, &asked)?;
    told(alloc, &found, &marks)
}

fn find(
    alloc: Global,
    func: &Func,
    cfg: &Cfg,
    tables: &Tables,
    asked: &mut Asked,
    ask: Ask,
) -> Result<Found, Memory>
    requires tables { AreTables func.now.content tables.now }
    requires edges { cfg.now ≡ graph_of func.now.content }
    requires ask { IsAskable func.now.content ask }
    requires asked { IsAsked func.now.content asked.old }
    ensures { IfOk result (λ found. HasFound func.now.content ask found asked.old asked.new) }
{
    if !cfg.reached(ask.block) {
        return Ok(Found::Known(true));
    }
    match fact_at(
        ask.block.0 as usize,
        ask.place as usize,
        ask.pointer,
        ask.base,
    ) {
        None => Ok(Found::Known(false)),
        Some(fact) => find_fact(alloc, func, tables, asked, fact),
    }
}

fn find_fact(
    alloc: Global,
    func: &Func,
    tables: &Tables,
    asked: &mut Asked,
    fact: Fact,
) -> Result<Found, Memory>
    requires tables { AreTables func.now.content tables.now }
    requires place { IsPlace func.now.content fact.block fact.place }
    requires outside { is_member (line_in (lines_at func.now.content fact.block) fact.place).inst.op ≡ false }
    requires reached { IsReached func.now.content fact.block }
    requires asked { IsAsked func.now.content asked.old }
    ensures { IfOk result (λ found. HasFoundFact func.now.content fact found asked.old asked.new) }
{
    match settled(func, tables, fact) {
        Answer::Always => Ok(Found::Known(true)),
        Answer::Never => Ok(Found::Known(false)),
        Answer::Asks(other) => Ok(Found::Numbered(number_of(alloc, asked, other)?)),
    }
}

fn told(alloc: Global, found: &[Found], marks: &[bool]) -> Result<Vec<bool>, Memory>
    ensures { IfOk result (λ answers. answers.items ≡ map (told_by marks.now) found.now) }
{
    let mut answers = Vec::new(alloc);
    for one in found {
        answers.push(told_by(*one, marks))?;
    }
    Ok(answers)
}

fn told_by(found: Found, marks: &[bool]) -> bool
    ensures { result ≡ told_by marks.now found }
{
    match found {
        Found::Known(answer) => answer,
        Found::Numbered(number) => !marks.get(number).copied().unwrap_or(false),
    }
}
