//! The facts that were asked, their numbers, and who asked them.

ghost use Rattle.std.specs.Prelude.{◌≡◌, ◌<◌, [], false, length, IfOk};
ghost use Rattle.object_meaning.specs.Frames.{is_member};
ghost use Rattle.pair_facts.specs.Lines.{lines_at, line_in};
ghost use Rattle.fact_tables.specs.Tables.{AreTables, IsPlace};
ghost use Rattle.base_facts.specs.Asked.{IsReached, MissesFact, IsAsked, IsFact, IsNumbered, HasFailed, HasAsked, MissedBy, AddsAsker};

use crate::facts::Fact;
use crate::settle::{Answer, settled};
use fact_tables::tables::Tables;
use indexmap::IndexSet;
use ir_ast::Func;
use sp_ids::Memory;
use std::alloc::Global;

/// Facts of reached blocks, numbered as they were asked, and how they ask one another.
#[derive(Drop)]
pub(crate) struct Asked {
    pub(crate) facts: IndexSet<Fact>,
    /// For each fact the numbers of those that ask for it.
    pub(crate) askers: Vec<Vec<usize>>,
    /// Facts that don't hold on some path, whatever the others do.
    pub(crate) failing: Vec<usize>,
}

/// No fact.
pub(crate) fn nothing_asked(alloc: Global) -> Asked
    ensures facts { result.facts.keys ≡ [] }
    ensures askers { result.askers.items ≡ [] }
    ensures failing { result.failing.items ≡ [] }
{
    Asked {
        facts: IndexSet::new(alloc),
        askers: Vec::new(alloc),
        failing: Vec::new(alloc),
    }
}

/// The number of a fact, which is added where it is new.
pub(crate) fn number_of(alloc: Global, asked: &mut Asked, fact: Fact) -> Result<usize, Memory>
    requires { length asked.old.askers.items ≡ length asked.old.facts.keys }
    ensures { IfOk result (λ number. IsNumbered fact number asked.old asked.new) }
{
    let next = asked.askers.len();
    let (number, is_new) = asked.facts.insert_full(fact)?;
    if !is_new {
        return Ok(number);
    }
    asked.askers.push(Vec::new(alloc))?;
    Ok(next)
}

/// The fact with this number doesn't hold on some path.
pub(crate) fn fail(func: &Func, asked: &mut Asked, asker: usize) -> Result<(), Memory>
    requires asked { IsAsked func.now.content asked.old }
    requires inside { asker < length asked.old.facts.keys }
    requires misses { (fact : Fact) → IsFact asked.old asker fact → MissesFact func.now.content fact }
    ensures { IfOk result (λ _. HasFailed func.now.content asker asked.old asked.new) }
{
    asked.failing.push(asker)?;
    Ok(())
}

/// The fact with this number asks for another, without which it doesn't hold.
pub(crate) fn ask(
    alloc: Global,
    func: &Func,
    tables: &Tables,
    asked: &mut Asked,
    asker: usize,
    fact: Fact,
) -> Result<(), Memory>
    requires tables { AreTables func.now.content tables.now }
    requires place { IsPlace func.now.content fact.block fact.place }
    requires outside { is_member (line_in (lines_at func.now.content fact.block) fact.place).inst.op ≡ false }
    requires reached { IsReached func.now.content fact.block }
    requires asked { IsAsked func.now.content asked.old }
    requires inside { asker < length asked.old.facts.keys }
    requires misses { MissedBy func.now.content asked.old asker fact }
    ensures { IfOk result (λ _. HasAsked func.now.content asker fact asked.old asked.new) }
{
    match settled(func, tables, fact) {
        Answer::Always => Ok(()),
        Answer::Never => fail(func, asked, asker),
        Answer::Asks(other) => {
            let number = number_of(alloc, asked, other)?;
            add_asker(asked, number, asker)?;
            Ok(())
        }
    }
}

// One asker more of a fact.
fn add_asker(asked: &mut Asked, number: usize, asker: usize) -> Result<(), Memory>
    requires { number < length asked.old.askers.items }
    ensures { IfOk result (λ _. AddsAsker number asker asked.old asked.new) }
{
    asked.askers[number].push(asker)?;
    Ok(())
}
