//! The asks of questions, and the number of each.

ghost use Rattle.std.specs.Prelude.{◌≡◌, ◌++◌, ◌∷◌, [], IfOk, length};
ghost use Rattle.fact_tables.specs.Tables.{AreTables};
ghost use Rattle.place_facts.specs.Spots.{KnowsSpots};
ghost use Rattle.place_facts.specs.Asks.{AsksFor};
ghost use Rattle.place_facts.specs.Asked.{KnowsAsks, HasAsked, AddsAsk};

use crate::asking::ask_of;
use crate::facts::Question;
use crate::keys::{Key, key_of};
use crate::spots::{Spot, spots};
use base_facts::Ask;
use fact_tables::tables::{Tables, tables_of};
use indexmap::IndexMap;
use ir_ast::Func;
use sp_ids::Memory;
use std::alloc::Global;

/// What questions ask.
#[derive(Drop)]
pub(crate) struct Asked {
    /// The number of the ask of each question that has one.
    pub(crate) numbers: IndexMap<Key, usize>,
    pub(crate) asks: Vec<Ask>,
}

/// What these questions ask.
pub(crate) fn asked_by(alloc: Global, func: &Func, questions: &[Question]) -> Result<Asked, Memory>
    ensures { IfOk result (λ asked. KnowsAsks func.now.content questions.now (length questions.now) asked) }
{
    let tables = tables_of(alloc, func)?;
    let spots = spots(alloc, func)?;
    let mut asked = nothing_asked(alloc);
    for question in questions {
        add(func, &tables, &spots, *question, &mut asked)?;
    }
    Ok(asked)
}

fn nothing_asked(alloc: Global) -> Asked
    ensures numbers { result.numbers.entries ≡ [] }
    ensures asks { result.asks.items ≡ [] }
{
    Asked {
        numbers: IndexMap::new(alloc),
        asks: Vec::new(alloc),
    }
}

fn add(
    func: &Func,
    tables: &Tables,
    spots: &[Spot],
    question: Question,
    asked: &mut Asked,
) -> Result<(), Memory>
    requires tables { AreTables func.now.content tables.now }
    requires spots { KnowsSpots func.now.content spots.now }
    ensures { IfOk result (λ _. HasAsked func.now.content question asked.old asked.new) }
{
    match ask_of(func, tables, spots, question) {
        Some(ask) => add_ask(question, ask, asked),
        None => Ok(()),
    }
}

// A question that was asked before has from now on this number.
fn add_ask(question: Question, ask: Ask, asked: &mut Asked) -> Result<(), Memory>
    ensures { IfOk result (λ _. AddsAsk question ask asked.old asked.new) }
{
    asked.numbers.insert(key_of(question), asked.asks.len())?;
    asked.asks.push(ask)?;
    Ok(())
}
