//! Faults that pairs of pointers and bases decide.

ghost use Rattle.std.specs.Prelude.{◌≡◌, ◌<◌, ◌+◌, ◌*◌, ◌++◌, false, length, slice_index_or, IfOk};
ghost use Rattle.std.specs.List.{AllZip, flat_map};
ghost use Rattle.ir_ast.specs.Formed.{IsFormed};
ghost use Rattle.ir_cfg.specs.Graphs.{graph_of};
ghost use Rattle.base_facts.specs.Answers.{IsAnswered};
ghost use Rattle.used_pairs.specs.Lists.{IsUse};
ghost use Rattle.statepoint_verify.specs.Marks.{PairFault, AreAll};
ghost use Rattle.statepoint_verify.specs.Judged.{ask_of, asks_for, code_by, loose_code, marked_by, AreJudged, AreUses};

use crate::marks::Mark;
use base_facts::{Ask, Facts};
use ir_ast::{Func, Operand};
use ir_cfg::Cfg;
use pair_facts::Base;
use sp_ids::{BlockId, Memory};
use std::alloc::Global;
use used_pairs::{UsedPair, used_pairs};

/// The faults of a function that pairs decide.
pub(crate) fn pair_marks(alloc: Global, func: &Func, cfg: &Cfg) -> Result<Vec<Mark>, Memory>
    requires formed { IsFormed func.now.content }
    requires edges { cfg.now ≡ graph_of func.now.content }
    ensures { IfOk result (λ marks. AreAll (PairFault func.now.content) marks.items) }
{
    let used = used_pairs(alloc, func)?;
    let asks = asks_of(alloc, func, &used)?;
    let facts = Facts::of(alloc, func, cfg, &asks)?;
    judged(alloc, func, &used, &facts)
}

// Four asks for each pair: whether the pointer and the base are fresh, whether they are a pair, and whether the base has itself.
fn asks_of(alloc: Global, func: &Func, used: &[UsedPair]) -> Result<Vec<Ask>, Memory>
    requires { AreUses func.now.content used.now }
    ensures { IfOk result (λ asks. asks.items ≡ flat_map asks_for used.now) }
{
    let mut asks = Vec::new(alloc);
    for pair in used {
        add_asks(func, pair, &mut asks)?;
    }
    Ok(asks)
}

fn add_asks(func: &Func, pair: &UsedPair, asks: &mut Vec<Ask>) -> Result<(), Memory>
    requires { IsUse func.now.content pair.now }
    ensures { IfOk result (λ _. asks.new.items ≡ asks.old.items ++ asks_for pair.now) }
{
    asks.push(ask_of(func, pair, pair.address, Base::Any))?;
    asks.push(ask_of(func, pair, pair.base, Base::Any))?;
    asks.push(ask_of(func, pair, pair.address, Base::Named(pair.base)))?;
    asks.push(ask_of(func, pair, pair.base, Base::Named(pair.base)))?;
    Ok(())
}

fn ask_of(func: &Func, pair: &UsedPair, pointer: Operand, base: Base) -> Ask
    requires { IsUse func.now.content pair.now }
    ensures { result ≡ ask_of pair.now pointer base }
{
    let _blocks = func.blocks();
    Ask {
        block: BlockId(pair.block as u32),
        place: pair.at as u32,
        pointer,
        base,
    }
}

fn judged(alloc: Global, func: &Func, used: &[UsedPair], facts: &Facts) -> Result<Vec<Mark>, Memory>
    requires uses { AreUses func.now.content used.now }
    requires facts { AllZip (IsAnswered func.now.content) (flat_map asks_for used.now) facts.now }
    ensures { IfOk result (λ marks. AreJudged func.now.content used.now (length used.now) marks.items) }
{
    let mut marks = Vec::new(alloc);
    for (number, pair) in used.iter().enumerate() {
        let code = code_of(pair.code, facts, number);
        mark_by(pair, code, &mut marks)?;
    }
    Ok(marks)
}

fn mark_by(pair: &UsedPair, code: Option<u8>, marks: &mut Vec<Mark>) -> Result<(), Memory>
    ensures { IfOk result (λ _. marks.new.items ≡ marked_by pair.now code marks.old.items) }
{
    match code {
        Some(code) => {
            marks.push(Mark {
                block: pair.block,
                place: pair.place,
                code,
            })?;
            Ok(())
        }
        None => Ok(()),
    }
}

// The fault of the pair with this number, by the answers to its asks.
fn code_of(code: u8, facts: &Facts, number: usize) -> Option<u8>
    requires { 4 * number + 3 < length facts.now }
    ensures { result ≡ code_by code (slice_index_or facts.now (4 * number) false) (slice_index_or facts.now (4 * number + 1) false)
        (slice_index_or facts.now (4 * number + 2) false) (slice_index_or facts.now (4 * number + 3) false) }
{
    let _count = facts.len();
    let first = 4 * number;
    let pointer_fresh = facts.holds_before(first);
    let base_fresh = facts.holds_before(first + 1);
    let paired = facts.holds_before(first + 2);
    let own = facts.holds_before(first + 3);
    code_by(code, pointer_fresh, base_fresh, paired, own)
}

fn code_by(code: u8, pointer_fresh: bool, base_fresh: bool, paired: bool, own: bool) -> Option<u8>
    ensures { result ≡ code_by code pointer_fresh base_fresh paired own }
{
    if pointer_fresh && base_fresh {
        loose_code(code, paired, own)
    } else {
        Some(1)
    }
}

fn loose_code(code: u8, paired: bool, own: bool) -> Option<u8>
    ensures { result ≡ loose_code code paired own }
{
    if paired && own { None } else { Some(code) }
}
