//! What the line that gives a pointer says of its base.

ghost use Rattle.std.specs.Prelude.{◌≡◌, ◌<◌, ◌==◌, ◌&&◌, length};
ghost use Rattle.pair_facts.specs.Lines.{lines_at, line_in, line_before};
ghost use Rattle.pair_facts.specs.Pairs.{is_named, is_base_named, own_pairs};
ghost use Rattle.base_facts.specs.Facts.{base_in};
ghost use Rattle.fact_tables.specs.Tables.{AreTables};
ghost use Rattle.base_facts.specs.Steps.{asked_without, one_of, two_of, own_step, follow_step, select_step, step_for, is_merge_of, merged, GivesBefore};

use crate::facts::{Fact, Wanted, fact_at};
use fact_tables::homes::{Home, home_of};
use fact_tables::insts::inst_at;
use fact_tables::tables::Tables;
use ir_ast::{Func, Inst, Op, Operand};
use pair_facts::Base;
use sp_ids::ValueId;

/// What a fact directly behind the definition of its pointer asks before that line.
#[derive(Clone, Copy)]
pub(crate) enum Step {
    Known(bool),
    One(Fact),
    /// Both must hold.
    Two(Fact, Fact),
}

/// What a fact asks, given the line that gives its pointer.
pub(crate) fn step_of(func: &Func, tables: &Tables, fact: Fact, value: u32, at: usize) -> Step
    requires tables { AreTables func.now.content tables.now }
    requires block { fact.block < length func.now.content.blocks }
    requires at { at < length (lines_at func.now.content fact.block) }
    ensures { let lines = lines_at func.now.content fact.block in
        result ≡ step_for fact.block at value (line_before lines at) (line_in lines at).inst (line_in lines at).inst.op fact.base }
{
    let inst = inst_at(func, fact.block, at);
    match inst.op() {
        Op::Load => Step::Known(inst.ty().is_pointer() && is_own(value, fact.base)),
        Op::Gep { .. } => one(without(
            fact.block,
            at,
            value,
            inst.operand_at(0),
            base_of(fact.base),
        )),
        Op::Select => {
            if inst.ty().is_pointer() {
                select_step(func, tables, fact, value, at, inst)
            } else {
                Step::Known(false)
            }
        }
        _ => Step::Known(false),
    }
}

pub(crate) fn is_own(value: u32, base: Wanted) -> bool
    ensures { result ≡ own_pairs value (base_in base) }
{
    match base {
        Wanted::Any => true,
        Wanted::Null => false,
        Wanted::Value(other) => value == other,
    }
}

fn base_of(base: Wanted) -> Base
    ensures { result ≡ base_in base }
{
    match base {
        Wanted::Any => Base::Any,
        Wanted::Null => Base::Named(Operand::Null),
        Wanted::Value(value) => Base::Named(Operand::Value(ValueId(value))),
    }
}

fn is_named(value: u32, operand: Operand) -> bool
    ensures { result ≡ is_named value operand }
{
    match operand {
        Operand::Value(other) => value == other.0,
        Operand::Int(_) | Operand::Null | Operand::Fun(_) => false,
    }
}

fn is_base_named(value: u32, base: Base) -> bool
    ensures { result ≡ is_base_named value base }
{
    match base {
        Base::Any => false,
        Base::Named(operand) => is_named(value, operand),
    }
}

// The fact of a pair before a line; what the line gives has none.
fn without(block: usize, at: usize, value: u32, operand: Operand, base: Base) -> Option<Fact>
    ensures { result ≡ asked_without block at value operand base }
{
    if is_named(value, operand) || is_base_named(value, base) {
        None
    } else {
        fact_at(block, at, operand, base)
    }
}

fn one(fact: Option<Fact>) -> Step
    ensures { result ≡ one_of fact }
{
    match fact {
        Some(fact) => Step::One(fact),
        None => Step::Known(false),
    }
}

fn two(first: Option<Fact>, second: Option<Fact>) -> Step
    ensures { result ≡ two_of first second }
{
    match (first, second) {
        (Some(first), Some(second)) => Step::Two(first, second),
        _ => Step::Known(false),
    }
}

fn select_step(func: &Func, tables: &Tables, fact: Fact, value: u32, at: usize, inst: &Inst) -> Step
    requires tables { AreTables func.now.content tables.now }
    requires block { fact.block < length func.now.content.blocks }
    requires at { at < length (lines_at func.now.content fact.block) }
    ensures { result ≡ select_step fact.block at value (line_before (lines_at func.now.content fact.block) at) inst.now fact.base }
{
    let first = inst.operand_at(1);
    let second = inst.operand_at(2);
    match fact.base {
        Wanted::Any => two(
            without(fact.block, at, value, first, Base::Any),
            without(fact.block, at, value, second, Base::Any),
        ),
        Wanted::Null => Step::Known(false),
        Wanted::Value(base) => {
            if value == base {
                own_step(fact.block, at, value, inst)
            } else {
                follow_step(func, tables, fact.block, at, value, inst, base)
            }
        }
    }
}

// A select whose operands are their own bases is its own.
fn own_step(block: usize, at: usize, value: u32, inst: &Inst) -> Step
    ensures { result ≡ own_step block at value inst.now }
{
    let first = inst.operand_at(1);
    let second = inst.operand_at(2);
    two(
        without(block, at, value, first, Base::Named(first)),
        without(block, at, value, second, Base::Named(second)),
    )
}

// A select over the select directly before it has that as its base, where its operands have the operands of that as theirs.
fn follow_step(
    func: &Func,
    tables: &Tables,
    block: usize,
    at: usize,
    value: u32,
    inst: &Inst,
    base: u32,
) -> Step
    requires tables { AreTables func.now.content tables.now }
    requires block { block < length func.now.content.blocks }
    requires at { at < length (lines_at func.now.content block) }
    ensures { result ≡ follow_step block at value (line_before (lines_at func.now.content block) at) inst.now base }
{
    if at == 0 {
        return Step::Known(false);
    }
    let gives = gives_before(func, tables, block, at, base);
    merged(block, at, value, inst, inst_at(func, block, at - 1), gives)
}

// What a select over another asks, given whether that one gives the base.
fn merged(block: usize, at: usize, value: u32, inst: &Inst, last: &Inst, gives: bool) -> Step
    ensures { result ≡ merged block at value inst.now last.now gives }
{
    if gives && is_merge_of(last, inst) {
        two(
            without(
                block,
                at,
                value,
                inst.operand_at(1),
                Base::Named(last.operand_at(1)),
            ),
            without(
                block,
                at,
                value,
                inst.operand_at(2),
                Base::Named(last.operand_at(2)),
            ),
        )
    } else {
        Step::Known(false)
    }
}

// Whether the first is a select of pointers by the condition of the second.
fn is_merge_of(last: &Inst, inst: &Inst) -> bool
    ensures { result ≡ is_merge_of last.now inst.now }
{
    matches!(last.op(), Op::Select)
        && last.ty().is_pointer()
        && last.operand_at(0).is_same(inst.operand_at(0))
}

// Whether the line before gives the value.
fn gives_before(func: &Func, tables: &Tables, block: usize, at: usize, value: u32) -> bool
    requires tables { AreTables func.now.content tables.now }
    requires at { 0 < at }
    ensures { GivesBefore (lines_at func.now.content block) at value result }
{
    match home_of(&tables.homes, value) {
        Some(home) => is_at(home, block, at - 1),
        None => false,
    }
}

fn is_at(home: Home, block: usize, place: usize) -> bool
    ensures { result ≡ (home.block == block && home.place == place) }
{
    home.block == block && home.place == place
}
