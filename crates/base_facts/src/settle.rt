//! A fact settled within its block, or handed on to its front.

ghost use Rattle.std.specs.Prelude.{◌≡◌, ◌<◌, false, Some, length};
ghost use Rattle.object_meaning.specs.Frames.{is_member};
ghost use Rattle.pair_facts.specs.Lines.{lines_at, line_in, head_at};
ghost use Rattle.fact_tables.specs.Tables.{AreTables, IsPlace, IsWithin};
ghost use Rattle.base_facts.specs.Settled.{Settles, Decides, IsNotGiven, IsLostBehind, FindsBase, known, settled_defined, with_base};

use crate::facts::{Fact, Pointer, Wanted};
use crate::members::{is_based_member, is_fresh_member, is_null_member};
use fact_tables::tables::{Tables, front_of, head_at, start_at, within};
use ir_ast::Func;

/// What a fact comes to in its block.
#[derive(Clone, Copy)]
pub(crate) enum Answer {
    /// It holds on every path.
    Always,
    /// It holds on no path.
    Never,
    /// It holds where this fact does, which stands behind the phis of the block or behind the definition of its pointer.
    Asks(Fact),
}

/// What a fact comes to: a statepoint, or the last line before its place that gives its pointer or its base, decides.
pub(crate) fn settled(func: &Func, tables: &Tables, asked: Fact) -> Answer
    requires tables { AreTables func.now.content tables.now }
    requires place { IsPlace func.now.content asked.block asked.place }
    requires outside { is_member (line_in (lines_at func.now.content asked.block) asked.place).inst.op ≡ false }
    ensures { Settles func.now.content asked result }
{
    match asked.pointer {
        Pointer::Null => settled_null(func, tables, asked),
        Pointer::Value(value) => settled_value(func, tables, asked, value),
    }
}

fn settled_null(func: &Func, tables: &Tables, asked: Fact) -> Answer
    requires tables { AreTables func.now.content tables.now }
    requires place { IsPlace func.now.content asked.block asked.place }
    requires pointer { asked.pointer ≡ Pointer.Null }
    ensures { Settles func.now.content asked result }
{
    match asked.base {
        Wanted::Any => Answer::Always,
        Wanted::Null => Answer::Always,
        Wanted::Value(_) => settled_before(func, tables, asked),
    }
}

fn settled_value(func: &Func, tables: &Tables, asked: Fact, value: u32) -> Answer
    requires tables { AreTables func.now.content tables.now }
    requires place { IsPlace func.now.content asked.block asked.place }
    requires outside { is_member (line_in (lines_at func.now.content asked.block) asked.place).inst.op ≡ false }
    requires pointer { asked.pointer ≡ Pointer.Value value }
    ensures { Settles func.now.content asked result }
{
    match within(func, tables, asked.block, asked.place, value) {
        Some(at) => settled_given(func, tables, asked, value, at),
        None => settled_before(func, tables, asked),
    }
}

// No line behind the last statepoint gives the pointer.
fn settled_before(func: &Func, tables: &Tables, asked: Fact) -> Answer
    requires tables { AreTables func.now.content tables.now }
    requires place { IsPlace func.now.content asked.block asked.place }
    requires given { IsNotGiven (lines_at func.now.content asked.block) asked }
    requires lost { IsLostBehind (lines_at func.now.content asked.block) asked }
    ensures { Settles func.now.content asked result }
{
    if start_at(func, tables, asked.block, asked.place) > 0 {
        return Answer::Never;
    }
    match base_within(func, tables, asked) {
        Some(_) => Answer::Never,
        None => Answer::Asks(moved(asked, front_of(func, tables, asked.block))),
    }
}

// The same fact at another place of the block.
fn moved(asked: Fact, place: usize) -> Fact
    ensures { result ≡ record asked { place = place } }
{
    Fact {
        block: asked.block,
        place,
        pointer: asked.pointer,
        base: asked.base,
    }
}

// Where the base is given behind the last statepoint.
fn base_within(func: &Func, tables: &Tables, asked: Fact) -> Option<usize>
    requires tables { AreTables func.now.content tables.now }
    requires place { IsPlace func.now.content asked.block asked.place }
    ensures { FindsBase (lines_at func.now.content asked.block) asked result }
{
    match asked.base {
        Wanted::Any | Wanted::Null => None,
        Wanted::Value(base) => within(func, tables, asked.block, asked.place, base),
    }
}

// A line behind the last statepoint gives the pointer.
fn settled_given(func: &Func, tables: &Tables, asked: Fact, value: u32, at: usize) -> Answer
    requires tables { AreTables func.now.content tables.now }
    requires place { IsPlace func.now.content asked.block asked.place }
    requires outside { is_member (line_in (lines_at func.now.content asked.block) asked.place).inst.op ≡ false }
    requires pointer { asked.pointer ≡ Pointer.Value value }
    requires given { IsWithin (lines_at func.now.content asked.block) asked.place value at }
    ensures { Settles func.now.content asked result }
{
    let base_at = base_within(func, tables, asked);
    match head_at(func, tables, asked.block, at) {
        Some(head) => known(in_group(func, tables, asked, value, at, head, base_at)),
        None => settled_defined(asked, at, base_at),
    }
}

fn known(holds: bool) -> Answer
    ensures { result ≡ known holds }
{
    if holds { Answer::Always } else { Answer::Never }
}

// A line outside groups gives the pointer.
fn settled_defined(asked: Fact, at: usize, base_at: Option<usize>) -> Answer
    requires { at < asked.place }
    ensures { result ≡ settled_defined asked at base_at }
{
    match base_at {
        Some(given) => {
            if given > at {
                Answer::Never
            } else {
                Answer::Asks(moved(asked, at + 1))
            }
        }
        None => Answer::Asks(moved(asked, at + 1)),
    }
}

// A line of a group gives the pointer.
fn in_group(
    func: &Func,
    tables: &Tables,
    asked: Fact,
    value: u32,
    at: usize,
    head: usize,
    base_at: Option<usize>,
) -> bool
    requires tables { AreTables func.now.content tables.now }
    requires place { IsPlace func.now.content asked.block asked.place }
    requires outside { is_member (line_in (lines_at func.now.content asked.block) asked.place).inst.op ≡ false }
    requires pointer { asked.pointer ≡ Pointer.Value value }
    requires given { IsWithin (lines_at func.now.content asked.block) asked.place value at }
    requires head { head_at (lines_at func.now.content asked.block) at ≡ Some head }
    requires base { FindsBase (lines_at func.now.content asked.block) asked base_at }
    ensures { Decides func.now.content asked result }
{
    match asked.base {
        Wanted::Any => is_fresh_member(func, tables, asked.block, value, at, head),
        Wanted::Null => is_null_member(func, asked.block, value, at, head),
        Wanted::Value(base) => {
            match base_at {
                None => false,
                Some(given) => with_base(func, tables, asked.block, value, at, base, given),
            }
        }
    }
}

// Whether a line of a group gives a pointer whose base this line gives.
fn with_base(
    func: &Func,
    tables: &Tables,
    block: usize,
    value: u32,
    at: usize,
    base: u32,
    given: usize,
) -> bool
    requires tables { AreTables func.now.content tables.now }
    requires block { block < length func.now.content.blocks }
    requires at { at < length (lines_at func.now.content block) }
    requires given { given < length (lines_at func.now.content block) }
    ensures { result ≡ with_base (lines_at func.now.content block) value at base given }
{
    match head_at(func, tables, block, given) {
        Some(_) => is_based_member(func, block, value, at, base, given),
        None => false,
    }
}
