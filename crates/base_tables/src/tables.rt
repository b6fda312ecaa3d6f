//! All tables of a function's values, made once before bases are put in.

ghost use Rattle.std.specs.Prelude.{◌≡◌, ◌<◌, ◌^◌, ℕ, ◌++◌, ◌∷◌, [], ◌||◌, true, false, length, map, replicate, Some, slice_get, slice_index, slice_index_or, IfOk};
ghost use Rattle.std.specs.List.{All, range_with_len};
ghost use Rattle.ir_ast.specs.Funcs.{instructions_of};
ghost use Rattle.ir_ast.specs.Lines.{IsLine};
ghost use Rattle.ir_ast.specs.Faults.UnknownName.{LocalNamesAreKnown};
ghost use Rattle.base_tables.specs.Kinds.{Kind, any_marked, kind_merged, kind_negated};
ghost use Rattle.base_tables.specs.Seen.{seen_shape};
ghost use Rattle.base_tables.specs.Tables.{own_base_in, inserted_in, number_in, inserted_base, tables_of, now_by, base_by, table_in, table_of, unchanged};
ghost use Rattle.base_tables.specs.Flags.{AreFlags, kind_inserted};

use crate::counts::counts_before;
use crate::derived::derived;
use crate::origins::origins;
use crate::shapes::{Shape, shapes};
use ir_ast::{BaseTable, Func, Operand};
use sp_ids::{Memory, ValueId};
use std::alloc::Global;
use std::marker::Model;

/// What is known of the values of a function, by their numbers before lines are inserted.
#[derive(Drop)]
pub struct Tables {
    // Whether each value is derived.
    derived: Vec<bool>,
    // How many derived phis and selects, and how many negated compares, give values before each.
    base_ranks: Vec<u32>,
    same_ranks: Vec<u32>,
    // The number of the line that is inserted before each value, where there is one, and the value's own.
    inserted: Vec<u32>,
    numbers: Vec<u32>,
    bases: Vec<Operand>,
}

impl Model for Tables {
    ghost use Rattle.base_tables.specs.Tables.{ValueTables};

    ghost Value = { ValueTables };

    ghost view = { λ tables. record {
      derived = tables.derived.items;
      base_ranks = tables.base_ranks.items;
      same_ranks = tables.same_ranks.items;
      inserted = tables.inserted.items;
      numbers = tables.numbers.items;
      bases = tables.bases.items;
    } };
}

// The values before which a line with a result is inserted: the derived phis and selects, the negated compares, and both.
#[derive(Drop)]
struct Flags {
    merged: Vec<bool>,
    negated: Vec<bool>,
    either: Vec<bool>,
}

// The number of the line inserted before each value, and the value's own.
#[derive(Drop)]
struct Numbers {
    inserted: Vec<u32>,
    numbers: Vec<u32>,
}

impl Tables {
    /// What is known of the values of a function whose lines are those of a typed module.
    pub fn of(alloc: Global, func: &Func) -> Result<Tables, Memory>
        requires lines { All IsLine (instructions_of func.now.content.blocks) }
        requires known { LocalNamesAreKnown func.now.content }
        ensures { IfOk result (λ tables. tables ≡ tables_of func.now.content) }
    {
        let shapes = shapes(alloc, func)?;
        let derived = derived(alloc, shapes.as_slice())?;
        let origins = origins(alloc, shapes.as_slice())?;
        if inserts_nothing(derived.as_slice(), shapes.as_slice()) {
            return unchanged(alloc, derived, origins);
        }
        let flags = flags_of(alloc, derived.as_slice(), shapes.as_slice())?;
        let base_ranks = counts_before(alloc, flags.merged.as_slice())?;
        let same_ranks = counts_before(alloc, flags.negated.as_slice())?;
        let numbers = numbered(alloc, flags.either.as_slice())?;
        let bases = bases(alloc, flags.merged.as_slice(), &numbers, origins.as_slice())?;
        Ok(Tables {
            derived,
            base_ranks,
            same_ranks,
            inserted: numbers.inserted,
            numbers: numbers.numbers,
            bases,
        })
    }

    /// An operand with its new number.
    pub fn operand(&self, operand: Operand) -> Operand
        ensures { result ≡ now_by self.now operand }
    {
        match operand {
            Operand::Value(value) => Operand::Value(ValueId(number_at(
                self.numbers.as_slice(),
                value.0 as usize,
            ))),
            Operand::Int(word) => Operand::Int(word),
            Operand::Null => Operand::Null,
            Operand::Fun(func) => Operand::Fun(func),
        }
    }

    /// The base of an operand, with its new number.
    pub fn base(&self, operand: Operand) -> Operand
        ensures { result ≡ base_by self.now operand }
    {
        match operand {
            Operand::Value(value) => self
                .bases
                .get(value.0 as usize)
                .copied()
                .unwrap_or(Operand::Null),
            Operand::Int(word) => Operand::Int(word),
            Operand::Null => Operand::Null,
            Operand::Fun(func) => Operand::Fun(func),
        }
    }

    /// Whether one of these operands is derived.
    pub fn any_derived(&self, operands: &[Operand]) -> bool
        ensures { result ≡ any_marked self.now.derived operands.now }
    {
        any_marked(self.derived.as_slice(), operands)
    }

    /// How many derived phis and selects give values before this one.
    pub fn base_rank(&self, value: usize) -> u32
        ensures { result ≡ slice_index self.now.base_ranks value }
    {
        number_at(self.base_ranks.as_slice(), value)
    }

    /// How many negated compares give values before this one.
    pub fn same_rank(&self, value: usize) -> u32
        ensures { result ≡ slice_index self.now.same_ranks value }
    {
        number_at(self.same_ranks.as_slice(), value)
    }

    /// The number of the line that is inserted before a value.
    pub fn inserted(&self, value: usize) -> ValueId
        ensures { result ≡ record { 0 = slice_index self.now.inserted value } }
    {
        ValueId(number_at(self.inserted.as_slice(), value))
    }

    /// The base of each value of the new function, by its number.
    pub fn base_table(&self, alloc: Global) -> Result<BaseTable, Memory>
        ensures { IfOk result (λ table. table ≡ table_of self.now) }
    {
        let bases = table(
            alloc,
            self.inserted.as_slice(),
            self.numbers.as_slice(),
            self.bases.as_slice(),
        )?;
        Ok(BaseTable::of(bases))
    }
}

// Whether no line is inserted: no phi, select or `icmp ne` uses a marked value.
fn inserts_nothing(marks: &[bool], shapes: &[Shape<'_>]) -> bool
    ensures { result ≡ true → (value : ℕ) (kind : Kind) → slice_get (map seen_shape shapes.now) value ≡ Some kind → kind_inserted marks.now kind ≡ false }
{
    for shape in shapes {
        if is_inserted(marks, shape) {
            return false;
        }
    }
    true
}

fn is_inserted(marks: &[bool], shape: &Shape<'_>) -> bool
    ensures { result ≡ kind_inserted marks.now (seen_shape shape.now) }
{
    match shape {
        Shape::Merge(operands) | Shape::Unequal(operands) => any_marked(marks, operands),
        Shape::Plain | Shape::Step(_) => false,
    }
}

// The tables where no line is inserted: each value keeps its number.
fn unchanged(alloc: Global, derived: Vec<bool>, origins: Vec<Operand>) -> Result<Tables, Memory>
    requires { length derived.items < 2 ^ 32 }
    ensures { IfOk result (λ tables. tables ≡ unchanged derived.items origins.items) }
{
    let count = derived.len();
    let base_ranks = zeros(alloc, count)?;
    let same_ranks = zeros(alloc, count)?;
    let inserted = rising(alloc, count)?;
    let numbers = Vec::from_slice(alloc, inserted.as_slice())?;
    Ok(Tables {
        derived,
        base_ranks,
        same_ranks,
        inserted,
        numbers,
        bases: origins,
    })
}

// As many zeros; `vec!` would not become a `memset`.
fn zeros(alloc: Global, count: usize) -> Result<Vec<u32>, Memory>
    ensures { IfOk result (λ numbers. numbers.items ≡ replicate count 0) }
{
    let mut numbers = Vec::new(alloc);
    numbers.resize(count, 0)?;
    Ok(numbers)
}

// The numbers from 0 on.
fn rising(alloc: Global, count: usize) -> Result<Vec<u32>, Memory>
    requires { count < 2 ^ 32 }
    ensures { IfOk result (λ numbers. numbers.items ≡ range_with_len 0 count) }
{
    let mut numbers = Vec::with_capacity(alloc, count)?;
    for number in 0..count {
        numbers.push_reserved(number as u32);
    }
    Ok(numbers)
}

// The bases, and before each that of the line which is inserted before its value.
fn table(
    alloc: Global,
    inserted: &[u32],
    numbers: &[u32],
    bases: &[Operand],
) -> Result<Vec<Operand>, Memory>
    ensures { IfOk result (λ table. table.items ≡ table_in inserted.now numbers.now bases.now) }
{
    let mut table = Vec::with_capacity(alloc, bases.len())?;
    for (value, base) in bases.iter().enumerate() {
        push_inserted(inserted, numbers, value, &mut table)?;
        table.push(*base)?;
    }
    Ok(table)
}

// A line that is inserted before a value is its own base.
fn push_inserted(
    inserted: &[u32],
    numbers: &[u32],
    value: usize,
    table: &mut Vec<Operand>,
) -> Result<(), Memory>
    ensures { IfOk result (λ _. table.new.items ≡ table.old.items ++ inserted_base inserted.now numbers.now value) }
{
    let first = number_at(inserted, value);
    if first < number_at(numbers, value) {
        table.push(Operand::Value(ValueId(first)))?;
    }
    Ok(())
}

fn number_at(numbers: &[u32], place: usize) -> u32
    ensures { result ≡ slice_index numbers.now place }
{
    numbers.get(place).copied().unwrap_or(0)
}

/// The mark at a place, where there is one.
pub(crate) fn mark_at(marks: &[bool], place: usize) -> bool
    ensures { result ≡ slice_index_or marks.now place false }
{
    marks.get(place).copied().unwrap_or(false)
}

/// Whether one of these operands is a marked value.
pub(crate) fn any_marked(marks: &[bool], operands: &[Operand]) -> bool
    ensures { result ≡ any_marked marks.now operands.now }
{
    for operand in operands {
        if is_marked(marks, *operand) {
            return true;
        }
    }
    false
}

fn is_marked(marks: &[bool], operand: Operand) -> bool
    ensures { result ≡ any_marked marks.now (operand ∷ []) }
{
    match operand {
        Operand::Value(value) => mark_at(marks, value.0 as usize),
        Operand::Int(_) | Operand::Null | Operand::Fun(_) => false,
    }
}

fn flags_of(alloc: Global, marks: &[bool], shapes: &[Shape<'_>]) -> Result<Flags, Memory>
    ensures { IfOk result (AreFlags marks.now (map seen_shape shapes.now)) }
{
    let mut merged = Vec::with_capacity(alloc, shapes.len())?;
    let mut negated = Vec::with_capacity(alloc, shapes.len())?;
    let mut any = Vec::with_capacity(alloc, shapes.len())?;
    for shape in shapes {
        let merges = is_merged(marks, shape);
        let negates = is_negated(marks, shape);
        merged.push_reserved(merges);
        negated.push_reserved(negates);
        any.push_reserved(either(merges, negates));
    }
    Ok(Flags {
        merged,
        negated,
        either: any,
    })
}

fn either(one: bool, other: bool) -> bool
    ensures { result ≡ (one || other) }
{
    one || other
}

/// Whether it is a phi or select that uses a marked value.
pub(crate) fn is_merged(marks: &[bool], shape: &Shape<'_>) -> bool
    ensures { result ≡ kind_merged marks.now (seen_shape shape.now) }
{
    match shape {
        Shape::Merge(operands) => any_marked(marks, operands),
        Shape::Plain | Shape::Step(_) | Shape::Unequal(_) => false,
    }
}

fn is_negated(marks: &[bool], shape: &Shape<'_>) -> bool
    ensures { result ≡ kind_negated marks.now (seen_shape shape.now) }
{
    match shape {
        Shape::Unequal(operands) => any_marked(marks, operands),
        Shape::Plain | Shape::Step(_) | Shape::Merge(_) => false,
    }
}

fn numbered(alloc: Global, marks: &[bool]) -> Result<Numbers, Memory>
    requires { length marks.now < 2 ^ 31 }
    ensures inserted { IfOk result (λ found. found.inserted.items ≡ map (inserted_in marks.now) (range_with_len 0 (length marks.now))) }
    ensures numbers { IfOk result (λ found. found.numbers.items ≡ map (number_in marks.now) (range_with_len 0 (length marks.now))) }
{
    let mut inserted = Vec::with_capacity(alloc, marks.len())?;
    let mut numbers = Vec::with_capacity(alloc, marks.len())?;
    let mut next = 0;
    for mark in marks {
        inserted.push_reserved(next);
        if *mark {
            next += 1;
        }
        numbers.push_reserved(next);
        next += 1;
    }
    Ok(Numbers { inserted, numbers })
}

fn bases(
    alloc: Global,
    merged: &[bool],
    numbers: &Numbers,
    origins: &[Operand],
) -> Result<Vec<Operand>, Memory>
    ensures { IfOk result (λ bases. bases.items ≡ map (own_base_in merged.now numbers.now.inserted.items numbers.now.numbers.items) origins.now) }
{
    let mut bases = Vec::with_capacity(alloc, origins.len())?;
    for origin in origins {
        bases.push_reserved(own_base(merged, numbers, *origin));
    }
    Ok(bases)
}

fn own_base(merged: &[bool], numbers: &Numbers, origin: Operand) -> Operand
    ensures { result ≡ own_base_in merged.now numbers.now.inserted.items numbers.now.numbers.items origin }
{
    match origin {
        Operand::Value(value) => {
            let place = value.0 as usize;
            let number = if mark_at(merged, place) {
                number_at(numbers.inserted.as_slice(), place)
            } else {
                number_at(numbers.numbers.as_slice(), place)
            };
            Operand::Value(ValueId(number))
        }
        Operand::Int(word) => Operand::Int(word),
        Operand::Null => Operand::Null,
        Operand::Fun(func) => Operand::Fun(func),
    }
}
