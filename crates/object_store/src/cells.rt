//! The cells that pointers reach, and those of new objects.

ghost use Rattle.std.specs.Prelude.{◌≡◌, ◌==◌, ◌+◌, ◌*◌, ◌<◌, ◌≤◌, ◌^◌, ◌++◌, ℕ, length, map, vec_capacity, slice_index_or};
ghost use Rattle.ir_ast.specs.Cells.{kind_of};
ghost use Rattle.object_meaning.specs.Accesses.{within};
ghost use Rattle.cell_rows.specs.declared.shapes.Shape.{Shape};
ghost use Rattle.object_store.specs.Stored.{HasCells, place_result, reached, blank_word, blank_words};

use crate::words::Word;
use cell_rows::Shape;
use ir_ast::{Cell, Layout};
use sp_ids::Trap;

/// The cell of an object that a pointer reaches.
#[derive(Clone, Copy, Debug, PartialEq, Eq)]
pub struct Spot {
    pub object: u32,
    pub offset: u64,
    pub cell: u64,
}

/// The cell that a pointer reaches, or the trap.
pub(crate) fn reach(
    layouts: &[Layout],
    shapes: &[Shape],
    asked: Cell,
    object: u32,
    offset: u64,
) -> Result<Spot, Trap>
    requires { (k : ℕ) (d : Shape) → k < length shapes.now → HasCells layouts.now (slice_index_or shapes.now k d) }
    ensures { place_result result ≡ reached layouts.now shapes.now asked (record { object = object; offset = offset }) }
{
    if object == 0 {
        return Err(Trap::Null);
    }
    if (object - 1) as usize >= shapes.len() {
        return Err(Trap::Null);
    }
    let shape = shapes[(object - 1) as usize];
    let fields = Layout::fields_of(layouts, shape.layout);
    within(object, offset, fields, asked, shape.count)
}

// The cell at an offset of an object with so many elements.
fn within(object: u32, offset: u64, fields: &[Cell], asked: Cell, count: u64) -> Result<Spot, Trap>
    requires { count * length fields.now < 2 ^ 32 }
    ensures { place_result result ≡ within (record { object = object; offset = offset }) fields.now asked count }
{
    let cells = count * fields.len() as u64;
    if offset % 8 != 0 {
        return Err(Trap::Bounds);
    }
    let cell = offset / 8;
    if cell >= cells {
        return Err(Trap::Bounds);
    }
    if is_same(fields[(cell % fields.len() as u64) as usize], asked) {
        Ok(Spot {
            object,
            offset,
            cell,
        })
    } else {
        Err(Trap::Kind)
    }
}

fn is_same(one: Cell, other: Cell) -> bool
    ensures { result ≡ (kind_of one == kind_of other) }
{
    match one {
        Cell::I64 => matches!(other, Cell::I64),
        Cell::Ptr => matches!(other, Cell::Ptr),
    }
}

/// More cells, for so many elements with these fields.
pub(crate) fn add_blanks(words: &mut Vec<Word>, fields: &[Cell], count: u64)
    requires { length words.old.items + count * length fields.now ≤ vec_capacity words.old }
    ensures { words.new.items ≡ words.old.items ++ blank_words fields.now count }
{
    for element in 0..count {
        let _ = element;
        add_element(words, fields);
    }
}

fn add_element(words: &mut Vec<Word>, fields: &[Cell])
    requires { length words.old.items + length fields.now ≤ vec_capacity words.old }
    ensures items { words.new.items ≡ words.old.items ++ map blank_word fields.now }
    ensures room { vec_capacity words.old ≤ vec_capacity words.new }
{
    for field in fields {
        let _ = words.push(blank(*field));
    }
}

fn blank(cell: Cell) -> Word
    ensures { result ≡ blank_word cell }
{
    match cell {
        Cell::I64 => Word::of(0),
        Cell::Ptr => Word::to(0, 0),
    }
}
