//! The objects of a run.

ghost use Rattle.std.specs.Prelude.{◌≡◌, ℕ, ◌+◌, ◌*◌, ◌≤◌, ◌<◌, max, ◌++◌, [], ◌∷◌, pos, int_lt, true, false, length, map, slice_index_or, slice_set, unsigned_abs, IfOk, IfErr, IfSome, IfNone, OnOk, OnErr, MatchResult, Ok, Err};
ghost use Rattle.ir_ast.specs.Objects.{footprint};
ghost use Rattle.object_meaning.specs.Accesses.{loaded, stored};
ghost use Rattle.object_meaning.specs.Registers.{nothing, pointer_in};
ghost use Rattle.cell_rows.specs.declared.shapes.Shape.{Shape};
ghost use Rattle.cell_rows.specs.Rows.{AreLaid, AreOrdered, bytes_of};
ghost use Rattle.object_store.specs.Stored.{bytes_taken, held, written, HasCells, objects_of, load_of, store_of, stored_result, blank_words, Makes};
ghost use Rattle.object_store.specs.Words.{datum, datum_result};

use crate::cells::{add_blanks, reach};
use crate::words::Word;
use cell_rows::{Shape, bytes_of, place_of};
use ir_ast::{Cell, Layout};
use sp_ids::limits::HEAP_BYTES;
use sp_ids::{Memory, Trap};
use std::alloc::Global;
use std::marker::Model;

/// The objects of a run, numbered from 1 in the order in which they are made, with the cells of all of them in one list.
#[derive(Drop)]
pub struct Objects<'m> {
    layouts: &'m [Layout],
    shapes: Vec<Shape>,
    words: Vec<Word>,
    used: u64,
}

impl<'m> Model for Objects<'m> {
    ghost use Rattle.object_store.specs.Stored.{Store, objects_of, AreStored};

    ghost Value = { Store };

    ghost view = { λ o. record { layouts = o.layouts.now; objects = objects_of o.shapes.items o.words.items } };

    ghost invariant = { λ o. AreStored o.layouts.now o.shapes.items o.words.items o.used };
}

impl<'m> Objects<'m> {
    /// No object yet.
    pub fn new(alloc: Global, layouts: &'m [Layout]) -> Objects<'m>
        ensures { result ≡ record { layouts = layouts.now; objects = [] } }
    {
        Objects {
            layouts,
            shapes: Vec::new(alloc),
            words: Vec::new(alloc),
            used: 0,
        }
    }

    /// How many bytes all objects take.
    pub fn bytes(&self) -> u64
        ensures { result ≡ bytes_taken self.now.layouts self.now.objects }
    {
        self.used
    }

    /// What the cell of this kind holds that a pointer names, or the trap (LLVM Language Reference, "'load' Instruction").
    pub fn load(&self, asked: Cell, at: Word) -> Result<Word, Trap>
        ensures { datum_result result ≡ load_of self.now asked (pointer_in (datum at)) }
    {
        load(
            self.layouts,
            self.shapes.as_slice(),
            self.words.as_slice(),
            asked,
            at,
        )
    }

    /// Makes an object of so many elements of a layout, and gives its number; or nothing, where the footprints of all objects
    /// would pass 67,108,864 bytes.
    pub fn add(&mut self, layout: u32, count: u64) -> Result<Option<u32>, Memory>
        ensures made { IfOk result (Makes self.old self.new layout count) }
        ensures kept { OnErr result (self.new ≡ self.old) }
    {
        let fields = Layout::fields_of(self.layouts, layout);
        let Some(cells) = room_of(fields, count, self.used) else {
            return Ok(None);
        };
        let shape = Shape {
            count,
            layout,
            first: self.words.len() as u32,
            cells,
        };
        push_object(&mut self.shapes, &mut self.words, shape, fields)?;
        self.used += bytes_of(cells);
        Ok(Some(self.shapes.len() as u32))
    }

    /// Writes the cell of this kind that a pointer names, or gives the trap (LLVM Language Reference, "'store' Instruction").
    pub fn store(&mut self, asked: Cell, at: Word, word: Word) -> Result<(), Trap>
        ensures stored { stored_result result self.new.objects ≡ store_of self.old asked (pointer_in (datum at)) (datum word) }
        ensures kept { OnErr result (self.new.objects ≡ self.old.objects) }
        ensures layouts { self.new.layouts ≡ self.old.layouts }
    {
        store(
            self.layouts,
            self.shapes.as_slice(),
            self.words.as_mut_slice(),
            asked,
            at,
            word,
        )
    }
}

fn store(
    layouts: &[Layout],
    shapes: &[Shape],
    words: &mut [Word],
    asked: Cell,
    at: Word,
    word: Word,
) -> Result<(), Trap>
    requires ordered { AreOrdered shapes.now }
    requires each { (k : ℕ) (d : Shape) → k < length shapes.now → HasCells layouts.now (slice_index_or shapes.now k d) }
    ensures stored { stored_result result (objects_of shapes.now words.new)
        ≡ store_of (record { layouts = layouts.now; objects = objects_of shapes.now words.old }) asked (pointer_in (datum at)) (datum word) }
    ensures kept { OnErr result (words.new ≡ words.old) }
    ensures count { length words.new ≡ length words.old }
{
    match reach(layouts, shapes, asked, at.object(), at.offset()) {
        Err(trap) => Err(trap),
        Ok(spot) => {
            set_word(shapes, words, spot.object, spot.cell, word);
            Ok(())
        }
    }
}

fn set_word(shapes: &[Shape], words: &mut [Word], object: u32, cell: u64, word: Word)
    requires ordered { AreOrdered shapes.now }
    ensures objects { objects_of shapes.now words.new ≡ stored (objects_of shapes.now words.old) (record { object = object; offset = 0; cell = cell }) (datum word) }
    ensures count { length words.new ≡ length words.old }
{
    let place = place_of(shapes, (object as usize).saturating_sub(1), cell);
    write_at(words, place, word);
}

fn write_at(words: &mut [Word], place: Option<usize>, word: Word)
    ensures words { words.new ≡ written words.old place word }
    ensures count { length words.new ≡ length words.old }
{
    if let Some(place) = place {
        write_in(words, place, word);
    }
}

fn write_in(words: &mut [Word], place: usize, word: Word)
    ensures words { words.new ≡ slice_set words.old place word }
    ensures count { length words.new ≡ length words.old }
{
    if place < words.len() {
        words[place] = word;
    }
}

fn load(
    layouts: &[Layout],
    shapes: &[Shape],
    words: &[Word],
    asked: Cell,
    at: Word,
) -> Result<Word, Trap>
    requires laid { AreLaid shapes.now (length words.now) }
    requires each { (k : ℕ) (d : Shape) → k < length shapes.now → HasCells layouts.now (slice_index_or shapes.now k d) }
    ensures { datum_result result ≡ load_of (record { layouts = layouts.now; objects = objects_of shapes.now words.now }) asked (pointer_in (datum at)) }
{
    match reach(layouts, shapes, asked, at.object(), at.offset()) {
        Err(trap) => Err(trap),
        Ok(spot) => Ok(word_at(shapes, words, spot.object, spot.cell)),
    }
}

fn word_at(shapes: &[Shape], words: &[Word], object: u32, cell: u64) -> Word
    requires ordered { AreOrdered shapes.now }
    ensures { datum result ≡ loaded (objects_of shapes.now words.now) (record { object = object; offset = 0; cell = cell }) }
{
    let place = place_of(shapes, (object as usize).saturating_sub(1), cell);
    word_in(words, place)
}

fn word_in(words: &[Word], place: Option<usize>) -> Word
    ensures { datum result ≡ held (map datum words.now) place }
{
    match place {
        None => Word::of(0),
        Some(place) => word_of(words, place),
    }
}

fn word_of(words: &[Word], place: usize) -> Word
    ensures { datum result ≡ slice_index_or (map datum words.now) place nothing }
{
    if place < words.len() {
        words[place]
    } else {
        Word::of(0)
    }
}

// The cells of so many elements with these fields, where the heap has room for them.
fn room_of(fields: &[Cell], count: u64, used: u64) -> Option<u32>
    requires { used ≤ 67108864 }
    ensures some { IfSome result (λ cells. (cells ≡ count * length fields.now) × (used + bytes_of cells ≤ 67108864)) }
    ensures none { IfNone result (67108864 < used + bytes_of (count * length fields.now)) }
{
    let cells = count.checked_mul(fields.len() as u64)?;
    if cells <= HEAP_BYTES / 8 && bytes_of(cells as u32) <= HEAP_BYTES - used {
        Some(cells as u32)
    } else {
        None
    }
}

// A further object, whose cells are blank.
fn push_object(
    shapes: &mut Vec<Shape>,
    words: &mut Vec<Word>,
    shape: Shape,
    fields: &[Cell],
) -> Result<(), Memory>
    requires { shape.cells ≡ shape.count * length fields.now }
    ensures shapes { OnOk result (shapes.new.items ≡ shapes.old.items ++ shape ∷ []) }
    ensures words { OnOk result (words.new.items ≡ words.old.items ++ blank_words fields.now shape.count) }
    ensures shapes_kept { OnErr result (shapes.new.items ≡ shapes.old.items) }
    ensures words_kept { OnErr result (words.new.items ≡ words.old.items) }
{
    words.reserve(shape.cells as usize)?;
    shapes.reserve(1)?;
    add_blanks(words, fields, shape.count);
    let _ = shapes.push(shape);
    Ok(())
}
