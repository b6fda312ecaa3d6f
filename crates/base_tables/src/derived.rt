//! Derived values (Garbage Collection Safepoints in LLVM, "Base & Derived Pointers"): marks that are spread in the order of the
//! values, and a search where these are not all.

ghost use Rattle.std.specs.Prelude.{◌≡◌, ◌<◌, ◌⊎◌, ℕ, true, Some, length, map, slice_get, IfOk};
ghost use Rattle.base_tables.specs.Seen.{seen_shape};
ghost use Rattle.graph_search.specs.Paths.{Marked};
ghost use Rattle.base_tables.specs.Kinds.{Kind, kind_merged};
ghost use Rattle.base_tables.specs.Users.{DerivedIn, AreMarks, given_kind, kind_steps, closed_at};
ghost use Rattle.derived_values.specs.Givens.{seen_giver};

use crate::shapes::Shape;
use crate::tables::{any_marked, is_merged, mark_at};
use derived_values::{Giver, Givers, derived_marks};
use sp_ids::Memory;
use std::alloc::Global;

// Values by their shapes.
#[derive(Drop)]
struct ShapedBy<'a>(&'a [Shape<'a>]);

impl Givers for ShapedBy<'_> {
    ghost givers = { λ shaped. map given_kind (map seen_shape shaped.0.now) };

    fn count(&self) -> usize {
        self.0.len()
    }

    fn giver(&self, value: usize) -> Giver<'_> {
        giver_of(self.0[value])
    }
}

fn giver_of(shape: Shape<'_>) -> Giver<'_>
    ensures { seen_giver result ≡ given_kind (seen_shape shape.entry) }
{
    match shape {
        Shape::Step(_) => Giver::Step,
        Shape::Merge(operands) => Giver::Merge(operands, &[]),
        Shape::Unequal(_) | Shape::Plain => Giver::Other,
    }
}

/// For each value whether it is derived.
pub(crate) fn derived(alloc: Global, shapes: &[Shape<'_>]) -> Result<Vec<bool>, Memory>
    ensures { IfOk result (λ marks. AreMarks (map seen_shape shapes.now) marks.items) }
{
    let mut marks = step_marks(alloc, shapes)?;
    if is_closed(shapes, marks.as_slice()) {
        return Ok(marks);
    }
    spread(shapes, &mut marks);
    if is_closed(shapes, marks.as_slice()) {
        return Ok(marks);
    }
    derived_marks(alloc, &ShapedBy(shapes))
}

// In the order of the values, a mark on each phi and select that uses a marked one.
fn spread(shapes: &[Shape<'_>], marks: &mut Vec<bool>)
    requires whole { length marks.old.items ≡ length shapes.now }
    requires sound { (value : ℕ) → Marked marks.old.items value → DerivedIn (map seen_shape shapes.now) value }
    ensures whole { length marks.new.items ≡ length shapes.now }
    ensures sound { (value : ℕ) → Marked marks.new.items value → DerivedIn (map seen_shape shapes.now) value }
{
    for (value, shape) in shapes.iter().enumerate() {
        mark_merge(marks, value, shape);
    }
}

// Marks on the steps.
fn step_marks(alloc: Global, shapes: &[Shape<'_>]) -> Result<Vec<bool>, Memory>
    ensures { IfOk result (λ marks. marks.items ≡ map kind_steps (map seen_shape shapes.now)) }
{
    let mut marks = Vec::with_capacity(alloc, shapes.len())?;
    for shape in shapes {
        marks.push_reserved(is_step(shape));
    }
    Ok(marks)
}

fn is_step(shape: &Shape<'_>) -> bool
    ensures { result ≡ kind_steps (seen_shape shape.now) }
{
    match shape {
        Shape::Step(_) => true,
        Shape::Merge(_) | Shape::Unequal(_) | Shape::Plain => false,
    }
}

fn mark_merge(marks: &mut Vec<bool>, value: usize, shape: &Shape<'_>)
    requires { value < length marks.old.items }
    ensures whole { length marks.new.items ≡ length marks.old.items }
    ensures each { (v : ℕ) → Marked marks.new.items v → Marked marks.old.items v ⊎ ((v ≡ value) × (kind_merged marks.old.items (seen_shape shape.now) ≡ true)) }
{
    if is_merged(marks.as_slice(), shape) {
        marks[value] = true;
    }
}

// Whether marks that only derived values have are on all of them.
fn is_closed(shapes: &[Shape<'_>], marks: &[bool]) -> bool
    ensures { result ≡ true → (value : ℕ) (kind : Kind) → slice_get (map seen_shape shapes.now) value ≡ Some kind → closed_at marks.now value kind ≡ true }
{
    for (value, shape) in shapes.iter().enumerate() {
        if !is_closed_at(marks, value, shape) {
            return false;
        }
    }
    true
}

fn is_closed_at(marks: &[bool], value: usize, shape: &Shape<'_>) -> bool
    ensures { result ≡ closed_at marks.now value (seen_shape shape.now) }
{
    match shape {
        Shape::Step(_) => mark_at(marks, value),
        Shape::Merge(operands) => mark_at(marks, value) || !any_marked(marks, operands),
        Shape::Unequal(_) | Shape::Plain => true,
    }
}
