//! The way back from each value along `getelementptr`s.

ghost use Rattle.std.specs.Prelude.{◌≡◌, ◌<◌, ◌^◌, length, map, slice_get, IfOk, IfSome};
ghost use Rattle.std.specs.List.{range_with_len};
ghost use Rattle.base_tables.specs.Kinds.{stepped_in, origin_in};
ghost use Rattle.base_tables.specs.Seen.{seen_shape};
ghost use Rattle.base_tables.specs.Origins.{found_at, AreFound, Nears};
ghost use Rattle.ir_ast.specs.Operands.{named};

use crate::shapes::Shape;
use ir_ast::Operand;
use sp_ids::{Memory, ValueId};
use std::alloc::Global;

/// The first on the way back from each value that is no `getelementptr`.
pub(crate) fn origins(alloc: Global, shapes: &[Shape<'_>]) -> Result<Vec<Operand>, Memory>
    requires { length shapes.now < 2 ^ 32 }
    ensures { IfOk result (λ origins. origins.items ≡ map (λ value. origin_in (map seen_shape shapes.now) (named value)) (range_with_len 0 (length shapes.now))) }
{
    match in_order(alloc, shapes)? {
        Some(all) => Ok(all),
        None => in_any_order(alloc, shapes),
    }
}

// The origins where no `getelementptr` steps from a later value.
fn in_order(alloc: Global, shapes: &[Shape<'_>]) -> Result<Option<Vec<Operand>>, Memory>
    requires { length shapes.now < 2 ^ 32 }
    ensures { IfOk result (λ found. IfSome found (λ origins.
        origins.items ≡ map (λ value. origin_in (map seen_shape shapes.now) (named value)) (range_with_len 0 (length shapes.now)))) }
{
    let mut all = Vec::with_capacity(alloc, shapes.len())?;
    for value in 0..shapes.len() {
        match origin_after(shapes, all.as_slice(), value) {
            None => return Ok(None),
            Some(origin) => all.push_reserved(origin),
        }
    }
    Ok(Some(all))
}

// The origin of a value, given those of all before it, unless it steps from a later one.
fn origin_after(shapes: &[Shape<'_>], before: &[Operand], value: usize) -> Option<Operand>
    requires few { value < 2 ^ 32 }
    requires before { before.now ≡ map (λ value. origin_in (map seen_shape shapes.now) (named value)) (range_with_len 0 value) }
    ensures { IfSome result (λ origin. origin ≡ origin_in (map seen_shape shapes.now) (named value)) }
{
    let own = Operand::Value(ValueId(value as u32));
    match stepped_from(shapes, own) {
        None => Some(own),
        Some(operand) => origin_among(shapes, before, value, operand),
    }
}

// The origin of an operand, given those of all values before one, unless it is that one or a later one.
fn origin_among(
    shapes: &[Shape<'_>],
    before: &[Operand],
    value: usize,
    operand: Operand,
) -> Option<Operand>
    requires { before.now ≡ map (λ value. origin_in (map seen_shape shapes.now) (named value)) (range_with_len 0 value) }
    ensures { IfSome result (λ origin. origin ≡ origin_in (map seen_shape shapes.now) operand) }
{
    match operand {
        Operand::Value(earlier) => item_at(before, earlier.0 as usize),
        Operand::Int(_) | Operand::Null | Operand::Fun(_) => Some(operand),
    }
}

fn item_at(items: &[Operand], place: usize) -> Option<Operand>
    ensures { result ≡ slice_get items.now place }
{
    items.get(place).copied()
}

// Each value is gone over once, since a way back ends at the first value whose origin was found.
fn in_any_order(alloc: Global, shapes: &[Shape<'_>]) -> Result<Vec<Operand>, Memory>
    requires { length shapes.now < 2 ^ 32 }
    ensures { IfOk result (λ origins. origins.items ≡ map (λ value. origin_in (map seen_shape shapes.now) (named value)) (range_with_len 0 (length shapes.now))) }
{
    let mut found = vec![in alloc; None; shapes.len()]?;
    let mut all = Vec::with_capacity(alloc, shapes.len())?;
    for value in 0..shapes.len() {
        let start = Operand::Value(ValueId(value as u32));
        let origin = origin_from(shapes, found.as_slice(), start);
        settle(shapes, &mut found, start, origin);
        all.push(origin)?;
    }
    Ok(all)
}

fn origin_from(shapes: &[Shape<'_>], found: &[Option<Operand>], start: Operand) -> Operand
    requires { AreFound (map seen_shape shapes.now) found.now }
    ensures { result ≡ origin_in (map seen_shape shapes.now) start }
{
    let mut current = start;
    for _ in 0..shapes.len() + 1 {
        match next(shapes, found, current) {
            WayBack::Ends(origin) => return origin,
            WayBack::Leads(before) => current = before,
        }
    }
    Operand::Null
}

// Keeps the origin for all on the way to it.
fn settle(shapes: &[Shape<'_>], found: &mut Vec<Option<Operand>>, start: Operand, origin: Operand)
    requires found { AreFound (map seen_shape shapes.now) found.old.items }
    requires origin { origin ≡ origin_in (map seen_shape shapes.now) start }
    ensures { AreFound (map seen_shape shapes.now) found.new.items }
{
    let mut current = start;
    for _ in 0..shapes.len() + 1 {
        match next(shapes, found.as_slice(), current) {
            WayBack::Ends(_) => return,
            WayBack::Leads(before) => {
                keep(shapes, found, current, origin);
                current = before;
            }
        }
    }
}

fn keep(shapes: &[Shape<'_>], found: &mut Vec<Option<Operand>>, operand: Operand, origin: Operand)
    requires found { AreFound (map seen_shape shapes.now) found.old.items }
    requires origin { origin ≡ origin_in (map seen_shape shapes.now) operand }
    ensures { AreFound (map seen_shape shapes.now) found.new.items }
{
    if let Operand::Value(value) = operand {
        if (value.0 as usize) < found.len() {
            found[value.0 as usize] = Some(origin);
        }
    }
}

// The origin of an operand, or the operand before it on the way back.
#[derive(Clone, Copy, Debug)]
pub(crate) enum WayBack {
    Ends(Operand),
    Leads(Operand),
}

fn next(shapes: &[Shape<'_>], found: &[Option<Operand>], operand: Operand) -> WayBack
    requires { AreFound (map seen_shape shapes.now) found.now }
    ensures { Nears (map seen_shape shapes.now) operand result }
{
    match stepped_from(shapes, operand) {
        None => WayBack::Ends(operand),
        Some(before) => match found_at(found, operand) {
            Some(origin) => WayBack::Ends(origin),
            None => WayBack::Leads(before),
        },
    }
}

fn stepped_from(shapes: &[Shape<'_>], operand: Operand) -> Option<Operand>
    ensures { result ≡ stepped_in (map seen_shape shapes.now) operand }
{
    match operand {
        Operand::Value(value) => match shapes.get(value.0 as usize) {
            Some(Shape::Step(before)) => *before,
            Some(Shape::Plain | Shape::Merge(_) | Shape::Unequal(_)) | None => None,
        },
        Operand::Int(_) | Operand::Null | Operand::Fun(_) => None,
    }
}

fn found_at(found: &[Option<Operand>], operand: Operand) -> Option<Operand>
    ensures { result ≡ found_at found.now operand }
{
    match operand {
        Operand::Value(value) => found.get(value.0 as usize).copied().flatten(),
        Operand::Int(_) | Operand::Null | Operand::Fun(_) => None,
    }
}
