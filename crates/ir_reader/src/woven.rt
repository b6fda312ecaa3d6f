//! The readings of lines in two parts: those outside bodies, and the bodies.

ghost use Rattle.std.specs.Prelude.{◌≡◌, ◌<◌, ◌-◌, ◌==◌, ◌||◌, [], ◌∷◌, ◌++◌, map, length, slice_set, slice_index_or, OnOk, OnErr};
ghost use Rattle.ir_reader.specs.Woven.{is_outer};

use crate::raw::NumberedReading;
use line_forms::Reading;
use std::alloc::{AllocError, Global};
use std::marker::Model;

/// The readings of lines, in the order of the text. Those of each body stand by themselves, so that they can be let go
/// as soon as their function is made.
#[derive(Drop)]
pub struct Woven<'a> {
    outer: Vec<NumberedReading<'a>>,
    // Of each of these lines, the lines behind it that are in a body.
    bodies: Vec<Vec<NumberedReading<'a>>>,
}

impl<'a> Model for Woven<'a> {
    ghost use Rattle.std.specs.Prelude.{List, map};
    ghost use Rattle.ir_reader.specs.declared.raw.NumberedReading.{NumberedReading as Numbered};
    ghost use Rattle.ir_reader.specs.Woven.{woven, IsWoven};

    ghost Value = { List Numbered };

    ghost view = { λ it. woven it.outer.items (map (λ body. body.items) it.bodies.items) };

    ghost invariant = { λ it. IsWoven it.outer.items (map (λ body. body.items) it.bodies.items) };
}

fn is_outer(reading: &Reading) -> bool
    ensures { result ≡ is_outer reading.now }
{
    matches!(
        reading,
        Reading::Layout { .. } | Reading::Declare { .. } | Reading::Define { .. } | Reading::Close
    )
}

// Whether the line stands outside bodies: it is of a form that does, or there is no body in which it could stand.
fn stands_outside(bodies: &[Vec<NumberedReading>], reading: &Reading) -> bool
    ensures { result ≡ (length bodies.now == 0 || is_outer reading.now) }
{
    bodies.len() == 0 || is_outer(reading)
}

// Adds a line outside bodies, behind which no body stands so far; or nothing.
#[inline(never)]
fn push_outer<'a>(
    alloc: Global,
    line: NumberedReading<'a>,
    outer: &mut Vec<NumberedReading<'a>>,
    bodies: &mut Vec<Vec<NumberedReading<'a>>>,
) -> Result<(), AllocError>
    ensures outer { OnOk result (outer.new.items ≡ outer.old.items ++ line.entry ∷ []) }
    ensures bodies { OnOk result (map (λ body. body.items) bodies.new.items ≡ map (λ body. body.items) bodies.old.items ++ [] ∷ []) }
    ensures same_outer { OnErr result (outer.new.items ≡ outer.old.items) }
    ensures same_bodies { OnErr result (map (λ body. body.items) bodies.new.items ≡ map (λ body. body.items) bodies.old.items) }
{
    outer.reserve(1)?;
    bodies.push(Vec::new(alloc))?;
    outer.push_reserved(line);
    Ok(())
}

// Adds a line to a body.
#[inline(always)]
fn push_inner<'a>(
    place: usize,
    line: NumberedReading<'a>,
    bodies: &mut Vec<Vec<NumberedReading<'a>>>,
) -> Result<(), AllocError>
    requires { place < length bodies.old.items }
    ensures bodies { OnOk result (map (λ body. body.items) bodies.new.items ≡ slice_set (map (λ body. body.items) bodies.old.items) place
        (slice_index_or (map (λ body. body.items) bodies.old.items) place [] ++ line.entry ∷ [])) }
    ensures same { OnErr result (map (λ body. body.items) bodies.new.items ≡ map (λ body. body.items) bodies.old.items) }
{
    let body = &mut bodies[place];
    body.reserve(1)?;
    body.push_reserved(line);
    Ok(())
}

// Adds a line to the last body.
#[inline(always)]
fn push_last<'a>(
    line: NumberedReading<'a>,
    bodies: &mut Vec<Vec<NumberedReading<'a>>>,
) -> Result<(), AllocError>
    requires { 0 < length bodies.old.items }
    ensures bodies { OnOk result (map (λ body. body.items) bodies.new.items ≡ slice_set (map (λ body. body.items) bodies.old.items) (length bodies.old.items - 1)
        (slice_index_or (map (λ body. body.items) bodies.old.items) (length bodies.old.items - 1) [] ++ line.entry ∷ [])) }
    ensures same { OnErr result (map (λ body. body.items) bodies.new.items ≡ map (λ body. body.items) bodies.old.items) }
{
    let last = bodies.len() - 1;
    push_inner(last, line, bodies)
}

impl<'a> Woven<'a> {
    ghost use Rattle.ir_reader.specs.Woven.{woven, IsWoven};

    pub(crate) fn new(alloc: Global) -> Woven<'a>
        ensures { result ≡ [] }
    {
        Woven {
            outer: Vec::new(alloc),
            bodies: Vec::new(alloc),
        }
    }

    /// Adds a line behind the others. It is inlined, so that a line is moved straight to its body.
    #[inline(always)]
    pub(crate) fn push(
        &mut self,
        alloc: Global,
        line: NumberedReading<'a>,
    ) -> Result<(), AllocError>
        ensures { OnOk result (self.new ≡ self.old ++ line.entry ∷ []) }
    {
        if stands_outside(self.bodies.as_slice(), &line.reading) {
            push_outer(alloc, line, &mut self.outer, &mut self.bodies)
        } else {
            push_last(line, &mut self.bodies)
        }
    }

    /// The lines outside bodies, that is layouts, declarations, and the heads and braces of definitions; and of each of
    /// them the lines of its body.
    pub fn into_parts(self) -> (Vec<NumberedReading<'a>>, Vec<Vec<NumberedReading<'a>>>)
        ensures lines { woven result.0.items (map (λ body. body.items) result.1.items) ≡ self.entry }
        ensures parts { IsWoven result.0.items (map (λ body. body.items) result.1.items) }
    {
        (self.outer, self.bodies)
    }
}
