//! Names by number.

ghost use Rattle.std.specs.Prelude.{◌≡◌, [], ◌∷◌, ◌++◌, ◌↔◌, IsTrue, is_none, map, OnOk, IfOk};
ghost use Rattle.std.specs.List.{Contains};
ghost use Rattle.std.specs.Str.{bytes_eq};
ghost use Rattle.ir_lines.specs.Places.{place_in, number_of, number_in};

use crate::firsts::Firsts;
use std::alloc::{AllocError, Global};
use std::marker::Model;

/// A list of names, in which each name stands for its first place. Contracts see a list of lists of bytes.
#[derive(Drop)]
pub struct Names<'n> {
    list: Vec<&'n [u8]>,
    firsts: Firsts<'n>,
}

impl<'n> Model for Names<'n> {
    ghost use Rattle.std.specs.Prelude.{ℕ, List, map};
    ghost use Rattle.ir_lines.specs.Firsts.{IsFirsts};

    ghost Value = { List (List ℕ) };

    ghost view = { λ names. map (λ name. name.now) names.list.items };

    ghost invariant = { λ names. IsFirsts (map (λ one. one.now) names.list.items) names.firsts };
}

/// The number of a place, or 2^32 - 1 for none.
pub fn number_of(place: Option<usize>) -> u32
    ensures { result ≡ number_of place }
{
    match place {
        Some(place) => place.min(NOWHERE as usize) as u32,
        None => NOWHERE,
    }
}

impl<'n> Names<'n> {
    /// No names.
    pub fn new(alloc: Global) -> Names<'n>
        ensures { result ≡ [] }
    {
        Names {
            list: Vec::new(alloc),
            firsts: Firsts::new(alloc),
        }
    }

    /// No names, with room for so many.
    pub fn with_room(alloc: Global, room: usize) -> Result<Names<'n>, AllocError>
        ensures { IfOk result (λ names. names ≡ []) }
    {
        Ok(Names {
            list: Vec::with_capacity(alloc, room)?,
            firsts: Firsts::with_room(alloc, room)?,
        })
    }

    /// Adds a name behind the others, and answers whether none of them is the same.
    pub fn add(&mut self, name: &'n [u8]) -> Result<bool, AllocError>
        ensures added { OnOk result (self.new ≡ self.old ++ name.now ∷ []) }
        ensures is_new { IfOk result (λ is_new. is_new ≡ is_none (place_in self.old name.now)) }
    {
        self.list.reserve(1)?;
        let is_new = self.firsts.add(name, self.list.len())?;
        self.list.push_reserved(name);
        Ok(is_new)
    }

    /// The place of the first of these names.
    pub fn find(&self, name: &[u8]) -> Option<usize>
        ensures { result ≡ place_in self.now name.now }
    {
        self.firsts.find(name)
    }

    /// Whether one of these names is this.
    pub fn has(&self, name: &[u8]) -> bool
        ensures { IsTrue result ↔ Contains self.now name.now }
    {
        self.find(name).is_some()
    }

    /// The number of the first of these names, or 2^32 - 1 where there is none.
    pub fn number(&self, name: &[u8]) -> u32
        ensures { result ≡ number_in self.now name.now }
    {
        number_of(self.find(name))
    }

    /// The names, in their order.
    pub fn list(&self) -> &[&'n [u8]]
        ensures { map (λ name. name.now) result.now ≡ self.now }
    {
        self.list.as_slice()
    }
}

// The number of a name that isn't in a list: a line that uses such a name has a fault, so no module that typing gives has
// this number.
const NOWHERE: u32 = u32::MAX;

/// Whether a name is this text.
pub fn is_text(name: &[u8], text: &[u8]) -> bool
    ensures { result ≡ bytes_eq name.now text.now }
{
    line_tokens::is_text(name, text)
}
