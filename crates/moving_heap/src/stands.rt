//! Objects where they stand, and their moves.

ghost use Rattle.std.specs.Prelude.{◌≡◌, ◌-◌, length};
ghost use Rattle.moving_heap.specs.Orders.{stand_at, target_in, targets_in, target_of, then_at};
ghost use Rattle.moving_heap.specs.Contents.{sizes_of};
ghost use Rattle.moving_heap.specs.Settled.{AreSettled, numbered};

use crate::cells::Cells;
use std::marker::Model;

/// An object by its number, from 1, with its footprint in bytes and its address.
#[derive(Clone, Copy, Debug, PartialEq, Eq)]
pub struct Stand {
    pub number: u32,
    pub size: u32,
    pub address: u64,
}

impl Stand {
    /// Its place among all objects, from 0.
    #[inline(always)]
    pub(crate) fn place(self) -> usize
        ensures { result ≡ self.number - 1 }
    {
        (self.number as usize).saturating_sub(1)
    }
}

/// The move of an object, by its addresses.
#[derive(Clone, Copy, Debug, PartialEq, Eq)]
pub struct Moved {
    pub old: u64,
    pub new: u64,
}

/// What is to be said of the moves of an event.
#[derive(Clone, Copy, Debug, PartialEq, Eq)]
pub enum Verdict {
    /// There are no moves.
    Empty,
    /// The objects exist and differ, their targets fit, and after the moves no two objects overlap.
    Legal,
    /// Anything else: none of the moves is made.
    Illegal,
}

/// Objects by their addresses; their numbers follow from their places, and their footprints from their cells. Contracts see
/// the objects.
#[derive(Drop)]
pub(crate) struct Stands<'a> {
    addresses: &'a [u64],
    cells: &'a Cells,
}

impl<'a> Model for Stands<'a> {
    ghost use Rattle.std.specs.Prelude.{◌≡◌, List, length};
    ghost use Rattle.moving_heap.specs.Contents.{sizes_of};
    ghost use Rattle.moving_heap.specs.Settled.{AreSettled, numbered};
    ghost use Rattle.moving_heap.specs.declared.stands.Stand.{Stand};

    ghost Value = { List Stand };

    ghost view = { λ stands. numbered 0 stands.addresses.now (sizes_of stands.cells.now.contents) };

    ghost invariant = { λ stands. (length stands.cells.now.contents ≡ length stands.addresses.now) × AreSettled (numbered 0 stands.addresses.now (sizes_of stands.cells.now.contents)) };
}

impl<'a> Stands<'a> {
    /// The objects that have these addresses and cells.
    #[inline(always)]
    pub(crate) fn of(addresses: &'a [u64], cells: &'a Cells) -> Stands<'a>
        requires same { length cells.now.contents ≡ length addresses.now }
        requires settled { AreSettled (numbered 0 addresses.now (sizes_of cells.now.contents)) }
        ensures { result ≡ numbered 0 addresses.now (sizes_of cells.now.contents) }
    {
        Stands { addresses, cells }
    }

    /// How many there are.
    #[inline(always)]
    pub(crate) fn len(&self) -> usize
        ensures { result ≡ length self.now }
    {
        self.addresses.len()
    }

    /// An object by its place among all, from 0.
    #[inline(always)]
    pub(crate) fn at(&self, place: usize) -> Stand
        ensures { result ≡ stand_at self.now place }
    {
        if place < self.addresses.len() {
            Stand {
                number: (place + 1) as u32,
                size: self.cells.size(place),
                address: self.addresses[place],
            }
        } else {
            Stand {
                number: 0,
                size: 0,
                address: 0,
            }
        }
    }
}

/// Where a move sends its object.
pub(crate) fn target_in(moved: Moved) -> Option<u64>
    ensures { result ≡ target_in moved }
{
    if moved.new == 0 {
        None
    } else {
        Some(moved.new)
    }
}

/// The target of an object, if it has one.
pub(crate) fn target_of(targets: &[Moved], stand: Stand) -> Option<u64>
    ensures { result ≡ target_of (targets_in targets.now) stand }
{
    let place = stand.place();
    if place < targets.len() {
        target_in(targets[place])
    } else {
        None
    }
}

/// An object by its place, at its target if it has one.
pub(crate) fn then_at(stands: &Stands, targets: &[Moved], place: u32) -> Stand
    ensures { result ≡ then_at stands.now (targets_in targets.now) place }
{
    let stand = stands.at(place as usize);
    match target_of(targets, stand) {
        None => stand,
        Some(to) => Stand {
            address: to,
            ..stand
        },
    }
}
