//! Records with their numbers.

ghost use Rattle.std.specs.Prelude.{◌≡◌, ◌≤◌, IfOk, OnOk, length, map, nat_lt, option_map, true, false};
ghost use Rattle.std.specs.List.{enumerate_from};
ghost use Rattle.std.specs.List.Sorted.{IsNonDecreasingBy, IsPartitionPoint, IsPermutation, IsStableByKey};
ghost use Rattle.std.specs.Ordering.{nat_cmp};
ghost use Rattle.map_bytes.specs.Entries.{entries};

use crate::records::RecordRef;
use crate::view::MapView;
use sp_ids::Memory;
use std::alloc::Global;

/// A record and its number in the map, from 0.
#[derive(Clone, Copy, Debug)]
pub(crate) struct Numbered<'a> {
    pub(crate) lent: RecordRef<'a>,
    pub(crate) number: usize,
}

ghost use Rattle.stackmap_view.specs.Indexes.{address_of, first_at, numbered};
ghost use Rattle.stackmap_view.specs.Maps.{stack_map};
ghost use Rattle.stackmap_view.specs.Views.{seen};

// The records of a map, numbered.
pub(crate) fn number_records<'a>(
    alloc: Global,
    view: &MapView<'a>,
) -> Result<Vec<Numbered<'a>>, Memory>
    ensures { IfOk result (λ list. map numbered list.items ≡ enumerate_from 0 (entries (stack_map view.now))) }
{
    let mut list = Vec::new(alloc);
    for lent in view.records() {
        let number = list.len();
        list.push(Numbered { lent, number })?;
    }
    Ok(list)
}

// Sorts records by their return addresses; those of one address stay in order.
pub(crate) fn sort_by_address(list: &mut Vec<Numbered<'_>>) -> Result<(), Memory>
    ensures permutation { IsPermutation list.old.items list.new.items }
    ensures sorted { OnOk result (IsNonDecreasingBy address_of list.new.items) }
    ensures stable { OnOk result (IsStableByKey address_of nat_cmp list.old.items list.new.items) }
{
    list.sort_by_key(|one| one.lent.return_address())?;
    Ok(())
}

// How many records stand before those of the address.
fn below(list: &[Numbered<'_>], address: u64) -> usize
    requires { IsNonDecreasingBy address_of list.now }
    ensures within { result ≤ length list.now }
    ensures point { IsPartitionPoint (λ one. nat_lt (address_of one) address ≡ true) (λ one. nat_lt (address_of one) address ≡ false) list.now result }
{
    list.partition_point(|one| one.lent.return_address() < address)
}

// The first record of the address, searched by halves.
pub(crate) fn search<'a>(list: &[Numbered<'a>], address: u64) -> Option<RecordRef<'a>>
    requires { IsNonDecreasingBy address_of list.now }
    ensures { option_map seen result ≡ option_map (λ one. seen one.lent) (first_at list.now address) }
{
    let place = below(list, address);
    if place >= list.len() {
        return None;
    }
    let one = list[place];
    if one.lent.return_address() == address {
        Some(one.lent)
    } else {
        None
    }
}
