//! An index of the records of a map by return address.

use crate::numbered::{Numbered, number_records, search, sort_by_address};
use crate::records::RecordRef;
use crate::view::MapView;
use sp_ids::Memory;
use std::alloc::Global;
use std::marker::Model;

/// The records of a map, sorted by return address and number. It is seen as the map with the sorted pairs.
#[derive(Drop)]
pub struct MapIndex<'a> {
    view: MapView<'a>,
    list: Vec<Numbered<'a>>,
}

impl<'a> Model for MapIndex<'a> {
    ghost use Rattle.std.specs.Prelude.{map};
    ghost use Rattle.stackmap_view.specs.Indexes.{IndexedMap, IsIndex, pair_of};
    ghost use Rattle.stackmap_view.specs.Maps.{stack_map};

    ghost Value = { IndexedMap };

    ghost view = { λ index. record { whole = stack_map index.view; pairs = map pair_of index.list.items } };

    ghost invariant = { λ index. IsIndex (stack_map index.view) index.list.items };
}

impl<'a> MapIndex<'a> {
    ghost use Rattle.std.specs.Prelude.{◌≡◌, IfOk, IfSome, length, option_map, slice_index};
    ghost use Rattle.std.specs.List.Sorted.{IsPermutation};
    ghost use Rattle.std.specs.List.{AllAdjacentBelow};
    ghost use Rattle.map_bytes.specs.Entries.{entry_at};
    ghost use Rattle.stackmap_view.specs.Indexes.{AreInOrder, numbered_addresses};
    ghost use Rattle.stackmap_view.specs.Maps.{stack_map};
    ghost use Rattle.stackmap_view.specs.Views.{seen};

    /// An index of the view's map, in some n log n steps.
    pub fn of(alloc: Global, view: MapView<'a>) -> Result<MapIndex<'a>, Memory>
        ensures whole { IfOk result (λ index. index.whole ≡ stack_map view.entry) }
        ensures pairs { IfOk result (λ index. IsPermutation (numbered_addresses (stack_map view.entry)) index.pairs) }
        ensures sorted { IfOk result (λ index. AllAdjacentBelow AreInOrder index.pairs (length index.pairs)) }
    {
        let mut list = number_records(alloc, &view)?;
        sort_by_address(&mut list)?;
        Ok(MapIndex { view, list })
    }

    /// The first record of the map with this return address, if there is one. It searches by halves.
    pub fn find(&self, return_address: u64) -> Option<RecordRef<'a>>
        ensures found { option_map seen result ≡ entry_at self.now.whole return_address }
        ensures map { IfSome result (λ one. stack_map one.view ≡ self.now.whole) }
    {
        match search(&self.list, return_address) {
            None => None,
            Some(one) => Some(one.found_in(self.view)),
        }
    }

    /// The number with this place in the map's list of constants, or 0 where the list is shorter.
    pub fn constant(&self, index: u32) -> u64
        ensures { result ≡ slice_index self.now.whole.constants index }
    {
        if index < self.view.constants() {
            self.view.constant(index)
        } else {
            0
        }
    }
}
