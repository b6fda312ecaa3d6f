//! One row of blocks for each block, kept in one list.

ghost use Rattle.std.specs.Prelude.{◌≡◌, ◌<◌, ◌≤◌, [], ◌∷◌, ◌++◌, length, slice_index, slice_range, IfOk};
ghost use Rattle.ir_cfg.specs.Graphs.{succs_of, labels_of, numbers_of};
ghost use Rattle.ir_cfg.specs.Rows.{rows_from, AreStops};

use graph_search::Edges;
use sp_ids::{BlockId, Memory};
use std::alloc::Global;
use std::marker::Model;

/// Lists of blocks, one after the other in one array, with the end of each. Contracts see a list of lists.
#[derive(Drop)]
pub(crate) struct Rows {
    stops: Vec<usize>,
    items: Vec<BlockId>,
}

impl Model for Rows {
    ghost use Rattle.std.specs.Prelude.{List, length};
    ghost use Rattle.sp_ids.specs.declared.ids.BlockId.{BlockId};
    ghost use Rattle.ir_cfg.specs.Rows.{rows_from, AreStops};

    ghost Value = { List (List BlockId) };

    ghost view = { λ rows. rows_from 0 rows.stops.items rows.items.items };

    ghost invariant = { λ rows. AreStops 0 rows.stops.items (length rows.items.items) };
}

impl Rows {
    /// No row.
    pub(crate) fn new(alloc: Global) -> Rows
        ensures { result ≡ [] }
    {
        Rows {
            stops: Vec::new(alloc),
            items: Vec::new(alloc),
        }
    }

    /// The rows that end at these places.
    pub(crate) fn of(stops: Vec<usize>, items: Vec<BlockId>) -> Rows
        requires { AreStops 0 stops.items (length items.items) }
        ensures { result ≡ rows_from 0 stops.items items.items }
    {
        Rows { stops, items }
    }

    /// These rows, and one more.
    pub(crate) fn with_row(self, row: &[BlockId]) -> Result<Rows, Memory>
        ensures { IfOk result (λ rows. rows ≡ self ++ row.now ∷ []) }
    {
        let mut stops = self.stops;
        let mut items = self.items;
        items.extend_from_slice(row)?;
        stops.push(items.len())?;
        Ok(Rows { stops, items })
    }

    /// How many rows there are.
    pub(crate) fn len(&self) -> usize
        ensures { result ≡ length self.now }
    {
        self.stops.len()
    }

    /// What the rows have, one after the other.
    pub(crate) fn items(&self) -> &[BlockId]
        ensures { result.now ≡ labels_of self.now }
    {
        self.items.as_slice()
    }

    /// The row at a place.
    pub(crate) fn row(&self, place: usize) -> &[BlockId]
        requires { place < length self.now }
        ensures { result.now ≡ succs_of self.now place }
    {
        row_of(self.stops.as_slice(), self.items.as_slice(), place)
    }
}

/// The blocks by number.
impl Edges for Rows {
    ghost rows = { λ rows. numbers_of rows };

    fn node_count(&self) -> usize {
        self.len()
    }

    fn degree(&self, node: usize) -> usize {
        self.row(node).len()
    }

    fn target(&self, node: usize, number: usize) -> usize {
        self.row(node)[number].0 as usize
    }
}

// The row at a place, given where each row ends.
fn row_of<'a>(stops: &[usize], items: &'a [BlockId], place: usize) -> &'a [BlockId]
    requires stops { AreStops 0 stops.now (length items.now) }
    requires place { place < length stops.now }
    ensures { result.now ≡ succs_of (rows_from 0 stops.now items.now) place }
{
    between(items, start_of(stops, place), stops[place])
}

// Where the row at a place begins.
fn start_of(stops: &[usize], place: usize) -> usize
    requires { place < length stops.now }
    ensures { result ≡ slice_index (0 ∷ stops.now) place }
{
    if place == 0 { 0 } else { stops[place - 1] }
}

fn between(items: &[BlockId], start: usize, stop: usize) -> &[BlockId]
    requires up { start ≤ stop }
    requires within { stop ≤ length items.now }
    ensures { result.now ≡ slice_range items.now start stop }
{
    &items[start..stop]
}
