//! The records of a map, one after the other.

ghost use Rattle.std.specs.Prelude.{◌≡◌, ◌<◌, ◌-◌, ◌∷◌, drop};
ghost use Rattle.std.specs.List.{flat_map};
ghost use Rattle.map_bytes.specs.Maps.{counted_records, record_bytes};
ghost use Rattle.map_bytes.specs.Reads.{record_read, records_read, size_read};
ghost use Rattle.stackmap_view.specs.Owners.{owned};

use crate::owners::Owner;
use crate::records::{RecordRef, record_size};
use crate::view::MapView;

/// The records of a map in order, each lent out of the map's bytes. A step goes over one record, and over entries of functions
/// that have none.
#[derive(Clone, Copy, Debug)]
pub struct Records<'a> {
    pub(crate) view: MapView<'a>,
    pub(crate) owner: Owner<'a>,
    pub(crate) records: &'a [u8],
    pub(crate) count: u32,
    ghost counted: { counted_records (owned owner) ≡ count },
    ghost spelled: { records.now ≡ flat_map record_bytes (records_read count records.now) },
}

impl<'a> Records<'a> {
    ghost use Rattle.stackmap_view.specs.Views.{seen};
    ghost use Rattle.stackmap_view.specs.Walks.{records_left};

    // The first record and the others.
    fn first(&self) -> (RecordRef<'a>, Records<'a>)
        requires { 0 < self.now.count }
        ensures { records_left self.now ≡ seen result.0 ∷ records_left result.1 }
    {
        let owner = self.owner.with_record();
        let (bytes, records) = split_record(self.count, self.records);
        let record = RecordRef::of(self.view, &owner, bytes);
        let others = Records {
            view: self.view,
            owner: owner.behind_one(),
            records,
            count: self.count - 1,
        };
        (record, others)
    }
}

impl<'a> Iterator for Records<'a> {
    ghost use Rattle.std.specs.Iterator.{YieldsFirstBy, item_count};
    ghost use Rattle.stackmap_view.specs.Views.{seen};
    ghost use Rattle.stackmap_view.specs.Walks.{records_left};

    type Item = RecordRef<'a>;

    ghost next_gives = { YieldsFirstBy seen records_left };

    ghost remaining = { item_count records_left };

    fn next(&mut self) -> Option<RecordRef<'a>> {
        if self.count == 0 {
            return None;
        }
        let (record, others) = self.first();
        *self = others;
        Some(record)
    }
}

// The bytes of the first of so many records, and those of the others.
fn split_record(count: u32, bytes: &[u8]) -> (&[u8], &[u8])
    requires some { 0 < count }
    requires spelled { bytes.now ≡ flat_map record_bytes (records_read count bytes.now) }
    ensures first { result.0.now ≡ record_bytes (record_read result.0.now) }
    ensures same { record_read result.0.now ≡ record_read bytes.now }
    ensures rest { result.1.now ≡ drop (size_read bytes.now) bytes.now }
    ensures others { result.1.now ≡ flat_map record_bytes (records_read (count - 1) result.1.now) }
{
    bytes.split_at(record_size(bytes))
}
