//! A stack map, read in place.

ghost use Rattle.std.specs.Prelude.{◌≡◌, ◌≤◌, IsTrue, drop, is_none, length};
ghost use Rattle.std.specs.List.{flat_map};
ghost use Rattle.map_bytes.specs.Tables.{map_format};
ghost use Rattle.map_bytes.specs.Maps.{counted_records, record_bytes};
ghost use Rattle.map_bytes.specs.Faults.{first_fault};
ghost use Rattle.map_bytes.specs.Reads.{map_read, records_at};

use crate::owners::Owner;
use crate::parts::look_through;
use crate::records::{RecordRef, function_entry};
use crate::walk::Records;
use byteorder::{ByteOrder, LittleEndian};
use map_bytes::{FuncEntry, MapFault};

/// A view of bytes that are a stack map. All that it tells is lent out of the bytes.
#[derive(Clone, Copy, Debug)]
pub struct MapView<'a> {
    bytes: &'a [u8],
    ghost faultless: { IsTrue (is_none (first_fault map_format (length bytes.now) bytes.now)) },
    ghost room: { records_at bytes.now ≤ length bytes.now },
    ghost counted: { counted_records (map_read bytes.now).functions ≡ length (map_read bytes.now).records },
    ghost spelled: { drop (records_at bytes.now) bytes.now ≡ flat_map record_bytes (map_read bytes.now).records },
}

impl<'a> MapView<'a> {
    ghost use Rattle.std.specs.Prelude.{◌<◌, ◌==◌, IfOk, IfErr, IfSome, IsOk, Some, option_map, slice_get};
    ghost use Rattle.std.specs.List.{find};
    ghost use Rattle.map_bytes.specs.Maps.{StackMap, IsMapOf};
    ghost use Rattle.map_bytes.specs.Faults.{IsFirstFault};
    ghost use Rattle.map_bytes.specs.Entries.{entries, entry_at};
    ghost use Rattle.stackmap_view.specs.Maps.{stack_map};
    ghost use Rattle.stackmap_view.specs.Views.{seen};
    ghost use Rattle.stackmap_view.specs.Walks.{records_left};

    /// A view of the bytes, exactly where they are a map; else their first fault. It looks at each field once.
    pub fn of(bytes: &'a [u8]) -> Result<MapView<'a>, MapFault>
        ensures map { IfOk result (λ view. IsMapOf bytes.now (stack_map view)) }
        ensures fault { IfErr result (λ fault. IsFirstFault bytes.now fault) }
        ensures only { (map : StackMap) → IsMapOf bytes.now map → IfOk result (λ view. stack_map view ≡ map) × IsOk result }
    {
        look_through(bytes)?;
        Ok(MapView { bytes })
    }

    /// How many functions have an entry.
    #[tactic(auto, unfolding(map_bytes::specs::Reads::map_read))]
    pub fn functions(&self) -> u32
        ensures { result ≡ length (stack_map self.now).functions }
    {
        let (_front, count) = self.bytes.split_at(4);
        LittleEndian::read_u32(count)
    }

    /// A function's entry, by its number from 0.
    #[tactic(auto, unfolding(map_bytes::specs::Reads::map_read))]
    pub fn function(&self, index: u32) -> FuncEntry
        requires { index < length (stack_map self.now).functions }
        ensures { slice_get (stack_map self.now).functions index ≡ Some result }
    {
        let (_header, functions) = self.bytes.split_at(16);
        let (_before, function) = functions.split_at(24 * index as usize);
        function_entry(function)
    }

    /// How many numbers the map's list of constants has.
    #[tactic(auto, unfolding(map_bytes::specs::Reads::map_read))]
    pub fn constants(&self) -> u32
        ensures { result ≡ length (stack_map self.now).constants }
    {
        let (_front, count) = self.bytes.split_at(8);
        LittleEndian::read_u32(count)
    }

    /// A number of the list of constants, by its place from 0.
    #[tactic(auto, unfolding(map_bytes::specs::Reads::map_read))]
    pub fn constant(&self, index: u32) -> u64
        requires { index < length (stack_map self.now).constants }
        ensures { slice_get (stack_map self.now).constants index ≡ Some result }
    {
        let constants_at = 16 + 24 * self.functions() as usize;
        let (_front, constants) = self.bytes.split_at(constants_at);
        let (_before, constant) = constants.split_at(8 * index as usize);
        LittleEndian::read_u64(constant)
    }

    /// The records of all functions, in order.
    pub fn records(&self) -> Records<'a>
        ensures { records_left result ≡ entries (stack_map self.now) }
    {
        let bytes = self.bytes;
        let (_front, constants) = bytes.split_at(8);
        let (_front_too, count) = bytes.split_at(12);
        let (_header, functions) = bytes.split_at(16);
        let function_count = self.functions();
        let constants_at = 16 + 24 * function_count as usize;
        let records_at = constants_at + 8 * LittleEndian::read_u32(constants) as usize;
        let (_all_before, records) = bytes.split_at(records_at);
        Records {
            view: *self,
            owner: Owner::before(functions, function_count),
            records,
            count: LittleEndian::read_u32(count),
        }
    }

    /// A record by its number from 0, if there is one. It goes over the records before it: whoever goes over all takes
    /// `records`.
    pub fn entry(&self, index: u32) -> Option<RecordRef<'a>>
        ensures found { option_map seen result ≡ slice_get (entries (stack_map self.now)) index }
        ensures map { IfSome result (λ one. stack_map one.view ≡ stack_map self.now) }
    {
        let mut records = self.records();
        'skipping: for _ in 0..index {
            records.next()?;
        }
        match records.next() {
            None => None,
            Some(one) => Some(one.found_in(*self)),
        }
    }

    /// The first record with this return address, if there is one. It goes over the records; `MapIndex` searches by halves.
    pub fn find(&self, return_address: u64) -> Option<RecordRef<'a>>
        ensures found { option_map seen result ≡ entry_at (stack_map self.now) return_address }
        ensures map { IfSome result (λ one. stack_map one.view ≡ stack_map self.now) }
    {
        for record in self.records() {
            if record.return_address() == return_address {
                return Some(record.found_in(*self));
            }
        }
        None
    }
}
