//! A record of a stack map, lent out of its bytes.

ghost use Rattle.std.specs.Prelude.{◌≡◌, ◌≤◌, ◌<◌, length, Some, slice_get};
ghost use Rattle.map_bytes.specs.Maps.{record_bytes};
ghost use Rattle.map_bytes.specs.Reads.{function_read, place_read, padding_size, places_count, places_end, record_read, size_read};

use crate::owners::Owner;
use crate::view::MapView;
use byteorder::{ByteOrder, LittleEndian};
use map_bytes::{FuncEntry, Place};

/// A record of a stack map: what is known of a call's frame while the call runs. It is lent: its bytes are those of the input. A
/// record that a map was asked for knows its map, of whose list of constants its locations speak.
#[derive(Clone, Copy, Debug)]
pub struct RecordRef<'a> {
    view: MapView<'a>,
    bytes: &'a [u8],
    return_address: u64,
    frame_bytes: u64,
    ghost spelled: { bytes.now ≡ record_bytes (record_read bytes.now) },
    ghost room: { places_end (places_count bytes.now) ≤ length bytes.now },
}

impl<'a> RecordRef<'a> {
    ghost use Rattle.map_bytes.specs.Entries.{entry_of};
    ghost use Rattle.stackmap_view.specs.Owners.{owner_entry};
    ghost use Rattle.stackmap_view.specs.Views.{seen};
    ghost use Rattle.stackmap_view.specs.Maps.{stack_map};

    // The record that these bytes are, of this function.
    #[tactic(auto, unfolding(map_bytes::specs::Reads::record_read))]
    pub(crate) fn of(view: MapView<'a>, owner: &Owner<'a>, bytes: &'a [u8]) -> RecordRef<'a>
        requires spelled { bytes.now ≡ record_bytes (record_read bytes.now) }
        ensures { seen result ≡ entry_of (owner_entry owner.now) (record_read bytes.now) }
    {
        let (_id, behind_id) = bytes.split_at(8);
        let offset = LittleEndian::read_u32(behind_id);
        RecordRef {
            view,
            bytes,
            return_address: owner.address.wrapping_add(u64::from(offset)),
            frame_bytes: owner.frame_bytes,
        }
    }

    // The same record, found in this map.
    pub(crate) fn found_in(self, view: MapView<'a>) -> RecordRef<'a>
        ensures same { seen result ≡ seen self.entry }
        ensures map { stack_map result.view ≡ stack_map view.entry }
    {
        RecordRef {
            view,
            bytes: self.bytes,
            return_address: self.return_address,
            frame_bytes: self.frame_bytes,
        }
    }

    /// A number of its map's list of constants, by its place from 0.
    pub fn constant(&self, index: u32) -> u64
        requires { index < length (stack_map self.now.view).constants }
        ensures { slice_get (stack_map self.now.view).constants index ≡ Some result }
    {
        self.view.constant(index)
    }

    /// The number that the statepoint carries.
    #[tactic(auto, unfolding(map_bytes::specs::Reads::record_read))]
    pub fn id(&self) -> u64
        ensures { result ≡ (seen self.now).one.id }
    {
        LittleEndian::read_u64(self.bytes)
    }

    /// The bytes of the frame, without the return address of its caller.
    pub fn frame_bytes(&self) -> u64
        ensures { result ≡ (seen self.now).frame_bytes }
    {
        self.frame_bytes
    }

    /// The address behind the call: its function's address and the record's offset, modulo 2^64.
    pub fn return_address(&self) -> u64
        ensures { result ≡ (seen self.now).return_address }
    {
        self.return_address
    }

    /// How many locations the record has.
    #[tactic(auto, unfolding(map_bytes::specs::Reads::record_read))]
    pub fn places(&self) -> u32
        ensures { result ≡ length (seen self.now).one.places }
    {
        let (_front, count) = self.bytes.split_at(14);
        u32::from(LittleEndian::read_u16(count))
    }

    /// A location, by its number from 0.
    #[tactic(auto, unfolding(map_bytes::specs::Reads::record_read))]
    pub fn place(&self, index: u32) -> Place
        requires { index < length (seen self.now).one.places }
        ensures { slice_get (seen self.now).one.places index ≡ Some result }
    {
        let (_front, places) = self.bytes.split_at(16);
        let (_before, place) = places.split_at(12 * index as usize);
        one_place(place)
    }

    /// The record's bytes, a part of the input.
    pub fn bytes(&self) -> &'a [u8]
        ensures { result.now ≡ record_bytes (seen self.now).one }
    {
        self.bytes
    }
}

#[tactic(auto, unfolding(map_bytes::specs::Reads::place_read))]
fn one_place(bytes: &[u8]) -> Place
    requires { 12 ≤ length bytes.now }
    ensures { result ≡ place_read bytes.now }
{
    let (_kind, size) = bytes.split_at(2);
    let (_kind_and_size, register) = bytes.split_at(4);
    let (_front, offset) = bytes.split_at(8);
    Place {
        kind: bytes[0],
        size: LittleEndian::read_u16(size),
        register: LittleEndian::read_u16(register),
        offset: LittleEndian::read_i32(offset),
    }
}

// The entry of a function at the front of the bytes.
#[tactic(auto, unfolding(map_bytes::specs::Reads::function_read))]
pub(crate) fn function_entry(bytes: &[u8]) -> FuncEntry
    requires { 24 ≤ length bytes.now }
    ensures { result ≡ function_read bytes.now }
{
    let (_address, frame_bytes) = bytes.split_at(8);
    let (_both, records) = bytes.split_at(16);
    FuncEntry {
        address: LittleEndian::read_u64(bytes),
        frame_bytes: LittleEndian::read_u64(frame_bytes),
        records: LittleEndian::read_u64(records),
    }
}

fn padding_size(size: usize) -> usize
    ensures { result ≡ padding_size size }
{
    if size % 8 == 0 { 0 } else { 4 }
}

// How many bytes the record has that begins here.
pub(crate) fn record_size(bytes: &[u8]) -> usize
    requires { size_read bytes.now ≤ length bytes.now }
    ensures { result ≡ size_read bytes.now }
{
    let (_front, count) = bytes.split_at(14);
    let places = 16 + 12 * usize::from(LittleEndian::read_u16(count));
    let places_end = places + padding_size(places);
    let (_places, live_count) = bytes.split_at(places_end + 2);
    let live_outs = 4 + 4 * usize::from(LittleEndian::read_u16(live_count));
    places_end + live_outs + padding_size(live_outs)
}
