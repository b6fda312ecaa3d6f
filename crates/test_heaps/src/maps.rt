//! A map as a list of records, for the walk.

ghost use Rattle.std.specs.Prelude.{◌≡◌, []};
ghost use Rattle.std.specs.Option.{option_map};
ghost use Rattle.test_heaps.specs.Listings.{entry_of, found_listed};

use frame_walk::{FrameMap, FrameRecord};
use map_bytes::Place;
use std::alloc::{AllocError, Global};

/// A record: its return address, the bytes of its function's frame, and its locations.
#[derive(Drop)]
pub(crate) struct Listing {
    address: u64,
    frame_bytes: u64,
    places: Vec<Place>,
}

/// The records of a map.
#[derive(Drop)]
pub(crate) struct Listed {
    alloc: Global,
    records: Vec<Listing>,
}

impl Listed {
    pub(crate) fn new(alloc: Global) -> Listed {
        Listed {
            alloc,
            records: Vec::new(alloc),
        }
    }

    // A further record without locations.
    pub(crate) fn add(&mut self, address: u64, frame_bytes: u64) -> Result<(), AllocError> {
        let places = Vec::new(self.alloc);
        self.records.push(Listing {
            address,
            frame_bytes,
            places,
        })?;
        Ok(())
    }

    // A further location of the last record.
    pub(crate) fn add_place(&mut self, place: Place) -> Result<(), AllocError> {
        if let Some(listing) = self.records.last_mut() {
            listing.places.push(place)?;
        }
        Ok(())
    }

    pub(crate) fn lent(&self) -> Records<'_> {
        Records {
            records: self.records.as_slice(),
        }
    }
}

/// The records of a map, lent.
#[derive(Clone, Copy)]
pub(crate) struct Records<'a> {
    pub(crate) records: &'a [Listing],
}

/// A record that was found.
#[derive(Clone, Copy)]
pub(crate) struct Found<'a> {
    pub(crate) listing: &'a Listing,
}

impl<'a> FrameRecord for Found<'a> {
    ghost entry = { λ found. entry_of found.listing.now };

    fn frame_bytes(&self) -> u64 {
        self.listing.frame_bytes
    }

    fn places(&self) -> u32 {
        self.listing.places.len().min(65_535) as u32
    }

    fn place(&self, index: u32) -> Place {
        self.listing.places[index as usize]
    }
}

impl<'a> FrameMap for Records<'a> {
    type Record = Found<'a>;

    ghost found = { λ map. found_listed map.records.now };

    ghost constants = { λ map. [] };

    fn find(&self, return_address: u64) -> Option<Found<'a>> {
        find_listed(self.records, return_address)
    }

    // A walk asks for no constant.
    fn constant(&self, _index: u32) -> u64 {
        0
    }
}

// The first record with a return address.
fn find_listed(records: &[Listing], address: u64) -> Option<Found<'_>>
    ensures { option_map (λ found. entry_of found.listing.now) result ≡ found_listed records.now address }
{
    for listing in records {
        if listing.address == address {
            return Some(Found { listing });
        }
    }
    None
}
