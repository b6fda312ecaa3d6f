//! Work on the bytes of a map, done over and over, for bench/maps.

use sp_ids::Memory;
use stackmap_view::{MapIndex, MapView};
use std::alloc::Global;

/// Work on a map.
#[derive(Clone, Copy)]
pub(crate) enum Work {
    /// Copies the bytes, and adds up those of the copy.
    Copy,
    /// Looks at the bytes as a map.
    View,
    /// Goes over all records.
    Records,
    /// Takes the last record by its number.
    Entry,
    /// Looks for an address that no record may have, record by record.
    Find,
    /// Makes an index.
    Index,
    /// Makes an index once, and looks for each record in it.
    Search,
}

impl Work {
    pub(crate) fn named(word: &str) -> Option<Work> {
        match word {
            "copy" => Some(Work::Copy),
            "view" => Some(Work::View),
            "records" => Some(Work::Records),
            "entry" => Some(Work::Entry),
            "find" => Some(Work::Find),
            "index" => Some(Work::Index),
            "search" => Some(Work::Search),
            _ => None,
        }
    }
}

// Does the work so many times; how many times something was found, or a sum of what was read.
pub(crate) fn done_often(
    alloc: Global,
    bytes: &[u8],
    work: Work,
    rounds: u32,
) -> Result<u64, Memory> {
    match work {
        Work::Copy => copied_often(alloc, bytes, rounds),
        Work::View => Ok(viewed_often(bytes, rounds)),
        Work::Records | Work::Entry | Work::Find | Work::Index | Work::Search => {
            match MapView::of(bytes) {
                Ok(view) => read_often(alloc, view, work, rounds),
                Err(_) => Ok(0),
            }
        }
    }
}

fn read_often(alloc: Global, view: MapView<'_>, work: Work, rounds: u32) -> Result<u64, Memory> {
    match work {
        Work::Records => Ok(walked_often(view, rounds)),
        Work::Entry => Ok(taken_often(view, rounds)),
        Work::Find => Ok(sought_often(view, rounds)),
        Work::Index => indexed_often(alloc, view, rounds),
        Work::Search => searched_often(alloc, view, rounds),
        Work::Copy | Work::View => Ok(0),
    }
}

fn copied_often(alloc: Global, bytes: &[u8], rounds: u32) -> Result<u64, Memory> {
    let mut copy = Vec::from_slice(alloc, bytes)?;
    let mut sum = 0u64;
    for _ in 0..rounds {
        copy.clear();
        copy.extend_from_slice(bytes)?;
        sum = sum.wrapping_add(sum_of(copy.as_slice()));
    }
    Ok(sum)
}

fn sum_of(bytes: &[u8]) -> u64 {
    let mut sum = 0u64;
    for b in bytes {
        sum = sum.wrapping_add(u64::from(*b));
    }
    sum
}

fn viewed_often(bytes: &[u8], rounds: u32) -> u64 {
    let mut maps = 0u64;
    for _ in 0..rounds {
        if MapView::of(bytes).is_ok() {
            maps = maps.wrapping_add(1);
        }
    }
    maps
}

fn walked_often(view: MapView<'_>, rounds: u32) -> u64 {
    let mut sum = 0u64;
    for _ in 0..rounds {
        for record in view.records() {
            sum = sum.wrapping_add(record.id());
            sum = sum.wrapping_add(record.return_address());
        }
    }
    sum
}

fn count_of(view: MapView<'_>) -> u32 {
    let mut count = 0u32;
    for _ in view.records() {
        count = count.saturating_add(1);
    }
    count
}

fn taken_often(view: MapView<'_>, rounds: u32) -> u64 {
    let last = count_of(view).saturating_sub(1);
    let mut found = 0u64;
    for _ in 0..rounds {
        if view.entry(last).is_some() {
            found = found.wrapping_add(1);
        }
    }
    found
}

fn sought_often(view: MapView<'_>, rounds: u32) -> u64 {
    let mut found = 0u64;
    for _ in 0..rounds {
        if view.find(u64::MAX).is_some() {
            found = found.wrapping_add(1);
        }
    }
    found
}

fn indexed_often(alloc: Global, view: MapView<'_>, rounds: u32) -> Result<u64, Memory> {
    let mut found = 0u64;
    for _ in 0..rounds {
        let index = MapIndex::of(alloc, view)?;
        if index.find(u64::MAX).is_some() {
            found = found.wrapping_add(1);
        }
    }
    Ok(found)
}

fn searched_often(alloc: Global, view: MapView<'_>, rounds: u32) -> Result<u64, Memory> {
    let index = MapIndex::of(alloc, view)?;
    let mut found = 0u64;
    for _ in 0..rounds {
        for record in view.records() {
            if index.find(record.return_address()).is_some() {
                found = found.wrapping_add(1);
            }
        }
    }
    Ok(found)
}
