//! What is found in a map, as a line of text.

use stackmap_view::{MapFault, MapIndex, MapRule, MapView, RecordRef};
use std::alloc::{AllocError, Global};

pub(crate) fn shown_view(alloc: Global, bytes: &[u8]) -> Result<String, AllocError> {
    match MapView::of(bytes) {
        Ok(_view) => String::from_str(alloc, "ok"),
        Err(fault) => format!(in alloc; "{fault}"),
    }
}

// What is found in each front of the bytes that isn't the whole, from the empty one on: of a field that isn't whole its place alone.
pub(crate) fn shown_cuts(alloc: Global, bytes: &[u8]) -> Result<String, AllocError> {
    let mut shown = String::new(alloc);
    for length in 0..bytes.len() {
        let (front, _behind) = bytes.split_at(length);
        if length > 0 {
            shown.push_str(" ")?;
        }
        match MapView::of(front) {
            Ok(_view) => shown.push_str("ok")?,
            Err(MapFault { at, rule }) if rule == MapRule::Short => write!(shown, "{at}")?,
            Err(fault) => write!(shown, "{fault}")?,
        }
    }
    Ok(shown)
}

// Each function's address, frame size and record count.
pub(crate) fn shown_functions(alloc: Global, bytes: &[u8]) -> Result<String, AllocError> {
    let mut shown = String::new(alloc);
    if let Ok(view) = MapView::of(bytes) {
        for index in 0..view.functions() {
            let entry = view.function(index);
            let address = entry.address;
            let frame_bytes = entry.frame_bytes;
            let records = entry.records;
            separate(&mut shown)?;
            write!(shown, "{address} {frame_bytes} {records}")?;
        }
    }
    Ok(shown)
}

// Each record's return address, id, frame size, number of locations and number of bytes.
pub(crate) fn shown_records(alloc: Global, bytes: &[u8]) -> Result<String, AllocError> {
    let mut shown = String::new(alloc);
    if let Ok(view) = MapView::of(bytes) {
        for record in view.records() {
            let address = record.return_address();
            let id = record.id();
            let frame_bytes = record.frame_bytes();
            let places = record.places();
            let length = record.bytes().len();
            separate(&mut shown)?;
            write!(shown, "{address} {id} {frame_bytes} {places} {length}")?;
        }
    }
    Ok(shown)
}

fn separate(shown: &mut String) -> Result<(), AllocError> {
    if !shown.is_empty() {
        shown.push_str(", ")?;
    }
    Ok(())
}

// A record by its number.
pub(crate) fn found_entry(alloc: Global, bytes: &[u8], index: u64) -> Result<String, AllocError> {
    match MapView::of(bytes) {
        Ok(view) => shown_record(alloc, view.entry(u32::try_from(index).unwrap_or(u32::MAX))),
        Err(fault) => format!(in alloc; "{fault}"),
    }
}

// The numbers that a record's locations name in its map's list of constants.
pub(crate) fn listed_by(alloc: Global, bytes: &[u8], index: u64) -> Result<String, AllocError> {
    let mut shown = String::new(alloc);
    if let Ok(view) = MapView::of(bytes) {
        if let Some(record) = view.entry(u32::try_from(index).unwrap_or(u32::MAX)) {
            for index in 0..record.places() {
                let place = record.place(index);
                let at = place.offset.cast_unsigned();
                if place.kind == 5 && at < view.constants() {
                    let number = record.constant(at);
                    separate(&mut shown)?;
                    write!(shown, "{number}")?;
                }
            }
        }
    }
    Ok(shown)
}

// The first record with a return address, by the view and by an index, and what is lent outlives the view.
pub(crate) fn found_at(alloc: Global, bytes: &[u8], address: u64) -> Result<String, AllocError> {
    let found = record_at(bytes, address);
    let shown = shown_record(alloc, found)?;
    let Ok(view) = MapView::of(bytes) else {
        return Ok(shown);
    };
    let Ok(index) = MapIndex::of(alloc, view) else {
        return String::from_str(alloc, "out of memory");
    };
    if shown_record(alloc, index.find(address))?.as_str() == shown.as_str()
        && bytes_of(index.find(address)) == bytes_at(bytes, address)
    {
        Ok(shown)
    } else {
        String::from_str(alloc, "another one by the index")
    }
}

// The view is gone when the record is looked at.
fn record_at(bytes: &[u8], address: u64) -> Option<RecordRef<'_>> {
    let view = MapView::of(bytes).ok()?;
    view.find(address)
}

// The view and the record are gone when the bytes are looked at.
fn bytes_at(bytes: &[u8], address: u64) -> &[u8] {
    bytes_of(record_at(bytes, address))
}

fn bytes_of(record: Option<RecordRef<'_>>) -> &[u8] {
    match record {
        Some(record) => record.bytes(),
        None => &[],
    }
}

// How many bytes the record with a return address has; once none of them is lent, the input may change.
pub(crate) fn lent_and_changed(
    alloc: Global,
    bytes: &mut [u8],
    address: u64,
) -> Result<String, AllocError> {
    let lent = bytes_at(bytes, address);
    let length = lent.len();
    clear(bytes);
    let after = shown_view(alloc, bytes)?;
    format!(in alloc; "{length}, then {after}")
}

fn clear(bytes: &mut [u8]) {
    for b in bytes.iter_mut() {
        *b = 0;
    }
}

// A record's return address, id and frame size, then each location.
fn shown_record(alloc: Global, record: Option<RecordRef<'_>>) -> Result<String, AllocError> {
    let Some(record) = record else {
        return String::from_str(alloc, "none");
    };
    let address = record.return_address();
    let id = record.id();
    let frame_bytes = record.frame_bytes();
    let mut shown = format!(in alloc; "{address} {id} {frame_bytes}")?;
    for index in 0..record.places() {
        let place = record.place(index);
        let kind = place.kind;
        let size = place.size;
        let register = place.register;
        let offset = place.offset;
        write!(shown, ", {kind} {size} {register} {offset}")?;
    }
    Ok(shown)
}
