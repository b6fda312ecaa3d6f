//! The header and the entries of the functions.
ghost use Rattle.std.specs.Prelude.{◌≡◌, ◌<◌, ◌^◌, ◌+◌, ◌++◌, length, nat_lt, OnOk};
ghost use Rattle.std.specs.List.{flat_map};
ghost use Rattle.byteorder.specs.Endian.{little_bytes};
ghost use Rattle.frame_forms.specs.ModuleLayouts.{statepoints_in};
ghost use Rattle.map_bytes.specs.Maps.{counted_records, function_bytes};
ghost use Rattle.stackmap_write.specs.ModuleMaps.{entries_of, entry_in};
ghost use Rattle.stackmap_write.specs.Writing.{header_of};

use crate::fields::{put_u8, put_u16, put_u32, put_u64};
use frame_slots::Layouts;
use map_bytes::FuncEntry;
use sp_ids::{FuncId, Memory};

/// The version of the format.
const VERSION: u8 = 3;

/// Puts the header of a map of so many constants, and an entry for each function with a statepoint.
pub(crate) fn put_heads(
    bytes: &mut Vec<u8>,
    constants: u32,
    layouts: &Layouts,
) -> Result<(), Memory>
    requires few_functions { length layouts.now < 2 ^ 32 }
    requires few_records { counted_records (entries_of layouts.now) < 2 ^ 32 }
    ensures { OnOk result (bytes.new.items ≡ bytes.old.items
        ++ (header_of (length (entries_of layouts.now)) constants (counted_records (entries_of layouts.now)) ++ flat_map function_bytes (entries_of layouts.now))) }
{
    put_header(
        bytes,
        entry_count(layouts),
        constants,
        record_count(layouts),
    )?;
    put_entries(bytes, layouts)
}

fn put_header(
    bytes: &mut Vec<u8>,
    functions: u32,
    constants: u32,
    records: u32,
) -> Result<(), Memory>
    ensures { OnOk result (bytes.new.items ≡ bytes.old.items ++ header_of functions constants records) }
{
    put_u8(bytes, VERSION)?;
    put_u8(bytes, 0)?;
    put_u16(bytes, 0)?;
    put_u32(bytes, functions)?;
    put_u32(bytes, constants)?;
    put_u32(bytes, records)?;
    Ok(())
}

/// How many functions have a statepoint.
pub(crate) fn entry_count(layouts: &Layouts) -> u32
    requires { length layouts.now < 2 ^ 32 }
    ensures { result ≡ length (entries_of layouts.now) }
{
    let mut count = 0;
    for func in 0..layouts.function_count() as u32 {
        if has_statepoint(layouts, FuncId(func)) {
            count += 1;
        }
    }
    count
}

// How many statepoints the functions have together.
fn record_count(layouts: &Layouts) -> u32
    requires few_functions { length layouts.now < 2 ^ 32 }
    requires few_records { counted_records (entries_of layouts.now) < 2 ^ 32 }
    ensures { result ≡ counted_records (entries_of layouts.now) }
{
    let mut count = 0;
    for func in 0..layouts.function_count() as u32 {
        count += layouts.statepoints(FuncId(func)) as u32;
    }
    count
}

fn put_entries(bytes: &mut Vec<u8>, layouts: &Layouts) -> Result<(), Memory>
    requires { length layouts.now < 2 ^ 32 }
    ensures { OnOk result (bytes.new.items ≡ bytes.old.items ++ flat_map function_bytes (entries_of layouts.now)) }
{
    for func in 0..layouts.function_count() as u32 {
        if has_statepoint(layouts, FuncId(func)) {
            put_entry(bytes, entry(layouts, FuncId(func)))?;
        }
    }
    Ok(())
}

fn has_statepoint(layouts: &Layouts, func: FuncId) -> bool
    requires { func.0 < length layouts.now }
    ensures { result ≡ nat_lt 0 (statepoints_in layouts.now func.0) }
{
    layouts.statepoints(func) > 0
}

fn entry(layouts: &Layouts, func: FuncId) -> FuncEntry
    requires { func.0 < length layouts.now }
    ensures { result ≡ entry_in layouts.now func.0 }
{
    FuncEntry {
        address: layouts.address(func),
        frame_bytes: layouts.frame_bytes(func),
        records: layouts.statepoints(func) as u64,
    }
}

#[tactic(auto, unfolding(map_bytes::specs::Maps::function_bytes))]
fn put_entry(bytes: &mut Vec<u8>, entry: FuncEntry) -> Result<(), Memory>
    ensures { OnOk result (bytes.new.items ≡ bytes.old.items ++ function_bytes entry) }
{
    put_u64(bytes, entry.address)?;
    put_u64(bytes, entry.frame_bytes)?;
    put_u64(bytes, entry.records)
}

/// Puts the constants.
pub(crate) fn put_constants(bytes: &mut Vec<u8>, constants: &[u64]) -> Result<(), Memory>
    ensures { OnOk result (bytes.new.items ≡ bytes.old.items ++ flat_map (little_bytes 8) constants.now) }
{
    for constant in constants {
        put_u64(bytes, *constant)?;
    }
    Ok(())
}
