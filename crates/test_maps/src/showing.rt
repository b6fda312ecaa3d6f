//! What is written of layouts and maps.
ghost use Rattle.std.specs.Prelude.{◌<◌, ◌^◌, length};

use crate::making::Made;
use frame_slots::Layouts;
use sp_ids::FuncId;
use stackmap_view::MapView;
use std::io;
use tool_io::{OutSink, Sink};
use tool_report::map_text;

/// How many bytes stand on a line.
const ON_A_LINE: usize = 16;

/// Writes a line for each function, the bytes of the map in hexadecimal, and its text.
pub(crate) fn show(rt: &HostRuntime, made: &Made) -> io::Result<()> {
    show_layouts(rt, &made.layouts)?;
    let count = made.bytes.len();
    println!(rt; "bytes {count}")?;
    for line in made.bytes.chunks(ON_A_LINE) {
        let text = hex::encode(rt.alloc(), line)?;
        println!(rt; "{text}")?;
    }
    put_text_of(rt, made.bytes.as_slice())?;
    Ok(())
}

/// Writes the text of the map that the bytes are, or its first fault. Gives whether they are one.
pub(crate) fn put_text_of(rt: &HostRuntime, bytes: &[u8]) -> io::Result<bool> {
    match MapView::of(bytes) {
        Ok(view) => Ok(map_text(&view, &mut OutSink::new(rt)).is_ok()),
        Err(fault) => {
            println!(rt; "{fault}")?;
            Ok(false)
        }
    }
}

fn show_layouts(rt: &HostRuntime, layouts: &Layouts) -> io::Result<()> {
    for number in 0..u32::try_from(layouts.function_count()).unwrap_or(u32::MAX) {
        let func = FuncId(number);
        let address = layouts.address(func);
        let bytes = layouts.frame_bytes(func);
        let statepoints = layouts.statepoints(func);
        println!(rt; "layout {address} {bytes} {statepoints}")?;
    }
    Ok(())
}

/// Writes the bytes as they are, and gives whether they could be.
pub(crate) fn put_raw(rt: &HostRuntime, bytes: &[u8]) -> bool {
    OutSink::new(rt).put(bytes).is_ok()
}
