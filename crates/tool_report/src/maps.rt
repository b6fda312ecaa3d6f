//! A stack map as text.
ghost use Rattle.std.specs.Prelude.{◌≡◌, ◌≤◌, ◌<◌, ◌+◌, ◌*◌, ◌++◌, drop, length, slice_index, take, OnOk, OnErr};
ghost use Rattle.std.specs.List.{flat_map};
ghost use Rattle.tool_io.specs.Counts.{Rose};
ghost use Rattle.tool_io.specs.Sink.{append_known, AppendsFront};
ghost use Rattle.stackmap_view.specs.Maps.{stack_map};
ghost use Rattle.stackmap_view.specs.Views.{seen};
ghost use Rattle.stackmap_view.specs.Walks.{records_left};
ghost use Rattle.sp_ids.specs.Numbers.{signed};
ghost use Rattle.tool_report.specs.MapTexts.{function_line, kept_line, location_line, location_lines, number_line, pair_line, pair_lines, pairs_at, record_line, record_text, text_of_map};

use crate::numbers::SignedDecimal;
use map_bytes::{FuncEntry, Place};
use piece_writer::{Bytes, Decimal, Piece, PieceSink, put_text};
use sp_ids::sign;
use stackmap_view::{MapView, RecordRef, Records};
use tool_io::{Failed, Sink};

// Kinds of locations.
const CONSTANT: u8 = 4;

const CONSTANT_INDEX: u8 = 5;

/// Puts the text of a stack map: for each function its line and, for each of its records, a line, one for each "deopt"
/// location, and one for each pair of slots behind these. After `Failed`, which comes only where the sink's count of faults
/// rose, a front of the text was added.
pub fn map_text<O: Sink>(view: &MapView<'_>, out: &mut O) -> Result<(), Failed>
    ensures ok { OnOk result (O.written out.new ≡ append_known (O.written out.old) (text_of_map (stack_map view.now))) }
    ensures err { OnErr result (AppendsFront (O.written out.old) (O.written out.new) (text_of_map (stack_map view.now))) }
    ensures failed { OnErr result (Rose (O.faults out.old) (O.faults out.new)) }
    ensures count { O.faults out.old ≤ O.faults out.new }
{
    put_text(&MapText(view), out)
}

// The text of a map.
#[derive(Clone, Copy)]
struct MapText<'a>(&'a MapView<'a>);

impl Piece for MapText<'_> {
    ghost text = { λ piece. text_of_map (stack_map piece.0.now) };

    fn put_into<W: PieceSink>(&self, out: &mut W) -> Result<(), Failed> {
        put_functions(self.0, out)
    }
}

fn put_functions<W: PieceSink>(view: &MapView<'_>, out: &mut W) -> Result<(), Failed>
    ensures ok { OnOk result (W.took out.old out.new (text_of_map (stack_map view.now))) }
    ensures err { OnErr result (W.failed_within out.old out.new (text_of_map (stack_map view.now))) }
{
    let mut records = view.records();
    for index in 0..view.functions() {
        let function = view.function(index);
        put_function(function, *view, &mut records, out)?;
    }
    Ok(())
}

// Puts the line of a function, and what stands for as many of the records as it counts.
fn put_function<W: PieceSink>(
    function: FuncEntry,
    view: MapView<'_>,
    records: &mut Records<'_>,
    out: &mut W,
) -> Result<(), Failed>
    ensures ok { OnOk result (W.took out.old out.new (function_line function ++ flat_map (record_text (stack_map view.entry).constants) (take function.records (records_left records.old)))) }
    ensures rest { OnOk result (records_left records.new ≡ drop function.records (records_left records.old)) }
    ensures err { OnErr result (W.failed_within out.old out.new (function_line function ++ flat_map (record_text (stack_map view.entry).constants) (take function.records (records_left records.old)))) }
{
    FunctionLine(function).put_into(out)?;
    put_records(function.records, view, records, out)
}

// Puts what stands for so many of the records.
fn put_records<W: PieceSink>(
    count: u64,
    view: MapView<'_>,
    records: &mut Records<'_>,
    out: &mut W,
) -> Result<(), Failed>
    ensures ok { OnOk result (W.took out.old out.new (flat_map (record_text (stack_map view.entry).constants) (take count (records_left records.old)))) }
    ensures rest { OnOk result (records_left records.new ≡ drop count (records_left records.old)) }
    ensures err { OnErr result (W.failed_within out.old out.new (flat_map (record_text (stack_map view.entry).constants) (take count (records_left records.old)))) }
{
    'putting: for _ in 0..count {
        let Some(record) = records.next() else {
            return Ok(());
        };
        RecordText(record, view).put_into(out)?;
    }
    Ok(())
}

// The line of a function.
#[derive(Clone, Copy)]
struct FunctionLine(FuncEntry);

impl Piece for FunctionLine {
    ghost text = { λ piece. function_line piece.0 };

    #[tactic(auto, unfolding(crate::specs::MapTexts::function_line))]
    fn put_into<W: PieceSink>(&self, out: &mut W) -> Result<(), Failed> {
        (
            Bytes(b"function "),
            Decimal(self.0.address),
            Bytes(b" stack "),
            Decimal(self.0.frame_bytes),
            Bytes(b" records "),
            Decimal(self.0.records),
            Bytes(b"\n"),
        )
            .put_into(out)
    }
}

// What stands for a record of a map.
#[derive(Clone, Copy)]
struct RecordText<'a, 'b>(RecordRef<'a>, MapView<'b>);

impl Piece for RecordText<'_, '_> {
    ghost text = { λ piece. record_text (stack_map piece.1).constants (seen piece.0) };

    fn put_into<W: PieceSink>(&self, out: &mut W) -> Result<(), Failed> {
        RecordLine(self.0).put_into(out)?;
        put_locations(&self.0, self.1, out)?;
        put_pairs(&self.0, out)
    }
}

// The line of a record.
#[derive(Clone, Copy)]
struct RecordLine<'a>(RecordRef<'a>);

impl Piece for RecordLine<'_> {
    ghost text = { λ piece. record_line (seen piece.0) };

    fn put_into<W: PieceSink>(&self, out: &mut W) -> Result<(), Failed> {
        let address = self.0.return_address();
        let id = self.0.id();
        (
            Bytes(b"record "),
            Decimal(address),
            Bytes(b" id "),
            Decimal(id),
            Bytes(b"\n"),
        )
            .put_into(out)
    }
}

// Where the pairs of a record begin.
fn pairs_at(site: &RecordRef<'_>) -> u32
    ensures value { result ≡ pairs_at (seen site.now).one.places }
    ensures small { result ≤ 2147483651 }
{
    if site.places() < 3 {
        return 3;
    }
    3 + site.place(2).offset.unsigned_abs()
}

// Puts a line for each "deopt" location.
fn put_locations<W: PieceSink>(
    site: &RecordRef<'_>,
    view: MapView<'_>,
    out: &mut W,
) -> Result<(), Failed>
    ensures ok { OnOk result (W.took out.old out.new
        (location_lines (stack_map view.entry).constants (drop 3 (take (pairs_at (seen site.now).one.places) (seen site.now).one.places)))) }
    ensures err { OnErr result (W.failed_within out.old out.new
        (location_lines (stack_map view.entry).constants (drop 3 (take (pairs_at (seen site.now).one.places) (seen site.now).one.places)))) }
{
    for index in 3..pairs_at(site).min(site.places()) {
        LocationLine(site.place(index), view).put_into(out)?;
    }
    Ok(())
}

// The line of a "deopt" location in a map.
#[derive(Clone, Copy)]
struct LocationLine<'a>(Place, MapView<'a>);

impl Piece for LocationLine<'_> {
    ghost text = { λ piece. location_line (stack_map piece.1).constants piece.0 };

    fn put_into<W: PieceSink>(&self, out: &mut W) -> Result<(), Failed> {
        if self.0.kind == CONSTANT {
            NumberLine(i64::from(self.0.offset)).put_into(out)
        } else if self.0.kind == CONSTANT_INDEX {
            NumberLine(listed(self.1, self.0.offset.cast_unsigned())).put_into(out)
        } else {
            KeptLine(self.0.offset).put_into(out)
        }
    }
}

// A number of the map's constants, or 0 where there is none.
fn listed(view: MapView<'_>, index: u32) -> i64
    ensures { result ≡ signed 64 (slice_index (stack_map view.entry).constants index) }
{
    if index < view.constants() {
        sign(64, view.constant(index))
    } else {
        0
    }
}

// The line of a number.
#[derive(Clone, Copy)]
struct NumberLine(i64);

impl Piece for NumberLine {
    ghost text = { λ piece. number_line piece.0 };

    #[tactic(auto, unfolding(crate::specs::MapTexts::number_line))]
    fn put_into<W: PieceSink>(&self, out: &mut W) -> Result<(), Failed> {
        (Bytes(b"deopt "), SignedDecimal(self.0), Bytes(b"\n")).put_into(out)
    }
}

// The line of a value that is kept in a slot.
#[derive(Clone, Copy)]
struct KeptLine(i32);

impl Piece for KeptLine {
    ghost text = { λ piece. kept_line piece.0 };

    #[tactic(auto, unfolding(crate::specs::MapTexts::kept_line))]
    fn put_into<W: PieceSink>(&self, out: &mut W) -> Result<(), Failed> {
        (
            Bytes(b"deopt slot "),
            SignedDecimal(i64::from(self.0)),
            Bytes(b"\n"),
        )
            .put_into(out)
    }
}

// Puts a line for each pair of slots.
fn put_pairs<W: PieceSink>(site: &RecordRef<'_>, out: &mut W) -> Result<(), Failed>
    ensures ok { OnOk result (W.took out.old out.new (pair_lines (drop (pairs_at (seen site.now).one.places) (seen site.now).one.places))) }
    ensures err { OnErr result (W.failed_within out.old out.new (pair_lines (drop (pairs_at (seen site.now).one.places) (seen site.now).one.places))) }
{
    let first = pairs_at(site);
    for pair in 0..site.places().saturating_sub(first) / 2 {
        let base = site.place(first + 2 * pair);
        let derived = site.place(first + 1 + 2 * pair);
        PairLine(base, derived).put_into(out)?;
    }
    Ok(())
}

// The line of a base slot and a derived slot.
#[derive(Clone, Copy)]
struct PairLine(Place, Place);

impl Piece for PairLine {
    ghost text = { λ piece. pair_line piece.0 piece.1 };

    #[tactic(auto, unfolding(crate::specs::MapTexts::pair_line))]
    fn put_into<W: PieceSink>(&self, out: &mut W) -> Result<(), Failed> {
        (
            Bytes(b"pair "),
            SignedDecimal(i64::from(self.0.offset)),
            Bytes(b" "),
            SignedDecimal(i64::from(self.1.offset)),
            Bytes(b"\n"),
        )
            .put_into(out)
    }
}
