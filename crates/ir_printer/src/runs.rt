//! Rows of texts of which none stands between two others.
ghost use Rattle.std.specs.Prelude.{[], drop, OnOk, OnErr};
ghost use Rattle.ir_printer.specs.Lists.{led, joined};

use piece_writer::{Piece, PieceSink, Row};
use tool_io::Failed;

/// The texts of a row, one after the other.
#[derive(Drop)]
pub(crate) struct Run<R>(pub R);

impl<R: Row> Piece for Run<R> {
    ghost text = { λ run. joined [] (R.texts run.0) };

    fn put_into<W: PieceSink>(&self, out: &mut W) -> Result<(), Failed> {
        put_from(&self.0, 0, out)
    }
}

/// Puts the texts of a row from this place on, one after the other.
pub(crate) fn put_from<R: Row, W: PieceSink>(
    row: &R,
    from: usize,
    out: &mut W,
) -> Result<(), Failed>
    ensures ok { OnOk result (W.took out.old out.new (led [] (drop from (R.texts row.now)))) }
    ensures err { OnErr result (W.failed_within out.old out.new (led [] (drop from (R.texts row.now)))) }
{
    for place in from..row.count() {
        row.put_at(place, out)?;
    }
    Ok(())
}
