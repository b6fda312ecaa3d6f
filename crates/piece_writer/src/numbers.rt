//! Numbers.
ghost use Rattle.std.specs.Prelude.{decimal};

use crate::{Piece, PieceSink};
use itoa::Buffer;
use tool_io::Failed;

/// A number in decimal.
#[derive(Clone, Copy)]
pub struct Decimal(pub u64);

impl Piece for Decimal {
    ghost text = { λ piece. decimal piece.0 };

    fn put_into<W: PieceSink>(&self, out: &mut W) -> Result<(), Failed> {
        let mut buffer = Buffer::new();
        out.put(buffer.format(self.0).as_bytes())
    }
}
