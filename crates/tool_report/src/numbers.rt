//! Numbers with a sign.
ghost use Rattle.std.specs.Fmt.{signed_decimal};

use itoa::Buffer;
use piece_writer::{Piece, PieceSink};
use tool_io::Failed;

/// A number in decimal, with its sign.
#[derive(Clone, Copy)]
pub(crate) struct SignedDecimal(pub i64);

impl Piece for SignedDecimal {
    ghost text = { λ piece. signed_decimal piece.0 };

    fn put_into<W: PieceSink>(&self, out: &mut W) -> Result<(), Failed> {
        let mut buffer = Buffer::new();
        out.put(buffer.format(self.0).as_bytes())
    }
}
