//! Puts of several texts. They are written out where they stand, so that constant bytes are copied at
//! their own size.
ghost use Rattle.std.specs.Prelude.{◌++◌, OnOk, OnErr};

use piece_writer::{Piece, PieceSink};
use tool_io::Failed;

/// Puts bytes, and a piece after them.
#[inline(always)]
pub(crate) fn put_then<P: Piece, W: PieceSink>(
    front: &[u8],
    rest: &P,
    out: &mut W,
) -> Result<(), Failed>
    ensures ok { OnOk result (W.took out.old out.new (front.now ++ P.text rest.now)) }
    ensures err { OnErr result (W.failed_within out.old out.new (front.now ++ P.text rest.now)) }
{
    out.put(front)?;
    rest.put_into(out)
}

/// Puts three texts of bytes, one after the other.
#[inline(always)]
pub(crate) fn put_three<W: PieceSink>(
    front: &[u8],
    middle: &[u8],
    end: &[u8],
    out: &mut W,
) -> Result<(), Failed>
    ensures ok { OnOk result (W.took out.old out.new (front.now ++ (middle.now ++ end.now))) }
    ensures err { OnErr result (W.failed_within out.old out.new (front.now ++ (middle.now ++ end.now))) }
{
    out.put(front)?;
    out.put_both(middle, end)
}
