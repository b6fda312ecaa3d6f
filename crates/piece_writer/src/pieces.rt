//! Pieces of text, put into a sink one after the other.
ghost use Rattle.std.specs.Prelude.{◌++◌, ℕ, List, OnOk, OnErr};

use crate::PieceSink;
use tool_io::Failed;

/// What can be put into a sink; contracts see its bytes.
pub trait Piece {
    /// Its bytes.
    ghost text: { Self → List ℕ };

    /// Puts all of its bytes.
    fn put_into<W: PieceSink>(&self, out: &mut W) -> Result<(), Failed>
        ensures ok { OnOk result (W.took out.old out.new (text self.now)) }
        ensures err { OnErr result (W.failed_within out.old out.new (text self.now)) };
}

/// Bytes as they are.
#[derive(Clone, Copy)]
pub struct Bytes<'a>(pub &'a [u8]);

impl Piece for Bytes<'_> {
    ghost text = { λ piece. piece.0.now };

    fn put_into<W: PieceSink>(&self, out: &mut W) -> Result<(), Failed> {
        out.put(self.0)
    }
}

impl<P: Piece> Piece for &P {
    ghost text = { λ piece. P.text piece.now };

    fn put_into<W: PieceSink>(&self, out: &mut W) -> Result<(), Failed> {
        (*self).put_into(out)
    }
}

impl<A: Piece, B: Piece> Piece for (A, B) {
    ghost text = { λ parts. A.text parts.0 ++ B.text parts.1 };

    fn put_into<W: PieceSink>(&self, out: &mut W) -> Result<(), Failed> {
        self.0.put_into(out)?;
        self.1.put_into(out)
    }
}

impl<A: Piece, B: Piece, C: Piece> Piece for (A, B, C) {
    ghost text = { λ parts. A.text parts.0 ++ (B.text parts.1 ++ C.text parts.2) };

    fn put_into<W: PieceSink>(&self, out: &mut W) -> Result<(), Failed> {
        self.0.put_into(out)?;
        (&self.1, &self.2).put_into(out)
    }
}

impl<A: Piece, B: Piece, C: Piece, D: Piece> Piece for (A, B, C, D) {
    ghost text = { λ parts. A.text parts.0 ++ (B.text parts.1 ++ (C.text parts.2 ++ D.text parts.3)) };

    fn put_into<W: PieceSink>(&self, out: &mut W) -> Result<(), Failed> {
        self.0.put_into(out)?;
        (&self.1, &self.2, &self.3).put_into(out)
    }
}

impl<A: Piece, B: Piece, C: Piece, D: Piece, E: Piece> Piece for (A, B, C, D, E) {
    ghost text = { λ parts. A.text parts.0 ++ (B.text parts.1 ++ (C.text parts.2 ++ (D.text parts.3 ++ E.text parts.4))) };

    fn put_into<W: PieceSink>(&self, out: &mut W) -> Result<(), Failed> {
        self.0.put_into(out)?;
        (&self.1, &self.2, &self.3, &self.4).put_into(out)
    }
}

impl<A: Piece, B: Piece, C: Piece, D: Piece, E: Piece, F: Piece> Piece for (A, B, C, D, E, F) {
    ghost text = { λ parts. A.text parts.0 ++ (B.text parts.1 ++ (C.text parts.2 ++ (D.text parts.3 ++ (E.text parts.4 ++ F.text parts.5)))) };

    fn put_into<W: PieceSink>(&self, out: &mut W) -> Result<(), Failed> {
        self.0.put_into(out)?;
        (&self.1, &self.2, &self.3, &self.4, &self.5).put_into(out)
    }
}

impl<A: Piece, B: Piece, C: Piece, D: Piece, E: Piece, F: Piece, G: Piece> Piece
    for (A, B, C, D, E, F, G) {
    ghost text = { λ parts. A.text parts.0 ++ (B.text parts.1 ++ (C.text parts.2 ++ (D.text parts.3 ++ (E.text parts.4 ++ (F.text parts.5 ++ G.text parts.6))))) };

    fn put_into<W: PieceSink>(&self, out: &mut W) -> Result<(), Failed> {
        self.0.put_into(out)?;
        (&self.1, &self.2, &self.3, &self.4, &self.5, &self.6).put_into(out)
    }
}

impl<A: Piece, B: Piece, C: Piece, D: Piece, E: Piece, F: Piece, G: Piece, H: Piece> Piece
    for (A, B, C, D, E, F, G, H) {
    ghost text = { λ parts. A.text parts.0 ++ (B.text parts.1 ++ (C.text parts.2 ++ (D.text parts.3 ++ (E.text parts.4 ++ (F.text parts.5 ++ (G.text parts.6 ++ H.text parts.7)))))) };

    fn put_into<W: PieceSink>(&self, out: &mut W) -> Result<(), Failed> {
        self.0.put_into(out)?;
        (
            &self.1, &self.2, &self.3, &self.4, &self.5, &self.6, &self.7,
        )
            .put_into(out)
    }
}
