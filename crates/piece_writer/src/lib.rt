//! Texts made of pieces: what a piece is, lists of them, and a writer that gathers pieces into few
//! puts.
#![tactic(auto)]

mod held;
mod numbers;
mod piece_sink;
mod pieces;
mod rows;
mod texts;
mod writer;

pub use numbers::Decimal;
pub use piece_sink::PieceSink;
pub use pieces::{Bytes, Piece};
pub use rows::{Each, Joined, Led, PairPrinter, Pairs, Printer, Row};
pub use texts::put_text;
pub use writer::PieceWriter;
