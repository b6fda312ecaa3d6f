//! Lists of texts, put into a sink with a separator between them.
ghost use Rattle.std.specs.Prelude.{◌≡◌, ℕ, List, [], length, map, drop, slice_get, unwrap_or, OnOk, OnErr};
ghost use Rattle.std.specs.List.{zip};
ghost use Rattle.piece_writer.specs.Lists.{joined, led};

use crate::{Bytes, Piece, PieceSink};
use tool_io::Failed;

/// A list of texts, each of which can be put into a sink by its place.
pub trait Row {
    /// The texts, in their order.
    ghost texts: { Self → List (List ℕ) };

    /// How many texts it has.
    fn count(&self) -> usize
        ensures { result ≡ length (texts self.now) };

    /// Puts the text with this place, or nothing where there is none.
    fn put_at<W: PieceSink>(&self, place: usize, out: &mut W) -> Result<(), Failed>
        ensures ok { OnOk result (W.took out.old out.new (unwrap_or (slice_get (texts self.now) place) [])) }
        ensures err { OnErr result (W.failed_within out.old out.new (unwrap_or (slice_get (texts self.now) place) [])) };
}

// The text of a row with this place.
#[derive(Clone, Copy)]
struct At<'a, R> {
    row: &'a R,
    place: usize,
}

impl<R: Row> Piece for At<'_, R> {
    ghost text = { λ at. unwrap_or (slice_get (R.texts at.row.now) at.place) [] };

    fn put_into<W: PieceSink>(&self, out: &mut W) -> Result<(), Failed> {
        self.row.put_at(self.place, out)
    }
}

// Puts the texts from this place on, each after the separator.
fn put_led<R: Row, W: PieceSink>(
    separator: &[u8],
    row: &R,
    from: usize,
    out: &mut W,
) -> Result<(), Failed>
    ensures ok { OnOk result (W.took out.old out.new (led separator.now (drop from (R.texts row.now)))) }
    ensures err { OnErr result (W.failed_within out.old out.new (led separator.now (drop from (R.texts row.now)))) }
{
    for place in from..row.count() {
        (Bytes(separator), At { row, place }).put_into(out)?;
    }
    Ok(())
}

/// The texts of a row, each after the separator.
#[derive(Drop)]
pub struct Led<'a, R> {
    pub separator: &'a [u8],
    pub row: R,
}

impl<R: Row> Piece for Led<'_, R> {
    ghost text = { λ list. led list.separator.now (R.texts list.row) };

    fn put_into<W: PieceSink>(&self, out: &mut W) -> Result<(), Failed> {
        put_led(self.separator, &self.row, 0, out)
    }
}

/// The texts of a row with the separator between them.
#[derive(Drop)]
pub struct Joined<'a, R> {
    pub separator: &'a [u8],
    pub row: R,
}

impl<R: Row> Piece for Joined<'_, R> {
    ghost text = { λ list. joined list.separator.now (R.texts list.row) };

    fn put_into<W: PieceSink>(&self, out: &mut W) -> Result<(), Failed> {
        self.row.put_at(0, out)?;
        put_led(self.separator, &self.row, 1, out)
    }
}

/// Puts the text of an element.
pub trait Printer<T> {
    /// The text of an element.
    ghost element_text: { Self → T → List ℕ };

    /// Puts the text of this element.
    fn put_element<W: PieceSink>(&self, element: &T, out: &mut W) -> Result<(), Failed>
        ensures ok { OnOk result (W.took out.old out.new (element_text self.now element.now)) }
        ensures err { OnErr result (W.failed_within out.old out.new (element_text self.now element.now)) };
}

/// The texts of the elements of a list.
#[derive(Drop)]
pub struct Each<'a, P, T> {
    pub printer: P,
    pub elements: &'a [T],
}

impl<P: Printer<T>, T> Row for Each<'_, P, T> {
    ghost texts = { λ row. map (P.element_text row.printer) row.elements.now };

    fn count(&self) -> usize {
        self.elements.len()
    }

    fn put_at<W: PieceSink>(&self, place: usize, out: &mut W) -> Result<(), Failed> {
        match self.elements.get(place) {
            Some(element) => self.printer.put_element(element, out),
            None => Ok(()),
        }
    }
}

/// Puts the text of an element of one list beside an element of another.
pub trait PairPrinter<A, B> {
    /// The text of two elements.
    ghost pair_text: { Self → A → B → List ℕ };

    /// Puts the text of these two elements.
    fn put_pair<W: PieceSink>(&self, first: &A, second: &B, out: &mut W) -> Result<(), Failed>
        ensures ok { OnOk result (W.took out.old out.new (pair_text self.now first.now second.now)) }
        ensures err { OnErr result (W.failed_within out.old out.new (pair_text self.now first.now second.now)) };
}

/// The texts of the elements of two lists, taken side by side.
#[derive(Drop)]
pub struct Pairs<'a, P, A, B> {
    pub printer: P,
    pub first: &'a [A],
    pub second: &'a [B],
}

impl<P: PairPrinter<A, B>, A, B> Row for Pairs<'_, P, A, B> {
    ghost texts = { λ row. map (λ pair. P.pair_text row.printer pair.0 pair.1) (zip row.first.now row.second.now) };

    fn count(&self) -> usize {
        self.first.len().min(self.second.len())
    }

    fn put_at<W: PieceSink>(&self, place: usize, out: &mut W) -> Result<(), Failed> {
        match self.first.get(place) {
            Some(first) => match self.second.get(place) {
                Some(second) => self.printer.put_pair(first, second, out),
                None => Ok(()),
            },
            None => Ok(()),
        }
    }
}
