//! Types, predicates and integers.
ghost use Rattle.std.specs.Prelude.{◌≡◌, ◌≤◌, ◌<◌, ◌++◌, ℕ, List, OnOk, OnErr};
ghost use Rattle.std.specs.Prelude.{decimal};
ghost use Rattle.ir_printer.specs.Words.{type_text, predicate_word, integer_text, strategy_text};

use ir_ast::{Pred, Ty};
use itoa::Buffer;
use piece_writer::{Bytes, Decimal, Piece, PieceSink};
use sp_ids::{sign, wrap};
use tool_io::Failed;

/// A type, spelled out.
#[derive(Clone, Copy)]
pub(crate) struct TypeWord(pub Ty);

impl Piece for TypeWord {
    ghost text = { λ piece. type_text piece.0 };

    fn put_into<W: PieceSink>(&self, out: &mut W) -> Result<(), Failed> {
        match self.0 {
            Ty::Void => out.put(b"void"),
            Ty::Int(64) => out.put(b"i64"),
            Ty::Int(width) => (Bytes(b"i"), Decimal(width as u64)).put_into(out),
            Ty::Ptr => out.put(b"ptr addrspace(1)"),
            Ty::Token => out.put(b"token"),
        }
    }
}

/// An integer of `iN`: the width, and the number modulo 2 to the width.
#[derive(Clone, Copy)]
pub(crate) struct Integer(pub u32, pub u64);

impl Integer {
    #[inline(never)]
    fn put_apart<W: PieceSink>(&self, out: &mut W) -> Result<(), Failed>
        ensures ok { OnOk result (W.took out.old out.new (integer_text self.now.0 self.now.1)) }
        ensures err { OnErr result (W.failed_within out.old out.new (integer_text self.now.0 self.now.1)) }
    {
        let mut buffer = Buffer::new();
        out.put(integer_bytes(self.0, self.1, &mut buffer))
    }
}

impl Piece for Integer {
    ghost text = { λ piece. integer_text piece.0 piece.1 };

    fn put_into<W: PieceSink>(&self, out: &mut W) -> Result<(), Failed> {
        let (width, number) = (self.0, self.1);
        if width >= 8 && number < 10 {
            return out.put(digit(number));
        }
        self.put_apart(out)
    }
}

fn integer_bytes(width: u32, number: u64, buffer: &mut Buffer) -> &[u8]
    ensures { result.now ≡ integer_text width number }
{
    if width == 1 {
        return if wrap(1, number) == 0 {
            b"false"
        } else {
            b"true"
        };
    }
    if width == 0 {
        buffer.format(0u64).as_bytes()
    } else if width <= 64 {
        buffer.format(sign(width, number)).as_bytes()
    } else {
        buffer.format(number).as_bytes()
    }
}

// Most integers of a text are digits.
fn digit(number: u64) -> &'static [u8]
    requires { number < 10 }
    ensures { result.now ≡ decimal number }
{
    match number {
        0 => b"0",
        1 => b"1",
        2 => b"2",
        3 => b"3",
        4 => b"4",
        5 => b"5",
        6 => b"6",
        7 => b"7",
        8 => b"8",
        _ => b"9",
    }
}

/// The word of a predicate.
pub(crate) fn predicate_bytes(pred: Pred) -> &'static [u8]
    ensures { result.now ≡ predicate_word pred }
{
    match pred {
        Pred::Eq => b"eq",
        Pred::Ne => b"ne",
        Pred::Ugt => b"ugt",
        Pred::Uge => b"uge",
        Pred::Ult => b"ult",
        Pred::Ule => b"ule",
        Pred::Sgt => b"sgt",
        Pred::Sge => b"sge",
        Pred::Slt => b"slt",
        Pred::Sle => b"sle",
    }
}

/// The name of the strategy that each function has, and what stands round it.
#[tactic(auto, unfolding(crate::specs::Words::strategy_text))]
pub(crate) fn strategy() -> &'static [u8]
    ensures { result.now ≡ strategy_text }
{
    b") gc \"statepoint-example\" {\n"
}
