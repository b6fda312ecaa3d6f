//! What the values of a bundle are shown as.

ghost use Rattle.std.specs.Prelude.{◌≡◌, map, slice_index_or};
ghost use Rattle.std.specs.Fmt.{signed_decimal};
ghost use Rattle.object_meaning.specs.Registers.{pointer_in, value};
ghost use Rattle.object_meaning.specs.Texts.{shown, shown_pointer};
ghost use Rattle.object_store.specs.Words.{datum, number_word};

use flat_code::width_of;
use ir_ast::{Operand, Ty};
use itoa::Buffer;
use object_store::Word;
use piece_writer::{Bytes, Decimal, Piece, PieceSink, Printer};
use sp_ids::sign;
use tool_io::Failed;

// Puts what an entry of a bundle is in a frame with these registers.
#[derive(Clone, Copy)]
pub(crate) struct Entries<'r> {
    pub registers: &'r [Word],
}

impl Printer<(Ty, Operand)> for Entries<'_> {
    ghost element_text = { λ printer entry. shown entry.0 (value (map datum printer.registers.now) entry.1) };

    fn put_element<W: PieceSink>(&self, entry: &(Ty, Operand), out: &mut W) -> Result<(), Failed> {
        Shown {
            ty: entry.0,
            word: word(self.registers, entry.1),
        }
        .put_into(out)
    }
}

// A value of a type.
#[derive(Clone, Copy)]
struct Shown {
    ty: Ty,
    word: Word,
}

impl Piece for Shown {
    ghost text = { λ piece. shown piece.ty (datum piece.word) };

    fn put_into<W: PieceSink>(&self, out: &mut W) -> Result<(), Failed> {
        match self.ty {
            Ty::Ptr => ShownPointer(self.word).put_into(out),
            Ty::Void | Ty::Int(_) | Ty::Token => {
                SignedDecimal(sign(width_of(&self.ty), self.word.number())).put_into(out)
            }
        }
    }
}

// The pointer that a word is: its object and offset, or its offset alone where it has no object.
#[derive(Clone, Copy)]
struct ShownPointer(Word);

impl Piece for ShownPointer {
    ghost text = { λ piece. shown_pointer (pointer_in (datum piece.0)) };

    fn put_into<W: PieceSink>(&self, out: &mut W) -> Result<(), Failed> {
        let object = self.0.object();
        let offset = self.0.offset();
        if object == 0 {
            SignedDecimal(sign(64, offset)).put_into(out)
        } else {
            (Decimal(u64::from(object)), Bytes(b"+"), Decimal(offset)).put_into(out)
        }
    }
}

// A number in decimal, with its sign.
#[derive(Clone, Copy)]
struct SignedDecimal(i64);

impl Piece for SignedDecimal {
    ghost text = { λ piece. signed_decimal piece.0 };

    fn put_into<W: PieceSink>(&self, out: &mut W) -> Result<(), Failed> {
        let mut buffer = Buffer::new();
        out.put(buffer.format(self.0).as_bytes())
    }
}

// The word that an operand is in a frame with these registers.
fn word(registers: &[Word], operand: Operand) -> Word
    ensures { datum result ≡ value (map datum registers.now) operand }
{
    match operand {
        Operand::Value(id) => register(registers, id.0),
        Operand::Int(number) => Word::of(number),
        Operand::Null => Word::to(0, 0),
        Operand::Fun(_) => Word::of(0),
    }
}

fn register(registers: &[Word], register: u32) -> Word
    ensures { result ≡ slice_index_or registers.now register (number_word 0) }
{
    registers
        .get(register as usize)
        .copied()
        .unwrap_or(Word::of(0))
}
