//! What decoded lines compute, on words.

ghost use Rattle.std.specs.Prelude.{◌≡◌, ◌≤◌, ◌+◌, ◌*◌, map, if◌then◌else◌, slice_index_or};
ghost use Rattle.std.specs.Int.{w64, cast_unsigned};
ghost use Rattle.sp_ids.specs.Numbers.{signed};
ghost use Rattle.ir_ast.specs.Objects.{number, pointer, advanced};
ghost use Rattle.object_meaning.specs.Comparisons.{bit, pointers_related, same_pointer};
ghost use Rattle.object_meaning.specs.Computing.{with_number};
ghost use Rattle.object_meaning.specs.Registers.{value, number_in, pointer_in, is_set};
ghost use Rattle.object_store.specs.Words.{datum, datum_result, number_word};
ghost use Rattle.flat_code.specs.Actions.{acted};
ghost use Rattle.flat_code.specs.Flats.{IsSizedLine};
ghost use Rattle.ir_meaning.specs.Stacks.{word};

use flat_code::{Action, FlatLine, computed_number};
use ir_ast::{Operand, Pred};
use object_store::Word;
use sp_ids::{Trap, sign};

/// What the action of a line gives in a frame with these registers.
pub fn acted(registers: &[Word], line: &FlatLine) -> Result<Word, Trap>
    requires { IsSizedLine line.now }
    ensures { datum_result result ≡ acted line.now.action line.now.width (value (map datum registers.now) line.now.first) (value (map datum registers.now) line.now.second) (value (map datum registers.now) line.now.third) }
{
    match line.action {
        Action::Select => Ok(chosen(registers, line)),
        Action::ComparePointers(pred) => Ok(compared(
            pred,
            held(registers, line.first),
            held(registers, line.second),
        )),
        Action::Advance { scale, fixed } => Ok(advanced(
            held(registers, line.first),
            line.width,
            number_of(registers, line.second),
            scale,
            fixed,
        )),
        _ => with_number(computed_number(
            line.action,
            line.width,
            number_of(registers, line.first),
            number_of(registers, line.second),
        )),
    }
}

/// What an operand is.
pub fn held(registers: &[Word], operand: Operand) -> Word
    ensures { datum result ≡ value (map datum registers.now) operand }
{
    word(registers, operand)
}

/// The number that an operand is, or 0.
pub fn number_of(registers: &[Word], operand: Operand) -> u64
    ensures { result ≡ number_in (value (map datum registers.now) operand) }
{
    held(registers, operand).number()
}

/// The word that an operand is.
pub fn word(registers: &[Word], operand: Operand) -> Word
    ensures { result ≡ word registers.now operand }
{
    match operand {
        Operand::Value(id) => register(registers, id.0),
        Operand::Int(number) => Word::of(number),
        Operand::Null => Word::to(0, 0),
        Operand::Fun(_) => Word::of(0),
    }
}

fn register(registers: &[Word], register: u32) -> Word
    ensures { result ≡ slice_index_or registers.now register (number_word 0) }
{
    registers
        .get(register as usize)
        .copied()
        .unwrap_or(Word::of(0))
}

fn chosen(registers: &[Word], line: &FlatLine) -> Word
    ensures { datum result ≡ (if is_set (value (map datum registers.now) line.now.first) then value (map datum registers.now) line.now.second else value (map datum registers.now) line.now.third) }
{
    if is_set(held(registers, line.first)) {
        held(registers, line.second)
    } else {
        held(registers, line.third)
    }
}

fn with_number(outcome: Result<u64, Trap>) -> Result<Word, Trap>
    ensures { datum_result result ≡ with_number outcome }
{
    match outcome {
        Ok(number) => Ok(Word::of(number)),
        Err(trap) => Err(trap),
    }
}

// An `icmp` of pointers.
fn compared(pred: Pred, left: Word, right: Word) -> Word
    ensures { datum result ≡ number (bit (pointers_related pred (same_pointer (pointer_in (datum left)) (pointer_in (datum right))))) }
{
    bit(related(pred, same_pointer(left, right)))
}

fn same_pointer(left: Word, right: Word) -> bool
    ensures { result ≡ same_pointer (pointer_in (datum left)) (pointer_in (datum right)) }
{
    left.object() == right.object() && left.offset() == right.offset()
}

fn related(pred: Pred, same: bool) -> bool
    ensures { result ≡ pointers_related pred same }
{
    match pred {
        Pred::Eq => same,
        Pred::Ne => !same,
        _ => false,
    }
}

fn bit(test: bool) -> Word
    ensures { datum result ≡ number (bit test) }
{
    Word::of(if test { 1 } else { 0 })
}

/// Whether a condition holds.
pub fn is_set(word: Word) -> bool
    ensures { result ≡ is_set (datum word) }
{
    word.number() > 0
}

// The pointer that a `getelementptr` gives.
fn advanced(from: Word, width: u32, index: u64, scale: u64, fixed: u64) -> Word
    requires some_bits { 1 ≤ width }
    requires word { width ≤ 64 }
    ensures { datum result ≡ pointer (advanced (pointer_in (datum from)) (cast_unsigned w64 (signed width index) * scale + fixed)) }
{
    let scaled = sign(width, index).cast_unsigned().wrapping_mul(scale);
    let offset = from.offset().wrapping_add(scaled.wrapping_add(fixed));
    Word::to(from.object(), offset)
}
