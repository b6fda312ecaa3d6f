//! Literals, and whether two words spell one type.

ghost use Rattle.std.specs.Prelude.{◌≡◌, ◌^◌, ◌%◌, ◌-◌, nat_lt, nat_le, if◌then◌else◌};
ghost use Rattle.line_parts.specs.Types.{Int};
ghost use Rattle.line_parts.specs.Seen.{seen_type};
ghost use Rattle.ir_lines.specs.Modules.{wrapped};
ghost use Rattle.ir_lines.specs.Types.{same_type, is_cell, is_within};

use crate::operands::type_of;
use ir_ast::Cell;
use ir_reader::{Literal, TypeWord, Width};
use sp_ids::wrap;

// Whether the number is below 2^`width`.
fn is_below(width: u32, number: u64) -> bool
    ensures { result ≡ nat_lt number (2 ^ width) }
{
    64 <= width || number < 1u64 << width
}

// Whether the number is at most 2^(`width` - 1).
fn is_up_to_half(width: u32, number: u64) -> bool
    ensures { result ≡ nat_le number (2 ^ (width - 1)) }
{
    64 < width || number <= 1u64 << width.saturating_sub(1)
}

// The number modulo 2^`width`.
fn modulo(width: u32, number: u64) -> u64
    ensures { result ≡ number % 2 ^ width }
{
    if width == 0 {
        0
    } else if width < 64 {
        wrap(width, number)
    } else {
        number
    }
}

// The literal modulo 2^64.
fn word_of(negative: bool, magnitude: u64) -> u64
    ensures { result ≡ (if negative then (2 ^ 64 - magnitude) % 2 ^ 64 else magnitude) }
{
    if negative {
        0u64.wrapping_sub(magnitude)
    } else {
        magnitude
    }
}

/// The value of a literal of this many bits: the literal modulo 2^`width`.
pub fn wrapped(width: u32, literal: Literal) -> u64
    ensures { result ≡ wrapped width literal }
{
    modulo(width, word_of(literal.negative, literal.magnitude))
}

/// Whether a literal of this many bits N lies from -2^(N - 1) to 2^N - 1.
pub fn is_within(width: u32, literal: Literal) -> bool
    ensures { result ≡ is_within width literal }
{
    if literal.negative {
        is_up_to_half(width, literal.magnitude)
    } else {
        is_below(width, literal.magnitude)
    }
}

/// A type of cells, which memory holds.
pub fn is_cell(ty: TypeWord) -> bool
    ensures { result ≡ is_cell (seen_type ty) }
{
    Cell::of(&type_of(ty)).is_some()
}

/// Whether two words spell one type.
pub fn same_type(one: TypeWord, other: TypeWord) -> bool
    ensures { result ≡ same_type (seen_type one) (seen_type other) }
{
    match one {
        TypeWord::Void => matches!(other, TypeWord::Void),
        TypeWord::Int(width) => has_width(other, width),
        TypeWord::Managed => matches!(other, TypeWord::Managed),
        TypeWord::Plain => matches!(other, TypeWord::Plain),
    }
}

fn has_width(ty: TypeWord, width: Width) -> bool
    ensures { result ≡ same_type (Int width.bits) (seen_type ty) }
{
    match ty {
        TypeWord::Int(other) => width.bits == other.bits,
        TypeWord::Managed | TypeWord::Void | TypeWord::Plain => false,
    }
}
