//! What fits a type.

ghost use Rattle.std.specs.Prelude.{◌≡◌, ◌-◌, map, option_map};
ghost use Rattle.line_parts.specs.Seen.{seen_type, seen_value};
ghost use Rattle.module_build.specs.Lost.{fits_in, type_fits};
ghost use Rattle.ir_lines.specs.Types.{same_type, is_within, literal_fits, takes_null};
ghost use Rattle.ir_resolve.specs.TextFaults.{is_below_zero};

use ir_lines::literals::{is_within, same_type};
use ir_lines::scope::Local;
use ir_reader::{Literal, TypeWord, Value, Width};

fn type_fits(ty: TypeWord, given: Option<TypeWord>) -> bool
    ensures { result ≡ type_fits (seen_type ty) (option_map seen_type given) }
{
    match given {
        Some(given) => same_type(given, ty),
        None => true,
    }
}

/// Whether a literal lies within its type.
pub(crate) fn literal_fits(ty: TypeWord, literal: Literal) -> bool
    ensures { result ≡ literal_fits (seen_type ty) literal }
{
    match ty {
        TypeWord::Int(width) => is_within(width.bits, literal),
        _ => false,
    }
}

fn takes_null(ty: TypeWord) -> bool
    ensures { result ≡ takes_null (seen_type ty) }
{
    matches!(ty, TypeWord::Managed | TypeWord::Plain)
}

/// Whether a value fits the type that a line asks of it. A name that nothing gives has a fault of its own.
pub(crate) fn fits(local: &Local, ty: TypeWord, value: &Value) -> bool
    ensures { result ≡ fits_in local.now.values (map seen_type local.now.types.items) (seen_type ty) (seen_value value.now) }
{
    match value {
        Value::Local(name) => type_fits(ty, local.type_of(name.bytes)),
        Value::Number(literal) => literal_fits(ty, *literal),
        Value::Truth(_) => same_type(ty, TypeWord::Int(Width { bits: 1 })),
        Value::Null => takes_null(ty),
    }
}

/// Whether a place is a number below zero.
pub(crate) fn is_below_zero(place: Option<Literal>) -> bool
    ensures { result ≡ is_below_zero place }
{
    match place {
        Some(place) => place.negative && 0 < place.magnitude,
        None => false,
    }
}
