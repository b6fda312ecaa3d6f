//! What a line loses by the names and the literals that it uses.

ghost use Rattle.std.specs.Prelude.{◌≡◌, ◌||◌, is_none};
ghost use Rattle.line_parts.specs.Seen.{seen_type, seen_value};
ghost use Rattle.ir_lines.specs.Modules.{operand_in, label_in};
ghost use Rattle.ir_lines.specs.Places.{place_in};
ghost use Rattle.module_build.specs.Lost.{after_use, nothing_lost};

use crate::fits::literal_fits;
use ir_ast::Operand;
use ir_lines::literals::same_type;
use ir_lines::names::number_of;
use ir_lines::scope::Local;
use ir_reader::{TypeWord, Value, Width};
use sp_ids::{BlockId, ValueId};

/// What a line loses by its parts.
#[derive(Clone, Copy)]
pub struct Lost {
    /// It names something that there isn't.
    pub unknown: bool,
    /// It has a number outside its type, a truth that is no `i1`, or types that don't agree.
    pub misspelled: bool,
}

/// Nothing so far.
pub(crate) fn nothing_lost() -> Lost
    ensures { result ≡ nothing_lost }
{
    Lost {
        unknown: false,
        misspelled: false,
    }
}

/// Adds whether a name is unknown.
pub(crate) fn add_unknown(unknown: bool, lost: &mut Lost)
    ensures { lost.new ≡ record lost.old { unknown = unknown || lost.old.unknown } }
{
    lost.unknown = unknown || lost.unknown;
}

/// The operand that a value of this type stands for.
pub(crate) fn operand(local: &Local, ty: TypeWord, value: &Value, lost: &mut Lost) -> Operand
    ensures operand { result ≡ operand_in local.now.values (seen_type ty) (seen_value value.now) }
    ensures lost { lost.new ≡ after_use local.now.values lost.old (seen_value value.now, seen_type ty) }
{
    match value {
        Value::Local(name) => {
            let place = local.values.find(name.bytes);
            lost.unknown = place.is_none() || lost.unknown;
            Operand::Value(ValueId(number_of(place)))
        }
        Value::Number(literal) => {
            lost.misspelled = !literal_fits(ty, *literal) || lost.misspelled;
            local.operand(ty, value)
        }
        Value::Truth(_) => {
            lost.misspelled = !same_type(ty, TypeWord::Int(Width { bits: 1 })) || lost.misspelled;
            local.operand(ty, value)
        }
        Value::Null => Operand::Null,
    }
}

/// The block that a label stands for.
pub(crate) fn label(local: &Local, name: &[u8], lost: &mut Lost) -> BlockId
    ensures label { result ≡ label_in local.now.blocks name.now }
    ensures lost { lost.new ≡ record lost.old { unknown = is_none (place_in local.now.blocks name.now) || lost.old.unknown } }
{
    let place = local.blocks.find(name);
    lost.unknown = place.is_none() || lost.unknown;
    BlockId(number_of(place))
}
