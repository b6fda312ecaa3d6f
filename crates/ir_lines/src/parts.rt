//! What a line of a function gives.

ghost use Rattle.std.specs.Prelude.{◌≡◌, option_map};
ghost use Rattle.line_parts.specs.Seen.{seen_type};
ghost use Rattle.ir_lines.specs.Parts.{gives};
ghost use Rattle.ir_lines.specs.Views.{said};

use ir_reader::{Reading, TypeWord, Width};

/// The type of a statepoint's result, a token; no other value has the type word `void`.
pub const TOKEN: TypeWord = TypeWord::Void;

/// The name and the type of the result of a line.
pub fn given<'a>(reading: &Reading<'a>) -> Option<(&'a [u8], TypeWord)>
    ensures { option_map (λ one. (one.0.now, seen_type one.1)) result ≡ gives (said reading.now) }
{
    match reading {
        Reading::Binary { result, width, .. } => Some((result.bytes, TypeWord::Int(*width))),
        Reading::Compare { result, .. } => Some((result.bytes, TypeWord::Int(Width { bits: 1 }))),
        Reading::Convert { result, to, .. } => Some((result.bytes, TypeWord::Int(*to))),
        Reading::Select {
            result,
            left_ty,
            ..
        } => Some((result.bytes, *left_ty)),
        Reading::Phi { result, ty, .. } => Some((result.bytes, *ty)),
        Reading::ScalarElement { result, .. } => Some((result.bytes, TypeWord::Managed)),
        Reading::LayoutElement { result, .. } => Some((result.bytes, TypeWord::Managed)),
        Reading::Load { result, ty, .. } => Some((result.bytes, *ty)),
        Reading::ValueCall { result, answer, .. } => Some((result.bytes, *answer)),
        Reading::Cast { result, to, .. } => Some((result.bytes, *to)),
        Reading::Statepoint { result, .. } => Some((result.bytes, TOKEN)),
        Reading::GcResult { result, answer, .. } => Some((result.bytes, *answer)),
        Reading::GcRelocate { result, .. } => Some((result.bytes, TypeWord::Managed)),
        _ => None,
    }
}
