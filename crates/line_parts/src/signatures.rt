//! The parameters of a function type.

ghost use Rattle.std.specs.Prelude.{codes, true, map};
ghost use Rattle.line_parts.specs.Gives.{Gives};
ghost use Rattle.line_parts.specs.Parts.{allowed_type_at};
ghost use Rattle.line_parts.specs.Lists.{is_argument_type, listed_at, comma};
ghost use Rattle.line_parts.specs.Groups.{types_at};
ghost use Rattle.line_parts.specs.Seen.{seen_type};

use crate::cursor::Cursor;
use crate::faults::Stop;
use crate::readings::TypeWord;
use smallvec::SmallVec;
use std::alloc::Global;

/// The types of the parameters of a function type.
pub type Parameters = SmallVec<TypeWord, 2>;

fn some_parameters(cursor: &mut Cursor, alloc: Global) -> Result<Parameters, Stop>
    ensures { Gives (λ types. map seen_type types.items) result cursor.new (listed_at (allowed_type_at (is_argument_type true)) comma cursor.old) }
{
    let mut parameters = SmallVec::new(alloc);
    loop {
        let parameter = cursor.argument_type(true)?;
        parameters.push(parameter)?;
        if !cursor.begins_mark(b",") {
            return Ok(parameters);
        }
        cursor.pass_comma();
    }
}

/// The parameters of a function type, up to its end.
#[tactic(auto, unfolding(crate::specs::Lists::list_to))]
pub fn parameters(cursor: &mut Cursor, alloc: Global) -> Result<Parameters, Stop>
    ensures { Gives (λ types. map seen_type types.items) result cursor.new (types_at cursor.old) }
{
    if cursor.begins_mark(b")") {
        return Ok(SmallVec::new(alloc));
    }
    some_parameters(cursor, alloc)
}
