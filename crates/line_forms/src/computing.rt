//! Instructions that compute a value of their operands.
#![tactic(auto, unfolding(crate::specs::Seen::line_at, crate::specs::Slots::parse, crate::specs::Slots::part, line_parts::specs::Gives::after))]

ghost use Rattle.std.specs.Prelude.{◌≡◌};
ghost use Rattle.line_parts.specs.Gives.{Gives};
ghost use Rattle.line_parts.specs.Drops.{past_all};
ghost use Rattle.line_tokens.specs.Words.{binary_flags, conversion_flags};
ghost use Rattle.line_forms.specs.Seen.{seen, behind_operator};

use crate::forms::Form;
use crate::readings::Reading;
use line_parts::{Cursor, Stop};
use line_tokens::{Binary, Cast, Conversion, Dropped, Flags};
use sp_text::Name;
use std::alloc::Global;

fn binary_flags(cursor: &mut Cursor, op: Binary)
    ensures { cursor.new ≡ past_all (Dropped.Words (binary_flags op)) cursor.old }
{
    cursor.skip(Dropped::Words(op.flags()));
}

fn conversion_flags(cursor: &mut Cursor, op: Conversion)
    ensures { cursor.new ≡ past_all (Dropped.Words (conversion_flags op)) cursor.old }
{
    cursor.skip(Dropped::Words(op.flags()));
}

#[inline(never)]
pub fn binary<'a>(
    cursor: &mut Cursor<'_, 'a>,
    name: Name<'a>,
    op: Binary,
) -> Result<Reading<'a>, Stop>
    ensures { Gives seen result cursor.new (behind_operator (Form.Binary op) name.entry.bytes.now cursor.old) }
{
    binary_flags(cursor, op);
    let width = cursor.width()?;
    let left = cursor.value()?;
    cursor.mark(b",")?;
    let right = cursor.value()?;
    cursor.skip(Dropped::Attachments);
    Ok(Reading::Binary {
        result: name,
        op,
        width,
        left,
        right,
    })
}

#[inline(never)]
pub fn compare<'a>(cursor: &mut Cursor<'_, 'a>, name: Name<'a>) -> Result<Reading<'a>, Stop>
    ensures { Gives seen result cursor.new (behind_operator Form.Compare name.entry.bytes.now cursor.old) }
{
    cursor.skip(Dropped::Words(Flags::SameSign));
    let pred = cursor.pred()?;
    let ty = cursor.value_type()?;
    let left = cursor.value()?;
    cursor.mark(b",")?;
    let right = cursor.value()?;
    cursor.skip(Dropped::Attachments);
    Ok(Reading::Compare {
        result: name,
        pred,
        ty,
        left,
        right,
    })
}

#[inline(never)]
pub fn convert<'a>(
    cursor: &mut Cursor<'_, 'a>,
    name: Name<'a>,
    op: Conversion,
) -> Result<Reading<'a>, Stop>
    ensures { Gives seen result cursor.new (behind_operator (Form.Convert op) name.entry.bytes.now cursor.old) }
{
    conversion_flags(cursor, op);
    let width = cursor.width()?;
    let value = cursor.value()?;
    cursor.word(b"to")?;
    let to = cursor.width()?;
    cursor.skip(Dropped::Attachments);
    Ok(Reading::Convert {
        result: name,
        op,
        width,
        value,
        to,
    })
}

#[inline(never)]
pub fn cast<'a>(cursor: &mut Cursor<'_, 'a>, name: Name<'a>, op: Cast) -> Result<Reading<'a>, Stop>
    ensures { Gives seen result cursor.new (behind_operator (Form.Cast op) name.entry.bytes.now cursor.old) }
{
    let from = cursor.cast_type()?;
    let value = cursor.value()?;
    cursor.word(b"to")?;
    let to = cursor.cast_type()?;
    cursor.skip(Dropped::Attachments);
    Ok(Reading::Cast {
        result: name,
        op,
        from,
        value,
        to,
    })
}

#[inline(never)]
pub fn select<'a>(cursor: &mut Cursor<'_, 'a>, name: Name<'a>) -> Result<Reading<'a>, Stop>
    ensures { Gives seen result cursor.new (behind_operator Form.Select name.entry.bytes.now cursor.old) }
{
    cursor.word(b"i1")?;
    let condition = cursor.value()?;
    cursor.mark(b",")?;
    let left_ty = cursor.value_type()?;
    let left = cursor.value()?;
    cursor.mark(b",")?;
    let right_ty = cursor.value_type()?;
    let right = cursor.value()?;
    cursor.skip(Dropped::Attachments);
    Ok(Reading::Select {
        result: name,
        condition,
        left_ty,
        left,
        right_ty,
        right,
    })
}

#[inline(never)]
pub fn phi<'a>(
    cursor: &mut Cursor<'_, 'a>,
    name: Name<'a>,
    alloc: Global,
) -> Result<Reading<'a>, Stop>
    ensures { Gives seen result cursor.new (behind_operator Form.Phi name.entry.bytes.now cursor.old) }
{
    let ty = cursor.value_type()?;
    let entries = cursor.entries(alloc)?;
    cursor.skip(Dropped::Attachments);
    Ok(Reading::Phi {
        result: name,
        ty,
        entries,
    })
}
