//! Terminators.
#![tactic(auto, unfolding(crate::specs::Seen::line_at, crate::specs::Forms::fit, crate::specs::Slots::parse, crate::specs::Slots::part, line_parts::specs::Gives::after))]

ghost use Rattle.line_parts.specs.Gives.{Gives};
ghost use Rattle.line_forms.specs.Seen.{seen, line_at};

use crate::forms::Form;
use crate::readings::Reading;
use line_parts::{Cursor, Stop};
use line_tokens::Dropped;

#[inline(never)]
pub fn jump<'a>(cursor: &mut Cursor<'_, 'a>) -> Result<Reading<'a>, Stop>
    ensures { Gives seen result cursor.new (line_at Form.Jump cursor.old) }
{
    cursor.word(b"br")?;
    cursor.word(b"label")?;
    let label = cursor.local()?;
    cursor.skip(Dropped::Attachments);
    Ok(Reading::Jump { label })
}

#[inline(never)]
pub fn branch<'a>(cursor: &mut Cursor<'_, 'a>) -> Result<Reading<'a>, Stop>
    ensures { Gives seen result cursor.new (line_at Form.Branch cursor.old) }
{
    cursor.word(b"br")?;
    cursor.word(b"i1")?;
    let condition = cursor.value()?;
    cursor.mark(b",")?;
    cursor.word(b"label")?;
    let on_true = cursor.local()?;
    cursor.mark(b",")?;
    cursor.word(b"label")?;
    let on_false = cursor.local()?;
    cursor.skip(Dropped::Attachments);
    Ok(Reading::Branch {
        condition,
        on_true,
        on_false,
    })
}

#[inline(never)]
pub fn switch<'a>(cursor: &mut Cursor<'_, 'a>) -> Result<Reading<'a>, Stop>
    ensures { Gives seen result cursor.new (line_at Form.Switch cursor.old) }
{
    cursor.word(b"switch")?;
    let width = cursor.width()?;
    let value = cursor.value()?;
    cursor.mark(b",")?;
    cursor.word(b"label")?;
    let default = cursor.local()?;
    cursor.mark(b"[")?;
    Ok(Reading::Switch {
        width,
        value,
        default,
    })
}

#[inline(never)]
pub fn case<'a>(cursor: &mut Cursor<'_, 'a>) -> Result<Reading<'a>, Stop>
    ensures { Gives seen result cursor.new (line_at Form.Case cursor.old) }
{
    let width = cursor.width()?;
    let value = cursor.case_value()?;
    cursor.mark(b",")?;
    cursor.word(b"label")?;
    let label = cursor.local()?;
    Ok(Reading::Case {
        width,
        value,
        label,
    })
}

#[inline(never)]
pub fn switch_end<'a>(cursor: &mut Cursor<'_, 'a>) -> Result<Reading<'a>, Stop>
    ensures { Gives seen result cursor.new (line_at Form.SwitchEnd cursor.old) }
{
    cursor.mark(b"]")?;
    cursor.skip(Dropped::Attachments);
    Ok(Reading::SwitchEnd)
}

#[inline(never)]
pub fn return_void<'a>(cursor: &mut Cursor<'_, 'a>) -> Result<Reading<'a>, Stop>
    ensures { Gives seen result cursor.new (line_at Form.ReturnVoid cursor.old) }
{
    cursor.word(b"ret")?;
    cursor.word(b"void")?;
    cursor.skip(Dropped::Attachments);
    Ok(Reading::ReturnVoid)
}

#[inline(never)]
pub fn return_value<'a>(cursor: &mut Cursor<'_, 'a>) -> Result<Reading<'a>, Stop>
    ensures { Gives seen result cursor.new (line_at Form.Return cursor.old) }
{
    cursor.word(b"ret")?;
    let ty = cursor.value_type()?;
    let value = cursor.value()?;
    cursor.skip(Dropped::Attachments);
    Ok(Reading::Return { ty, value })
}

#[inline(never)]
pub fn unreachable<'a>(cursor: &mut Cursor<'_, 'a>) -> Result<Reading<'a>, Stop>
    ensures { Gives seen result cursor.new (line_at Form.Unreachable cursor.old) }
{
    cursor.word(b"unreachable")?;
    cursor.skip(Dropped::Attachments);
    Ok(Reading::Unreachable)
}
