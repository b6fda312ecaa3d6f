//! Instructions that reach memory, and calls.
#![tactic(auto, unfolding(crate::specs::Seen::line_at, crate::specs::Forms::fit, crate::specs::Slots::parse, crate::specs::Slots::part, line_parts::specs::Gives::after))]

ghost use Rattle.line_parts.specs.Gives.{Gives};
ghost use Rattle.line_forms.specs.Seen.{seen, line_at, behind_operator};

use crate::bundles::deopt_if_any;
use crate::forms::Form;
use crate::readings::Reading;
use line_parts::{Cursor, Stop};
use line_tokens::{Dropped, Flags};
use sp_text::Name;
use std::alloc::Global;

#[inline(never)]
pub fn scalar_element<'a>(cursor: &mut Cursor<'_, 'a>, name: Name<'a>) -> Result<Reading<'a>, Stop>
    ensures { Gives seen result cursor.new (behind_operator Form.ScalarElement name.entry.bytes.now cursor.old) }
{
    cursor.skip(Dropped::Words(Flags::Bounds));
    let element = cursor.scalar_type()?;
    cursor.mark(b",")?;
    cursor.managed()?;
    let address = cursor.value()?;
    cursor.mark(b",")?;
    let width = cursor.width()?;
    let index = cursor.value()?;
    cursor.skip(Dropped::Attachments);
    Ok(Reading::ScalarElement {
        result: name,
        element,
        address,
        width,
        index,
    })
}

#[inline(never)]
pub fn layout_element<'a>(cursor: &mut Cursor<'_, 'a>, name: Name<'a>) -> Result<Reading<'a>, Stop>
    ensures { Gives seen result cursor.new (behind_operator Form.LayoutElement name.entry.bytes.now cursor.old) }
{
    cursor.skip(Dropped::Words(Flags::Bounds));
    let layout = cursor.local()?;
    cursor.mark(b",")?;
    cursor.managed()?;
    let address = cursor.value()?;
    cursor.mark(b",")?;
    let width = cursor.width()?;
    let index = cursor.value()?;
    let place = cursor.place()?;
    cursor.skip(Dropped::Attachments);
    Ok(Reading::LayoutElement {
        result: name,
        layout,
        address,
        width,
        index,
        place,
    })
}

#[inline(never)]
pub fn load<'a>(cursor: &mut Cursor<'_, 'a>, name: Name<'a>) -> Result<Reading<'a>, Stop>
    ensures { Gives seen result cursor.new (behind_operator Form.Load name.entry.bytes.now cursor.old) }
{
    let ty = cursor.value_type()?;
    cursor.mark(b",")?;
    cursor.managed()?;
    let address = cursor.value()?;
    cursor.skip(Dropped::Alignments);
    cursor.skip(Dropped::Attachments);
    Ok(Reading::Load {
        result: name,
        ty,
        address,
    })
}

#[inline(never)]
pub fn store<'a>(cursor: &mut Cursor<'_, 'a>) -> Result<Reading<'a>, Stop>
    ensures { Gives seen result cursor.new (line_at Form.Store cursor.old) }
{
    cursor.word(b"store")?;
    let ty = cursor.value_type()?;
    let value = cursor.value()?;
    cursor.mark(b",")?;
    cursor.managed()?;
    let address = cursor.value()?;
    cursor.skip(Dropped::Alignments);
    cursor.skip(Dropped::Attachments);
    Ok(Reading::Store { ty, value, address })
}

#[inline(never)]
pub fn value_call<'a>(cursor: &mut Cursor<'_, 'a>, alloc: Global) -> Result<Reading<'a>, Stop>
    ensures { Gives seen result cursor.new (line_at Form.ValueCall cursor.old) }
{
    let result = cursor.local()?;
    cursor.mark(b"=")?;
    cursor.skip(Dropped::Words(Flags::Calling));
    cursor.word(b"call")?;
    cursor.skip(Dropped::Groups);
    let answer = cursor.value_type()?;
    let (callee, passed) = cursor.called(alloc)?;
    cursor.skip(Dropped::Groups);
    let kept = deopt_if_any(cursor, alloc)?;
    cursor.skip(Dropped::Attachments);
    Ok(Reading::ValueCall {
        result,
        answer,
        callee,
        passed,
        kept,
    })
}

#[inline(never)]
pub fn void_call<'a>(cursor: &mut Cursor<'_, 'a>, alloc: Global) -> Result<Reading<'a>, Stop>
    ensures { Gives seen result cursor.new (line_at Form.VoidCall cursor.old) }
{
    cursor.skip(Dropped::Words(Flags::Calling));
    cursor.word(b"call")?;
    cursor.skip(Dropped::Groups);
    cursor.word(b"void")?;
    let (callee, passed) = cursor.called(alloc)?;
    cursor.skip(Dropped::Groups);
    let kept = deopt_if_any(cursor, alloc)?;
    cursor.skip(Dropped::Attachments);
    Ok(Reading::VoidCall {
        callee,
        passed,
        kept,
    })
}
