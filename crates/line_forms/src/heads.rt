//! Lines outside functions, and the end of a function.
#![tactic(auto, unfolding(crate::specs::Seen::line_at, crate::specs::Forms::fit, crate::specs::Slots::parse, crate::specs::Slots::part, line_parts::specs::Gives::after))]

ghost use Rattle.std.specs.Prelude.{[]};
ghost use Rattle.std.specs.Option.{option_map};
ghost use Rattle.line_parts.specs.Gives.{Gives};
ghost use Rattle.line_parts.specs.Seen.{seen_type};
ghost use Rattle.line_forms.specs.Seen.{seen, of_form, line_at, dropped_says};

use crate::forms::{DroppedLine, Form};
use crate::groups::family_declaration;
use crate::readings::Reading;
use line_parts::{Cursor, Stop, TypeWord};
use line_tokens::Dropped;
use std::alloc::Global;

#[inline(never)]
pub fn layout<'a>(cursor: &mut Cursor<'_, 'a>, alloc: Global) -> Result<Reading<'a>, Stop>
    ensures { Gives seen result cursor.new (line_at Form.Layout cursor.old) }
{
    let name = cursor.local()?;
    cursor.mark(b"=")?;
    cursor.word(b"type")?;
    cursor.mark(b"{")?;
    let fields = cursor.fields(alloc)?;
    cursor.mark(b"}")?;
    Ok(Reading::Layout { name, fields })
}

#[inline(never)]
pub fn declare<'a>(cursor: &mut Cursor<'_, 'a>, alloc: Global) -> Result<Reading<'a>, Stop>
    ensures { Gives seen result cursor.new (line_at Form.Declare cursor.old) }
{
    cursor.word(b"declare")?;
    cursor.skip(Dropped::HeadAttachments);
    cursor.skip(Dropped::Groups);
    let answer = cursor.answer_type()?;
    let (name, parameters) = cursor.head(alloc, true)?;
    cursor.skip(Dropped::Groups);
    Ok(Reading::Declare {
        answer,
        name,
        parameters,
    })
}

#[inline(never)]
pub fn define<'a>(cursor: &mut Cursor<'_, 'a>, alloc: Global) -> Result<Reading<'a>, Stop>
    ensures { Gives seen result cursor.new (line_at Form.Define cursor.old) }
{
    cursor.word(b"define")?;
    cursor.skip(Dropped::Groups);
    let answer = cursor.answer_type()?;
    let (name, arguments) = cursor.head(alloc, false)?;
    cursor.skip(Dropped::Groups);
    let strategy = cursor.strategy()?;
    cursor.skip(Dropped::HeadAttachments);
    cursor.mark(b"{")?;
    Ok(Reading::Define {
        answer,
        name,
        arguments,
        strategy,
    })
}

#[inline(never)]
pub fn close<'a>(cursor: &mut Cursor<'_, 'a>) -> Result<Reading<'a>, Stop>
    ensures { Gives seen result cursor.new (line_at Form.Close cursor.old) }
{
    cursor.mark(b"}")?;
    Ok(Reading::Close)
}

// ---- lines that are dropped

// The one thing that a dropped line may say: what a function of a statepoint group answers.
pub fn dropped_line(cursor: &mut Cursor, which: DroppedLine) -> Result<Option<TypeWord>, Stop>
    ensures { Gives (λ answer. of_form (Form.Dropped which) (dropped_says which (option_map seen_type answer))) result cursor.new (line_at (Form.Dropped which) cursor.old) }
{
    match which {
        DroppedLine::SourceFilename => source_filename(cursor)?,
        DroppedLine::DataLayout => data_layout(cursor)?,
        DroppedLine::Triple => triple(cursor)?,
        DroppedLine::Attributes => attributes(cursor)?,
        DroppedLine::Family => return family_declaration(cursor),
    }
    Ok(None)
}

fn source_filename(cursor: &mut Cursor) -> Result<(), Stop>
    ensures { Gives (λ _. of_form (Form.Dropped DroppedLine.SourceFilename) []) result cursor.new (line_at (Form.Dropped DroppedLine.SourceFilename) cursor.old) }
{
    cursor.word(b"source_filename")?;
    cursor.mark(b"=")?;
    cursor.quoted_text()?;
    Ok(())
}

fn data_layout(cursor: &mut Cursor) -> Result<(), Stop>
    ensures { Gives (λ _. of_form (Form.Dropped DroppedLine.DataLayout) []) result cursor.new (line_at (Form.Dropped DroppedLine.DataLayout) cursor.old) }
{
    cursor.word(b"target")?;
    cursor.word(b"datalayout")?;
    cursor.mark(b"=")?;
    cursor.quoted_text()?;
    Ok(())
}

fn triple(cursor: &mut Cursor) -> Result<(), Stop>
    ensures { Gives (λ _. of_form (Form.Dropped DroppedLine.Triple) []) result cursor.new (line_at (Form.Dropped DroppedLine.Triple) cursor.old) }
{
    cursor.word(b"target")?;
    cursor.word(b"triple")?;
    cursor.mark(b"=")?;
    cursor.quoted_text()?;
    Ok(())
}

fn attributes(cursor: &mut Cursor) -> Result<(), Stop>
    ensures { Gives (λ _. of_form (Form.Dropped DroppedLine.Attributes) []) result cursor.new (line_at (Form.Dropped DroppedLine.Attributes) cursor.old) }
{
    cursor.word(b"attributes")?;
    cursor.hash()?;
    cursor.mark(b"=")?;
    cursor.mark(b"{")?;
    cursor.to_brace()?;
    Ok(())
}
