//! A whole text, lifted line by line.

ghost use Rattle.std.specs.Prelude.{◌≡◌, ◌≤◌, length, IfOk};
ghost use Rattle.llvm_features.specs.Features.{reasons_of};
ghost use Rattle.llvm_features.specs.declared.features.Feature.TheVariants.{NoLayout};
ghost use Rattle.std.specs.List.{All};

use crate::declared::{Declared, layout_named};
use crate::lifting::lift_line;
use crate::writer::Writer;
use llvm_features::{NO_TOKEN, Reason, push_reason, put_tokens};
use sp_ids::Memory;
use sp_text::{Lines, Token};
use std::alloc::Global;
use std::collections::HashSet;

/// What a text is lifted to, or why it isn't.
#[derive(Drop)]
pub struct Lifted {
    /// All lines that have what the profile lacks. Where there is one, the text says nothing.
    pub reasons: Vec<Reason>,
    /// The declarations of objects whose layout is nowhere; likewise.
    pub missing: Vec<Reason>,
    /// It may be longer than a file may be; then it is cut.
    pub text: Vec<u8>,
    /// The line that each line was lifted from.
    pub origins: Vec<u32>,
    /// The first line that changed, or 0.
    pub changed: u32,
}

// How many tokens of a line are found at once.
const TOKENS_AT_ONCE: usize = 256;

/// Lifts a text. The layouts that it lacks come from the other text.
pub fn lift_text(alloc: Global, text: &[u8], layouts: &[u8]) -> Result<Lifted, Memory>
    requires text { length text.now ≤ 16777216 }
    requires layouts { length layouts.now ≤ 16777216 }
    ensures reasons { IfOk result (λ lifted. lifted.reasons.items ≡ reasons_of text.now) }
    ensures missing { IfOk result (λ lifted. All (λ reason. reason.feature ≡ NoLayout) lifted.missing.items) }
{
    let mut declared = Declared::new(alloc);
    let mut writer = Writer::new(alloc);
    let reasons = lift_lines(alloc, text, &mut declared, &mut writer)?;
    let missing = if writer.has_room() {
        finish(alloc, layouts, &declared, &mut writer)?
    } else {
        Vec::new(alloc)
    };
    Ok(Lifted {
        reasons,
        missing,
        text: writer.text,
        origins: writer.origins,
        changed: writer.changed,
    })
}

// Lifts the lines of a text but for the declarations, and gives the reasons that they are.
fn lift_lines<'a>(
    alloc: Global,
    text: &'a [u8],
    declared: &mut Declared<'a>,
    writer: &mut Writer,
) -> Result<Vec<Reason>, Memory>
    requires { length text.now ≤ 16777216 }
    ensures { IfOk result (λ reasons. reasons.items ≡ reasons_of text.now) }
{
    let mut lines = Lines::of(text);
    let mut room = [NO_TOKEN; TOKENS_AT_ONCE];
    let mut row: Vec<Token<'a>> = Vec::new(alloc);
    let mut reasons = Vec::new(alloc);
    let mut is_over = false;
    while let Some(line) = lines.next_line() {
        let whole = put_tokens(&mut room, &mut row, line)?;
        push_reason(&mut reasons, line, row.as_slice(), whole)?;
        if writer.has_room() {
            writer.line = line.number;
            is_over = lift_line(alloc, line, row.as_slice(), declared, is_over, writer)?;
        }
    }
    Ok(reasons)
}

// Writes the declarations and the layouts that the text lacks, and gives the reasons that lacking layouts are.
fn finish(
    alloc: Global,
    layouts: &[u8],
    declared: &Declared,
    writer: &mut Writer,
) -> Result<Vec<Reason>, Memory>
    requires { length layouts.now ≤ 16777216 }
    ensures { IfOk result (λ reasons. All (λ reason. reason.feature ≡ NoLayout) reasons.items) }
{
    declared.put_needed(writer)?;
    let missing = declared.missing(alloc)?;
    if missing.is_empty() {
        return Ok(Vec::new(alloc));
    }
    writer.note_change();
    let found = put_layouts(alloc, layouts, &missing, writer)?;
    declared.reasons(alloc, &missing, &found)
}

// Writes those of the layouts that lack which this text has: which they are.
fn put_layouts<'l>(
    alloc: Global,
    layouts: &'l [u8],
    missing: &HashSet<&[u8]>,
    writer: &mut Writer,
) -> Result<HashSet<&'l [u8]>, Memory>
    requires { length layouts.now ≤ 16777216 }
{
    let mut found = HashSet::new(alloc);
    let mut lines = Lines::of(layouts);
    let mut room = [NO_TOKEN; TOKENS_AT_ONCE];
    let mut row: Vec<Token<'l>> = Vec::new(alloc);
    while let Some(line) = lines.next_line() {
        put_tokens(&mut room, &mut row, line)?;
        if let Some(name) = layout_named(row.as_slice()) {
            if (&*missing).contains(&name) && !found.contains(&name) {
                writer.bytes(line.bytes)?;
                writer.end()?;
                found.insert(name)?;
            }
        }
    }
    Ok(found)
}
