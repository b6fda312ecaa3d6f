//! The bundles of a call and of a statepoint.

ghost use Rattle.std.specs.Prelude.{◌≡◌, codes, map};
ghost use Rattle.sp_text.specs.Tokens.{tok};
ghost use Rattle.line_tokens.specs.Marks.{stands, begins};
ghost use Rattle.line_parts.specs.Gives.{Gives, one_at};
ghost use Rattle.line_parts.specs.Lists.{listed_at, list_to, comma};
ghost use Rattle.line_parts.specs.Seen.{seen_value};
ghost use Rattle.line_parts.specs.Bundles.{is_tag, kept_entry_at, live_entry_at, deopt_bundle_at, live_bundle_at, deopt_at, live_behind_at, some_bundles_at, bundles_at};
ghost use Rattle.line_forms.specs.Seen.{seen_kept};

use crate::kept::{Kept, KeptEntries, KeptEntry};
use line_parts::{Cursor, Stop, Value};
use line_tokens::is_text;
use smallvec::SmallVec;
use sp_text::{Kind, Token};
use std::alloc::Global;

/// The live entries of a statepoint.
pub type LiveEntries<'a> = SmallVec<Value<'a>, 1>;

// ---- tags

fn is_tag(token: &Token, tag: &[u8]) -> bool
    ensures { result ≡ is_tag tag.now (tok token.now.kind token.now.bytes.now) }
{
    match token.kind {
        Kind::Quoted => is_text(token.bytes, tag),
        _ => false,
    }
}

// Whether this tag stands there.
fn begins_tag(cursor: &Cursor, tag: &[u8]) -> bool
    ensures { result ≡ begins (is_tag tag.now) cursor.now }
{
    match cursor.peek() {
        Some(token) => is_tag(&token, tag),
        None => false,
    }
}

// Passes this tag.
#[tactic(auto, unfolding(line_parts::specs::Gives::one_at))]
fn pass_tag(cursor: &mut Cursor, tag: &[u8]) -> Result<(), Stop>
    ensures { Gives (λ _. tt) result cursor.new (one_at (stands (is_tag tag.now)) cursor.old) }
{
    let Some(token) = cursor.token() else {
        return Err(Stop::NoReading);
    };
    if is_tag(&token, tag) {
        Ok(())
    } else {
        Err(Stop::NoReading)
    }
}

// ---- what is kept

#[tactic(auto, unfolding(line_parts::specs::Bundles::kept_entry_at, line_parts::specs::Gives::after))]
fn kept_entry<'a>(cursor: &mut Cursor<'_, 'a>) -> Result<KeptEntry<'a>, Stop>
    ensures { Gives seen_kept result cursor.new (kept_entry_at cursor.old) }
{
    let ty = cursor.value_type()?;
    let value = cursor.value()?;
    Ok(KeptEntry { ty, value })
}

fn some_kept<'a>(cursor: &mut Cursor<'_, 'a>, alloc: Global) -> Result<KeptEntries<'a>, Stop>
    ensures { Gives (λ kept. map seen_kept kept.items) result cursor.new (listed_at kept_entry_at comma cursor.old) }
{
    let mut kept = SmallVec::new(alloc);
    loop {
        let entry = kept_entry(cursor)?;
        kept.push(entry)?;
        if !cursor.begins_mark(b",") {
            return Ok(kept);
        }
        cursor.pass_comma();
    }
}

#[tactic(auto, unfolding(line_parts::specs::Lists::list_to))]
fn kept_entries<'a>(cursor: &mut Cursor<'_, 'a>, alloc: Global) -> Result<Kept<'a>, Stop>
    ensures { Gives (λ kept. map seen_kept kept.items) result cursor.new (list_to kept_entry_at (codes ")") cursor.old) }
{
    if cursor.begins_mark(b")") {
        return Ok(Kept::nothing());
    }
    let kept = some_kept(cursor, alloc)?;
    match Kept::of(alloc, kept) {
        Ok(kept) => Ok(kept),
        Err(_) => Err(Stop::Memory),
    }
}

// `"deopt"(T V, ..)`
#[tactic(auto, unfolding(line_parts::specs::Bundles::bundle_at, line_parts::specs::Gives::after))]
fn deopt_bundle<'a>(cursor: &mut Cursor<'_, 'a>, alloc: Global) -> Result<Kept<'a>, Stop>
    ensures { Gives (λ kept. map seen_kept kept.items) result cursor.new (deopt_bundle_at cursor.old) }
{
    pass_tag(cursor, b"\"deopt\"")?;
    cursor.mark(b"(")?;
    let kept = kept_entries(cursor, alloc)?;
    cursor.mark(b")")?;
    Ok(kept)
}

/// What a call keeps: nothing, where no bundle stands there.
#[tactic(auto, unfolding(line_parts::specs::Bundles::deopt_at, line_parts::specs::Bundles::bracketed_at, line_parts::specs::Gives::after))]
pub fn deopt_if_any<'a>(cursor: &mut Cursor<'_, 'a>, alloc: Global) -> Result<Kept<'a>, Stop>
    ensures { Gives (λ kept. map seen_kept kept.items) result cursor.new (deopt_at cursor.old) }
{
    if !cursor.begins_mark(b"[") {
        return Ok(Kept::nothing());
    }
    cursor.mark(b"[")?;
    let kept = deopt_bundle(cursor, alloc)?;
    cursor.mark(b"]")?;
    Ok(kept)
}

// ---- live entries

#[tactic(auto, unfolding(line_parts::specs::Bundles::live_entry_at, line_parts::specs::Gives::after))]
fn live_entry<'a>(cursor: &mut Cursor<'_, 'a>) -> Result<Value<'a>, Stop>
    ensures { Gives seen_value result cursor.new (live_entry_at cursor.old) }
{
    cursor.managed()?;
    cursor.value()
}

fn some_live<'a>(cursor: &mut Cursor<'_, 'a>, alloc: Global) -> Result<LiveEntries<'a>, Stop>
    ensures { Gives (λ live. map seen_value live.items) result cursor.new (listed_at live_entry_at comma cursor.old) }
{
    let mut live = SmallVec::new(alloc);
    loop {
        let entry = live_entry(cursor)?;
        live.push(entry)?;
        if !cursor.begins_mark(b",") {
            return Ok(live);
        }
        cursor.pass_comma();
    }
}

#[tactic(auto, unfolding(line_parts::specs::Lists::list_to))]
fn live_entries<'a>(cursor: &mut Cursor<'_, 'a>, alloc: Global) -> Result<LiveEntries<'a>, Stop>
    ensures { Gives (λ live. map seen_value live.items) result cursor.new (list_to live_entry_at (codes ")") cursor.old) }
{
    if cursor.begins_mark(b")") {
        return Ok(SmallVec::new(alloc));
    }
    some_live(cursor, alloc)
}

// `"gc-live"(P V, ..)`
#[tactic(auto, unfolding(line_parts::specs::Bundles::bundle_at, line_parts::specs::Gives::after))]
fn live_bundle<'a>(cursor: &mut Cursor<'_, 'a>, alloc: Global) -> Result<LiveEntries<'a>, Stop>
    ensures { Gives (λ live. map seen_value live.items) result cursor.new (live_bundle_at cursor.old) }
{
    pass_tag(cursor, b"\"gc-live\"")?;
    cursor.mark(b"(")?;
    let live = live_entries(cursor, alloc)?;
    cursor.mark(b")")?;
    Ok(live)
}

// Behind a "deopt" bundle: none, where no comma stands there.
#[tactic(auto, unfolding(line_parts::specs::Bundles::live_behind_at, line_parts::specs::Gives::after))]
fn live_behind<'a>(cursor: &mut Cursor<'_, 'a>, alloc: Global) -> Result<LiveEntries<'a>, Stop>
    ensures { Gives (λ live. map seen_value live.items) result cursor.new (live_behind_at cursor.old) }
{
    if !cursor.begins_mark(b",") {
        return Ok(SmallVec::new(alloc));
    }
    cursor.mark(b",")?;
    live_bundle(cursor, alloc)
}

// ---- both

#[tactic(auto, unfolding(line_parts::specs::Bundles::some_bundles_at, line_parts::specs::Gives::after))]
fn some_bundles<'a>(
    cursor: &mut Cursor<'_, 'a>,
    alloc: Global,
) -> Result<(Kept<'a>, LiveEntries<'a>), Stop>
    ensures { Gives (λ both. (map seen_kept both.0.items, map seen_value both.1.items)) result cursor.new (some_bundles_at cursor.old) }
{
    if !begins_tag(cursor, b"\"deopt\"") {
        let live = live_bundle(cursor, alloc)?;
        return Ok((Kept::nothing(), live));
    }
    let kept = deopt_bundle(cursor, alloc)?;
    let live = live_behind(cursor, alloc)?;
    Ok((kept, live))
}

/// What a statepoint keeps, and its live entries: none of either, where no bundle stands there.
#[tactic(auto, unfolding(line_parts::specs::Bundles::bundles_at, line_parts::specs::Bundles::bracketed_at, line_parts::specs::Gives::after))]
pub fn bundles_if_any<'a>(
    cursor: &mut Cursor<'_, 'a>,
    alloc: Global,
) -> Result<(Kept<'a>, LiveEntries<'a>), Stop>
    ensures { Gives (λ both. (map seen_kept both.0.items, map seen_value both.1.items)) result cursor.new (bundles_at cursor.old) }
{
    if !cursor.begins_mark(b"[") {
        return Ok((Kept::nothing(), SmallVec::new(alloc)));
    }
    cursor.mark(b"[")?;
    let both = some_bundles(cursor, alloc)?;
    cursor.mark(b"]")?;
    Ok(both)
}
