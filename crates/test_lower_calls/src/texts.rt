//! The lines of texts, and what each line says: its tokens, its label, and whether it is metadata.

ghost use Rattle.std.specs.Prelude.{◌≤◌, length};
ghost use Rattle.sp_ids.specs.declared.limits.TheConstants.{FILE_BYTES};

use anyhow::Result;
use sp_text::{Line, Lines};
use std::alloc::Global;

pub(crate) fn show_cuts(rt: &impl Print, alloc: Global) -> Result<()> {
    show_cut(rt, alloc, "")?;
    show_cut(rt, alloc, "\n")?;
    show_cut(rt, alloc, "a")?;
    show_cut(rt, alloc, "a\n")?;
    show_cut(rt, alloc, "a\n\n")?;
    show_cut(rt, alloc, "a\r\nb\n\nc")?;
    show_cut(rt, alloc, "\r\n\r")?;
    show_cut(rt, alloc, "a\r\r\n")?;
    show_cut(rt, alloc, "a\rb\r\n")?;
    show_cut(rt, alloc, "a\r")
}

// The lines of a text, and that none comes after the last.
fn show_cut(rt: &impl Print, alloc: Global, text: &str) -> Result<()>
    requires { length text.now ≤ FILE_BYTES }
{
    print!(rt; "lines of {text:?}:")?;
    let mut left = Lines::of(text.as_bytes());
    while let Some(line) = left.next_line() {
        let number = line.number;
        let bytes = String::from_utf8_lossy(alloc, line.bytes)?;
        print!(rt; " {number} {bytes:?}")?;
    }
    let is_last = left.next_line().is_none();
    println!(rt; ", then none: {is_last}")?;
    Ok(())
}

pub(crate) fn show_lines(rt: &impl Print, alloc: Global, text: &[u8]) -> Result<()>
    requires { length text.now ≤ FILE_BYTES }
{
    let mut left = Lines::of(text);
    while let Some(line) = left.next_line() {
        show_tokens(rt, alloc, &line)?;
        show_kind(rt, alloc, &line)?;
    }
    Ok(())
}

// Each token with its place, or the place of a byte that begins none.
fn show_tokens(rt: &impl Print, alloc: Global, line: &Line) -> Result<()> {
    let number = line.number;
    let bytes = String::from_utf8_lossy(alloc, line.bytes)?;
    print!(rt; "line {number} {bytes:?}:")?;
    let mut at = 0;
    while at <= line.bytes.len() {
        match line.token_at(at) {
            Ok(Some(token)) => {
                let kind = token.kind;
                let spelling = String::from_utf8_lossy(alloc, token.bytes)?;
                let from = token.from;
                print!(rt; " {kind:?} {spelling:?} at {from}")?;
                at = token.to;
            }
            Ok(None) => break,
            Err(byte) => {
                print!(rt; " bad byte: {byte}")?;
                break;
            }
        }
    }
    Ok(())
}

// Ends the line.
fn show_kind(rt: &impl Print, alloc: Global, line: &Line) -> Result<()> {
    if let Some(label) = line.label() {
        let label = String::from_utf8_lossy(alloc, label.bytes)?;
        print!(rt; "; the label {label:?}")?;
    }
    if line.is_metadata() {
        print!(rt; "; metadata")?;
    }
    println!(rt; "")?;
    Ok(())
}
