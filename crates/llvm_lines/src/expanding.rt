//! Intrinsics, written out step by step.

use crate::values::{is_any, name_of, put_made};
use crate::writer::Writer;
use ir_ast::Pred;
use line_tokens::{is_mark, width_in};
use llvm_steps::{Intrinsic, Operand, Step, steps_of};
use sp_ids::Memory;
use sp_text::Token;
use std::alloc::Global;

// ---- intrinsics

/// Puts the steps of an intrinsic of this width.
pub(crate) fn put_intrinsic(
    alloc: Global,
    writer: &mut Writer,
    answer: &Token,
    intrinsic: Intrinsic,
    width: &[u8],
    behind: &[Token],
) -> Result<(), Memory> {
    let Some(found) = width_in(width) else {
        return Ok(());
    };
    let bits = found.value.bits;
    if bits == 0 || bits > 64 {
        return Ok(());
    }
    let given = operands(alloc, behind)?;
    let steps = steps_of(alloc, intrinsic, bits)?;
    let mut left = steps.as_slice();
    let mut at = 0u64;
    while let [step, rest @ ..] = left {
        // It is refused as too long: names may be long, and stand in each step.
        if !writer.has_room() {
            return Ok(());
        }
        if !rest.is_empty() {
            put_made_number(writer, name_of(answer), at)?;
        } else if intrinsic.is_checked() {
            put_made(writer, name_of(answer), b"bit")?;
        } else {
            writer.word(answer.bytes)?;
        }
        put_step_line(writer, step, width, name_of(answer), given.as_slice())?;
        at = at.saturating_add(1);
        left = rest;
    }
    Ok(())
}

// The last token of each operand between the parentheses that stand first.
fn operands<'a>(alloc: Global, tokens: &[Token<'a>]) -> Result<Vec<&'a [u8]>, Memory> {
    let mut found = Vec::new(alloc);
    let mut depth = 0usize;
    let mut last: Option<&'a [u8]> = None;
    for token in tokens {
        if is_mark(token, b"(") {
            depth = depth.saturating_add(1);
        } else if is_mark(token, b")") {
            depth = depth.saturating_sub(1);
        }
        if depth == 0 || (depth == 1 && is_mark(token, b",")) {
            if let Some(value) = last {
                found.push(value)?;
            }
            last = None;
            if depth == 0 {
                return Ok(found);
            }
        } else {
            last = Some(if is_any(token) { b"0" } else { token.bytes });
        }
    }
    Ok(found)
}

fn put_made_number(writer: &mut Writer, answer: &[u8], step: u64) -> Result<(), Memory> {
    writer.bytes(b"%lift.")?;
    writer.bytes(answer)?;
    writer.bytes(b".")?;
    writer.number(step)?;
    writer.word(b"")
}

fn put_step_line(
    writer: &mut Writer,
    step: &Step,
    width: &[u8],
    answer: &[u8],
    given: &[&[u8]],
) -> Result<(), Memory> {
    match step {
        Step::Compute(op, left, right) => {
            writer.word(b"=")?;
            writer.word(op.word())?;
            writer.word(width)?;
            put_operand(writer, left, answer, given)?;
            writer.word(b",")?;
            put_operand(writer, right, answer, given)?;
        }
        Step::Compare(pred, left, right) => {
            writer.word(b"= icmp")?;
            writer.word(pred_word(*pred))?;
            writer.word(width)?;
            put_operand(writer, left, answer, given)?;
            writer.word(b",")?;
            put_operand(writer, right, answer, given)?;
        }
        Step::Choose(bit, left, right) => {
            put_choice(writer, width, bit, left, right, answer, given)?;
        }
        Step::ChooseBit(bit, left, right) => {
            put_choice(writer, b"i1", bit, left, right, answer, given)?;
        }
    }
    writer.end()
}

fn put_choice(
    writer: &mut Writer,
    width: &[u8],
    bit: &Operand,
    left: &Operand,
    right: &Operand,
    answer: &[u8],
    given: &[&[u8]],
) -> Result<(), Memory> {
    writer.word(b"= select i1")?;
    put_operand(writer, bit, answer, given)?;
    writer.word(b",")?;
    writer.word(width)?;
    put_operand(writer, left, answer, given)?;
    writer.word(b",")?;
    writer.word(width)?;
    put_operand(writer, right, answer, given)
}

// An operand that lacks makes a line that has no reading.
fn put_operand(
    writer: &mut Writer,
    operand: &Operand,
    answer: &[u8],
    given: &[&[u8]],
) -> Result<(), Memory> {
    match operand {
        Operand::Given(place) => match given.get(*place as usize) {
            Some(value) => writer.word(value),
            None => Ok(()),
        },
        Operand::Made(step) => put_made_number(writer, answer, *step as u64),
        Operand::Number(number) => {
            writer.number(*number)?;
            writer.word(b"")
        }
    }
}

fn pred_word(pred: Pred) -> &'static [u8] {
    match pred {
        Pred::Eq => b"eq",
        Pred::Ne => b"ne",
        Pred::Ugt => b"ugt",
        Pred::Uge => b"uge",
        Pred::Ult => b"ult",
        Pred::Ule => b"ule",
        Pred::Sgt => b"sgt",
        Pred::Sge => b"sge",
        Pred::Slt => b"slt",
        Pred::Sle => b"sle",
    }
}
