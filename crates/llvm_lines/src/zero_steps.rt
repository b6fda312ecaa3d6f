//! Steps of zero: a `getelementptr` whose indices are all 0 is its operand.
ghost use Rattle.std.specs.Prelude.{◌≤◌, length};

use crate::accesses::without_bounds;
use crate::values::{is_number, typed_value};
use line_tokens::{is_mark, is_word};
use llvm_features::{NO_TOKEN, put_tokens};
use sp_ids::Memory;
use sp_text::{Kind, Lines, Token};
use std::alloc::Global;
use std::collections::HashMap;

// A step of zero: the function that it stands in, counted from 1, its name and its operand, both with their marks.
#[derive(Clone, Copy)]
struct ZeroStep<'a> {
    func: u32,
    name: &'a [u8],
    operand: &'a [u8],
}

// The operands of the steps of one function.
#[derive(Drop)]
struct Operands<'a> {
    named: HashMap<&'a [u8], &'a [u8]>,
}

// How many tokens of a line are found at once.
const TOKENS_AT_ONCE: usize = 256;

// How many steps of one another are followed.
const FOLLOWED: u32 = 64;

/// The text without its steps of zero: where one is named, its operand is. Each line stays at its number.
pub fn without_zero_steps(alloc: Global, text: &[u8]) -> Result<Vec<u8>, Memory>
    requires { length text.now ≤ 16777216 }
{
    let steps = zero_steps(alloc, text)?;
    let mut at = 0usize;
    let mut operands = Operands {
        named: HashMap::new(alloc),
    };
    let mut out = Vec::new(alloc);
    let mut lines = Lines::of(text);
    let mut room = [NO_TOKEN; TOKENS_AT_ONCE];
    let mut row = Vec::new(alloc);
    let mut func = 0u32;
    while let Some(line) = lines.next_line() {
        let whole = put_tokens(&mut room, &mut row, line)?;
        let begins = begins_function(row.as_slice());
        if begins {
            func = func.saturating_add(1);
        }
        at = operands.enter(steps.as_slice(), at, func, begins)?;
        if whole && line.label().is_none() && !operands.named.is_empty() {
            put_renamed(&mut out, row.as_slice(), &operands)?;
        } else {
            out.extend_from_slice(line.bytes)?;
        }
        out.push(b'\n')?;
    }
    Ok(out)
}

fn begins_function(tokens: &[Token]) -> bool {
    match tokens {
        [first, ..] => is_word(first, b"define"),
        [] => false,
    }
}

// All steps of zero, in their order.
fn zero_steps(alloc: Global, text: &[u8]) -> Result<Vec<ZeroStep<'_>>, Memory>
    requires { length text.now ≤ 16777216 }
{
    let mut steps = Vec::new(alloc);
    let mut lines = Lines::of(text);
    let mut room = [NO_TOKEN; TOKENS_AT_ONCE];
    let mut row = Vec::new(alloc);
    let mut func = 0u32;
    while let Some(line) = lines.next_line() {
        put_tokens(&mut room, &mut row, line)?;
        if begins_function(row.as_slice()) {
            func = func.saturating_add(1);
        }
        if let Some((name, operand)) = zero_step(row.as_slice()) {
            steps.push(ZeroStep {
                func,
                name,
                operand,
            })?;
        }
    }
    Ok(steps)
}

// The name and the operand of a step of zero: `%x = getelementptr E, P V, iN 0, ..`.
fn zero_step<'a>(tokens: &[Token<'a>]) -> Option<(&'a [u8], &'a [u8])> {
    match tokens {
        [name, equals, word, rest @ ..]
            if name.kind == Kind::Local
                && is_mark(equals, b"=")
                && is_word(word, b"getelementptr") => {
            match without_bounds(rest) {
                [_, comma, behind @ ..] if is_mark(comma, b",") => {
                    let base = typed_value(behind)?;
                    if base.width.is_none() && are_zeros(base.rest) {
                        Some((name.bytes, base.value.bytes))
                    } else {
                        None
                    }
                }
                _ => None,
            }
        }
        _ => None,
    }
}

// Indices that are all 0, of which there is one, up to metadata.
fn are_zeros(tokens: &[Token]) -> bool {
    let mut left = tokens;
    let mut some = false;
    while let [comma, _width, index, rest @ ..] = left {
        if !is_mark(comma, b",") || !is_number(index, b"0") {
            return false;
        }
        some = true;
        left = rest;
    }
    some && left.is_empty()
}

impl<'a> Operands<'a> {
    // Takes the steps of this function where it begins, from this place on; and the place of the next one's.
    fn enter(
        &mut self,
        steps: &[ZeroStep<'a>],
        from: usize,
        func: u32,
        begins: bool,
    ) -> Result<usize, Memory> {
        if !begins {
            return Ok(from);
        }
        self.named.clear();
        let mut at = from;
        while at < steps.len() {
            let step = steps[at];
            if step.func > func {
                return Ok(at);
            }
            self.named.insert(step.name, step.operand)?;
            at += 1;
        }
        Ok(at)
    }

    // What stands for a value: the operand of a step, or of what that steps from.
    fn standing_for(&self, value: &'a [u8]) -> &'a [u8] {
        let mut found = value;
        for _ in 0..FOLLOWED {
            match self.named.get(&found) {
                Some(operand) => found = *operand,
                None => return found,
            }
        }
        found
    }
}

// Puts a line's words, with operands in place of steps. A step itself is no line.
fn put_renamed<'a>(
    out: &mut Vec<u8>,
    tokens: &[Token<'a>],
    operands: &Operands<'a>,
) -> Result<(), Memory> {
    if zero_step(tokens).is_some() {
        return Ok(());
    }
    for token in tokens {
        let bytes = match token.kind {
            Kind::Local => operands.standing_for(token.bytes),
            _ => token.bytes,
        };
        out.extend_from_slice(bytes)?;
        out.push(b' ')?;
    }
    Ok(())
}
