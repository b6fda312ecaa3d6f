//! A text of the profile is left alone, any other is lifted or refused.
ghost use Rattle.std.specs.Prelude.{◌≡◌, ◌≤◌, ◌<◌, ◌+◌, length};
ghost use Rattle.llvm_lift.specs.Lifted.{Answers, IsSettled, IsAgain, IsLifting, IsJudgedLifted, IsFaultOf, IsMaking, IsRefusal};

use crate::front::{Judged, judge_text};
use crate::refusals::Refusal;
use ir_ast::Form;
use ir_types::Fault;
use llvm_features::Reason;
use llvm_lines::{is_plain, lift_text, plain_text, without_zero_steps};
use memchr::memmem;
use outside_texts::declares_unknown;
use sp_ids::limits::FILE_BYTES;
use std::alloc::Global;

/// The printed text of what a text that LLVM prints is in the profile.
pub fn lift(alloc: Global, text: &[u8], layouts: &[u8]) -> Result<Vec<u8>, Refusal>
    requires text { length text.now ≤ 16777216 }
    requires layouts { length layouts.now ≤ 16777216 }
    ensures answers { Answers (λ out. out.items) text.now result }
{
    if declares_unknown(alloc, text)? {
        return lift_outside(alloc, text, layouts);
    }
    match settled(alloc, text)? {
        Judged::Printed(printed) => Ok(printed),
        Judged::Faulty(_) => lift_outside(alloc, text, layouts),
    }
}

// The printed text of a text of the profile in either form, or its fault in the rewritten form.
fn settled(alloc: Global, text: &[u8]) -> Result<Judged, Refusal>
    requires { length text.now ≤ 16777216 }
    ensures { IsSettled text.now result }
{
    match judge_text(alloc, Form::Source, text)? {
        Judged::Printed(printed) => Ok(Judged::Printed(printed)),
        Judged::Faulty(_) => match judge_text(alloc, Form::Rewritten, text)? {
            Judged::Printed(printed) => again(alloc, printed),
            Judged::Faulty(fault) => Ok(Judged::Faulty(fault)),
        },
    }
}

// A printed text of the rewritten form may be one of the source form as well.
fn again(alloc: Global, printed: Vec<u8>) -> Result<Judged, Refusal>
    ensures { IsAgain printed.items result }
{
    if printed.len() as u64 > FILE_BYTES {
        return Err(Refusal::TooLong);
    }
    match judge_text(alloc, Form::Source, printed.as_slice())? {
        Judged::Printed(source) => Ok(Judged::Printed(source)),
        Judged::Faulty(_) => Ok(Judged::Printed(printed)),
    }
}

#[tactic(auto, using(crate::proofs::JudgeLaws::plainer_lifts))]
fn lift_outside(alloc: Global, text: &[u8], layouts: &[u8]) -> Result<Vec<u8>, Refusal>
    requires text { length text.now ≤ 16777216 }
    requires layouts { length layouts.now ≤ 16777216 }
    ensures { IsLifting (λ out. out.items) text.now result }
{
    if is_plain(text) {
        return lift_spelled(alloc, text, layouts);
    }
    let plain = plain_text(alloc, text)?;
    if plain.len() as u64 > FILE_BYTES {
        return Err(Refusal::TooLong);
    }
    lift_spelled(alloc, plain.as_slice(), layouts)
}

// In a text with statepoints steps of zero are their operands.
#[tactic(auto, using(crate::proofs::JudgeLaws::plainer_lifts))]
fn lift_spelled(alloc: Global, text: &[u8], layouts: &[u8]) -> Result<Vec<u8>, Refusal>
    requires text { length text.now ≤ 16777216 }
    requires layouts { length layouts.now ≤ 16777216 }
    ensures { IsLifting (λ out. out.items) text.now result }
{
    if memmem::find(text, b"@llvm.experimental.gc.").is_none() {
        return lift_plain(alloc, false, text, layouts);
    }
    let stepless = without_zero_steps(alloc, text)?;
    if stepless.len() as u64 > FILE_BYTES {
        return Err(Refusal::TooLong);
    }
    lift_plain(alloc, true, stepless.as_slice(), layouts)
}

#[tactic(auto, using(crate::proofs::JudgeLaws::making_lifts))]
fn lift_plain(
    alloc: Global,
    is_rewritten: bool,
    text: &[u8],
    layouts: &[u8],
) -> Result<Vec<u8>, Refusal>
    requires text { length text.now ≤ 16777216 }
    requires layouts { length layouts.now ≤ 16777216 }
    ensures { IsLifting (λ out. out.items) text.now result }
{
    let lifted = lift_text(alloc, text, layouts)?;
    if !lifted.reasons.is_empty() || !lifted.missing.is_empty() {
        return Err(refused(lifted.reasons, lifted.missing));
    }
    if lifted.text.len() as u64 > FILE_BYTES {
        return Err(Refusal::TooLong);
    }
    made_of(
        alloc,
        is_rewritten,
        lifted.text.as_slice(),
        lifted.origins.as_slice(),
    )
}

// The lines that tell a feature, and behind them the declarations of objects whose layout is nowhere.
fn refused(reasons: Vec<Reason>, missing: Vec<Reason>) -> Refusal
    requires { 0 < length reasons.items + length missing.items }
    ensures { IsRefusal reasons.items missing.items result }
{
    let mut all = reasons;
    match all.extend_from_slice(missing.as_slice()) {
        Ok(()) => Refusal::Outside(all),
        Err(_) => Refusal::Memory,
    }
}

// What becomes of a lifted text.
fn made_of(
    alloc: Global,
    is_rewritten: bool,
    lifted: &[u8],
    origins: &[u32],
) -> Result<Vec<u8>, Refusal>
    requires { length lifted.now ≤ 16777216 }
    ensures { IsMaking (λ out. out.items) result }
{
    match judge_lifted(alloc, is_rewritten, lifted)? {
        Judged::Printed(printed) => Ok(printed),
        Judged::Faulty(fault) => Err(fault_at(origins, fault)),
    }
}

// A text without statepoints is judged in the source form alone.
fn judge_lifted(alloc: Global, is_rewritten: bool, lifted: &[u8]) -> Result<Judged, Refusal>
    requires { length lifted.now ≤ 16777216 }
    ensures { IsJudgedLifted lifted.now result }
{
    if is_rewritten {
        settled(alloc, lifted)
    } else {
        judge_text(alloc, Form::Source, lifted)
    }
}

// The fault of a lifted line, at the line that it was lifted from.
fn fault_at(origins: &[u32], fault: Fault) -> Refusal
    ensures { IsFaultOf fault.code result }
{
    let line = match origins.get((fault.line as usize).saturating_sub(1)) {
        Some(line) if fault.line > 0 => *line,
        _ => 0,
    };
    Refusal::Fault(Fault {
        line,
        code: fault.code,
    })
}
