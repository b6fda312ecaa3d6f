//! The first function of a text, asked.

ghost use Rattle.std.specs.Prelude.{◌≡◌, ◌≤◌, length, IfSome};
ghost use Rattle.sp_ids.specs.declared.limits.TheConstants.{FILE_BYTES};
ghost use Rattle.ir_ast.specs.declared.modules.Form.TheVariants.{Rewritten};
ghost use Rattle.ir_ast.specs.Formed.{IsFormed};
ghost use Rattle.ir_cfg.specs.TargetModules.{IsTargetModule};

use crate::answers::{Answer, answer_to};
use crate::cases::{Asking, Case};
use ir_ast::{Func, Module};
use ir_cfg::Cfg;
use ir_reader::{Raw, read_rewritten};
use ir_types::typed_rewritten;
use place_facts::{Facts, Question};
use sp_ids::Memory;
use sp_ids::limits::FILE_BYTES;
use std::alloc::Global;

/// The answers to the questions of each case; none where the text has no function.
pub(crate) fn answered(alloc: Global, asking: &Asking) -> Option<Vec<Answer>> {
    if asking.text.len() as u64 > FILE_BYTES {
        return None;
    }
    let target = target_of(alloc, &asking.text)?;
    first_answered(alloc, &target, &asking.cases)
}

fn target_of(alloc: Global, text: &[u8]) -> Option<Module>
    requires { length text.now ≤ FILE_BYTES }
    ensures { IfSome result (λ target. IsTargetModule target.content) }
{
    match read_rewritten(alloc, text) {
        Ok(raw) => typed(alloc, raw),
        Err(_) => None,
    }
}

fn typed(alloc: Global, raw: Raw) -> Option<Module>
    requires { raw.form ≡ Rewritten }
    ensures { IfSome result (λ target. IsTargetModule target.content) }
{
    match typed_rewritten(alloc, raw) {
        Ok(target) => Some(target),
        Err(_) => None,
    }
}

fn first_answered(alloc: Global, target: &Module, cases: &[Case]) -> Option<Vec<Answer>>
    requires { IsTargetModule target.now.content }
{
    match target.func_at(0) {
        Some(func) => all_answered(alloc, func, cases).ok(),
        None => None,
    }
}

fn all_answered(alloc: Global, func: &Func, cases: &[Case]) -> Result<Vec<Answer>, Memory>
    requires { IsFormed func.now.content }
{
    let mut questions = Vec::new(alloc);
    for case in cases {
        questions.push(case.question)?;
    }
    let cfg = Cfg::of(alloc, func)?;
    let facts = Facts::of(alloc, func, &cfg, &questions)?;
    let mut answers = Vec::new(alloc);
    for question in &questions {
        answers.push(answer_to(&facts, *question))?;
    }
    Ok(answers)
}
