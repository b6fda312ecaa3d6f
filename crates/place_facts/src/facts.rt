//! Questions of pairs, with their answers.

ghost use Rattle.std.specs.Prelude.{◌≡◌, IfOk, slice_get};
ghost use Rattle.ir_ast.specs.Formed.{IsFormed};
ghost use Rattle.ir_cfg.specs.Graphs.{graph_of};
ghost use Rattle.pair_facts.specs.declared.bases.Base.TheVariants.{Any, Named};
ghost use Rattle.place_facts.specs.Answers.{AreAnswers, answer_in, question_of};

use crate::asked::{Asked, asked_by};
use crate::keys::key_of;
use base_facts::Facts as Asks;
use ir_ast::{Func, Operand};
use ir_cfg::Cfg;
use pair_facts::Base;
use sp_ids::Memory;
use std::alloc::Global;

/// A pair of which it is asked whether it stands before an instruction.
#[derive(Clone, Copy, Debug, PartialEq, Eq)]
pub struct Question {
    /// The number of the instruction in its function, from 0 in text order.
    pub place: u32,
    pub pointer: Operand,
    pub base: Base,
}

/// Whether pairs stand before instructions on every path there (Garbage Collection Safepoints in LLVM, "Base & Derived
/// Pointers"). Before a phi stands what does before the phis of its block act, before a result or a relocate what does before
/// its statepoint.
#[derive(Drop)]
pub struct Facts {
    asked: Asked,
    answers: Asks,
}

impl Facts {
    /// The answers to these questions. One has none where no instruction has its number, or a result or a relocate that no
    /// statepoint has. `cfg` has the edges of the function.
    pub fn of(
        alloc: Global,
        func: &Func,
        cfg: &Cfg,
        questions: &[Question],
    ) -> Result<Facts, Memory>
        requires formed { IsFormed func.now.content }
        requires edges { cfg.now ≡ graph_of func.now.content }
        ensures { IfOk result (λ facts. AreAnswers func.now.content questions.now facts) }
    {
        let asked = asked_by(alloc, func, questions)?;
        let answers = Asks::of(alloc, func, cfg, &asked.asks)?;
        Ok(Facts { asked, answers })
    }

    /// Whether on every path to the instruction the pointer has this base before it; none where it wasn't asked or has no
    /// answer. Where no path leads there, it does.
    pub fn holds_before(&self, place: u32, pointer: Operand, base: Operand) -> Option<bool>
        ensures { result ≡ answer_in self.now (question_of place pointer (Named base)) }
    {
        self.answer(place, pointer, Base::Named(base))
    }

    /// Whether on every path to the instruction some base stands with the pointer before it; none where it wasn't asked, with
    /// the base `Any`, or has no answer. Where no path leads there, some does.
    pub fn any_before(&self, place: u32, pointer: Operand) -> Option<bool>
        ensures { result ≡ answer_in self.now (question_of place pointer Any) }
    {
        self.answer(place, pointer, Base::Any)
    }

    fn answer(&self, place: u32, pointer: Operand, base: Base) -> Option<bool>
        ensures { result ≡ answer_in self.now (question_of place pointer base) }
    {
        let key = key_of(Question {
            place,
            pointer,
            base,
        });
        match self.asked.numbers.get(&key) {
            Some(number) => answer_at(&self.answers, *number),
            None => None,
        }
    }
}

fn answer_at(answers: &Asks, number: usize) -> Option<bool>
    ensures { result ≡ slice_get answers.now number }
{
    if number < answers.len() {
        Some(answers.holds_before(number))
    } else {
        None
    }
}
