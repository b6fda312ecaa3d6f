//! The rewriting of a module.

ghost use Rattle.std.specs.Prelude.{◌≡◌, map, IfErr, IfOk};
ghost use Rattle.ir_ast.specs.Formed.{IsFormedModule};
ghost use Rattle.ir_cfg.specs.SourceModules.{IsSourceModule};
ghost use Rattle.ir_cfg.specs.TargetModules.{IsTargetModule};
ghost use Rattle.ir_cfg.specs.Unreached.{zeros_of};
ghost use Rattle.pair_facts.specs.Faults.{IsVerified};
ghost use Rattle.sp_rewrite.specs.Relocates.{HasFewRelocates, HasManyRelocates};
ghost use Rattle.sp_rewrite.specs.Statements.{IsRewritten};

use crate::faults::RewriteFault;
use ir_ast::{Form, Module};
use ir_cfg::drop_unreachable;
use rewrite_passes::{before_groups, with_groups};
use statepoint_verify::Verified;
use std::alloc::Global;

/// The rewritten module of a source module: its unreached blocks are dropped, polls are placed, bases and checks put in, and each call
/// that isn't of a leaf becomes a statepoint with its relocates (Garbage Collection Safepoints in LLVM, "PlaceSafepoints" and
/// "RewriteStatepointsForGC"). With more than 4,194,304 relocates in all it is [`RewriteFault::TooManyRelocations`], which is decided
/// before any statepoint is made; [`RewriteFault::Memory`] says nothing of the module. Each line has number 0. After a refusal the module
/// is gone. That it has no fault of the verifier is a law, so the verifier doesn't run.
pub fn rewrite(alloc: Global, source: Module) -> Result<Verified, RewriteFault>
    requires { IsSourceModule source.content }
    ensures rewritten { IfOk result (λ after. IsRewritten source.content after.content) }
    ensures target { IfOk result (λ after. IsTargetModule after.content) }
    ensures verified { IfOk result (λ after. IsVerified after.content) }
    ensures formed { IfOk result (λ after. IsFormedModule after.content) }
    ensures lines { IfOk result (λ after. after.lines ≡ map zeros_of after.content.funcs) }
    ensures few { IfOk result (λ _. HasFewRelocates source.content) }
    ensures many { IfErr result (λ fault. fault ≡ RewriteFault.TooManyRelocations → HasManyRelocates source.content) }
{
    let reached = drop_unreachable(alloc, source)?;
    let (layouts, funcs, _form) = reached.into_parts();
    match before_groups(alloc, funcs)? {
        None => Err(RewriteFault::TooManyRelocations),
        Some(all) => {
            let after = with_groups(alloc, all)?;
            let target = Module::of(layouts, after, Form::Rewritten);
            Ok(Verified::proved(target))
        }
    }
}
