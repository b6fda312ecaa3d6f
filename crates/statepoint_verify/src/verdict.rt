//! The verdict on a module: verified, or its least fault.

ghost use Rattle.std.specs.Prelude.{◌≡◌, length, IfOk, IfErr};
ghost use Rattle.std.specs.List.{All};
ghost use Rattle.ir_ast.specs.Formed.{IsFormed};
ghost use Rattle.ir_cfg.specs.TargetModules.{IsTargetModule};
ghost use Rattle.pair_facts.specs.Faults.{IsVerified};
ghost use Rattle.statepoint_verify.specs.Least.{IsLeastOf, IsFaultBelow};
ghost use Rattle.statepoint_verify.specs.Verdicts.{IsRefusal};

use crate::faults::{Fault, VerifyFault};
use crate::least::{earlier, least_in};
use ir_ast::Module;
use sp_ids::Memory;
use std::alloc::Global;
use std::marker::Model;

/// A rewritten module without a fault of the verifier (Garbage Collection Safepoints in LLVM, "Safepoint Semantics &
/// Verification"). Contracts see the module.
#[derive(Debug, Drop)]
pub struct Verified {
    target: Module,
}

impl Model for Verified {
    ghost use Rattle.ir_ast.specs.Modules.{LinedModule};
    ghost use Rattle.ir_cfg.specs.TargetModules.{IsTargetModule};
    ghost use Rattle.pair_facts.specs.Faults.{IsVerified};

    ghost Value = { LinedModule };

    ghost view = { λ verified. verified.target };

    ghost invariant = { λ verified. IsTargetModule verified.target.content × IsVerified verified.target.content };
}

impl Verified {
    /// A target module that is proved to have no fault, as the rewriting's is. Nothing is done when this runs: the fact is the
    /// caller's to show. A module of which it isn't known is for [`verify`].
    pub fn proved(target: Module) -> Verified
        requires target { IsTargetModule target.content }
        requires verified { IsVerified target.content }
        ensures { result ≡ target }
    {
        Verified { target }
    }

    /// The module.
    pub fn module(&self) -> &Module
        ensures value { result.now ≡ self.now }
        ensures target { IsTargetModule self.now.content }
        ensures verified { IsVerified self.now.content }
    {
        &self.target
    }

    /// The module, given back.
    pub fn into_module(self) -> Module
        ensures value { result ≡ self }
        ensures target { IsTargetModule self.content }
        ensures verified { IsVerified self.content }
    {
        self.target
    }
}

/// Verifies a target module, whoever wrote it. It is Ok exactly where no line has a fault, and else tells the least by line and
/// then by code.
pub fn verify(alloc: Global, target: Module) -> Result<Verified, VerifyFault>
    requires { IsTargetModule target.content }
    ensures kept { IfOk result (λ verified. verified ≡ target) }
    ensures verified { IfOk result (λ _. IsVerified target.content) }
    ensures refused { IfErr result (IsRefusal target) }
{
    match least_of_all(alloc, &target) {
        Ok(least) => judged(target, least),
        Err(Memory) => Err(VerifyFault::Memory { module: target }),
    }
}

fn judged(target: Module, least: Option<Fault>) -> Result<Verified, VerifyFault>
    requires target { IsTargetModule target.content }
    requires least { IsLeastOf (IsFaultBelow target (length target.content.funcs)) least }
    ensures kept { IfOk result (λ verified. verified ≡ target) }
    ensures verified { IfOk result (λ _. IsVerified target.content) }
    ensures refused { IfErr result (IsRefusal target) }
{
    match least {
        None => Ok(Verified { target }),
        Some(fault) => Err(VerifyFault::Fault {
            fault,
            module: target,
        }),
    }
}

fn least_of_all(alloc: Global, target: &Module) -> Result<Option<Fault>, Memory>
    requires { All IsFormed target.now.content.funcs }
    ensures { IfOk result (λ least. IsLeastOf (IsFaultBelow target.now (length target.now.content.funcs)) least) }
{
    let mut least = None;
    for func in target.funcs() {
        let own = least_in(alloc, func)?;
        least = earlier(least, own);
    }
    Ok(least)
}
