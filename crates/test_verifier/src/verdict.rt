//! What becomes of a text.

ghost use Rattle.std.specs.Prelude.{◌≡◌, ◌≤◌, length};
ghost use Rattle.sp_ids.specs.declared.limits.TheConstants.{FILE_BYTES};
ghost use Rattle.ir_ast.specs.declared.modules.Form.TheVariants.{Rewritten};
ghost use Rattle.ir_cfg.specs.TargetModules.{IsTargetModule};

use ir_ast::Module;
use ir_reader::{Raw, ReadFault, read_rewritten};
use ir_types::{TypeFault, typed_rewritten};
use statepoint_verify::{VerifyFault, verify};
use std::alloc::Global;
use std::fmt;

/// What becomes of a text.
#[derive(Clone, Copy, PartialEq, Eq)]
pub(crate) enum Verdict {
    /// It stands for a module without a fault of the verifier.
    Verified,
    /// The verifier's fault.
    Faulty { line: u32, code: u8 },
    /// It stands for no module: the fault of reading or typing.
    NoModule { line: u32, code: u8 },
    /// Memory that was wanted and could not be had.
    Memory,
}

impl fmt::Display for Verdict {
    fn fmt<W: fmt::Write>(&self, f: &mut fmt::Formatter<W>) -> fmt::Result {
        match self {
            Verdict::Verified => f.write_str("verified"),
            Verdict::Faulty { line, code } => write!(f, "{code} at line {line}"),
            Verdict::NoModule { line, code } => write!(f, "no module, {code} at line {line}"),
            Verdict::Memory => f.write_str("out of memory"),
        }
    }
}

/// What becomes of a text in the rewritten form.
pub(crate) fn verdict_on(alloc: Global, text: &[u8]) -> Verdict
    requires { length text.now ≤ FILE_BYTES }
{
    match read_rewritten(alloc, text) {
        Ok(raw) => of_readings(alloc, raw),
        Err(ReadFault::Syntax { line }) => Verdict::NoModule { line, code: 1 },
        Err(ReadFault::Limit { line }) => Verdict::NoModule { line, code: 2 },
        Err(ReadFault::Memory) => Verdict::Memory,
    }
}

fn of_readings(alloc: Global, raw: Raw) -> Verdict
    requires { raw.form ≡ Rewritten }
{
    match typed_rewritten(alloc, raw) {
        Ok(target) => of_module(alloc, target),
        Err(TypeFault::Fault(fault)) => Verdict::NoModule {
            line: fault.line,
            code: fault.code,
        },
        Err(TypeFault::Memory) => Verdict::Memory,
    }
}

fn of_module(alloc: Global, target: Module) -> Verdict
    requires { IsTargetModule target.content }
{
    match verify(alloc, target) {
        Ok(_) => Verdict::Verified,
        Err(VerifyFault::Fault { fault, .. }) => Verdict::Faulty {
            line: fault.line,
            code: fault.code,
        },
        Err(VerifyFault::Memory { .. }) => Verdict::Memory,
    }
}
