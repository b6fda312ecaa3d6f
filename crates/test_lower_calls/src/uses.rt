//! The first use of a text that isn't definite.

ghost use Rattle.std.specs.Prelude.{◌≤◌, length};
ghost use Rattle.sp_ids.specs.declared.limits.TheConstants.{FILE_BYTES};
ghost use Rattle.ir_ast.specs.Formed.{IsFormed, IsFormedModule};

use crate::sources::source;
use definite_assign::definite;
use ir_ast::{Func, Module};
use ir_cfg::Cfg;
use ir_types::{Fault, TypeFault};
use sp_ids::Memory;
use std::alloc::Global;
use std::fmt;

/// What is found in a text.
#[derive(Clone, Copy, PartialEq)]
pub(crate) enum Verdict {
    Definite,
    /// The line of the first use that isn't definite.
    Missed(u32),
    /// The text stands for no module, or memory was wanted.
    Refused,
}

impl fmt::Display for Verdict {
    fn fmt<W: fmt::Write>(&self, f: &mut fmt::Formatter<W>) -> fmt::Result {
        match self {
            Verdict::Definite => f.write_str("each use is definite"),
            Verdict::Missed(line) => write!(f, "line {line}: a use that isn't definite"),
            Verdict::Refused => f.write_str("refused"),
        }
    }
}

/// Judges the uses of a text, each function as often as there are rounds.
pub(crate) fn judged(alloc: Global, text: &[u8], rounds: u32) -> Verdict
    requires { length text.now ≤ FILE_BYTES }
{
    match source(alloc, text) {
        Ok(whole) => judged_module(alloc, &whole, rounds),
        // where typing judges uses itself
        Err(TypeFault::Fault(Fault { line, code: 8 })) => Verdict::Missed(line),
        Err(_) => Verdict::Refused,
    }
}

fn judged_module(alloc: Global, whole: &Module, rounds: u32) -> Verdict
    requires { IsFormedModule whole.now.content }
{
    for func in whole.funcs() {
        match judged_often(alloc, func, rounds) {
            Verdict::Definite => {}
            other => return other,
        }
    }
    Verdict::Definite
}

fn judged_often(alloc: Global, func: &Func, rounds: u32) -> Verdict
    requires { IsFormed func.now.content }
{
    let mut found = Verdict::Definite;
    for _ in 0..rounds {
        found = judged_once(alloc, func);
    }
    found
}

fn judged_once(alloc: Global, func: &Func) -> Verdict
    requires { IsFormed func.now.content }
{
    match missed(alloc, func) {
        Ok(None) => Verdict::Definite,
        Ok(Some(line)) => Verdict::Missed(line),
        Err(_) => Verdict::Refused,
    }
}

fn missed(alloc: Global, func: &Func) -> Result<Option<u32>, Memory>
    requires { IsFormed func.now.content }
{
    let cfg = Cfg::of(alloc, func)?;
    definite(alloc, func, &cfg)
}
