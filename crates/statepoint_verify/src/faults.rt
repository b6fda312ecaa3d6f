//! The verifier's faults, by line and code.

use ir_ast::Module;
use std::error::Error;
use std::fmt;

/// A fault of a rewritten module: its line in the text, from 1, and its code.
///
/// 1 Stale: a use needs a fresh pointer, but on some path a statepoint has passed since it was computed. 2 BadPair: a relocate
/// names a base entry that isn't the base of its derived entry, or that no relocate of its group keeps. 3 Unchecked: an access has
/// no `gc_check` directly before it, or a check has another base than its pointer's. 4 BadSame: so a `gc_same`. 5 Escapes: a
/// derived pointer is stored, passed, returned or compared. 6 BadGroup: a call that may reach a safepoint stands outside a
/// statepoint. 7 BadDeopt: no relocate keeps a pointer of a "deopt" bundle.
#[derive(Clone, Copy, Debug, PartialEq, Eq)]
pub struct Fault {
    pub line: u32,
    pub code: u8,
}

/// Why a module isn't verified; it is handed back.
#[derive(Debug, Drop)]
pub enum VerifyFault {
    /// It has faults; this is the one of the least line, and of that line the one of the least code.
    Fault { fault: Fault, module: Module },
    /// Memory that was wanted and could not be had. It says nothing of the module.
    Memory { module: Module },
}

impl fmt::Display for VerifyFault {
    fn fmt<W: fmt::Write>(&self, f: &mut fmt::Formatter<W>) -> fmt::Result {
        match self {
            VerifyFault::Fault { fault, .. } => {
                write!(
                    f,
                    "line {}: fault {} of the verifier",
                    fault.line, fault.code
                )
            }
            VerifyFault::Memory { .. } => f.write_str("out of memory"),
        }
    }
}

impl Error for VerifyFault {}
