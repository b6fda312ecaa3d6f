//! Texts of modules: typed, printed, and their instructions counted.

ghost use Rattle.std.specs.Prelude.{IfOk};
ghost use Rattle.ir_ast.specs.Formed.{IsFormedModule};
ghost use Rattle.ir_cfg.specs.SourceModules.{IsSourceModule};

use ir_ast::Module;
use ir_printer::print;
use ir_reader::{ReadFault, read, read_rewritten};
use ir_types::{Fault, TypeFault, typed, typed_rewritten};
use sp_ids::Memory;
use sp_ids::limits::FILE_BYTES;
use std::alloc::Global;
use std::fmt;
use tool_io::MemSink;

// More than the printed text of any case has.
const MOST_PRINTED: usize = 1_000_000;

/// Why a text stands for no module.
#[derive(Clone, Copy)]
pub(crate) enum Refused {
    /// Its first fault, also one of reading.
    Fault(Fault),
    /// It is longer than any text may be.
    TooLong,
    Memory,
}

impl fmt::Display for Refused {
    fn fmt<W: fmt::Write>(&self, f: &mut fmt::Formatter<W>) -> fmt::Result {
        match self {
            Refused::Fault(fault) => write!(f, "code {} at line {}", fault.code, fault.line),
            Refused::TooLong => f.write_str("too long"),
            Refused::Memory => write!(f, "{Memory}"),
        }
    }
}

impl From<ReadFault> for Refused {
    fn from(fault: ReadFault) -> Refused {
        match fault {
            ReadFault::Syntax { line } => Refused::Fault(Fault { line, code: 1 }),
            ReadFault::Limit { line } => Refused::Fault(Fault { line, code: 2 }),
            ReadFault::Memory => Refused::Memory,
        }
    }
}

impl From<TypeFault> for Refused {
    fn from(fault: TypeFault) -> Refused {
        match fault {
            TypeFault::Fault(fault) => Refused::Fault(fault),
            TypeFault::Memory => Refused::Memory,
        }
    }
}

/// The source module that a text stands for.
pub(crate) fn source_of(alloc: Global, text: &[u8]) -> Result<Module, Refused>
    ensures { IfOk result (λ whole. IsSourceModule whole.content) }
{
    if text.len() as u64 > FILE_BYTES {
        return Err(Refused::TooLong);
    }
    let raw = read(alloc, text)?;
    let source = typed(alloc, raw)?;
    Ok(source)
}

/// The module of the rewritten form that a text stands for.
pub(crate) fn rewritten_of(alloc: Global, text: &[u8]) -> Result<Module, Refused>
    ensures { IfOk result (λ whole. IsFormedModule whole.content) }
{
    if text.len() as u64 > FILE_BYTES {
        return Err(Refused::TooLong);
    }
    let raw = read_rewritten(alloc, text)?;
    let target = typed_rewritten(alloc, raw)?;
    Ok(target)
}

/// Whether the module's printed text is this one.
pub(crate) fn prints(alloc: Global, program: &Module, text: &[u8]) -> Result<bool, Memory>
    requires { IsFormedModule program.now.content }
{
    let mut out = MemSink::new(alloc, MOST_PRINTED)?;
    match print(program, &mut out) {
        Ok(()) => Ok(out.bytes() == text),
        Err(_) => Ok(false),
    }
}

/// How many instructions the module has.
pub(crate) fn count_of(program: &Module) -> usize {
    let mut count: usize = 0;
    for func in program.funcs() {
        for block in func.blocks() {
            count = count.saturating_add(block.insts().len());
        }
    }
    count
}
