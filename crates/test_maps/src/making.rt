//! The layouts and the map of a text's module.
ghost use Rattle.std.specs.Prelude.{◌≤◌, length};
ghost use Rattle.sp_ids.specs.declared.limits.TheConstants.{FILE_BYTES};
ghost use Rattle.ir_cfg.specs.TargetModules.{IsTargetModule};

use frame_slots::Layouts;
use ir_ast::Module;
use ir_reader::{ReadFault, read_rewritten};
use ir_types::{Fault, TypeFault, typed_rewritten};
use sp_ids::Memory;
use stackmap_view::MapView;
use stackmap_write::write;
use std::alloc::Global;
use std::fmt;

/// What is made of a module.
#[derive(Drop)]
pub(crate) struct Made {
    pub(crate) layouts: Layouts,
    pub(crate) bytes: Vec<u8>,
}

/// Why nothing is made of a text.
#[derive(Clone, Copy)]
pub(crate) enum Refusal {
    Fault { line: u32, code: u8 },
    Memory,
}

impl fmt::Display for Refusal {
    fn fmt<W: fmt::Write>(&self, f: &mut fmt::Formatter<W>) -> fmt::Result {
        match self {
            Refusal::Fault { line, code } => write!(f, "code {code} at line {line}"),
            Refusal::Memory => f.write_str("out of memory"),
        }
    }
}

impl From<Memory> for Refusal {
    fn from(_memory: Memory) -> Self {
        Refusal::Memory
    }
}

impl From<ReadFault> for Refusal {
    fn from(fault: ReadFault) -> Self {
        match fault {
            ReadFault::Syntax { line } => Refusal::Fault { line, code: 1 },
            ReadFault::Limit { line } => Refusal::Fault { line, code: 2 },
            ReadFault::Memory => Refusal::Memory,
        }
    }
}

impl From<TypeFault> for Refusal {
    fn from(fault: TypeFault) -> Self {
        match fault {
            TypeFault::Fault(Fault { line, code }) => Refusal::Fault { line, code },
            TypeFault::Memory => Refusal::Memory,
        }
    }
}

/// Makes the layouts and the map of a text in the rewritten form.
pub(crate) fn made_of(alloc: Global, text: &[u8]) -> Result<Made, Refusal>
    requires { length text.now ≤ FILE_BYTES }
{
    let raw = read_rewritten(alloc, text)?;
    let whole = typed_rewritten(alloc, raw)?;
    make(alloc, &whole)
}

/// Makes them of a text so many times, and gives how many bytes the map has.
pub(crate) fn made_often(alloc: Global, text: &[u8], rounds: u32) -> Result<usize, Refusal>
    requires { length text.now ≤ FILE_BYTES }
{
    let raw = read_rewritten(alloc, text)?;
    let whole = typed_rewritten(alloc, raw)?;
    let mut count = 0;
    for _ in 0..rounds {
        count = make(alloc, &whole)?.bytes.len();
    }
    Ok(count)
}

fn make(alloc: Global, whole: &Module) -> Result<Made, Refusal>
    requires { IsTargetModule whole.now.content }
{
    let layouts = Layouts::of(alloc, whole)?;
    let bytes = write(alloc, whole, &layouts)?;
    match MapView::of(bytes.as_slice()) {
        Ok(_) => Ok(Made { layouts, bytes }),
        // it is proved that what is written is a map
        Err(_) => unreachable!(),
    }
}
