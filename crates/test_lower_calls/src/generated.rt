//! The text of a generated module.

ghost use Rattle.std.specs.Prelude.{◌≤◌};

use anyhow::Result;
use ir_printer::print;
use module_gen::make;
use tool_io::OutSink;

/// Writes the text of the generated module of this seed and size.
pub(crate) fn show(rt: &HostRuntime, seed: u64, size: u32) -> Result<()>
    requires some { 1 ≤ size }
    requires few { size ≤ 1000 }
{
    let module = make(rt.alloc(), seed, size)?;
    Ok(print(&module, &mut OutSink::new(rt))?)
}
