//! Calls of the tool over files and sinks in memory that fail where they are told to or never, each with what must come of it, and
//! calls of these and of the adapters themselves: one line a call, with what came.
#![tactic(auto)]

mod adapters;
mod calls;
mod failing;
mod memory;
mod settings;
mod shown;
mod sure;

use anyhow::Result;
use calls::Over;

fn main(rt: HostRuntime) -> Result<()> {
    let alloc = rt.alloc();
    calls::show(&rt, Over::Failing)?;
    calls::show(&rt, Over::Sure)?;
    failing::show_codes(&rt)?;
    memory::show_sink(&rt, alloc)?;
    memory::show_files(&rt, alloc)?;
    memory::show_sure(&rt, alloc)?;
    adapters::show_files(&rt)?;
    adapters::show_sinks(&rt)
}
