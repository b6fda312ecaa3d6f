//! Runs of modules whose calls have bundles, into traps and other ends: for each case its remark, what came and what was
//! written, and a line for each object that was made.
#![tactic(auto)]

mod cases;
mod forms;
mod lines;
mod modules;

use anyhow::Result;

fn main(rt: HostRuntime) -> Result<()> {
    cases::show(&rt)
}
