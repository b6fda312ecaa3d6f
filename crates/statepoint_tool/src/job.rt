//! What a run is of, beside the module and its stack map.

use ir_machine::Shows;
use move_plan::Plan;

/// The numbers of the input, the plan, the steps that the run may take, and what it shows besides what the program prints.
#[derive(Drop)]
pub(crate) struct Job<'a> {
    pub input: &'a [i64],
    pub plan: &'a Plan,
    pub steps: u64,
    pub shows: Shows,
}
