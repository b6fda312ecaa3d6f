//! Plans and inputs: which objects move at which event, which events flip, and which task goes on; and the numbers that a
//! program reads.
#![tactic(auto)]

mod faults;
mod inputs;
mod laws;
mod lookups;
mod numbers;
mod plan_lines;
mod plans;
mod reader;
mod words;

pub use faults::{InputFault, PlanFault};
pub use inputs::read_input;
pub use laws::{
    input_or_fault, one_fault, one_input, one_input_fault, one_number, one_plan, one_reading,
    plan_or_fault,
};
pub use plan_lines::{Move, PlanLine};
pub use plans::Plan;
