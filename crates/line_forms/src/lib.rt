//! The forms of lines: the table of slots, the reader of each form, and which form a line can have.
#![tactic(auto)]

mod accesses;
mod bundles;
mod computing;
mod control;
mod families;
mod forms;
mod groups;
mod heads;
mod kept;
mod laws;
mod lines;
mod opening;
mod readings;
mod results;

pub use bundles::LiveEntries;
pub use forms::{DroppedLine, Form};
pub use kept::{Kept, KeptEntry};
pub use laws::{one_form, one_reading, own_form};
pub use lines::{kept_front, whole_dropped};
pub use opening::opened_form;
pub use readings::{FunctionType, Reading, StatepointCall};
