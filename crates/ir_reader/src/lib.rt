//! Readings of the lines of a module's text (LLVM Language Reference, in this project's profile): what each line
//! says, or the first line that has no reading or passes a limit.
#![tactic(auto)]

mod faults;
mod laws;
mod limits;
mod line;
mod places;
mod raw;
mod states;
mod text;
mod woven;

pub use faults::ReadFault;
pub use laws::{fitting_line, judged_text};
pub use line_forms::{
    FunctionType, Kept, KeptEntry, LiveEntries, Reading, StatepointCall, one_form, one_reading,
    own_form,
};
pub use line_parts::{
    AllPassed, Argument, Arguments, Entries, Entry, Fields, Parameters, Passed, TypeWord, Value,
};
pub use line_tokens::{Binary, Cast, Conversion, Literal, Width};
pub use raw::{NumberedReading, Raw};
pub use sp_text::Name;
pub use text::{read, read_rewritten};
pub use woven::Woven;
