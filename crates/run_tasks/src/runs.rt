//! What a run answers.

use sp_ids::{End, FuncId};

/// How a run ended: its end, the function that ran last, the steps and events, and the number of lines that
/// `print_i64` wrote. Events and lines stand still at 2^64 - 1.
#[derive(Clone, Copy, Debug, PartialEq, Eq)]
pub struct Ran {
    pub end: End,
    pub func: FuncId,
    pub steps: u64,
    pub events: u64,
    pub lines: u64,
}
