//! What becomes of cases, against what is expected of them.

use crate::cases::Case;
use crate::outcome::{Outcome, outcome_of};
use case_files::Tally;
use sp_ids::Memory;
use sp_ids::limits::FILE_BYTES;
use std::alloc::Global;
use std::io;

/// Judges the cases of the file `name`, and says of each that doesn't hold what was expected and what came.
pub(crate) fn judge(
    rt: &impl Print,
    alloc: Global,
    name: &str,
    cases: &[Case],
) -> io::Result<Tally> {
    let mut tally = Tally::new();
    for case in cases {
        tally.count(holds(rt, alloc, name, case)?);
    }
    Ok(tally)
}

fn holds(rt: &impl Print, alloc: Global, name: &str, case: &Case) -> io::Result<bool> {
    match case_outcome(alloc, case) {
        Ok(outcome) if case.expected.holds(&outcome) => Ok(true),
        Ok(outcome) => {
            println!(rt; "{name}:{case}: expected {}, came {outcome}", case.expected)?;
            Ok(false)
        }
        Err(Memory) => {
            println!(rt; "{name}:{case}: {Memory}")?;
            Ok(false)
        }
    }
}

fn case_outcome(alloc: Global, case: &Case) -> Result<Outcome, Memory> {
    if case.text.len() as u64 > FILE_BYTES {
        return Ok(Outcome::TooLong);
    }
    outcome_of(alloc, case.form, &case.text, case.expected.step())
}
