//! What comes of the source modules of cases, against the expected texts.

use crate::cases::{Case, Expected};
use crate::passes::{after, pass_of};
use crate::tallies::Tally;
use crate::texts::source_of;
use crate::verdicts::{Verdict, judged, told};
use std::alloc::Global;
use std::io;

/// Judges the cases of the file `name`, and says of each difference where it is.
pub(crate) fn judge(
    rt: &impl Print,
    alloc: Global,
    name: &str,
    cases: &[Case],
) -> io::Result<Tally> {
    let mut tally = Tally::of(0);
    for case in cases {
        tally.add(judge_case(rt, alloc, name, case)?);
    }
    Ok(tally)
}

fn judge_case(rt: &impl Print, alloc: Global, name: &str, case: &Case) -> io::Result<Tally> {
    let mut tally = Tally::of(1);
    for expected in &case.expected {
        let verdict = verdict_of(alloc, case, expected);
        tally.count(told(rt, name, case, expected, &verdict)?);
    }
    Ok(tally)
}

fn verdict_of(alloc: Global, case: &Case, expected: &Expected) -> Verdict {
    let Some(pass) = pass_of(expected.word) else {
        return Verdict::NoPass;
    };
    match source_of(alloc, &case.source) {
        Ok(source) => match after(alloc, pass, source) {
            Ok(made) => judged(alloc, &made, &expected.text),
            Err(fault) => Verdict::NotMade(fault),
        },
        Err(refused) => Verdict::NoSource(refused),
    }
}
