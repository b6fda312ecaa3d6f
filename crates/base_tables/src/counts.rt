//! Counts of marks, for the numbers of inserted lines.

ghost use Rattle.std.specs.Prelude.{◌≡◌, ◌<◌, ◌^◌, length, map, take, count_by, IfOk};
ghost use Rattle.std.specs.List.{range_with_len};

use sp_ids::Memory;
use std::alloc::Global;

/// How many marks stand before each place.
pub(crate) fn counts_before(alloc: Global, marks: &[bool]) -> Result<Vec<u32>, Memory>
    requires { length marks.now < 2 ^ 32 }
    ensures { IfOk result (λ counts. counts.items ≡ map (λ place. count_by (λ mark. mark) (take place marks.now)) (range_with_len 0 (length marks.now))) }
{
    let mut counts = Vec::with_capacity(alloc, marks.len())?;
    let mut before = 0;
    for mark in marks {
        counts.push_reserved(before);
        if *mark {
            before += 1;
        }
    }
    Ok(counts)
}
