//! Looks at all operands of a phi, and at all phis.

ghost use Rattle.std.specs.Prelude.{IfSome, IfNone};
ghost use Rattle.phi_webs.specs.Forests.{KeepsEnds};
ghost use Rattle.phi_webs.specs.Settled.{phi_of, web_of, HasOther, HasNoOther, CanGo, NoneCanGo, EndIsNoted};

use crate::forest::{end_of, up};
use crate::rows::{PhiRow, Replaced};

/// The one other name that the operands of a kept phi have become, if there is just one.
pub(crate) fn only_other(ups: &mut Vec<u32>, phi: PhiRow<'_>) -> Option<u32>
    ensures some { IfSome result (HasOther ups.old.items (phi_of phi.entry)) }
    ensures none { IfNone result (HasNoOther ups.old.items (phi_of phi.entry)) }
    ensures keeps { KeepsEnds ups.old.items ups.new.items }
{
    let name = phi.name;
    let operands = phi.operands;
    if up(ups, name) != name {
        return None;
    }
    let mut found = None;
    for operand in operands {
        let end = end_of(ups, *operand);
        match with_end(found, end, name) {
            Some(next) => found = next,
            None => return None,
        }
    }
    found
}

// The one other name so far, if there is one, beside one more that an operand has become; none where that is a second other name.
fn with_end(found: Option<u32>, end: u32, name: u32) -> Option<Option<u32>>
    ensures { EndIsNoted name found end result }
{
    if end == name {
        return Some(found);
    }
    match found {
        None => Some(Some(end)),
        Some(other) if other == end => Some(found),
        Some(_) => None,
    }
}

/// The first phi that can go.
pub(crate) fn first_trivial(ups: &mut Vec<u32>, phis: &[PhiRow<'_>]) -> Option<Replaced>
    ensures some { IfSome result (CanGo ups.old.items (web_of phis.now)) }
    ensures none { IfNone result (NoneCanGo ups.old.items (web_of phis.now)) }
    ensures keeps { KeepsEnds ups.old.items ups.new.items }
{
    for phi in phis {
        if let Some(value) = only_other(ups, *phi) {
            return Some(Replaced {
                name: phi.name,
                value,
            });
        }
    }
    None
}
