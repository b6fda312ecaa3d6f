//! The names of the intrinsics.

use crate::steps::Intrinsic;

/// The intrinsic that a name with a width spells, and that width's word.
pub fn intrinsic_of(name: &[u8]) -> Option<(Intrinsic, &[u8])> {
    let (front, width) = at_last_point(name)?;
    let intrinsic = Intrinsic::of(front)?;
    Some((intrinsic, width))
}

// What stands before and behind the last point.
fn at_last_point(name: &[u8]) -> Option<(&[u8], &[u8])> {
    let mut found = None;
    for (at, byte) in name.iter().enumerate() {
        if *byte == b'.' {
            found = Some(at);
        }
    }
    let at = found?;
    if at < name.len() {
        Some((&name[..at], &name[at + 1..]))
    } else {
        None
    }
}
