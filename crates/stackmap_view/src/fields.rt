//! Fields at the front of what is left of a map of `whole` bytes.

ghost use Rattle.std.specs.Prelude.{◌≡◌};
ghost use Rattle.map_bytes.specs.declared.rules.MapRule.TheVariants.{BadVersion, BadReserved};
ghost use Rattle.stackmap_view.specs.Steps.{Gives, fault_in, fixed_at, number_at, reserved_at};

use byteorder::{ByteOrder, LittleEndian};
use map_bytes::{MapFault, MapRule};

// The rule is broken at the first byte that is left.
pub(crate) fn fault(whole: usize, left: &[u8], rule: MapRule) -> MapFault
    ensures { result ≡ fault_in whole left.now rule }
{
    MapFault {
        at: whole.saturating_sub(left.len()) as u64,
        rule,
    }
}

#[inline]
#[tactic(auto, unfolding(crate::specs::Steps::number_at))]
pub(crate) fn number8(whole: usize, bytes: &[u8]) -> Result<(u8, &[u8]), MapFault>
    ensures { Gives (λ x. (x.0, x.1.now)) result (number_at 1 whole bytes.now) }
{
    if bytes.len() < 1 {
        return Err(fault(whole, bytes, MapRule::Short));
    }
    let (_front, rest) = bytes.split_at(1);
    Ok((bytes[0], rest))
}

#[inline]
#[tactic(auto, unfolding(crate::specs::Steps::number_at))]
pub(crate) fn number16(whole: usize, bytes: &[u8]) -> Result<(u16, &[u8]), MapFault>
    ensures { Gives (λ x. (x.0, x.1.now)) result (number_at 2 whole bytes.now) }
{
    if bytes.len() < 2 {
        return Err(fault(whole, bytes, MapRule::Short));
    }
    let (_front, rest) = bytes.split_at(2);
    Ok((LittleEndian::read_u16(bytes), rest))
}

#[inline]
#[tactic(auto, unfolding(crate::specs::Steps::number_at))]
pub(crate) fn number32(whole: usize, bytes: &[u8]) -> Result<(u32, &[u8]), MapFault>
    ensures { Gives (λ x. (x.0, x.1.now)) result (number_at 4 whole bytes.now) }
{
    if bytes.len() < 4 {
        return Err(fault(whole, bytes, MapRule::Short));
    }
    let (_front, rest) = bytes.split_at(4);
    Ok((LittleEndian::read_u32(bytes), rest))
}

#[inline]
#[tactic(auto, unfolding(crate::specs::Steps::number_at))]
pub(crate) fn number64(whole: usize, bytes: &[u8]) -> Result<(u64, &[u8]), MapFault>
    ensures { Gives (λ x. (x.0, x.1.now)) result (number_at 8 whole bytes.now) }
{
    if bytes.len() < 8 {
        return Err(fault(whole, bytes, MapRule::Short));
    }
    let (_front, rest) = bytes.split_at(8);
    Ok((LittleEndian::read_u64(bytes), rest))
}

#[inline]
#[tactic(auto, unfolding(crate::specs::Steps::fixed_at))]
pub(crate) fn version(whole: usize, bytes: &[u8]) -> Result<&[u8], MapFault>
    ensures { Gives (λ x. x.now) result (fixed_at 1 3 BadVersion whole bytes.now) }
{
    let (number, rest) = number8(whole, bytes)?;
    if number != 3 {
        return Err(fault(whole, bytes, MapRule::BadVersion));
    }
    Ok(rest)
}

#[inline]
#[tactic(auto, unfolding(crate::specs::Steps::fixed_at))]
pub(crate) fn reserved8(whole: usize, bytes: &[u8]) -> Result<&[u8], MapFault>
    ensures { Gives (λ x. x.now) result (reserved_at 1 whole bytes.now) }
{
    let (number, rest) = number8(whole, bytes)?;
    if number != 0 {
        return Err(fault(whole, bytes, MapRule::BadReserved));
    }
    Ok(rest)
}

#[inline]
#[tactic(auto, unfolding(crate::specs::Steps::fixed_at))]
pub(crate) fn reserved16(whole: usize, bytes: &[u8]) -> Result<&[u8], MapFault>
    ensures { Gives (λ x. x.now) result (reserved_at 2 whole bytes.now) }
{
    let (number, rest) = number16(whole, bytes)?;
    if number != 0 {
        return Err(fault(whole, bytes, MapRule::BadReserved));
    }
    Ok(rest)
}

#[inline]
#[tactic(auto, unfolding(crate::specs::Steps::fixed_at))]
pub(crate) fn reserved32(whole: usize, bytes: &[u8]) -> Result<&[u8], MapFault>
    ensures { Gives (λ x. x.now) result (reserved_at 4 whole bytes.now) }
{
    let (number, rest) = number32(whole, bytes)?;
    if number != 0 {
        return Err(fault(whole, bytes, MapRule::BadReserved));
    }
    Ok(rest)
}
