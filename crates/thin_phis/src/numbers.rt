//! What each number becomes where phis go.

ghost use Rattle.std.specs.Prelude.{◌≡◌, ◌+◌, ◌-◌, ◌^◌, ◌<◌, ℕ, true, map, length, IfOk};
ghost use Rattle.std.specs.List.{range_with_len};
ghost use Rattle.phi_webs.specs.Forests.{up_of};
ghost use Rattle.thin_phis.specs.Thinned.{stays, number_now, kept_below};

use sp_ids::Memory;
use std::alloc::Global;
use std::marker::Model;

/// What the number of each name becomes, and how many names below each number stay. Contracts see what the numbers become in the
/// old numbering; one past the end becomes itself.
#[derive(Drop)]
pub(crate) struct Renumbering {
    ends: Vec<u32>,
    kept: Vec<u32>,
}

impl Model for Renumbering {
    ghost use Rattle.std.specs.Prelude.{◌≡◌, ◌+◌, ℕ, List, map, length};
    ghost use Rattle.std.specs.List.{range_with_len};
    ghost use Rattle.thin_phis.specs.Thinned.{kept_below};

    ghost Value = { List ℕ };

    ghost view = { λ numbers. numbers.ends.items };

    ghost invariant = { λ numbers. numbers.kept.items ≡ map (kept_below numbers.ends.items) (range_with_len 0 (length numbers.ends.items + 1)) };
}

impl Renumbering {
    /// The numbers where each name becomes this one. Where there are 2^32 or more, it is want of memory.
    pub(crate) fn of(alloc: Global, ends: Vec<u32>) -> Result<Renumbering, Memory>
        ensures { IfOk result (λ numbers. numbers ≡ ends.items) }
    {
        let kept = counts(alloc, ends.as_slice())?;
        Ok(Renumbering { ends, kept })
    }

    /// Whether all names stay.
    pub(crate) fn all_stay(&self) -> bool
        ensures { result ≡ true → (n : ℕ) → up_of self.now n ≡ n }
    {
        are_own(self.ends.as_slice())
    }

    /// Whether the name of a number stays.
    pub(crate) fn stays(&self, number: u32) -> bool
        ensures { result ≡ stays self.now number }
    {
        is_end(self.ends.as_slice(), number)
    }

    /// The new number of what the name of a number becomes.
    pub(crate) fn now(&self, number: u32) -> u32
        ensures { result ≡ number_now self.now number }
    {
        let end = end_at(self.ends.as_slice(), number);
        kept_at(self.ends.as_slice(), self.kept.as_slice(), end)
    }
}

fn end_at(ends: &[u32], number: u32) -> u32
    ensures { result ≡ up_of ends.now number }
{
    ends.get(number as usize).copied().unwrap_or(number)
}

fn is_end(ends: &[u32], number: u32) -> bool
    ensures { result ≡ stays ends.now number }
{
    end_at(ends, number) == number
}

fn are_own(ends: &[u32]) -> bool
    ensures { result ≡ true → (n : ℕ) → up_of ends.now n ≡ n }
{
    for (place, end) in ends.iter().enumerate() {
        if *end as usize != place {
            return false;
        }
    }
    true
}

// How many names below a number stay. All past the end do.
fn kept_at(ends: &[u32], kept: &[u32], number: u32) -> u32
    requires { kept.now ≡ map (kept_below ends.now) (range_with_len 0 (length ends.now + 1)) }
    ensures { result ≡ kept_below ends.now number }
{
    let place = (number as usize).min(ends.len());
    kept[place] + (number - place as u32)
}

// For each number, and for the one behind all, how many names below it stay.
fn counts(alloc: Global, ends: &[u32]) -> Result<Vec<u32>, Memory>
    ensures { IfOk result (λ kept. kept.items ≡ map (kept_below ends.now) (range_with_len 0 (length ends.now + 1))) }
{
    if ends.len() >= 1 << 32 {
        return Err(Memory);
    }
    let mut kept = Vec::with_capacity(alloc, ends.len() + 1)?;
    let mut count = 0;
    for place in 0..ends.len() {
        kept.push(count)?;
        count = with_kept(ends, place as u32, count);
    }
    kept.push(count)?;
    Ok(kept)
}

// The count of names below the next number.
fn with_kept(ends: &[u32], number: u32, count: u32) -> u32
    requires count { count ≡ kept_below ends.now number }
    requires room { number < 2 ^ 32 - 1 }
    ensures { result ≡ kept_below ends.now (number + 1) }
{
    if is_end(ends, number) {
        count + 1
    } else {
        count
    }
}
