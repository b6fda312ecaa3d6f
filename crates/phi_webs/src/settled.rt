//! The minimal removal of a web over numbers.

ghost use Rattle.std.specs.Prelude.{◌≡◌, ◌≤◌, ℕ, IfOk, IfSome, IfNone};
ghost use Rattle.std.specs.List.{Contains};
ghost use Rattle.phi_webs.specs.Webs.{Phi};
ghost use Rattle.phi_webs.specs.Forests.{up_of, Leads, KeepsEnds};
ghost use Rattle.phi_webs.specs.Settled.{web_of, IsSettled, AnswersBecomes, HasRoom, CanGo, NoneCanGo};

use crate::forest::{end_of, put};
use crate::looks::first_trivial;
use crate::rows::{PhiRow, Replaced};
use crate::search::Search;
use std::alloc::{AllocError, Global};

// More than there are names.
const MOST: u64 = 1 << 33;

/// What each name of a web becomes where phis go that no name needs: the answer has it at the name's own number, and a name past
/// its end becomes itself. A search proposes phis, and a look at all that are left decides that none can go.
pub fn settle(alloc: Global, phis: &[PhiRow<'_>]) -> Result<Vec<u32>, AllocError>
    ensures settled { IfOk result (λ ends. IsSettled (web_of phis.now) ends.items) }
    ensures becomes { IfOk result (λ ends. AnswersBecomes (web_of phis.now) ends.items) }
{
    let mut ups = own_names(alloc, phis)?;
    let mut search = Search::of(alloc, phis)?;
    for _step in 0..MOST {
        match next_gone(&mut search, phis, &mut ups)? {
            Some(gone) => {
                put(gone.name, gone.value, &mut ups);
                search.merge(gone, phis, &mut ups)?;
            }
            None => return all_ends(alloc, &mut ups),
        }
    }
    Err(AllocError)
}

// The next phi that can go: one that the search proposes, or where it has none the first of all. Where there is none, none can go.
fn next_gone(
    search: &mut Search,
    phis: &[PhiRow<'_>],
    ups: &mut Vec<u32>,
) -> Result<Option<Replaced>, AllocError>
    ensures some { IfOk result (λ gone. IfSome gone (CanGo ups.old.items (web_of phis.now))) }
    ensures none { IfOk result (λ gone. IfNone gone (NoneCanGo ups.old.items (web_of phis.now))) }
    ensures keeps { KeepsEnds ups.old.items ups.new.items }
{
    match search.next_gone(phis, ups)? {
        Some(gone) => Ok(Some(gone)),
        None => Ok(first_trivial(ups, phis)),
    }
}

// Each name is its own.
fn own_names(alloc: Global, phis: &[PhiRow<'_>]) -> Result<Vec<u32>, AllocError>
    ensures own { IfOk result (λ ups. (n : ℕ) → up_of ups.items n ≡ n) }
    ensures room { IfOk result (λ ups. HasRoom ups.items (web_of phis.now)) }
{
    let mut ups = Vec::new(alloc);
    let last = greatest(phis);
    for name in 0..u64::from(last) + 1 {
        ups.push(name as u32)?;
    }
    Ok(ups)
}

fn greatest(phis: &[PhiRow<'_>]) -> u32
    ensures { (phi : Phi ℕ) → Contains (web_of phis.now) phi → phi.name ≤ result }
{
    let mut greatest = 0;
    for phi in phis {
        greatest = larger(greatest, phi.name);
    }
    greatest
}

fn larger(one: u32, two: u32) -> u32
    ensures first { one ≤ result }
    ensures second { two ≤ result }
{
    if one < two { two } else { one }
}

fn all_ends(alloc: Global, ups: &mut Vec<u32>) -> Result<Vec<u32>, AllocError>
    ensures { IfOk result (λ ends. (now : ℕ → ℕ) (last : ℕ) → Leads ups.old.items now last → (n : ℕ) → up_of ends.items n ≡ now n) }
{
    let mut ends = Vec::with_capacity(alloc, ups.len())?;
    for place in 0..ups.len() {
        let name = ups[place];
        ends.push(end_of(ups, name))?;
    }
    Ok(ends)
}
