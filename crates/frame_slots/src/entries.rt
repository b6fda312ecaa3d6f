//! What is laid out for each function, as flat tables.
ghost use Rattle.std.specs.Prelude.{◌≡◌, ◌<◌, ◌^◌, ◌+◌, ◌∷◌, ◌++◌, [], OnOk};
ghost use Rattle.frame_forms.specs.CodeAddresses.{next_start};
ghost use Rattle.frame_forms.specs.ModuleLayouts.{laid_at};
ghost use Rattle.frame_slots.specs.Tables.{layouts_in, AreWithin};

use crate::bundles::{Bundle, bundles_of};
use crate::frames::frame_words;
use crate::returns::{add_returns, count_of, statepoints_of};
use ir_ast::Func;
use sp_ids::Memory;
use std::alloc::Global;

/// What is laid out for a function; its return offsets stand from `first` on.
#[derive(Drop)]
pub(crate) struct Entry {
    pub(crate) address: u64,
    pub(crate) frame_bytes: u64,
    pub(crate) statepoints: usize,
    pub(crate) first: usize,
    pub(crate) count: usize,
    pub(crate) bundles: Vec<Bundle>,
}

/// Adds a function that starts here.
pub(crate) fn add(
    alloc: Global,
    entries: &mut Vec<Entry>,
    returns: &mut Vec<u32>,
    start: u64,
    func: &Func,
) -> Result<(), Memory>
    requires { AreWithin returns.old.items entries.old.items }
    ensures within { OnOk result (AreWithin returns.new.items entries.new.items) }
    ensures laid { OnOk result (layouts_in returns.new.items entries.new.items ≡ layouts_in returns.old.items entries.old.items ++ laid_at start func.now.content ∷ []) }
{
    let first = returns.len();
    add_returns(returns, func)?;
    let entry = Entry {
        address: start,
        frame_bytes: 8 * frame_words(func) as u64,
        statepoints: statepoints_of(func.blocks()),
        first,
        count: returns.len() - first,
        bundles: bundles_of(alloc, func)?,
    };
    entries.push(entry)?;
    Ok(())
}

/// Where the function after this one starts.
pub(crate) fn next_start(start: u64, func: &Func) -> u64
    requires { start < 2 ^ 63 }
    ensures value { result ≡ next_start start func.now.content }
    ensures near { result < start + 2 ^ 32 + 16 }
{
    (start + 4 * count_of(func.blocks()) as u64 + 15) / 16 * 16
}
