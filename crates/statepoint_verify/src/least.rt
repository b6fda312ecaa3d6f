//! The least of a function's faults.

ghost use Rattle.std.specs.Prelude.{◌≡◌, slice_index, if◌then◌else◌, IfOk};
ghost use Rattle.std.specs.List.{Contains};
ghost use Rattle.ir_ast.specs.Formed.{IsFormed};
ghost use Rattle.ir_cfg.specs.DefiniteUses.{text_place};
ghost use Rattle.statepoint_verify.specs.declared.marks.Mark.{Mark};
ghost use Rattle.statepoint_verify.specs.Marks.{PairFault, TextFault, AreAll, IsInside};
ghost use Rattle.statepoint_verify.specs.Least.{IsLeastOf, IsFaultIn, IsMarkedAs, AreStarts, comes_first, earlier};

use crate::faults::Fault;
use crate::lines::text_marks;
use crate::marks::Mark;
use crate::pairs::pair_marks;
use ir_ast::Func;
use ir_cfg::Cfg;
use sp_ids::Memory;
use std::alloc::Global;

/// The least fault of a function.
pub(crate) fn least_in(alloc: Global, func: &Func) -> Result<Option<Fault>, Memory>
    requires { IsFormed func.now.content }
    ensures { IfOk result (λ least. IsLeastOf (IsFaultIn func.now) least) }
{
    let cfg = Cfg::of(alloc, func)?;
    let by_pairs = pair_marks(alloc, func, &cfg)?;
    let by_text = text_marks(alloc, func, &cfg)?;
    least_of_both(alloc, func, &by_pairs, &by_text)
}

fn least_of_both(
    alloc: Global,
    func: &Func,
    by_pairs: &[Mark],
    by_text: &[Mark],
) -> Result<Option<Fault>, Memory>
    requires pairs { AreAll (PairFault func.now.content) by_pairs.now }
    requires text { AreAll (TextFault func.now.content) by_text.now }
    ensures { IfOk result (λ least. IsLeastOf (IsFaultIn func.now) least) }
{
    let starts = starts_of(alloc, func)?;
    let first = least_of(func, &starts, by_pairs);
    let second = least_of(func, &starts, by_text);
    Ok(earlier(first, second))
}

// The number of each block's first line among the lines of the function.
fn starts_of(alloc: Global, func: &Func) -> Result<Vec<usize>, Memory>
    ensures { IfOk result (λ starts. AreStarts func.now.content starts.items) }
{
    let mut starts = Vec::new(alloc);
    let mut next = 0;
    for block in func.blocks() {
        starts.push(next)?;
        next += block.insts().len();
    }
    Ok(starts)
}

fn least_of(func: &Func, starts: &[usize], marks: &[Mark]) -> Option<Fault>
    requires starts { AreStarts func.now.content starts.now }
    requires inside { (mark : Mark) → Contains marks.now mark → IsInside func.now.content mark }
    ensures { IsLeastOf (IsMarkedAs func.now marks.now) result }
{
    let mut least = None;
    for mark in marks {
        least = earlier(least, Some(fault_of(func, starts, *mark)));
    }
    least
}

fn fault_of(func: &Func, starts: &[usize], mark: Mark) -> Fault
    requires starts { AreStarts func.now.content starts.now }
    requires inside { IsInside func.now.content mark }
    ensures line { result.line ≡ slice_index func.now.lines (text_place func.now.content mark.block mark.place) }
    ensures code { result.code ≡ mark.code }
{
    let _blocks = func.blocks();
    let place = starts[mark.block] + mark.place;
    Fault {
        line: func.line_of(place as u32),
        code: mark.code,
    }
}

/// The earlier of two faults, by line and then by code.
pub(crate) fn earlier(one: Option<Fault>, other: Option<Fault>) -> Option<Fault>
    ensures { result ≡ earlier one other }
{
    match (one, other) {
        (None, other) => other,
        (Some(one), None) => Some(one),
        (Some(one), Some(other)) => Some(first_of(one, other)),
    }
}

fn first_of(one: Fault, other: Fault) -> Fault
    ensures { result ≡ (if comes_first one other then one else other) }
{
    if comes_first(one, other) { one } else { other }
}

fn comes_first(one: Fault, other: Fault) -> bool
    ensures { result ≡ comes_first one other }
{
    one.line < other.line || (one.line == other.line && one.code <= other.code)
}
