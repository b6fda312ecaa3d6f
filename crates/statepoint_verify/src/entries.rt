//! Entries and bundles of a statepoint that no relocate keeps.

ghost use Rattle.std.specs.Prelude.{◌≡◌, ◌<◌, ◌&&◌, false, length, nat_eq};
ghost use Rattle.std.specs.List.{list_any, position};
ghost use Rattle.std.specs.Option.{option_map_or};
ghost use Rattle.ir_ast.specs.Faults.GroupShape.{entries_of, is_statepoint};
ghost use Rattle.pair_facts.specs.Lines.{lines_at, head_at, same_operand};
ghost use Rattle.statepoint_verify.specs.Tests.{is_open, loses};
ghost use Rattle.fact_tables.specs.Groups.{IsGroupOf};
ghost use Rattle.statepoint_verify.specs.Kept.{opens_by, is_kept_by, is_lost_by};

use fact_tables::groups::{Group, Kept};
use fact_tables::insts::{inst_at, operand_at};
use ir_ast::{Func, Inst, Operand, Ty};

/// Whether the line at a place is a relocate whose base entry isn't `null` and is kept by no relocate of the group: a later move
/// would use its old word.
pub(crate) fn is_open(func: &Func, block: usize, place: usize, group: &Option<Group>) -> bool
    requires block { block < length func.now.content.blocks }
    requires place { place < length (lines_at func.now.content block) }
    requires group { IsGroupOf (lines_at func.now.content block) (head_at (lines_at func.now.content block) place) group.now }
    ensures { result ≡ is_open (lines_at func.now.content block) place }
{
    match group {
        Some(group) => opens(
            inst_at(func, block, group.head).live_entries(),
            inst_at(func, block, place),
            &group.kept,
        ),
        None => false,
    }
}

fn opens(entries: &[Operand], inst: &Inst, kept: &Kept) -> bool
    ensures { result ≡ opens_by entries.now inst.now kept.now.bases.keys }
{
    let entry = inst.index_at(1);
    inst.op().is_relocate()
        && !operand_at(entries, entry as usize).is_null()
        && !kept.bases.contains(&entry)
}

/// Whether a pointer of the bundle of the line at a place, a statepoint, is kept by no relocate.
pub(crate) fn loses(func: &Func, block: usize, place: usize, group: &Option<Group>) -> bool
    requires block { block < length func.now.content.blocks }
    requires place { place < length (lines_at func.now.content block) }
    requires group { IsGroupOf (lines_at func.now.content block) (head_at (lines_at func.now.content block) place) group.now }
    ensures { result ≡ loses (lines_at func.now.content block) place }
{
    match group {
        Some(group) => loses_by(inst_at(func, block, place), &group.kept),
        None => false,
    }
}

fn loses_by(inst: &Inst, kept: &Kept) -> bool
    ensures { result ≡ (is_statepoint inst.now.op && list_any (is_lost_by (entries_of inst.now) kept.now.values.keys) inst.now.bundle) }
{
    inst.op().is_statepoint() && any_lost(inst.live_entries(), kept, inst.bundle())
}

fn any_lost(entries: &[Operand], kept: &Kept, bundle: &[(Ty, Operand)]) -> bool
    ensures { result ≡ list_any (is_lost_by entries.now kept.now.values.keys) bundle.now }
{
    bundle.iter().any(|entry| is_lost(entries, kept, entry))
}

fn is_lost(entries: &[Operand], kept: &Kept, entry: &(Ty, Operand)) -> bool
    ensures { result ≡ is_lost_by entries.now kept.now.values.keys entry.now }
{
    entry.0.is_pointer() && !is_kept(entries, kept, entry.1)
}

fn is_kept(entries: &[Operand], kept: &Kept, operand: Operand) -> bool
    ensures { result ≡ is_kept_by entries.now kept.now.values.keys operand }
{
    match operand {
        Operand::Value(_) => is_entry_kept(first_entry(entries, operand), kept),
        _ => true,
    }
}

fn is_entry_kept(entry: Option<usize>, kept: &Kept) -> bool
    ensures { result ≡ option_map_or (λ place. list_any (nat_eq place) kept.now.values.keys) entry false }
{
    match entry {
        Some(place) => kept.values.contains(&(place as u64)),
        None => false,
    }
}

fn first_entry(entries: &[Operand], operand: Operand) -> Option<usize>
    ensures { result ≡ position (λ entry. same_operand entry operand) entries.now }
{
    entries.iter().position(|entry| entry.is_same(operand))
}
