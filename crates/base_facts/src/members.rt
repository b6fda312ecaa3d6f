//! The pairs that the line of a statepoint group gives.

ghost use Rattle.std.specs.Prelude.{◌≡◌, ◌<◌, Some, length};
ghost use Rattle.pair_facts.specs.declared.bases.Base.TheVariants.{Any, Named};
ghost use Rattle.pair_facts.specs.Lines.{lines_at, line_in, head_at, group_in, is_null, operand_at};
ghost use Rattle.pair_facts.specs.Pairs.{base_index, has_base, relocated_pairs, member_pairs};
ghost use Rattle.pair_facts.specs.Uses.{entries_at};
ghost use Rattle.fact_tables.specs.Groups.{relocates_base_of};
ghost use Rattle.fact_tables.specs.Tables.{AreTables};
ghost use Rattle.base_facts.specs.Members.{member_named};

use fact_tables::insts::{inst_at, operand_at};
use fact_tables::tables::{Tables, is_based};
use ir_ast::{Func, Inst, Op, Operand};

fn is_relocate_of_base(inst: &Inst, entry: u64) -> bool
    ensures { result ≡ relocates_base_of entry inst.now }
{
    inst.op().is_relocate() && inst.index_at(1) == entry && inst.index_at(2) == entry
}

fn is_null_entry(func: &Func, block: usize, head: usize, entry: u64) -> bool
    requires block { block < length func.now.content.blocks }
    requires head { head < length (lines_at func.now.content block) }
    ensures { result ≡ is_null (operand_at (entries_at (lines_at func.now.content block) head) entry) }
{
    operand_at(inst_at(func, block, head).live_entries(), entry as usize).is_null()
}

/// Whether a line of a group gives a fresh pointer.
pub(crate) fn is_fresh_member(
    func: &Func,
    tables: &Tables,
    block: usize,
    value: u32,
    at: usize,
    head: usize,
) -> bool
    requires tables { AreTables func.now.content tables.now }
    requires block { block < length func.now.content.blocks }
    requires at { at < length (lines_at func.now.content block) }
    requires head { head < length (lines_at func.now.content block) }
    requires group { head_at (lines_at func.now.content block) at ≡ Some head }
    ensures { let lines = lines_at func.now.content block in
        result ≡ member_pairs (entries_at lines head) (group_in lines head) value (line_in lines at) (line_in lines at).inst.op Any }
{
    let inst = inst_at(func, block, at);
    match inst.op() {
        Op::GcResult => inst.ty().is_pointer(),
        Op::GcRelocate => is_fresh_entry(func, tables, block, at, head, inst.index_at(1)),
        _ => false,
    }
}

fn is_fresh_entry(
    func: &Func,
    tables: &Tables,
    block: usize,
    at: usize,
    head: usize,
    entry: u64,
) -> bool
    requires tables { AreTables func.now.content tables.now }
    requires block { block < length func.now.content.blocks }
    requires at { at < length (lines_at func.now.content block) }
    requires head { head < length (lines_at func.now.content block) }
    requires group { head_at (lines_at func.now.content block) at ≡ Some head }
    requires entry { entry ≡ base_index (line_in (lines_at func.now.content block) at) }
    ensures { let lines = lines_at func.now.content block in
        result ≡ relocated_pairs (entries_at lines head) (group_in lines head) entry Any }
{
    keeps_base(func, tables, block, at, head, entry) || is_null_entry(func, block, head, entry)
}

// Whether a relocate of the group keeps the base entry of this one as a base.
fn keeps_base(
    func: &Func,
    tables: &Tables,
    block: usize,
    at: usize,
    head: usize,
    entry: u64,
) -> bool
    requires tables { AreTables func.now.content tables.now }
    requires block { block < length func.now.content.blocks }
    requires at { at < length (lines_at func.now.content block) }
    requires group { head_at (lines_at func.now.content block) at ≡ Some head }
    requires entry { entry ≡ base_index (line_in (lines_at func.now.content block) at) }
    ensures { result ≡ has_base (group_in (lines_at func.now.content block) head) entry }
{
    is_based(func, tables, block, at)
}

/// Whether a line of a group gives a pointer whose base is `null`.
pub(crate) fn is_null_member(func: &Func, block: usize, value: u32, at: usize, head: usize) -> bool
    requires block { block < length func.now.content.blocks }
    requires at { at < length (lines_at func.now.content block) }
    requires head { head < length (lines_at func.now.content block) }
    ensures { let lines = lines_at func.now.content block in
        result ≡ member_pairs (entries_at lines head) (group_in lines head) value (line_in lines at) (line_in lines at).inst.op (Named Operand.Null) }
{
    let inst = inst_at(func, block, at);
    match inst.op() {
        Op::GcRelocate => is_null_entry(func, block, head, inst.index_at(1)),
        _ => false,
    }
}

/// Whether a line of a group gives a pointer whose base is given by this line of the group.
pub(crate) fn is_based_member(
    func: &Func,
    block: usize,
    value: u32,
    at: usize,
    base: u32,
    given: usize,
) -> bool
    requires block { block < length func.now.content.blocks }
    requires at { at < length (lines_at func.now.content block) }
    requires given { given < length (lines_at func.now.content block) }
    ensures { let lines = lines_at func.now.content block in
        result ≡ member_named value (line_in lines at) (line_in lines at).inst.op base (line_in lines given) }
{
    let inst = inst_at(func, block, at);
    match inst.op() {
        Op::GcResult => inst.ty().is_pointer() && value == base,
        Op::GcRelocate => is_relocate_of_base(inst_at(func, block, given), inst.index_at(1)),
        _ => false,
    }
}
