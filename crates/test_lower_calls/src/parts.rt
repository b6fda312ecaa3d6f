//! The parts that modules are made from, each made and taken apart.

use anyhow::Result;
use ir_ast::{BaseTable, Cell, Layout, LiveTable, Name, Operand, Ty, Types};
use sp_ids::ValueId;
use std::alloc::Global;

pub(crate) fn show(rt: &impl Print, alloc: Global) -> Result<()> {
    show_cells(rt, alloc)?;
    show_lists(rt, alloc)?;
    show_tables(rt, alloc)
}

fn show_cells(rt: &impl Print, alloc: Global) -> Result<()> {
    for ty in [Ty::Int(64), Ty::Ptr, Ty::Int(32), Ty::Token] {
        let cell = Cell::of(&ty);
        println!(rt; "cell of {ty:?}: {cell:?}")?;
    }
    for cell in [Cell::I64, Cell::Ptr] {
        let kind = cell.kind();
        let word = String::from_utf8_lossy(alloc, cell.word())?;
        println!(rt; "{cell:?}: kind {kind}, word {word}")?;
    }
    Ok(())
}

fn show_lists(rt: &impl Print, alloc: Global) -> Result<()> {
    let name = name_of(alloc, b"a.b")?;
    let bytes = name.bytes();
    println!(rt; "name: {bytes:?}")?;
    let types = Types::of(alloc, &[Ty::Void, Ty::Ptr])?;
    let list = types.list();
    println!(rt; "types: {list:?}")?;
    let layout = Layout::of(name_of(alloc, b"N")?, vec![in alloc; Cell::I64, Cell::Ptr]?);
    let (name, fields) = layout.into_parts();
    println!(rt; "layout taken apart: {name:?} {fields:?}")?;
    Ok(())
}

fn name_of(alloc: Global, bytes: &[u8]) -> Result<Name> {
    Ok(Name::of(alloc, bytes)?)
}

fn show_tables(rt: &impl Print, alloc: Global) -> Result<()> {
    let bases = BaseTable::of(vec![in alloc; Operand::Null, Operand::Value(ValueId(0))]?);
    let list = bases.bases();
    println!(rt; "bases: {list:?}")?;
    let taken = bases.into_parts();
    println!(rt; "bases taken apart: {taken:?}")?;
    let live = LiveTable::of(vec![in alloc; vec![in alloc; ValueId(3), ValueId(5)]?]?);
    let lists = live.lists();
    println!(rt; "live: {lists:?}")?;
    let taken = live.into_parts();
    println!(rt; "live taken apart: {taken:?}")?;
    Ok(())
}
