//! The numbers that literals of "deopt" bundles are, and the constants of a map.
ghost use Rattle.std.specs.Prelude.{◌≡◌, ◌≤◌, fold, IfOk, OnOk};
ghost use Rattle.std.specs.List.{flat_map};
ghost use Rattle.object_meaning.specs.Numbers.{width_of};
ghost use Rattle.stackmap_write.specs.Constants.{constants_of, entry_number, is_small, large_in, large_number, large_of, with_constant};

use indexmap::IndexSet;
use ir_ast::{Func, Inst, Module, Op, Operand, Ty};
use sp_ids::{Memory, sign};
use std::alloc::Global;

/// The constants of a module's map, in the order of their first uses.
pub(crate) fn constants_of(alloc: Global, module: &Module) -> Result<IndexSet<u64>, Memory>
    ensures { IfOk result (λ constants. constants.keys ≡ constants_of «module».now.content) }
{
    let mut constants = IndexSet::new(alloc);
    let funcs = module.funcs();
    for func in funcs {
        add_function(&mut constants, func)?;
    }
    Ok(constants)
}

fn add_function(constants: &mut IndexSet<u64>, func: &Func) -> Result<(), Memory>
    ensures { OnOk result (constants.new.keys ≡ fold with_constant constants.old.keys (large_of func.now.content)) }
{
    for block in func.blocks() {
        let insts = block.insts();
        add_block(constants, insts)?;
    }
    Ok(())
}

fn add_block(constants: &mut IndexSet<u64>, insts: &[Inst]) -> Result<(), Memory>
    ensures { OnOk result (constants.new.keys ≡ fold with_constant constants.old.keys (flat_map large_in insts.now)) }
{
    for inst in insts {
        add_inst(constants, inst)?;
    }
    Ok(())
}

fn add_inst(constants: &mut IndexSet<u64>, inst: &Inst) -> Result<(), Memory>
    ensures { OnOk result (constants.new.keys ≡ fold with_constant constants.old.keys (large_in inst.now)) }
{
    let Op::Statepoint { .. } = inst.op() else {
        return Ok(());
    };
    add_entries(constants, inst.bundle())
}

fn add_entries(constants: &mut IndexSet<u64>, bundle: &[(Ty, Operand)]) -> Result<(), Memory>
    ensures { OnOk result (constants.new.keys
        ≡ fold with_constant constants.old.keys (flat_map (λ entry. large_number (entry_number entry.0 entry.1)) bundle.now)) }
{
    for entry in bundle {
        add_entry(constants, entry)?;
    }
    Ok(())
}

fn add_entry(constants: &mut IndexSet<u64>, entry: &(Ty, Operand)) -> Result<(), Memory>
    ensures { OnOk result (constants.new.keys ≡ fold with_constant constants.old.keys (large_number (entry_number entry.now.0 entry.now.1))) }
{
    add_number(constants, entry_number(entry.0, entry.1))
}

// Adds a number, where it needs a constant.
fn add_number(constants: &mut IndexSet<u64>, number: i64) -> Result<(), Memory>
    ensures { OnOk result (constants.new.keys ≡ fold with_constant constants.old.keys (large_number number)) }
{
    if !is_small(number) {
        constants.insert(number.cast_unsigned())?;
    }
    Ok(())
}

/// The number that an operand of a bundle is, if it isn't named.
pub(crate) fn entry_number(ty: Ty, operand: Operand) -> i64
    ensures { result ≡ entry_number ty operand }
{
    match operand {
        Operand::Int(number) => sign(width_of(ty), number),
        Operand::Value(_) | Operand::Null | Operand::Fun(_) => 0,
    }
}

fn width_of(ty: Ty) -> u32
    ensures value { result ≡ width_of ty }
    ensures some_bits { 1 ≤ result }
    ensures word { result ≤ 64 }
{
    match ty {
        Ty::Int(width) => width.min(64).max(1),
        Ty::Void | Ty::Ptr | Ty::Token => 64,
    }
}

/// Whether a location has room for the number.
pub(crate) fn is_small(number: i64) -> bool
    ensures { result ≡ is_small number }
{
    number >= -2_147_483_648 && number < 2_147_483_648
}
