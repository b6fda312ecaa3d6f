//! How many bytes a map has.
ghost use Rattle.std.specs.Prelude.{◌≡◌, ◌<◌, ◌^◌, length};
ghost use Rattle.ir_ast.specs.Funcs.{instructions_of};
ghost use Rattle.frame_forms.specs.ModuleLayouts.{layout_of};
ghost use Rattle.map_bytes.specs.Maps.{map_bytes};
ghost use Rattle.map_bytes.specs.Fits.{MapFits};
ghost use Rattle.stackmap_write.specs.ModuleMaps.{map_of};
ghost use Rattle.stackmap_write.specs.Sizes.{record_size, records_size};

use crate::heads::entry_count;
use frame_slots::{Layouts, group_size};
use ir_ast::{Func, Inst, Module, Op};

/// Bytes of the header.
const HEADER: usize = 16;

/// Bytes of a function's entry.
const ENTRY: usize = 24;

/// Bytes of a constant.
const CONSTANT: usize = 8;

/// How many bytes the map of a module has, with its number of constants.
pub(crate) fn map_size(module: &Module, constants: usize, layouts: &Layouts) -> usize
    requires constants { constants ≡ length (map_of «module».now.content).constants }
    requires of_module { layouts.now ≡ layout_of «module».now.content }
    requires fits { MapFits (map_of «module».now.content) }
    ensures { result ≡ length (map_bytes (map_of «module».now.content)) }
{
    let funcs = module.funcs();
    let mut size = HEADER + ENTRY * entry_count(layouts) as usize + CONSTANT * constants;
    for func in funcs {
        size += records_size(func);
    }
    size
}

// How many bytes the records of a function have.
fn records_size(func: &Func) -> usize
    requires { records_size (instructions_of func.now.content.blocks) < 2 ^ 60 }
    ensures { result ≡ records_size (instructions_of func.now.content.blocks) }
{
    let mut size = 0;
    for block in func.blocks() {
        let insts = block.insts();
        size += block_size(insts);
    }
    size
}

fn block_size(insts: &[Inst]) -> usize
    requires { records_size insts.now < 2 ^ 60 }
    ensures { result ≡ records_size insts.now }
{
    let mut size = 0;
    for (index, inst) in insts.iter().enumerate() {
        if let Op::Statepoint { .. } = inst.op() {
            let rest = &insts[index + 1..];
            size += record_size(inst.bundle().len(), &rest[..group_size(inst, rest)]);
        }
    }
    size
}

// How many bytes the record of a group has, with so many "deopt" locations.
fn record_size(deopts: usize, group: &[Inst]) -> usize
    requires { deopts < 2 ^ 59 }
    ensures { result ≡ record_size deopts group.now }
{
    let relocates = group
        .iter()
        .filter(|inst| matches!(inst.op(), Op::GcRelocate))
        .count();
    let places = 16 + 12 * (3 + deopts + 2 * relocates);
    let padding = if places % 8 == 0 { 0 } else { 4 };
    places + padding + 8
}
