//! The whole map.
ghost use Rattle.std.specs.Prelude.{◌≡◌, IfOk};
ghost use Rattle.ir_cfg.specs.TargetModules.{IsTargetModule};
ghost use Rattle.frame_forms.specs.ModuleLayouts.{layout_of};
ghost use Rattle.map_bytes.specs.Maps.{map_bytes, IsMapOf};
ghost use Rattle.map_bytes.specs.Fits.{MapFits};
ghost use Rattle.stackmap_write.specs.ModuleMaps.{map_of};
ghost use Rattle.stackmap_write.specs.TargetMaps.{AddressesRise, EachHasMap};

use crate::constants::constants_of;
use crate::heads::{put_constants, put_heads};
use crate::records::put_records;
use crate::sizes::map_size;
use frame_slots::Layouts;
use ir_ast::Module;
use sp_ids::Memory;
use std::alloc::Global;

/// The bytes of the stack map of a target module (LLVM, "Stack maps and patch points", "Stack Map Format", version 3). The
/// layouts are those of the module.
pub fn write(alloc: Global, module: &Module, layouts: &Layouts) -> Result<Vec<u8>, Memory>
    requires target { IsTargetModule «module».now.content }
    requires of_module { layouts.now ≡ layout_of «module».now.content }
    ensures value { IfOk result (λ bytes. bytes.items ≡ map_bytes (map_of «module».now.content)) }
    ensures is_map { IfOk result (λ bytes. IsMapOf bytes.items (map_of «module».now.content)) }
{
    write_fitting(alloc, module, layouts)
}

// The bytes of a map whose numbers fit in their fields.
fn write_fitting(alloc: Global, module: &Module, layouts: &Layouts) -> Result<Vec<u8>, Memory>
    requires of_module { layouts.now ≡ layout_of «module».now.content }
    requires fits { MapFits (map_of «module».now.content) }
    ensures { IfOk result (λ bytes. bytes.items ≡ map_bytes (map_of «module».now.content)) }
{
    let constants = constants_of(alloc, module)?;
    let funcs = module.funcs();
    let mut bytes = Vec::with_capacity(alloc, map_size(module, constants.len(), layouts))?;
    put_heads(&mut bytes, constants.len() as u32, layouts)?;
    put_constants(&mut bytes, constants.as_slice())?;
    for func in funcs {
        put_records(&mut bytes, &constants, func)?;
    }
    Ok(bytes)
}

/// Every target module has a stack map.
pub fn target_has_map()
    ensures { EachHasMap }
{}

/// The records of a target module's map have rising return addresses, so that no two have the same.
pub fn addresses_rise()
    ensures { AddressesRise }
{}
