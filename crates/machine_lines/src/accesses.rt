//! What accesses name: words of `getelementptr`, kinds of cells, and the fields of layouts.

ghost use Rattle.std.specs.Prelude.{◌≡◌};
ghost use Rattle.ir_ast.specs.Sizes.{fields_in};
ghost use Rattle.object_meaning.specs.Accesses.{cell_named};
ghost use Rattle.object_meaning.specs.Numbers.{width_of};
ghost use Rattle.machine_meaning.specs.MachineSteps.{stepped_word};

use flat_code::{element_bytes, field_bytes, width_of};
use ir_ast::{Cell, Elem, Layout, Ty};
use sp_ids::sign;

/// The kind of cell that a check's third operand names.
pub fn cell_named(kind: u64) -> Cell
    ensures { result ≡ cell_named kind }
{
    if kind == 1 { Cell::Ptr } else { Cell::I64 }
}

/// The word that a `getelementptr` gives.
pub fn stepped_word(
    layouts: &[Layout],
    elem: Elem,
    index_width: u32,
    place: Option<u32>,
    from: u64,
    index: u64,
) -> u64
    ensures { result ≡ stepped_word layouts.now elem (width_of (Ty.Int index_width)) place from index }
{
    let times = sign(width_of(&Ty::Int(index_width)), index).cast_unsigned();
    let step = times.wrapping_mul(element_bytes(layouts, elem));
    let by = step.wrapping_add(field_bytes(layouts, elem, place));
    from.wrapping_add(by)
}

/// The fields of a layout, by its place.
pub fn fields_of(layouts: &[Layout], layout: u32) -> &[Cell]
    ensures { result.now ≡ fields_in layouts.now layout }
{
    match layouts.get(layout as usize) {
        None => &[],
        Some(layout) => layout.fields(),
    }
}
