//! The arguments and layouts that lines stand for.

ghost use Rattle.std.specs.Prelude.{◌≡◌, [], ◌++◌, map, IfOk, OnOk};
ghost use Rattle.line_parts.specs.Seen.{seen_type, seen_argument};
ghost use Rattle.ir_lines.specs.Sections.{arguments_named, layout_said, layouts_of};
ghost use Rattle.ir_lines.specs.Modules.{argument_of, layout_of, cell_of};
ghost use Rattle.ir_lines.specs.Views.{said, seen_lines};

use crate::build::owned;
use ir_ast::{Arg, Cell, Layout};
use ir_lines::operands::type_of;
use ir_reader::{Argument, NumberedReading, Reading, TypeWord};
use std::alloc::{AllocError, Global};

/// The arguments of a head, which have these names.
pub fn arguments_of(
    alloc: Global,
    line: u32,
    arguments: &[Argument],
    names: &[Vec<u8>],
) -> Result<Vec<Arg>, AllocError>
    requires { map (λ n. n.items) names.now ≡ map (λ one. one.name) (arguments_named line [] (map seen_argument arguments.now)) }
    ensures { IfOk result (λ args. args.items ≡ map argument_of (arguments_named line [] (map seen_argument arguments.now))) }
{
    let mut args = Vec::with_capacity(alloc, arguments.len())?;
    for (i, argument) in arguments.iter().enumerate() {
        let name = owned(alloc, names[i].as_slice())?;
        args.push(Arg {
            name,
            ty: type_of(argument.ty),
        })?;
    }
    Ok(args)
}

fn cell_of(ty: TypeWord) -> Cell
    ensures { result ≡ cell_of (seen_type ty) }
{
    Cell::of(&type_of(ty)).unwrap_or(Cell::I64)
}

fn cells_of(alloc: Global, fields: &[TypeWord]) -> Result<Vec<Cell>, AllocError>
    ensures { IfOk result (λ cells. cells.items ≡ map cell_of (map seen_type fields.now)) }
{
    let mut cells = Vec::with_capacity(alloc, fields.len())?;
    for field in fields {
        cells.push(cell_of(*field))?;
    }
    Ok(cells)
}

fn layout_of(alloc: Global, name: &[u8], fields: &[TypeWord]) -> Result<Layout, AllocError>
    ensures { IfOk result (λ made. made ≡ record { name = name.now; fields = map cell_of (map seen_type fields.now) }) }
{
    let cells = cells_of(alloc, fields)?;
    let name = owned(alloc, name)?;
    Ok(Layout::of(name, cells))
}

// Adds the layout of a line behind the others, where it is one.
fn keep_layout(
    alloc: Global,
    line: &NumberedReading,
    layouts: &mut Vec<Layout>,
) -> Result<(), AllocError>
    ensures { OnOk result (layouts.new.items ≡ layouts.old.items ++ map layout_of (layout_said line.now.line (said line.now.reading))) }
{
    match &line.reading {
        Reading::Layout { name, fields } => {
            let made = layout_of(alloc, name.bytes, fields.as_slice())?;
            layouts.push(made)?;
            Ok(())
        }
        _ => Ok(()),
    }
}

/// The layouts of lines, in their order.
pub fn layouts_of(alloc: Global, lines: &[NumberedReading]) -> Result<Vec<Layout>, AllocError>
    ensures { IfOk result (λ made. made.items ≡ map layout_of (layouts_of (seen_lines lines.now))) }
{
    let mut layouts = Vec::new(alloc);
    for line in lines {
        keep_layout(alloc, line, &mut layouts)?;
    }
    Ok(layouts)
}
