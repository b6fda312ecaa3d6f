//! The layouts of objects.

ghost use Rattle.std.specs.Prelude.{◌≡◌};
ghost use Rattle.ir_ast.specs.Sizes.{fields_in};

use crate::cells::Cell;
use crate::clones::TryClone;
use crate::names::Name;
use sp_ids::Memory;
use std::alloc::Global;
use std::marker::Model;

/// A layout `%T = type { .. }`: its name and its cells, one per field (LLVM Language Reference,
/// "Structure Type"). Contracts see an `ObjectLayout`.
#[derive(Debug, Drop)]
pub struct Layout {
    name: Name,
    fields: Vec<Cell>,
}

impl Model for Layout {
    ghost use Rattle.ir_ast.specs.Layouts.{ObjectLayout};

    ghost Value = { ObjectLayout };

    ghost view = { λ layout. record { name = layout.name; fields = layout.fields.items } };
}

impl Layout {
    /// The layout with this name and these fields.
    pub fn of(name: Name, fields: Vec<Cell>) -> Layout
        ensures { result ≡ record { name = name; fields = fields.items } }
    {
        Layout { name, fields }
    }

    /// Gives its name and its fields back.
    pub fn into_parts(self) -> (Name, Vec<Cell>)
        ensures name { result.0 ≡ self.name }
        ensures fields { result.1.items ≡ self.fields }
    {
        (self.name, self.fields)
    }

    /// Its name, without the `%`.
    pub fn name(&self) -> &Name
        ensures { result.now ≡ self.now.name }
    {
        &self.name
    }

    /// Its cells, one per field.
    pub fn fields(&self) -> &[Cell]
        ensures { result.now ≡ self.now.fields }
    {
        self.fields.as_slice()
    }

    /// The cells of the layout at a place, none where there is no such layout.
    pub fn fields_of(layouts: &[Layout], place: u32) -> &[Cell]
        ensures { result.now ≡ fields_in layouts.now place }
    {
        match layouts.get(place as usize) {
            None => &[],
            Some(layout) => layout.fields(),
        }
    }
}

impl TryClone for Layout {
    fn try_clone_in(&self, alloc: Global) -> Result<Layout, Memory> {
        Ok(Layout {
            name: self.name.try_clone_in(alloc)?,
            fields: Vec::from_slice(alloc, self.fields.as_slice())?,
        })
    }
}
