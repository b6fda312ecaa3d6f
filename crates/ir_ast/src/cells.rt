//! What one field of an object holds.

ghost use Rattle.std.specs.Prelude.{◌≡◌, ◌≢◌, IfSome, IfNone};

use crate::types::Ty;

/// What a cell of an object holds. Each cell is 8 bytes long.
#[derive(Clone, Copy, Debug, PartialEq, Eq)]
pub enum Cell {
    /// An `i64`.
    I64,
    /// A managed pointer.
    Ptr,
}

impl Cell {
    ghost use Rattle.ir_ast.specs.Cells.{type_of, cell_in, kind_of, is_kind, word_of};
    ghost use Rattle.ir_ast.specs.declared.cells.Cell.{Cell};

    /// The cell that has this type, if there is one.
    pub fn of(ty: &Ty) -> Option<Cell>
        ensures is { result ≡ cell_in ty.now }
        ensures found { IfSome result (λ cell. type_of cell ≡ ty.now) }
        ensures none { IfNone result ((cell : Cell) → type_of cell ≢ ty.now) }
    {
        match *ty {
            Ty::Int(64) => Some(Cell::I64),
            Ty::Ptr => Some(Cell::Ptr),
            Ty::Void | Ty::Int(_) | Ty::Token => None,
        }
    }

    /// The literal that a `gc_check` has for the cell: 0 for an integer, 1 for a pointer.
    pub fn kind(&self) -> u64
        ensures { result ≡ kind_of self.now }
    {
        match self {
            Cell::I64 => 0,
            Cell::Ptr => 1,
        }
    }

    /// Whether a number is the kind of a cell.
    pub fn is_kind(number: u64) -> bool
        ensures { result ≡ is_kind number }
    {
        number < 2
    }

    /// The spelling of the cell's type.
    pub fn word(&self) -> &'static [u8]
        ensures { result.now ≡ word_of self.now }
    {
        match self {
            Cell::I64 => b"i64",
            Cell::Ptr => b"ptr addrspace(1)",
        }
    }
}
