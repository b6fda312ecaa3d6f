//! Where the cells of objects stand among all cells, and how many bytes they take.

ghost use Rattle.std.specs.Prelude.{◌≡◌};
ghost use Rattle.cell_rows.specs.Rows.{AreOrdered, bytes_of, place_in};

/// The bytes of a cell.
const CELL_BYTES: u64 = 8;

/// An object: its layout by its place, how many elements it has, and where its cells stand.
#[derive(Clone, Copy, Debug, PartialEq, Eq)]
pub struct Shape {
    pub count: u64,
    pub layout: u32,
    pub first: u32,
    pub cells: u32,
}

/// Where a cell of an object stands, if the object has it.
pub fn place_of(shapes: &[Shape], object: usize, cell: u64) -> Option<usize>
    requires { AreOrdered shapes.now }
    ensures { result ≡ place_in shapes.now object cell }
{
    if object >= shapes.len() {
        return None;
    }
    let shape = shapes[object];
    if cell < u64::from(shape.cells) {
        Some(shape.first as usize + cell as usize)
    } else {
        None
    }
}

/// The bytes that an object with so many cells takes, which differ from none.
#[inline(always)]
pub fn bytes_of(cells: u32) -> u64
    ensures { result ≡ bytes_of cells }
{
    (u64::from(cells) * CELL_BYTES).max(CELL_BYTES)
}
