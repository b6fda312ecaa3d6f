//! Laws of the bases of the function with bases, in the manual's terms. No code.
ghost use Rattle.base_definite.specs.Relations.{TableHasBases};

/// In each function of a source module without unreached blocks, derived phis and selects have their bases directly before
/// them, and the table of bases has the base of each value.
pub fn table_has_bases()
    ensures { TableHasBases }
{}
