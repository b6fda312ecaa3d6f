//! The law that on every path a derived pointer is defined again where its base is, before it is used. No code.
ghost use Rattle.base_definite.specs.Paths.{BasesStay};

/// No path has a definition of a pointer's base between the last definition of the pointer and a use of it.
pub fn bases_stay()
    ensures { BasesStay }
{}
