//! The laws that the bases of the function with bases are those of the manual's relation, and that uses and bases stay definite there.
//! No code.
#![tactic(auto)]

ghost use Rattle.base_definite.specs.Statements.{BasedBasesStay, BasedHasDefiniteBases, BasedIsDefinite};

pub mod base_paths;
pub mod base_relations;

/// In the module with polls and bases of a source module every path to a use meets the definition before it.
pub fn based_is_definite()
    ensures { BasedIsDefinite }
{}

/// In each of its functions without unreached blocks, derived phis and selects have their bases directly before them, the
/// values have names of their own, and uses are definite.
pub fn based_has_definite_bases()
    ensures { BasedHasDefiniteBases }
{}

/// So there no path comes to a use of a derived pointer with its base defined since the pointer was.
pub fn based_bases_stay()
    ensures { BasedBasesStay }
{}
