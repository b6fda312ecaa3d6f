//! The laws that the rewritten function has no fault of the verifier. No code.
ghost use Rattle.rewritten_sound.specs.Pairs.{BasesHavePairs, FittingIsVerified, FittingSourceIsVerified, SourceIsVerified, SourceTakesBases};

/// The rewritten function has no fault that the verifier tells, whichever phis are inserted, as long as the names of its relocated
/// pointers fit at every edge (Garbage Collection Safepoints in LLVM, "Safepoint Semantics & Verification").
pub fn fitting_is_verified()
    ensures { FittingIsVerified }
{}

/// In a typed function whose uses are definite and whose derived phis and selects have their bases directly before them, each live
/// pointer has its base beside it: the base is live, no line defines it again, and over each edge it comes with the pointer.
pub fn bases_have_pairs()
    ensures { BasesHavePairs }
{}

/// The lines of a source module with polls and bases take pointers with their bases: what a line stores, passes, returns or compares is
/// its own base, checks and `gc_same` take the bases of their operands, and each access has its check directly before it.
pub fn source_takes_bases()
    ensures { SourceTakesBases }
{}

/// The rewritten module of a source module without unreached blocks is verified.
pub fn source_is_verified()
    ensures { SourceIsVerified }
{}

/// The module under any choice of names that fit is verified.
pub fn fitting_source_is_verified()
    ensures { FittingSourceIsVerified }
{}
