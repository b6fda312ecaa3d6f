//! The laws that the module with bases and the rewritten module of a source module are target modules. No code.
ghost use Rattle.rewritten_sound.specs.Shape.{BasedIsTarget, RewrittenIsTarget, RewrittenIsTyped};

/// The rewritten module of a typed module without groups is typed: the forms of its lines, the types of its operands, its names,
/// its limits, and the shape of its groups (Garbage Collection Safepoints in LLVM, "Intrinsics").
pub fn rewritten_is_typed()
    ensures { RewrittenIsTyped }
{}

/// The module with polls and bases of a source module is a target module, which has no group yet.
pub fn based_is_target()
    ensures { BasedIsTarget }
{}

/// The rewritten module of a source module without unreached blocks is a target module. It keeps every limit that a target module
/// has, whatever the sizes of its live lists.
pub fn rewritten_is_target()
    ensures { RewrittenIsTarget }
{}
