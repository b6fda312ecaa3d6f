//! What the rows of steps give, by the meaning's operators. No code.
ghost use Rattle.expansion_laws.specs.ExpansionLaws.{PicksOne, PicksExtreme, AddsWithCarry, SubtractsWithBorrow, SaturatesDown, SaturatesUp, GivesMagnitude, MultipliesChecked, FunnelsLeft, FunnelsRight};

/// The row of `smax`, `smin`, `umax` and `umin` gives one of its operands: the greater or the smaller one.
pub fn picks()
    ensures one { PicksOne }
    ensures extreme { PicksExtreme }
{}

/// The rows of `uadd.with.overflow`, `usub.with.overflow` and `umul.with.overflow` give the number, and whether it doesn't fit.
pub fn checks()
    ensures adds { AddsWithCarry }
    ensures subtracts { SubtractsWithBorrow }
    ensures multiplies { MultipliesChecked }
{}

/// The rows of `usub.sat` and `uadd.sat` stop at 0 and at the greatest number.
pub fn saturates()
    ensures down { SaturatesDown }
    ensures up { SaturatesUp }
{}

/// The row of `abs` gives the magnitude.
pub fn gives_magnitude()
    ensures { GivesMagnitude }
{}

/// The rows of `fshl` and `fshr` give a half of the two numbers side by side, shifted.
pub fn funnels()
    ensures left { FunnelsLeft }
    ensures right { FunnelsRight }
{}
