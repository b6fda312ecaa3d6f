//! The group of a call: whether `null` is live, and its relocates.

ghost use Rattle.std.specs.Prelude.{◌≡◌};

use sp_ids::ValueId;
use std::marker::Model;

/// A `gc.relocate` of a pointer: the pointer, and the index of its base in the "gc-live" list (Garbage Collection Safepoints in LLVM,
/// "'llvm.experimental.gc.relocate' Intrinsic").
#[derive(Clone, Copy, Debug, PartialEq, Eq)]
pub struct Relocate {
    pub value: ValueId,
    pub base: u32,
}

/// What the statepoint of a call keeps: `null` as the first "gc-live" entry where some pointer's base is `null`, and then the pointers
/// that it relocates, in this order. Contracts see a `GroupContent`.
#[derive(Debug, Drop)]
pub struct Group {
    has_null: bool,
    relocates: Vec<Relocate>,
}

impl Model for Group {
    ghost use Rattle.statepoint_insert.specs.Groups.{GroupContent};

    ghost Value = { GroupContent };

    ghost view = { λ group. record { has_null = group.has_null; relocates = group.relocates.items } };
}

impl Group {
    /// The group with these parts.
    pub fn of(has_null: bool, relocates: Vec<Relocate>) -> Group
        ensures { result ≡ record { has_null = has_null; relocates = relocates.items } }
    {
        Group {
            has_null,
            relocates,
        }
    }

    /// Whether `null` is its first "gc-live" entry.
    pub fn has_null(&self) -> bool
        ensures { result ≡ self.now.has_null }
    {
        self.has_null
    }

    /// Its relocates, in their order.
    pub fn relocates(&self) -> &[Relocate]
        ensures { result.now ≡ self.now.relocates }
    {
        self.relocates.as_slice()
    }
}
