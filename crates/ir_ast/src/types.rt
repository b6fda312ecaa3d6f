//! The types of values, and lists of them.

ghost use Rattle.std.specs.Prelude.{◌≡◌, [], IfOk};
ghost use Rattle.ir_ast.specs.Types.{is_pointer};

use crate::clones::TryClone;
use sp_ids::Memory;
use std::alloc::Global;
use std::marker::Model;

/// A type of the profile (LLVM Language Reference, "Type System").
#[derive(Clone, Copy, Debug, PartialEq, Eq)]
pub enum Ty {
    Void,
    /// `iN`, with its width in bits.
    Int(u32),
    /// `ptr addrspace(1)`, a managed pointer.
    Ptr,
    /// `token`, the type of a statepoint.
    Token,
}

impl Ty {
    /// Whether it is the type of managed pointers.
    pub fn is_pointer(self) -> bool
        ensures { result ≡ is_pointer self }
    {
        matches!(self, Ty::Ptr)
    }
}

/// The types of the arguments of a call. Contracts see a list of `Ty`. No memory is taken for one or two, nor
/// for those of `gc_check`.
#[derive(Debug, Drop)]
pub struct Types {
    listed: Listed,
}

#[derive(Debug, Drop)]
pub(crate) enum Listed {
    Nothing,
    One([Ty; 1]),
    Two([Ty; 2]),
    // those of `gc_check`, which stands before each access
    Check,
    More(Box<Vec<Ty>>),
}

impl Model for Types {
    ghost use Rattle.std.specs.Prelude.{List};
    ghost use Rattle.ir_ast.specs.declared.types.Ty.{Ty};
    ghost use Rattle.ir_ast.specs.TypeLists.{types_listed};

    ghost Value = { List Ty };

    ghost view = { λ types. types_listed types.listed };
}

// Types in memory of their own.
#[inline(never)]
fn more(alloc: Global, list: &[Ty]) -> Result<Types, Memory>
    ensures { IfOk result (λ types. types ≡ list.now) }
{
    let items = Vec::from_slice(alloc, list)?;
    let listed = Box::new(alloc, items)?;
    Ok(Types {
        listed: Listed::More(listed),
    })
}

impl Types {
    /// No type.
    #[inline(always)]
    pub fn nothing() -> Types
        ensures { result ≡ [] }
    {
        Types {
            listed: Listed::Nothing,
        }
    }

    /// These types, in this order.
    pub fn of(alloc: Global, list: &[Ty]) -> Result<Types, Memory>
        ensures { IfOk result (λ types. types ≡ list.now) }
    {
        match list {
            [] => Ok(Types::nothing()),
            [one] => Ok(Types {
                listed: Listed::One([*one]),
            }),
            [first, second] => Ok(Types {
                listed: Listed::Two([*first, *second]),
            }),
            [Ty::Ptr, Ty::Ptr, Ty::Int(64)] => Ok(Types {
                listed: Listed::Check,
            }),
            _ => more(alloc, list),
        }
    }

    /// The types, in their order.
    pub fn list(&self) -> &[Ty]
        ensures { result.now ≡ self.now }
    {
        match &self.listed {
            Listed::Nothing => &[],
            Listed::One(types) => types,
            Listed::Two(types) => types,
            Listed::Check => &[Ty::Ptr, Ty::Ptr, Ty::Int(64)],
            Listed::More(types) => types.as_slice(),
        }
    }
}

impl TryClone for Types {
    fn try_clone_in(&self, alloc: Global) -> Result<Types, Memory> {
        Types::of(alloc, self.list())
    }
}
