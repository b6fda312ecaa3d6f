//! The labels and the bundle of an instruction.

ghost use Rattle.std.specs.Prelude.{◌≡◌, [], IfOk};
ghost use Rattle.ir_ast.specs.Rests.{labels_and_bundle};

use crate::clones::TryClone;
use crate::ops::Operand;
use crate::types::Ty;
use sp_ids::{BlockId, Memory};
use std::alloc::Global;
use std::marker::Model;

/// The labels of an instruction, in the order of its line, and the operands of its "deopt" bundle, with their types. Most
/// instructions have neither, and no memory is taken for a label or two.
#[derive(Debug, Drop)]
pub struct Rest {
    held: Held,
}

#[derive(Debug, Drop)]
pub(crate) enum Held {
    Nothing,
    One([BlockId; 1]),
    Two([BlockId; 2]),
    More(Box<Parts>),
}

#[derive(Debug, Drop)]
pub(crate) struct Parts {
    labels: Vec<BlockId>,
    bundle: Vec<(Ty, Operand)>,
}

impl Model for Rest {
    ghost use Rattle.ir_ast.specs.Rests.{LabelsAndBundle, parts_held};

    ghost Value = { LabelsAndBundle };

    ghost view = { λ rest. parts_held rest.held };
}

// Labels and a bundle in memory of their own.
#[inline(never)]
fn more(alloc: Global, labels: &[BlockId], bundle: Vec<(Ty, Operand)>) -> Result<Rest, Memory>
    ensures { IfOk result (λ rest. rest ≡ labels_and_bundle labels.now bundle.items) }
{
    let labels = Vec::from_slice(alloc, labels)?;
    let parts = Box::new(alloc, Parts { labels, bundle })?;
    Ok(Rest {
        held: Held::More(parts),
    })
}

impl Rest {
    /// No label, and no bundle.
    #[inline(always)]
    pub fn nothing() -> Rest
        ensures { result ≡ labels_and_bundle [] [] }
    {
        Rest {
            held: Held::Nothing,
        }
    }

    /// These labels and this bundle.
    pub fn of(alloc: Global, labels: &[BlockId], bundle: Vec<(Ty, Operand)>) -> Result<Rest, Memory>
        ensures { IfOk result (λ rest. rest ≡ labels_and_bundle labels.now bundle.items) }
    {
        if !bundle.is_empty() {
            return more(alloc, labels, bundle);
        }
        match labels {
            [] => Ok(Rest::nothing()),
            [one] => Ok(Rest {
                held: Held::One([*one]),
            }),
            [first, second] => Ok(Rest {
                held: Held::Two([*first, *second]),
            }),
            _ => more(alloc, labels, bundle),
        }
    }

    /// The labels.
    pub fn labels(&self) -> &[BlockId]
        ensures { result.now ≡ self.now.labels }
    {
        match &self.held {
            Held::Nothing => &[],
            Held::One(labels) => labels,
            Held::Two(labels) => labels,
            Held::More(parts) => parts.labels.as_slice(),
        }
    }

    /// The operands of the bundle, with their types.
    pub fn bundle(&self) -> &[(Ty, Operand)]
        ensures { result.now ≡ self.now.bundle }
    {
        match &self.held {
            Held::More(parts) => parts.bundle.as_slice(),
            _ => &[],
        }
    }
}

impl TryClone for Rest {
    fn try_clone_in(&self, alloc: Global) -> Result<Rest, Memory> {
        let bundle = Vec::from_slice(alloc, self.bundle())?;
        Rest::of(alloc, self.labels(), bundle)
    }
}
