//! What a call keeps: the operands of its "deopt" bundle.

ghost use Rattle.std.specs.Prelude.{◌≡◌, [], IfOk};
ghost use Rattle.line_forms.specs.Kept.{kept_of};

use line_parts::{TypeWord, Value};
use smallvec::SmallVec;
use std::alloc::{AllocFailed, Global};
use std::marker::Model;

/// A value that a frame keeps, with its type.
#[derive(Clone, Copy, Debug, Default)]
pub struct KeptEntry<'a> {
    pub ty: TypeWord,
    pub value: Value<'a>,
}

pub(crate) type KeptEntries<'a> = SmallVec<KeptEntry<'a>, 4>;

/// What a call keeps, in order. Most calls keep nothing: then it is the place of a pointer, and takes no memory.
#[derive(Drop)]
pub struct Kept<'a> {
    held: Held<'a>,
}

#[derive(Drop)]
pub(crate) enum Held<'a> {
    Nothing,
    Entries(Box<KeptEntries<'a>>),
}

impl<'a> Model for Kept<'a> {
    ghost use Rattle.line_forms.specs.Kept.{KeptItems, items_held};

    ghost Value = { KeptItems };

    ghost view = { λ kept. items_held kept.held };
}

impl<'a> Kept<'a> {
    /// Nothing is kept.
    #[inline(always)]
    pub fn nothing() -> Kept<'a>
        ensures { result ≡ kept_of [] }
    {
        Kept {
            held: Held::Nothing,
        }
    }

    /// These entries, in memory of their own.
    pub(crate) fn of(
        alloc: Global,
        entries: KeptEntries<'a>,
    ) -> Result<Kept<'a>, AllocFailed<KeptEntries<'a>>>
        ensures { IfOk result (λ kept. kept ≡ kept_of entries.entry.items) }
    {
        let entries = Box::new(alloc, entries)?;
        Ok(Kept {
            held: Held::Entries(entries),
        })
    }

    /// The entries.
    #[inline]
    pub fn as_slice(&self) -> &[KeptEntry<'a>]
        ensures { result.now ≡ self.now.items }
    {
        match &self.held {
            Held::Nothing => &[],
            Held::Entries(entries) => entries.as_slice(),
        }
    }
}
