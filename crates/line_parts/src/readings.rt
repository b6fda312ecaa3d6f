//! What the parts of lines say: types, values and arguments.

use line_tokens::{Literal, Width};
use smallvec::SmallVec;
use sp_text::Name;

/// A type as a line spells it.
#[derive(Clone, Copy, Debug, PartialEq, Eq, Default)]
pub enum TypeWord {
    #[default]
    Void,
    /// `iN`
    Int(Width),
    /// `ptr addrspace(1)`.
    Managed,
    /// `ptr`, where a line may say so.
    Plain,
}

/// A value that an instruction uses. Names stand without their mark.
#[derive(Clone, Copy, Debug, Default)]
pub enum Value<'a> {
    Local(Name<'a>),
    Number(Literal),
    Truth(bool),
    #[default]
    Null,
}

/// An argument of a definition, with its name where the line gives one.
#[derive(Clone, Copy, Debug, Default)]
pub struct Argument<'a> {
    pub ty: TypeWord,
    pub name: Option<Name<'a>>,
}

/// What a call passes.
#[derive(Clone, Copy, Debug)]
pub enum Passed<'a> {
    Value(TypeWord, Value<'a>),
    /// `ptr @NAME`, which only `task_start` takes.
    Function(Name<'a>),
}

impl Default for Passed<'_> {
    fn default() -> Self {
        Passed::Value(TypeWord::Void, Value::Null)
    }
}

/// An entry of a phi: the value where control comes from the label.
#[derive(Clone, Copy, Debug)]
pub struct Entry<'a> {
    pub value: Value<'a>,
    pub label: Name<'a>,
}

impl Default for Entry<'_> {
    fn default() -> Self {
        Entry {
            value: Value::Null,
            label: Name { bytes: b"0" },
        }
    }
}

/// The fields of a layout.
pub type Fields = SmallVec<TypeWord, 4>;
/// The arguments of a head.
pub type Arguments<'a> = SmallVec<Argument<'a>, 1>;
/// What a call passes, in order.
pub type AllPassed<'a> = SmallVec<Passed<'a>, 1>;
/// The entries of a phi.
pub type Entries<'a> = SmallVec<Entry<'a>, 1>;
