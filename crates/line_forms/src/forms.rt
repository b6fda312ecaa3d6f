//! The forms of lines.

use line_tokens::{Binary, Cast, Conversion};

/// A line outside functions that is read and says nothing.
#[derive(Clone, Copy, Debug, PartialEq, Eq)]
pub enum DroppedLine {
    SourceFilename,
    DataLayout,
    Triple,
    Attributes,
    /// A declaration of a statepoint, a result or a relocate.
    Family,
}

/// A form of a line that is made of tokens.
#[derive(Clone, Copy, Debug, PartialEq, Eq)]
pub enum Form {
    Dropped(DroppedLine),
    Layout,
    Declare,
    Define,
    Close,
    Binary(Binary),
    Compare,
    Convert(Conversion),
    Select,
    Phi,
    /// A `getelementptr` over integers or pointers.
    ScalarElement,
    /// A `getelementptr` over a layout.
    LayoutElement,
    Load,
    Store,
    ValueCall,
    VoidCall,
    Jump,
    Branch,
    Switch,
    Case,
    SwitchEnd,
    ReturnVoid,
    Return,
    Unreachable,
    Cast(Cast),
    Statepoint,
    GcResult,
    GcRelocate,
}
