//! What the lines of a function can name.

use ir_ast::Form;
use ir_lines::scope::{Local, Top};

/// What the lines of a function can name.
#[derive(Clone, Copy)]
pub struct Scope<'s, 't, 'a, 'n> {
    /// The form of the text.
    pub form: Form,
    /// The names of the whole text.
    pub top: &'s Top<'t, 'a>,
    /// The names of the function.
    pub local: &'s Local<'n>,
}
