//! What a text declares, and what of it is used.
ghost use Rattle.std.specs.Prelude.{◌≡◌, IfOk};
ghost use Rattle.std.specs.List.{All};

use crate::values::{first_global, name_of};
use crate::writer::Writer;
use line_tokens::{is_family_name, is_mark, is_word};
use llvm_features::{Feature, Reason};
use sp_ids::Memory;
use sp_text::{Kind, Line, Token};
use std::alloc::Global;
use std::collections::HashSet;

/// A declaration: its line, and the function's name.
#[derive(Clone, Copy)]
pub(crate) struct Declaration<'a> {
    pub(crate) line: Line<'a>,
    pub(crate) name: &'a [u8],
}

/// What a text declares, and what of it is used.
#[derive(Drop)]
pub(crate) struct Declared<'a> {
    /// The functions that lines name which declare nothing.
    used: HashSet<&'a [u8]>,
    /// The layouts that stand.
    layouts: HashSet<&'a [u8]>,
    declarations: Vec<Declaration<'a>>,
}

impl<'a> Declared<'a> {
    pub(crate) fn new(alloc: Global) -> Declared<'a> {
        Declared {
            used: HashSet::new(alloc),
            layouts: HashSet::new(alloc),
            declarations: Vec::new(alloc),
        }
    }

    pub(crate) fn add_used(&mut self, name: &'a [u8]) -> Result<(), Memory> {
        self.used.insert(name)?;
        Ok(())
    }

    pub(crate) fn add_layout(&mut self, name: &'a [u8]) -> Result<(), Memory> {
        self.layouts.insert(name)?;
        Ok(())
    }

    /// Keeps a declaration: whether it is written is known where all lines are.
    pub(crate) fn add_declaration(
        &mut self,
        line: Line<'a>,
        tokens: &[Token<'a>],
    ) -> Result<(), Memory> {
        if let Some((name, _)) = first_global(tokens) {
            self.declarations.push(Declaration { line, name })?;
        }
        Ok(())
    }

    // Whether something names it, and it is no intrinsic that is taken away.
    fn is_needed(&self, declaration: &Declaration) -> bool {
        let name = declaration.name;
        (!name.starts_with(b"llvm.") || is_family_name(name)) && self.used.contains(&name)
    }

    /// Writes the declarations that are needed.
    pub(crate) fn put_needed(&self, writer: &mut Writer) -> Result<(), Memory> {
        for declaration in &self.declarations {
            if self.is_needed(declaration) {
                writer.line = declaration.line.number;
                writer.bytes(declaration.line.bytes)?;
                writer.end()?;
            }
        }
        Ok(())
    }

    /// The layouts that lack: those of objects that are made.
    pub(crate) fn missing(&self, alloc: Global) -> Result<HashSet<&'a [u8]>, Memory> {
        let mut missing = HashSet::new(alloc);
        for declaration in &self.declarations {
            if let Some(layout) = layout_made(declaration.name) {
                if self.is_needed(declaration) && !self.layouts.contains(&layout) {
                    missing.insert(layout)?;
                }
            }
        }
        Ok(missing)
    }

    /// A reason for each declaration whose layout is missing and wasn't found.
    pub(crate) fn reasons(
        &self,
        alloc: Global,
        missing: &HashSet<&[u8]>,
        found: &HashSet<&[u8]>,
    ) -> Result<Vec<Reason>, Memory>
        ensures { IfOk result (λ reasons. All (λ reason. reason.feature ≡ Feature.NoLayout) reasons.items) }
    {
        let mut reasons = Vec::new(alloc);
        for declaration in &self.declarations {
            if let Some(layout) = layout_made(declaration.name) {
                if (&*missing).contains(&layout) && !(&*found).contains(&layout) {
                    reasons.push(Reason {
                        line: declaration.line.number,
                        feature: Feature::NoLayout,
                    })?;
                }
            }
        }
        Ok(reasons)
    }
}

/// The name of the layout that a line has.
pub(crate) fn layout_named<'a>(tokens: &[Token<'a>]) -> Option<&'a [u8]> {
    match tokens {
        [name, equals, word, ..]
            if name.kind == Kind::Local && is_mark(equals, b"=") && is_word(word, b"type") => {
            Some(name_of(name))
        }
        _ => None,
    }
}

// The name of the layout of which a function of this name makes objects.
fn layout_made(name: &[u8]) -> Option<&[u8]> {
    match name {
        [b'g', b'c', b'_', b'n', b'e', b'w', b'.', layout @ ..] => Some(layout),
        _ => None,
    }
}
