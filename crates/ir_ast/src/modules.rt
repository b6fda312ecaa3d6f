//! Modules, and the form of their lines.

ghost use Rattle.std.specs.Prelude.{◌≡◌, ◌^◌, ◌<◌, length, map, option_map, slice_get, IfOk};
ghost use Rattle.ir_ast.specs.Funcs.{content_of, lines_of};
ghost use Rattle.ir_ast.specs.Modules.{line_at};

use crate::clones::try_clone_all;
use crate::funcs::Func;
use crate::layouts::Layout;
use sp_ids::{FuncId, Memory};
use std::alloc::Global;
use std::marker::Model;

/// Which forms the lines of a module have.
#[derive(Clone, Copy, Debug, PartialEq, Eq)]
pub enum Form {
    /// Without statepoints, polls and helpers.
    Source,
    /// With statepoints, and polls and helpers spelled out.
    Rewritten,
}

/// A module: its layouts, its functions and its form. Contracts see its content, a `ModuleContent`, and
/// beside it the lines of each function. It has fewer than 2^32 layouts and functions.
#[derive(Debug, Drop)]
pub struct Module {
    layouts: Vec<Layout>,
    funcs: Vec<Func>,
    form: Form,
}

impl Model for Module {
    ghost use Rattle.std.specs.Prelude.{◌^◌, ◌<◌, length, map};
    ghost use Rattle.ir_ast.specs.Funcs.{content_of, lines_of};
    ghost use Rattle.ir_ast.specs.Modules.{LinedModule};

    ghost Value = { LinedModule };

    ghost view = { λ whole. record {
      content = record { layouts = whole.layouts.items; funcs = map content_of whole.funcs.items; form = whole.form };
      lines = map lines_of whole.funcs.items;
    } };

    ghost invariant = { λ whole. (length whole.layouts.items < 2 ^ 32) × (length whole.funcs.items < 2 ^ 32) };
}

impl Module {
    /// The module with these parts; its functions keep their lines.
    pub fn of(layouts: Vec<Layout>, funcs: Vec<Func>, form: Form) -> Module
        requires few_layouts { length layouts.items < 2 ^ 32 }
        requires few_functions { length funcs.items < 2 ^ 32 }
        ensures content { result.content ≡ record { layouts = layouts.items; funcs = map content_of funcs.items; form = form } }
        ensures lines { result.lines ≡ map lines_of funcs.items }
    {
        Module {
            layouts,
            funcs,
            form,
        }
    }

    /// Gives its parts back, the functions with their lines.
    pub fn into_parts(self) -> (Vec<Layout>, Vec<Func>, Form)
        ensures layouts { result.0.items ≡ self.content.layouts }
        ensures funcs { map content_of result.1.items ≡ self.content.funcs }
        ensures form { result.2 ≡ self.content.form }
        ensures lines { map lines_of result.1.items ≡ self.lines }
        ensures few_layouts { length result.0.items < 2 ^ 32 }
        ensures few_functions { length result.1.items < 2 ^ 32 }
    {
        (self.layouts, self.funcs, self.form)
    }

    /// Its layouts.
    pub fn layouts(&self) -> &[Layout]
        ensures value { result.now ≡ self.now.content.layouts }
        ensures few { length result.now < 2 ^ 32 }
    {
        self.layouts.as_slice()
    }

    /// Its functions.
    pub fn funcs(&self) -> &[Func]
        ensures content { map content_of result.now ≡ self.now.content.funcs }
        ensures lines { map lines_of result.now ≡ self.now.lines }
        ensures few { length result.now < 2 ^ 32 }
    {
        self.funcs.as_slice()
    }

    /// The function with this number, if there is one.
    pub fn func_at(&self, place: usize) -> Option<&Func>
        ensures { option_map (λ func. func.now.content) result ≡ slice_get self.now.content.funcs place }
    {
        self.funcs.get(place)
    }

    /// Its form.
    pub fn form(&self) -> Form
        ensures { result ≡ self.now.content.form }
    {
        self.form
    }

    /// A copy of the module, its lines included.
    pub fn try_clone(&self, alloc: Global) -> Result<Module, Memory>
        ensures { IfOk result (λ copy. copy ≡ self.now) }
    {
        Ok(Module {
            layouts: try_clone_all(alloc, self.layouts.as_slice())?,
            funcs: try_clone_all(alloc, self.funcs.as_slice())?,
            form: self.form,
        })
    }

    /// The line of an instruction in the text that the module was read from, or 0 where the module
    /// wasn't read, a pass has changed it, or there is no such instruction. The place is the
    /// instruction's number in its function, from 0 in text order.
    pub fn line_of(&self, func: FuncId, place: u32) -> u32
        ensures { result ≡ line_at self.now.lines func.0 place }
    {
        match self.funcs.get(func.0 as usize) {
            None => 0,
            Some(func) => func.line_of(place),
        }
    }
}
