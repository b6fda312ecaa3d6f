//! A text resolved: the module that its lines stand for, whatever their faults, with the line of each instruction and
//! of each case of a `switch`, and the first of the faults that resolving loses (LLVM Language Reference, in this
//! project's profile).
#![tactic(auto)]

ghost use Rattle.std.specs.Prelude.{List};
ghost use Rattle.ir_ast.specs.declared.modules.Form.{Form};
ghost use Rattle.ir_lines.specs.Statements.{Line};
ghost use Rattle.ir_lines.specs.TextLines.{IsTextLines};
ghost use Rattle.module_build.specs.Placed.{IsPlaced};

mod bodies;
mod functions;
mod texts;
mod tops;

pub use texts::{Resolution, resolve};

/// The law that the lines of each text that was read can be resolved.
pub fn read_lines_are_placed()
    ensures { (form : Form) (lines : List Line) → IsTextLines form lines → IsPlaced lines }
{}
