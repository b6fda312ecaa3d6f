//! The module that readings stand for, or the first fault.

ghost use Rattle.std.specs.Prelude.{◌≡◌, IfOk};
ghost use Rattle.std.specs.List.{All};
ghost use Rattle.ir_ast.specs.Formed.{IsFormedModule};
ghost use Rattle.ir_cfg.specs.TypedModules.{IsModuleOf};
ghost use Rattle.ir_cfg.specs.SourceModules.{IsSourceModule};
ghost use Rattle.ir_cfg.specs.TargetModules.{IsTargetModule};
ghost use Rattle.ir_types.specs.Answers.{Answers, PathsAnswer};
ghost use Rattle.module_laws.specs.TextFunctions.{HasFewInstructions};
ghost use Rattle.ir_lines.specs.Views.{seen_lines};

use crate::faults::TypeFault;
use crate::paths::first_missed;
use ir_ast::{Form, Module};
use ir_lines::faults::Fault;
use ir_reader::Raw;
use ir_verify::first_broken;
use std::alloc::Global;
use text_resolve::resolve;

/// The source module that the readings of a text in the source form stand for, with the lines of its instructions; or
/// the first of its faults, the least line and of that the least code. Whether uses are definite is judged over the
/// paths of a module without another fault. [`TypeFault::Memory`] says nothing of the text.
pub fn typed(alloc: Global, raw: Raw) -> Result<Module, TypeFault>
    requires { raw.form ≡ Form.Source }
    ensures answers { Answers Form.Source (seen_lines raw.entry.lines) result }
    ensures source { IfOk result (λ whole. IsSourceModule whole.content) }
    ensures formed { IfOk result (λ whole. IsFormedModule whole.content) }
{
    checked(alloc, raw)
}

/// The target module that the readings of a text in the rewritten form stand for, likewise, or the first of its faults.
pub fn typed_rewritten(alloc: Global, raw: Raw) -> Result<Module, TypeFault>
    requires { raw.form ≡ Form.Rewritten }
    ensures answers { Answers Form.Rewritten (seen_lines raw.entry.lines) result }
    ensures target { IfOk result (λ whole. IsTargetModule whole.content) }
    ensures few_instructions { IfOk result (λ whole. All HasFewInstructions whole.content.funcs) }
    ensures formed { IfOk result (λ whole. IsFormedModule whole.content) }
{
    checked(alloc, raw)
}

// The module of readings in their form, or the first fault: the text is resolved, and the module that came of it is verified.
fn checked(alloc: Global, raw: Raw) -> Result<Module, TypeFault>
    ensures answers { Answers raw.entry.form (seen_lines raw.entry.lines) result }
    ensures module { IfOk result (λ whole. IsModuleOf raw.entry.form whole.content) }
    ensures few_instructions { IfOk result (λ whole. All HasFewInstructions whole.content.funcs) }
    ensures formed { IfOk result (λ whole. IsFormedModule whole.content) }
{
    let form = raw.form();
    let text = resolve(alloc, form, raw.into_lines())?;
    match first_broken(alloc, &text.whole, text.cases.as_slice(), text.fault)? {
        Some(fault) => Err(TypeFault::Fault(fault)),
        None => with_paths(alloc, text.whole),
    }
}

// The module of a text without a fault but those of paths, or the first of these.
fn with_paths(alloc: Global, whole: Module) -> Result<Module, TypeFault>
    requires { IsFormedModule whole.content }
    ensures { PathsAnswer whole result }
{
    match first_missed(alloc, &whole)? {
        Some(line) => Err(TypeFault::Fault(Fault { line, code: 8 })),
        None => Ok(whole),
    }
}
