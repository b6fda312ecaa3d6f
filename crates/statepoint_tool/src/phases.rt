//! The phases that take a file and read it.
ghost use Rattle.std.specs.Prelude.{◌≡◌, ◌≤◌, ◌∷◌, ℕ, List, length, map, vec_len, IfOk, [], OnOk};
ghost use Rattle.tool_io.specs.Counts.{NoneFell};
ghost use Rattle.tool_io.specs.Takes.{TakesFirst};
ghost use Rattle.tool_io.specs.Told.{append_told};
ghost use Rattle.ir_ast.specs.Formed.{IsFormedModule};
ghost use Rattle.ir_cfg.specs.TypedModules.{IsModuleOf};
ghost use Rattle.ir_lines.specs.Views.{seen_lines};
ghost use Rattle.ir_reader.specs.Raws.{seen_numbered};
ghost use Rattle.ir_reader.specs.Reads.{TextGives};
ghost use Rattle.ir_reader.specs.Text.{readings_in};
ghost use Rattle.ir_types.specs.Answers.{Answers};
ghost use Rattle.statepoint_tool.specs.Answers.{Agrees, Reads};
ghost use Rattle.statepoint_tool.specs.Steps.{Step, Go, comes_to};
ghost use Rattle.statepoint_tool.specs.Taken.{files_seen};
ghost use Rattle.statepoint_tool.specs.Work.{reading, module_phase, ReadingInput, ReadingPlan, Typing};

use crate::refusal::{Cause, ModuleFault, PlanFault, Refusal};
use ir_ast::{Form, Module};
use ir_reader::{Raw, ReadFault, read, read_rewritten};
use ir_types::{TypeFault, typed, typed_rewritten};
use move_plan::{InputFault, Plan, PlanFault as TextFault, read_input};
use sp_ids::limits;
use std::alloc::Global;
use tool_io::{Files, TakeFault};
use tool_words::FileName;

/// The bytes of the file of this name.
pub(crate) fn take<F: Files>(
    alloc: Global,
    files: &mut F,
    name: FileName,
) -> Result<Vec<u8>, Refusal>
    ensures took { Reads (files_seen (F.contents files.old) (F.faults files.old) (F.faults files.new)) name
        (λ bytes. comes_to (Go bytes)) (λ bytes. bytes.items) result }
    ensures bound { IfOk result (λ bytes. vec_len bytes ≤ 16777216) }
    ensures kept { F.contents files.new ≡ F.contents files.old }
    ensures counted { NoneFell (F.faults files.old) (F.faults files.new) }
    ensures takes_first { TakesFirst (name ∷ []) (F.taken files.old) (F.taken files.new) }
    ensures takes_all { OnOk result (F.taken files.new ≡ append_told (F.taken files.old) (name ∷ [])) }
{
    match files.take(alloc, name.as_str(), limits::FILE_BYTES) {
        Ok(bytes) => Ok(bytes),
        Err(TakeFault::Failed) => Err(Refusal::Defined(Cause::ReadFault(name))),
        Err(TakeFault::TooLong) => Err(Refusal::Defined(Cause::TooLong(name))),
        Err(TakeFault::Memory) => Err(Refusal::Memory),
    }
}

/// The module of this form in the file of this name.
pub(crate) fn take_module<F: Files>(
    alloc: Global,
    form: Form,
    files: &mut F,
    name: FileName,
) -> Result<Module, Refusal>
    ensures read { Reads (files_seen (F.contents files.old) (F.faults files.old) (F.faults files.new)) name
        (module_phase form) (λ read. read) result }
    ensures formed { IfOk result (λ read. IsFormedModule read.content) }
    ensures of_form { IfOk result (λ read. IsModuleOf form read.content) }
    ensures kept { F.contents files.new ≡ F.contents files.old }
    ensures counted { NoneFell (F.faults files.old) (F.faults files.new) }
    ensures takes_first { TakesFirst (name ∷ []) (F.taken files.old) (F.taken files.new) }
    ensures takes_all { OnOk result (F.taken files.new ≡ append_told (F.taken files.old) (name ∷ [])) }
{
    let text = take(alloc, files, name)?;
    module_in(alloc, form, &text)
}

/// The numbers of the input in the file of this name.
pub(crate) fn take_input<F: Files>(
    alloc: Global,
    files: &mut F,
    name: FileName,
) -> Result<Vec<i64>, Refusal>
    ensures read { Reads (files_seen (F.contents files.old) (F.faults files.old) (F.faults files.new)) name
        ReadingInput (λ numbers. numbers.items) result }
    ensures kept { F.contents files.new ≡ F.contents files.old }
    ensures counted { NoneFell (F.faults files.old) (F.faults files.new) }
    ensures takes_first { TakesFirst (name ∷ []) (F.taken files.old) (F.taken files.new) }
    ensures takes_all { OnOk result (F.taken files.new ≡ append_told (F.taken files.old) (name ∷ [])) }
{
    let text = take(alloc, files, name)?;
    input_in(alloc, &text)
}

/// The plan in the file of this name.
pub(crate) fn take_plan<F: Files>(
    alloc: Global,
    files: &mut F,
    name: FileName,
) -> Result<Plan, Refusal>
    ensures read { Reads (files_seen (F.contents files.old) (F.faults files.old) (F.faults files.new)) name
        ReadingPlan (λ plan. plan) result }
    ensures kept { F.contents files.new ≡ F.contents files.old }
    ensures counted { NoneFell (F.faults files.old) (F.faults files.new) }
    ensures takes_first { TakesFirst (name ∷ []) (F.taken files.old) (F.taken files.new) }
    ensures takes_all { OnOk result (F.taken files.new ≡ append_told (F.taken files.old) (name ∷ [])) }
{
    let text = take(alloc, files, name)?;
    plan_in(alloc, &text)
}

// The readings of a text in this form.
fn read_in(alloc: Global, form: Form, text: &[u8]) -> Result<Raw<'_>, Refusal>
    requires { length text.now ≤ 16777216 }
    ensures read { Agrees (λ raw. seen_lines raw.lines) result (reading form text.now) }
    ensures form { IfOk result (λ raw. raw.form ≡ form) }
{
    match read_as(alloc, form, text) {
        Ok(raw) => Ok(raw),
        Err(ReadFault::Syntax { line }) => {
            Err(Refusal::Defined(Cause::Module(ModuleFault::Syntax { line })))
        }
        Err(ReadFault::Limit { line }) => {
            Err(Refusal::Defined(Cause::Module(ModuleFault::Limit { line })))
        }
        Err(ReadFault::Memory) => Err(Refusal::Memory),
    }
}

fn read_as(alloc: Global, form: Form, text: &[u8]) -> Result<Raw<'_>, ReadFault>
    requires { length text.now ≤ 16777216 }
    ensures exact { TextGives (λ raw. map seen_numbered raw.lines) result (readings_in form text.now) }
    ensures form { IfOk result (λ raw. raw.form ≡ form) }
{
    match form {
        Form::Source => read(alloc, text),
        Form::Rewritten => read_rewritten(alloc, text),
    }
}

// The module of this form that readings stand for.
fn type_in(alloc: Global, form: Form, raw: Raw) -> Result<Module, Refusal>
    requires { raw.form ≡ form }
    ensures typed { Agrees (λ read. read) result (Typing form (seen_lines raw.entry.lines)) }
    ensures formed { IfOk result (λ read. IsFormedModule read.content) }
    ensures of_form { IfOk result (λ read. IsModuleOf form read.content) }
{
    match type_as(alloc, form, raw) {
        Ok(read) => Ok(read),
        Err(TypeFault::Fault(fault)) => {
            Err(Refusal::Defined(Cause::Module(ModuleFault::Typed(fault))))
        }
        Err(TypeFault::Memory) => Err(Refusal::Memory),
    }
}

fn type_as(alloc: Global, form: Form, raw: Raw) -> Result<Module, TypeFault>
    requires { raw.form ≡ form }
    ensures answers { Answers form (seen_lines raw.entry.lines) result }
    ensures formed { IfOk result (λ whole. IsFormedModule whole.content) }
    ensures of_form { IfOk result (λ whole. IsModuleOf form whole.content) }
{
    match form {
        Form::Source => typed(alloc, raw),
        Form::Rewritten => typed_rewritten(alloc, raw),
    }
}

/// The module of this form that a text stands for.
pub(crate) fn module_in(alloc: Global, form: Form, text: &[u8]) -> Result<Module, Refusal>
    requires { length text.now ≤ 16777216 }
    ensures read { Agrees (λ read. read) result (module_phase form text.now) }
    ensures formed { IfOk result (λ read. IsFormedModule read.content) }
    ensures of_form { IfOk result (λ read. IsModuleOf form read.content) }
{
    let raw = read_in(alloc, form, text)?;
    type_in(alloc, form, raw)
}

fn input_in(alloc: Global, text: &[u8]) -> Result<Vec<i64>, Refusal>
    requires { length text.now ≤ 16777216 }
    ensures { Agrees (λ numbers. numbers.items) result (ReadingInput text.now) }
{
    match read_input(alloc, text) {
        Ok(numbers) => Ok(numbers),
        Err(InputFault::Line { line }) => Err(Refusal::Defined(Cause::Input { line })),
        Err(InputFault::Memory) => Err(Refusal::Memory),
    }
}

fn plan_in(alloc: Global, text: &[u8]) -> Result<Plan, Refusal>
    requires { length text.now ≤ 16777216 }
    ensures { Agrees (λ plan. plan) result (ReadingPlan text.now) }
{
    match Plan::read(alloc, text) {
        Ok(plan) => Ok(plan),
        Err(TextFault::Syntax { line }) => Err(refused(PlanFault::Syntax { line })),
        Err(TextFault::Order { line }) => Err(refused(PlanFault::Order { line })),
        Err(TextFault::TwoGo { line }) => Err(refused(PlanFault::TwoGo { line })),
        Err(TextFault::Limit { line }) => Err(refused(PlanFault::Limit { line })),
        Err(TextFault::Memory) => Err(Refusal::Memory),
    }
}

fn refused(fault: PlanFault) -> Refusal
    ensures { result ≡ Refusal.Defined (Cause.Plan fault) }
{
    Refusal::Defined(Cause::Plan(fault))
}
