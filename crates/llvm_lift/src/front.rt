//! What the front end says of a text.
ghost use Rattle.std.specs.Prelude.{◌≡◌, ◌≤◌, length, map, IfOk};
ghost use Rattle.ir_ast.specs.Formed.{IsFormedModule};
ghost use Rattle.ir_lines.specs.Views.{seen_lines};
ghost use Rattle.ir_reader.specs.Raws.{seen_numbered};
ghost use Rattle.ir_reader.specs.Reads.{TextGives};
ghost use Rattle.ir_reader.specs.Text.{readings_in};
ghost use Rattle.ir_types.specs.Answers.{Answers};
ghost use Rattle.llvm_lift.specs.Texts.{IsJudged, IsJudgedLines, IsUnread, Prints};

use crate::kept::Kept;
use crate::refusals::Refusal;
use ir_ast::{Form, Module};
use ir_printer::print;
use ir_reader::{Raw, ReadFault, read, read_rewritten};
use ir_types::{Fault, TypeFault, typed, typed_rewritten};
use std::alloc::Global;
use tool_io::Failed;

/// What the front end says of a text.
#[derive(Drop)]
pub(crate) enum Judged {
    /// It is accepted; this is the printed text of its module.
    Printed(Vec<u8>),
    Faulty(Fault),
}

/// Reads, types and prints a text in this form.
pub(crate) fn judge_text(alloc: Global, form: Form, text: &[u8]) -> Result<Judged, Refusal>
    requires { length text.now ≤ 16777216 }
    ensures { IsJudged form text.now result }
{
    match read_as(alloc, form, text) {
        Ok(raw) => judge_raw(alloc, form, raw),
        Err(fault) => unread(fault),
    }
}

fn unread(fault: ReadFault) -> Result<Judged, Refusal>
    ensures { IsUnread fault result }
{
    match fault {
        ReadFault::Syntax { line } => Ok(Judged::Faulty(Fault { line, code: 1 })),
        ReadFault::Limit { line } => Ok(Judged::Faulty(Fault { line, code: 2 })),
        ReadFault::Memory => Err(Refusal::Memory),
    }
}

fn read_as(alloc: Global, form: Form, text: &[u8]) -> Result<Raw<'_>, ReadFault>
    requires { length text.now ≤ 16777216 }
    ensures exact { TextGives (λ raw. map seen_numbered raw.lines) result (readings_in form text.now) }
    ensures form { IfOk result (λ raw. raw.form ≡ form) }
{
    match form {
        Form::Source => read(alloc, text),
        Form::Rewritten => read_rewritten(alloc, text),
    }
}

fn judge_raw(alloc: Global, form: Form, raw: Raw) -> Result<Judged, Refusal>
    requires { raw.form ≡ form }
    ensures { IsJudgedLines form (seen_lines raw.entry.lines) result }
{
    match type_as(alloc, form, raw) {
        Ok(whole) => printed(alloc, &whole),
        Err(TypeFault::Fault(fault)) => Ok(Judged::Faulty(fault)),
        Err(TypeFault::Memory) => Err(Refusal::Memory),
    }
}

fn type_as(alloc: Global, form: Form, raw: Raw) -> Result<Module, TypeFault>
    requires { raw.form ≡ form }
    ensures answers { Answers form (seen_lines raw.entry.lines) result }
    ensures formed { IfOk result (λ whole. IsFormedModule whole.content) }
{
    match form {
        Form::Source => typed(alloc, raw),
        Form::Rewritten => typed_rewritten(alloc, raw),
    }
}

fn printed(alloc: Global, whole: &Module) -> Result<Judged, Refusal>
    requires { IsFormedModule whole.now.content }
    ensures { Prints whole.now.content result }
{
    let mut kept = Kept::new(alloc);
    match print(whole, &mut kept) {
        Ok(()) => Ok(Judged::Printed(kept.into_bytes())),
        Err(Failed) => Err(Refusal::Memory),
    }
}
