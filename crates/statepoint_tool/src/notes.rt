//! What is said on standard error where the work doesn't come to its end.
ghost use Rattle.std.specs.Prelude.{◌≡◌, ◌≤◌, OnOk, OnErr};
ghost use Rattle.tool_io.specs.Counts.{Rose};
ghost use Rattle.tool_io.specs.Sink.{append_known, AppendsFront};
ghost use Rattle.tool_report.specs.Notes.{note_text};
ghost use Rattle.statepoint_tool.specs.Notes.{cause_line, module_fault_line, plan_fault_line, refusal_line, status_of_cause, status_of_refusal};

use crate::refusal::{Cause, ModuleFault, PlanFault, Refusal};
use crate::status::Status;
use tool_io::{Failed, Sink};
use tool_report::{Note, note_line};

/// Puts the line of this refusal.
pub(crate) fn put_note<E: Sink>(refusal: &Refusal, notes: &mut E) -> Result<(), Failed>
    ensures ok { OnOk result (E.written notes.new ≡ append_known (E.written notes.old) (refusal_line refusal.now)) }
    ensures err { OnErr result (AppendsFront (E.written notes.old) (E.written notes.new) (refusal_line refusal.now)) }
    ensures failed { OnErr result (Rose (E.faults notes.old) (E.faults notes.new)) }
    ensures count { E.faults notes.old ≤ E.faults notes.new }
{
    note_line(note_of(refusal), notes)
}

fn note_of(refusal: &Refusal) -> Note<'_>
    ensures { note_text result ≡ refusal_line refusal.now }
{
    match refusal {
        Refusal::Defined(cause) => note_of_cause(cause),
        Refusal::WriteFault => Note::WriteFault,
        Refusal::Memory => Note::Memory,
    }
}

fn note_of_cause(cause: &Cause) -> Note<'_>
    ensures { note_text result ≡ cause_line cause.now }
{
    match cause {
        Cause::Words => Note::Usage,
        Cause::ReadFault(name) => Note::ReadFault { file: name.bytes() },
        Cause::TooLong(name) => Note::TooLong { file: name.bytes() },
        Cause::Module(fault) => note_of_module(fault),
        Cause::Input { line } => Note::Input { line: *line },
        Cause::Plan(fault) => note_of_plan(fault),
        Cause::Map(fault) => Note::Map {
            at: fault.at,
            code: fault.rule.code(),
        },
        Cause::Check(fault) => Note::Check {
            line: fault.line,
            code: fault.code,
        },
    }
}

fn note_of_module(fault: &ModuleFault) -> Note<'static>
    ensures { note_text result ≡ module_fault_line fault.now }
{
    match fault {
        ModuleFault::Syntax { line } => Note::Module {
            line: *line,
            code: 1,
        },
        ModuleFault::Limit { line } => Note::Module {
            line: *line,
            code: 2,
        },
        ModuleFault::Typed(fault) => Note::Module {
            line: fault.line,
            code: fault.code,
        },
        ModuleFault::TooManyRelocations => Note::Module { line: 0, code: 17 },
    }
}

fn note_of_plan(fault: &PlanFault) -> Note<'static>
    ensures { note_text result ≡ plan_fault_line fault.now }
{
    match fault {
        PlanFault::Syntax { line } => Note::Plan {
            line: *line,
            code: 1,
        },
        PlanFault::Order { line } => Note::Plan {
            line: *line,
            code: 2,
        },
        PlanFault::TwoGo { line } => Note::Plan {
            line: *line,
            code: 3,
        },
        PlanFault::Limit { line } => Note::Plan {
            line: *line,
            code: 4,
        },
    }
}

impl Refusal {
    /// The status of the program that ends so.
    pub(crate) fn status(&self) -> Status
        ensures { result ≡ status_of_refusal self.now }
    {
        match self {
            Refusal::Defined(cause) => cause.status(),
            Refusal::WriteFault => Status::WriteFault,
            Refusal::Memory => Status::WantOfMemory,
        }
    }
}

impl Cause {
    fn status(&self) -> Status
        ensures { result ≡ status_of_cause self.now }
    {
        match self {
            Cause::Words => Status::WordsRefused,
            Cause::ReadFault(_) => Status::ReadFault,
            Cause::TooLong(_) => Status::TooLong,
            Cause::Module(_) => Status::ModuleRefused,
            Cause::Input { .. } => Status::InputRefused,
            Cause::Plan(_) => Status::PlanRefused,
            Cause::Map(_) => Status::MapRefused,
            Cause::Check(_) => Status::CheckSaidNo,
        }
    }
}
