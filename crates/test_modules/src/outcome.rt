//! What becomes of a text.

ghost use Rattle.std.specs.Prelude.{◌≤◌, length, IfOk};
ghost use Rattle.sp_ids.specs.declared.limits.TheConstants.{FILE_BYTES};
ghost use Rattle.ir_ast.specs.Formed.{IsFormedModule};

use ir_ast::{Form, Module};
use ir_printer::print;
use ir_reader::{Raw, ReadFault, Woven, read, read_rewritten};
use ir_types::{Fault, TypeFault, typed, typed_rewritten};
use sp_ids::Memory;
use std::alloc::Global;
use std::fmt;
use tool_io::MemSink;

// More than the printed text of any text of the benches or of a case has.
const MOST_PRINTED: usize = 20_000_000;

/// How far a text is worked on.
#[derive(Clone, Copy)]
pub(crate) enum Step {
    Reading,
    Typing,
    Printing,
    /// The lines of the module's instructions are told.
    Lines,
}

/// What becomes of a text.
#[derive(Drop)]
pub(crate) enum Outcome {
    /// So many lines have a reading, and none lacks one.
    Readings(usize),
    /// The first fault.
    Fault(Fault),
    /// It stands for a module.
    Module,
    /// The module's printed text.
    Printed(Vec<u8>),
    /// The lines of the module's instructions.
    Lines(Vec<u32>),
    /// The text or its printed text is longer than any may be here.
    TooLong,
}

impl fmt::Display for Outcome {
    fn fmt<W: fmt::Write>(&self, f: &mut fmt::Formatter<W>) -> fmt::Result {
        match self {
            Outcome::Readings(count) => write!(f, "{count} readings"),
            Outcome::Fault(fault) => write!(f, "code {} at line {}", fault.code, fault.line),
            Outcome::Module => f.write_str("a module"),
            Outcome::Printed(text) => write!(f, "{} bytes printed", text.len()),
            Outcome::Lines(lines) => write!(f, "instructions at lines {lines:?}"),
            Outcome::TooLong => f.write_str("a text that is too long"),
        }
    }
}

/// What becomes of a text of this form, as far as it is worked on.
pub(crate) fn outcome_of(
    alloc: Global,
    form: Form,
    text: &[u8],
    step: Step,
) -> Result<Outcome, Memory>
    requires { length text.now ≤ FILE_BYTES }
{
    let found = match form {
        Form::Source => read(alloc, text),
        Form::Rewritten => read_rewritten(alloc, text),
    };
    match found {
        Ok(raw) => of_readings(alloc, raw, step),
        Err(ReadFault::Syntax { line }) => Ok(Outcome::Fault(Fault { line, code: 1 })),
        Err(ReadFault::Limit { line }) => Ok(Outcome::Fault(Fault { line, code: 2 })),
        Err(ReadFault::Memory) => Err(Memory),
    }
}

fn of_readings(alloc: Global, raw: Raw, step: Step) -> Result<Outcome, Memory> {
    if let Step::Reading = step {
        return Ok(Outcome::Readings(count_of(raw.into_lines())));
    }
    match typed_in(alloc, raw) {
        Ok(program) => of_module(alloc, &program, step),
        Err(TypeFault::Fault(fault)) => Ok(Outcome::Fault(fault)),
        Err(TypeFault::Memory) => Err(Memory),
    }
}

fn count_of(lines: Woven) -> usize {
    let (outer, bodies) = lines.into_parts();
    let mut count = outer.len();
    for body in &bodies {
        count = count.saturating_add(body.len());
    }
    count
}

// Types readings in the form that they were read in.
fn typed_in(alloc: Global, raw: Raw) -> Result<Module, TypeFault>
    ensures { IfOk result (λ made. IsFormedModule made.content) }
{
    match raw.form() {
        Form::Source => typed(alloc, raw),
        Form::Rewritten => typed_rewritten(alloc, raw),
    }
}

fn of_module(alloc: Global, program: &Module, step: Step) -> Result<Outcome, Memory>
    requires { IsFormedModule program.now.content }
{
    match step {
        Step::Printing => printed(alloc, program),
        Step::Lines => Ok(Outcome::Lines(lines(alloc, program)?)),
        _ => Ok(Outcome::Module),
    }
}

fn printed(alloc: Global, program: &Module) -> Result<Outcome, Memory>
    requires { IsFormedModule program.now.content }
{
    let mut out = MemSink::new(alloc, MOST_PRINTED)?;
    match print(program, &mut out) {
        Ok(()) => Ok(Outcome::Printed(Vec::from_slice(alloc, out.bytes())?)),
        Err(_) => Ok(Outcome::TooLong),
    }
}

fn lines(alloc: Global, program: &Module) -> Result<Vec<u32>, Memory> {
    let mut lines = Vec::new(alloc);
    for func in program.funcs() {
        let mut place: u32 = 0;
        for block in func.blocks() {
            for _ in block.insts() {
                lines.push(func.line_of(place))?;
                place = place.saturating_add(1);
            }
        }
    }
    Ok(lines)
}
