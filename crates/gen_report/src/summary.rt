//! What is told of a generated module.
ghost use Rattle.std.specs.Prelude.{◌≡◌, ◌≤◌, IfOk, OnOk, OnErr};
ghost use Rattle.object_meaning.specs.Texts.{function_name};
ghost use Rattle.tool_io.specs.Counts.{Rose};
ghost use Rattle.tool_io.specs.Sink.{append_known, AppendsFront};
ghost use Rattle.gen_report.specs.Summaries.{IsSummary, count_lines};

use crate::counts::{Counted, count};
use crate::runs::{map_of_module, rewritten, run_flipping};
use ir_ast::Module;
use module_gen::make;
use piece_writer::{Bytes, Decimal, put_text};
use run_tasks::Ran;
use sp_ids::{End, FuncId, Memory};
use statepoint_verify::Verified;
use std::alloc::Global;
use std::marker::Model;
use tool_io::{Failed, Sink};
use tool_report::closing;

/// What is told of a generated module: how large its rewritten module and its stack map are, how many lines its run printed, and how
/// the run closes. Contracts see the text and the end of the run.
#[derive(Debug, Drop)]
pub struct Summary {
    after: Verified,
    functions: u64,
    statepoints: u64,
    relocates: u64,
    map_bytes: u64,
    ran: Ran,
}

impl Model for Summary {
    ghost use Rattle.gen_report.specs.Runs.{told_of};
    ghost use Rattle.gen_report.specs.Summaries.{Told};

    ghost Value = { Told };

    ghost view = { λ summary. told_of summary.functions summary.statepoints summary.relocates summary.map_bytes summary.after.content summary.ran };
}

/// Makes the module of this seed and size, rewrites it, and runs it for at most so many steps over no input, while every event moves
/// all objects. What its run prints isn't kept.
pub fn summarize(alloc: Global, seed: u64, size: u32, steps: u64) -> Result<Summary, Memory>
    requires some { 1 ≤ size }
    requires few { size ≤ 1000 }
    ensures { IfOk result (λ summary. IsSummary seed size steps summary) }
{
    let made = make(alloc, seed, size)?;
    let functions = made.funcs().len() as u64;
    let after = rewritten(alloc, made)?;
    let bytes = map_of_module(alloc, after.module())?;
    let ran = run_flipping(alloc, &after, &bytes, steps)?;
    let statepoints = count(after.module(), Counted::Statepoints);
    let relocates = count(after.module(), Counted::Relocates);
    Ok(Summary {
        after,
        functions,
        statepoints,
        relocates,
        map_bytes: bytes.len() as u64,
        ran,
    })
}

impl Summary {
    /// How the run ended.
    pub fn end(&self) -> End
        ensures { result ≡ self.now.end }
    {
        self.ran.end
    }

    /// Puts its six lines. After `Failed`, which comes only where the sink's count of faults rose, a front of them was added.
    pub fn put<O: Sink>(&self, out: &mut O) -> Result<(), Failed>
        ensures ok { OnOk result (O.written out.new ≡ append_known (O.written out.old) self.now.text) }
        ensures err { OnErr result (AppendsFront (O.written out.old) (O.written out.new) self.now.text) }
        ensures failed { OnErr result (Rose (O.faults out.old) (O.faults out.new)) }
        ensures count { O.faults out.old ≤ O.faults out.new }
    {
        let ran = &self.ran;
        put_counts(
            self.functions,
            self.statepoints,
            self.relocates,
            self.map_bytes,
            ran.lines,
            out,
        )?;
        let name = function_name(self.after.module(), ran.func);
        closing(ran.end, name, ran.steps, ran.events, out)
    }
}

fn function_name(code: &Module, func: FuncId) -> &[u8]
    ensures { result.now ≡ function_name code.now.content func.0 }
{
    match code.funcs().get(func.0 as usize) {
        Some(func) => func.name().bytes(),
        None => b"",
    }
}

fn put_counts<O: Sink>(
    functions: u64,
    statepoints: u64,
    relocates: u64,
    bytes: u64,
    lines: u64,
    out: &mut O,
) -> Result<(), Failed>
    ensures ok { OnOk result (O.written out.new ≡ append_known (O.written out.old) (count_lines functions statepoints relocates bytes lines)) }
    ensures err { OnErr result (AppendsFront (O.written out.old) (O.written out.new) (count_lines functions statepoints relocates bytes lines)) }
    ensures failed { OnErr result (Rose (O.faults out.old) (O.faults out.new)) }
    ensures count { O.faults out.old ≤ O.faults out.new }
{
    put_text(
        &(
            (Bytes(b"functions "), Decimal(functions), Bytes(b"\n")),
            (Bytes(b"statepoints "), Decimal(statepoints), Bytes(b"\n")),
            (Bytes(b"relocates "), Decimal(relocates), Bytes(b"\n")),
            (Bytes(b"map bytes "), Decimal(bytes), Bytes(b"\n")),
            (Bytes(b"lines "), Decimal(lines), Bytes(b"\n")),
        ),
        out,
    )
}
