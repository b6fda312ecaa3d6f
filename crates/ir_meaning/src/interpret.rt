//! The reference interpreter.

ghost use Rattle.std.specs.Prelude.{◌≡◌, ◌≤◌, IfOk, OnOk, OnErr, IsErrOf};
ghost use Rattle.std.specs.List.{All, concat};
ghost use Rattle.tool_io.specs.Counts.{Rose};
ghost use Rattle.ir_meaning.specs.Machines.{state_of, today, IsOpened};
ghost use Rattle.move_plan.specs.Plans.{go};
ghost use Rattle.flat_code.specs.Codes.{IsReadyModule};
ghost use Rattle.tool_io.specs.Sink.{append_known, AppendsFront};
ghost use Rattle.piece_writer.specs.LinePuts.{IsShort, PutsFirst, PutsLines, told_by};
ghost use Rattle.ir_meaning.specs.References.{last_lines, IsRun, IsRunFrom, PutsFrontOfRun, PutsRun, WritesFrontFrom, WritesFrontOfRun, unprinted, Wrote, WroteFront};

use crate::machine::Machine;
use crate::stacks::Stack;
use flat_code::Code;
use ir_ast::Module;
use move_plan::Plan;
use object_store::Objects;
use run_tasks::{Did, Ran, ended, main_of, printed_line};
use sp_ids::{End, FuncId, Memory};
use std::alloc::Global;
use tool_io::{Failed, Sink};
use waiting_frames::Spot;

/// Why a run is not written to its end.
#[derive(Clone, Copy, Debug, PartialEq, Eq)]
pub enum RefFault {
    Memory,
    /// The sink counted a fault.
    Write,
}

impl From<Memory> for RefFault {
    ghost use Rattle.std.specs.Prelude.{◌≡◌};
    ghost use Rattle.ir_meaning.specs.declared.interpret.RefFault.TheVariants as faults;

    ghost from_gives = { λ _ e. e ≡ faults.Memory };

    fn from(_error: Memory) -> RefFault {
        RefFault::Memory
    }
}

impl From<Failed> for RefFault {
    ghost use Rattle.std.specs.Prelude.{◌≡◌};
    ghost use Rattle.ir_meaning.specs.declared.interpret.RefFault.TheVariants as faults;

    ghost from_gives = { λ _ e. e ≡ faults.Write };

    fn from(_failed: Failed) -> RefFault {
        RefFault::Write
    }
}

/// Runs `@main` of a module of the source form, as each source module is, which may take these many steps, over this input
/// and under the `go` lines of this plan, and writes each line that it prints by one `put`; at a trap it then writes what
/// each waiting frame shows of its call's "deopt" bundle (LLVM Language Reference, "Deoptimization Operand Bundles").
///
/// `Write` comes only where the sink counted a fault. After it, and after `Memory`, a front of what the run
/// writes was written. Each line is put by one call, where none has more than 8,192 bytes.
pub fn reference<O: Sink>(
    alloc: Global,
    module: &Module,
    input: &[i64],
    plan: &Plan,
    steps: u64,
    out: &mut O,
) -> Result<Ran, RefFault>
    requires { IsReadyModule «module».now.content }
    ensures ran { IfOk result (λ ran. IsRun «module».now.content input.now (go plan.now) steps ran (O.written out.old) (O.written out.new)) }
    ensures front { OnErr result (WritesFrontOfRun «module».now.content input.now (go plan.now) steps (O.written out.old) (O.written out.new)) }
    ensures by_one_put { OnOk result (PutsRun «module».now.content input.now (go plan.now) steps (told_by O.written O.puts out.old) (told_by O.written O.puts out.new)) }
    ensures cut { OnErr result (PutsFrontOfRun «module».now.content input.now (go plan.now) steps (told_by O.written O.puts out.old) (told_by O.written O.puts out.new)) }
    ensures failed { IsErrOf result RefFault.Write → Rose (O.faults out.old) (O.faults out.new) }
    ensures count { O.faults out.old ≤ O.faults out.new }
{
    let code = Code::of(alloc, module)?;
    let mut machine = opened(alloc, &code, input)?;
    run(&code, &mut machine, plan, steps, out)
}

/// Task 0 at the front of `@main`.
pub fn opened<'c, 'i>(
    alloc: Global,
    code: &'c Code,
    input: &'i [i64],
) -> Result<Machine<'c, 'i>, Memory>
    ensures { IfOk result (λ machine. IsOpened code.now input.now machine) }
{
    let main = main_of(code.module());
    let front = Spot {
        func: main,
        segment: 0,
    };
    let stack = Stack::new(alloc, front, code.registers(main))?;
    Ok(Machine {
        stack,
        moves: Vec::new(alloc),
        args: Vec::new(alloc),
        alloc,
        task: 0,
        tasks: vec![in alloc; None]?,
        objects: Objects::new(alloc, code.module().layouts()),
        input,
        steps: 0,
        events: 0,
    })
}

// Runs to the end.
fn run<O: Sink>(
    code: &Code,
    machine: &mut Machine,
    plan: &Plan,
    bound: u64,
    out: &mut O,
) -> Result<Ran, RefFault>
    requires { machine.old.objects.layouts ≡ code.now.content.layouts }
    ensures ran { IfOk result (λ ran. IsRunFrom (today code.now plan.now bound) (unprinted (state_of code.now machine.old)) ran (told_by O.written O.puts out.old) (told_by O.written O.puts out.new)) }
    ensures front { OnErr result (WritesFrontFrom (today code.now plan.now bound) (unprinted (state_of code.now machine.old)) (told_by O.written O.puts out.old) (told_by O.written O.puts out.new)) }
    ensures failed { IsErrOf result RefFault.Write → Rose (O.faults out.old) (O.faults out.new) }
    ensures count { O.faults out.old ≤ O.faults out.new }
{
    let mut lines = 0u64;
    for _ in 0..u64::MAX {
        let did = machine.turn(code, plan, bound)?;
        if let Some(end) = ended(did) {
            show_end(code, end, machine, out)?;
            return Ok(how_ran(end, machine, lines));
        }
        let more = write_line(did, lines, out)?;
        lines = more;
    }
    Err(RefFault::Memory)
}

// Writes what a turn printed, and counts the line.
fn write_line<O: Sink>(did: Did, lines: u64, out: &mut O) -> Result<u64, Failed>
    ensures ok { IfOk result (λ more. Wrote did lines more (told_by O.written O.puts out.old) (told_by O.written O.puts out.new)) }
    ensures err { OnErr result (WroteFront did (told_by O.written O.puts out.old) (told_by O.written O.puts out.new)) }
    ensures failed { OnErr result (Rose (O.faults out.old) (O.faults out.new)) }
    ensures count { O.faults out.old ≤ O.faults out.new }
{
    match did {
        Did::Prints(number) => {
            out.put(printed_line(number).as_slice())?;
            Ok(lines.saturating_add(1))
        }
        _ => Ok(lines),
    }
}

// Writes what a run shows after the last line that it prints.
fn show_end<O: Sink>(code: &Code, end: End, machine: &Machine, out: &mut O) -> Result<(), Failed>
    ensures ok { OnOk result (O.written out.new ≡ append_known (O.written out.old) (concat (last_lines code.now end machine.now))) }
    ensures err { OnErr result (AppendsFront (O.written out.old) (O.written out.new) (concat (last_lines code.now end machine.now))) }
    ensures by_one_put { All IsShort (last_lines code.now end machine.now) → OnOk result (PutsLines (told_by O.written O.puts out.old) (told_by O.written O.puts out.new) (last_lines code.now end machine.now)) }
    ensures cut { All IsShort (last_lines code.now end machine.now) → OnErr result (PutsFirst (told_by O.written O.puts out.old) (told_by O.written O.puts out.new) (last_lines code.now end machine.now)) }
    ensures failed { OnErr result (Rose (O.faults out.old) (O.faults out.new)) }
    ensures count { O.faults out.old ≤ O.faults out.new }
{
    match end {
        End::Trap(_) => machine.stack.show(code, out),
        _ => Ok(()),
    }
}

/// The answer of a run that has ended so.
pub fn how_ran(end: End, machine: &Machine, lines: u64) -> Ran
    ensures { result ≡ record { end = end; func = record { 0 = machine.now.stack.running.spot.func }; steps = machine.now.steps; events = machine.now.events; lines = lines } }
{
    Ran {
        end,
        func: FuncId(machine.stack.spot().func),
        steps: machine.steps,
        events: machine.events,
        lines,
    }
}
