//! Runs of the machine.

ghost use Rattle.std.specs.Prelude.{◌≡◌, ◌≤◌, IfOk, OnOk, OnErr, IsErrOf};
ghost use Rattle.std.specs.List.{All, concat};
ghost use Rattle.tool_io.specs.Counts.{Rose};
ghost use Rattle.tool_io.specs.Sink.{append_known, AppendsFront};
ghost use Rattle.piece_writer.specs.LinePuts.{IsShort, PutsFirst, PutsLines, told_by};
ghost use Rattle.map_bytes.specs.declared.rules.MapFault.{MapFault};
ghost use Rattle.map_bytes.specs.Faults.{IsFirstFault};
ghost use Rattle.moving_heap.specs.Settled.{AreSettled};
ghost use Rattle.stackmap_view.specs.Maps.{stack_map};
ghost use Rattle.stackmap_write.specs.ModuleMaps.{map_of};
ghost use Rattle.object_meaning.specs.Texts.{function_name};
ghost use Rattle.machine_meaning.specs.MachineRuns.{machine_opening};
ghost use Rattle.machine_meaning.specs.TrapLines.{closing_of};
ghost use Rattle.run_texts.specs.RunTexts.{end_lines, last_lines};
ghost use Rattle.ir_machine.specs.Executors.{machinery, seen};
ghost use Rattle.ir_machine.specs.Traces.{did_lose, shown_lines};
ghost use Rattle.ir_machine.specs.Answers.{IsRun, IsRunFrom, IsRunOver, IsRunUnseen, PutsFront, PutsFrontOver, PutsRun, PutsRunOver, WritesFront, WritesFrontFrom, WritesFrontOver, counted_by, frames_shown, lines_of_step, unprinted};
ghost use Rattle.run_tasks.specs.Dids.{ended_of};

use crate::executor::{Executor, Program};
use heap_hints::Hints;
use ir_ast::Module;
use machine_frames::{Code, Task};
use map_bytes::MapFault;
use move_plan::Plan;
use moving_heap::Heap;
use run_tasks::{Did, Ran, ended, main_of, printed_line};
use run_traces::{Happening, Stopped, write_happening, write_places};
use sp_ids::{End, FuncId, Memory};
use stackmap_view::{MapIndex, MapView};
use statepoint_verify::Verified;
use std::alloc::Global;
use tool_io::{Failed, Sink};
use tool_report::closing;
use trap_frames::write_waiting;

/// What is shown of a run besides what it prints and the line that closes it: where its objects stand in the end, and what its events
/// are and move.
#[derive(Clone, Copy, Debug, PartialEq, Eq)]
pub struct Shows {
    pub places: bool,
    pub trace: bool,
}

/// Why a run is not written to its end.
#[derive(Clone, Copy, Debug, PartialEq, Eq)]
pub enum RunFault {
    Memory,
    /// The sink counted a fault.
    Write,
    /// The bytes are no stack map, and nothing was written.
    BadMap(MapFault),
}

/// The same of a run over a map that is known to be one.
#[derive(Clone, Copy, Debug, PartialEq, Eq)]
pub enum SureFault {
    Memory,
    /// The sink counted a fault.
    Write,
}

impl From<Memory> for SureFault {
    ghost use Rattle.std.specs.Prelude.{◌≡◌};
    ghost use Rattle.ir_machine.specs.declared.run.SureFault.TheVariants as faults;

    ghost from_gives = { λ _ e. e ≡ faults.Memory };

    fn from(_error: Memory) -> SureFault {
        SureFault::Memory
    }
}

impl From<Failed> for SureFault {
    ghost use Rattle.std.specs.Prelude.{◌≡◌};
    ghost use Rattle.ir_machine.specs.declared.run.SureFault.TheVariants as faults;

    ghost from_gives = { λ _ e. e ≡ faults.Write };

    fn from(_failed: Failed) -> SureFault {
        SureFault::Write
    }
}

impl From<Stopped> for SureFault {
    ghost use Rattle.std.specs.Prelude.{◌≡◌};
    ghost use Rattle.ir_machine.specs.Answers.{fault_of};

    ghost from_gives = { λ stop e. e ≡ fault_of stop };

    fn from(stop: Stopped) -> SureFault {
        match stop {
            Stopped::Memory => SureFault::Memory,
            Stopped::Write => SureFault::Write,
        }
    }
}

/// Runs `@main` of a rewritten module over the stack map that these bytes are, which may take these many steps, over this
/// input and under this plan. It writes the trace of its events, where `shows` has it, each line that it prints, what waiting frames
/// show at a trap, the line that closes the run, and the places of its objects, where `shows` has them, each line by one `put`.
///
/// `BadMap` comes exactly where the bytes are no stack map, with their first fault, before anything is written. `Write` comes
/// only where the sink counted a fault. After it, and after `Memory`, a front of the run's text was written. Each line is put by one
/// call, where none has more than 8,192 bytes.
pub fn run_any<O: Sink>(
    alloc: Global,
    module: &Module,
    map: &[u8],
    input: &[i64],
    plan: &Plan,
    steps: u64,
    shows: Shows,
    out: &mut O,
) -> Result<Ran, RunFault>
    ensures ran { IfOk result (λ ran. IsRun «module».now.content map.now input.now plan.now steps shows ran (O.written out.old) (O.written out.new)) }
    ensures bad { (fault : MapFault) → result ≡ Err (RunFault.BadMap fault) → IsFirstFault map.now fault × (O.written out.new ≡ O.written out.old) }
    ensures front { IsErrOf result RunFault.Memory → WritesFront «module».now.content map.now input.now plan.now steps shows (O.written out.old) (O.written out.new) }
    ensures write { IsErrOf result RunFault.Write → WritesFront «module».now.content map.now input.now plan.now steps shows (O.written out.old) (O.written out.new) }
    ensures by_one_put { OnOk result (PutsRun «module».now.content map.now input.now plan.now steps shows (told_by O.written O.puts out.old) (told_by O.written O.puts out.new)) }
    ensures cut { IsErrOf result RunFault.Memory → PutsFront «module».now.content map.now input.now plan.now steps shows (told_by O.written O.puts out.old) (told_by O.written O.puts out.new) }
    ensures cut_write { IsErrOf result RunFault.Write → PutsFront «module».now.content map.now input.now plan.now steps shows (told_by O.written O.puts out.old) (told_by O.written O.puts out.new) }
    ensures failed { IsErrOf result RunFault.Write → Rose (O.faults out.old) (O.faults out.new) }
    ensures count { O.faults out.old ≤ O.faults out.new }
{
    match MapView::of(map) {
        Err(fault) => Err(RunFault::BadMap(fault)),
        Ok(view) => match run_over(alloc, module, view, input, plan, steps, shows, out) {
            Ok(ran) => Ok(ran),
            Err(SureFault::Memory) => Err(RunFault::Memory),
            Err(SureFault::Write) => Err(RunFault::Write),
        },
    }
}

/// Runs `@main` of a verified module over the map of this view, as [`run_any`] does over bytes. Over the module's own map the
/// moves are never noticed: the run is the one on objects that never move, so it never ends in poison or a lost frame.
///
/// `Write` comes only where the sink counted a fault. After it, and after `Memory`, a front of the run's text was written.
pub fn run_verified<O: Sink>(
    alloc: Global,
    verified: &Verified,
    map: &MapView<'_>,
    input: &[i64],
    plan: &Plan,
    steps: u64,
    shows: Shows,
    out: &mut O,
) -> Result<Ran, SureFault>
    ensures ran { IfOk result (λ ran. IsRunOver verified.now.content (stack_map map.now) input.now plan.now steps shows ran (O.written out.old) (O.written out.new)) }
    ensures seen { stack_map map.now ≡ map_of verified.now.content
        → IfOk result (λ ran. IsRunUnseen verified.now.content input.now plan.now steps shows ran (O.written out.old) (O.written out.new)) }
    ensures front { OnErr result (WritesFrontOver verified.now.content (stack_map map.now) input.now plan.now steps shows (O.written out.old) (O.written out.new)) }
    ensures by_one_put { OnOk result (PutsRunOver verified.now.content (stack_map map.now) input.now plan.now steps shows (told_by O.written O.puts out.old) (told_by O.written O.puts out.new)) }
    ensures cut { OnErr result (PutsFrontOver verified.now.content (stack_map map.now) input.now plan.now steps shows (told_by O.written O.puts out.old) (told_by O.written O.puts out.new)) }
    ensures failed { IsErrOf result SureFault.Write → Rose (O.faults out.old) (O.faults out.new) }
    ensures count { O.faults out.old ≤ O.faults out.new }
{
    let module = verified.module();
    run_over(alloc, module, *map, input, plan, steps, shows, out)
}

// The run over the map of a view.
fn run_over<O: Sink>(
    alloc: Global,
    module: &Module,
    view: MapView,
    input: &[i64],
    plan: &Plan,
    bound: u64,
    shows: Shows,
    out: &mut O,
) -> Result<Ran, SureFault>
    ensures ran { IfOk result (λ ran. IsRunOver «module».now.content (stack_map view.entry) input.now plan.now bound shows ran (O.written out.old) (O.written out.new)) }
    ensures front { OnErr result (WritesFrontOver «module».now.content (stack_map view.entry) input.now plan.now bound shows (O.written out.old) (O.written out.new)) }
    ensures by_one_put { OnOk result (PutsRunOver «module».now.content (stack_map view.entry) input.now plan.now bound shows (told_by O.written O.puts out.old) (told_by O.written O.puts out.new)) }
    ensures cut { OnErr result (PutsFrontOver «module».now.content (stack_map view.entry) input.now plan.now bound shows (told_by O.written O.puts out.old) (told_by O.written O.puts out.new)) }
    ensures failed { IsErrOf result SureFault.Write → Rose (O.faults out.old) (O.faults out.new) }
    ensures count { O.faults out.old ≤ O.faults out.new }
{
    let code = Code::of(alloc, module)?;
    let map = MapIndex::of(alloc, view)?;
    let program = Program {
        code,
        map,
        plan,
        bound,
    };
    let mut executor = opened(alloc, &program, input)?;
    run(&program, &mut executor, shows, out)
}

// Task 0 at the front of `@main`.
fn opened<'m, 'i>(
    alloc: Global,
    program: &'m Program<'_, '_>,
    input: &'i [i64],
) -> Result<Executor<'m, 'i>, Memory>
    ensures { IfOk result (λ executor. unprinted (seen executor) ≡ machine_opening (machinery program.now) input.now) }
{
    let run = Task::begin(alloc, &program.code, main_of(program.code.module()), &[])?;
    Ok(Executor {
        run,
        moves: Vec::new(alloc),
        alloc,
        task: 0,
        tasks: vec![in alloc; None]?,
        heap: Heap::new(alloc),
        hints: Hints::new(alloc)?,
        input,
        steps: 0,
        events: 0,
    })
}

// Runs to the end.
fn run<'m, O: Sink>(
    program: &'m Program<'_, '_>,
    executor: &mut Executor<'m, '_>,
    shows: Shows,
    out: &mut O,
) -> Result<Ran, SureFault>
    requires settled { AreSettled executor.old.heap.stands }
    ensures ran { IfOk result (λ ran. IsRunFrom program.now.code (machinery program.now) shows (unprinted (seen executor.old)) ran (told_by O.written O.puts out.old) (told_by O.written O.puts out.new)) }
    ensures front { OnErr result (WritesFrontFrom program.now.code (machinery program.now) shows (unprinted (seen executor.old)) (told_by O.written O.puts out.old) (told_by O.written O.puts out.new)) }
    ensures failed { IsErrOf result SureFault.Write → Rose (O.faults out.old) (O.faults out.new) }
    ensures count { O.faults out.old ≤ O.faults out.new }
{
    let mut lines = 0u64;
    let mut happening = Happening::new(executor.alloc);
    for _ in 0..u64::MAX {
        let turn = executor.turn(program, shows.trace, &mut happening)?;
        write_step(turn.event, &happening, turn.did, out)?;
        if let Some(end) = ended(turn.did) {
            write_end(program, executor, end, shows.places, out)?;
            return Ok(how_ran(end, executor, lines));
        }
        lines = counted(turn.did, lines);
    }
    Err(SureFault::Memory)
}

// The count of printed lines after a step.
fn counted(did: Did, lines: u64) -> u64
    ensures { result ≡ counted_by did lines }
{
    match did {
        Did::Prints(_) => lines.saturating_add(1),
        _ => lines,
    }
}

// Writes the trace of a step, if it was an event, and what it printed.
fn write_step<O: Sink>(
    event: bool,
    happening: &Happening,
    did: Did,
    out: &mut O,
) -> Result<(), Failed>
    ensures ok { OnOk result (PutsLines (told_by O.written O.puts out.old) (told_by O.written O.puts out.new) (lines_of_step event happening.now did)) }
    ensures err { OnErr result (PutsFirst (told_by O.written O.puts out.old) (told_by O.written O.puts out.new) (lines_of_step event happening.now did)) }
    ensures failed { OnErr result (Rose (O.faults out.old) (O.faults out.new)) }
    ensures count { O.faults out.old ≤ O.faults out.new }
{
    write_event(event, happening, did, out)?;
    match did {
        Did::Prints(number) => out.put(printed_line(number).as_slice()),
        _ => Ok(()),
    }
}

fn write_event<O: Sink>(
    event: bool,
    happening: &Happening,
    did: Did,
    out: &mut O,
) -> Result<(), Failed>
    ensures ok { OnOk result (PutsLines (told_by O.written O.puts out.old) (told_by O.written O.puts out.new) (shown_lines event (did_lose did) happening.now)) }
    ensures err { OnErr result (PutsFirst (told_by O.written O.puts out.old) (told_by O.written O.puts out.new) (shown_lines event (did_lose did) happening.now)) }
    ensures failed { OnErr result (Rose (O.faults out.old) (O.faults out.new)) }
    ensures count { O.faults out.old ≤ O.faults out.new }
{
    if event {
        write_happening(happening, loses(did), out)
    } else {
        Ok(())
    }
}

// Whether the walk of the step lost a frame.
fn loses(did: Did) -> bool
    ensures { result ≡ did_lose did }
{
    matches!(did, Did::Ends(End::LostFrame))
}

// Writes what stands behind the lines of the last step: what waiting frames show, the line that closes the run, and where its objects
// stand, if that is shown.
fn write_end<O: Sink>(
    program: &Program,
    executor: &Executor,
    end: End,
    places: bool,
    out: &mut O,
) -> Result<(), SureFault>
    requires settled { AreSettled executor.now.heap.stands }
    ensures ok { OnOk result (O.written out.new ≡ append_known (O.written out.old) (concat (last_lines program.now.code (machinery program.now) places end (seen executor.now)))) }
    ensures err { OnErr result (AppendsFront (O.written out.old) (O.written out.new) (concat (last_lines program.now.code (machinery program.now) places end (seen executor.now)))) }
    ensures by_one_put { All IsShort (last_lines program.now.code (machinery program.now) places end (seen executor.now)) → OnOk result (PutsLines (told_by O.written O.puts out.old) (told_by O.written O.puts out.new) (last_lines program.now.code (machinery program.now) places end (seen executor.now))) }
    ensures cut { All IsShort (last_lines program.now.code (machinery program.now) places end (seen executor.now)) → OnErr result (PutsFirst (told_by O.written O.puts out.old) (told_by O.written O.puts out.new) (last_lines program.now.code (machinery program.now) places end (seen executor.now))) }
    ensures failed { IsErrOf result SureFault.Write → Rose (O.faults out.old) (O.faults out.new) }
    ensures count { O.faults out.old ≤ O.faults out.new }
{
    write_waits(program, executor, end, out)?;
    write_closing(program, executor, end, places, out)
}

// Writes what waiting frames show, where the run trapped.
fn write_waits<O: Sink>(
    program: &Program,
    executor: &Executor,
    end: End,
    out: &mut O,
) -> Result<(), SureFault>
    requires settled { AreSettled executor.now.heap.stands }
    ensures ok { OnOk result (O.written out.new ≡ append_known (O.written out.old) (concat (closing_of (machinery program.now) end (seen executor.now)))) }
    ensures err { OnErr result (AppendsFront (O.written out.old) (O.written out.new) (concat (closing_of (machinery program.now) end (seen executor.now)))) }
    ensures by_one_put { All IsShort (closing_of (machinery program.now) end (seen executor.now)) → OnOk result (PutsLines (told_by O.written O.puts out.old) (told_by O.written O.puts out.new) (closing_of (machinery program.now) end (seen executor.now))) }
    ensures cut { All IsShort (closing_of (machinery program.now) end (seen executor.now)) → OnErr result (PutsFirst (told_by O.written O.puts out.old) (told_by O.written O.puts out.new) (closing_of (machinery program.now) end (seen executor.now))) }
    ensures failed { IsErrOf result SureFault.Write → Rose (O.faults out.old) (O.faults out.new) }
    ensures count { O.faults out.old ≤ O.faults out.new }
{
    match end {
        End::Trap(_) => write_frames(program, executor, out),
        _ => Ok(()),
    }
}

fn write_frames<O: Sink>(
    program: &Program,
    executor: &Executor,
    out: &mut O,
) -> Result<(), SureFault>
    requires settled { AreSettled executor.now.heap.stands }
    ensures ok { OnOk result (O.written out.new ≡ append_known (O.written out.old) (concat (frames_shown (machinery program.now) (seen executor.now)))) }
    ensures err { OnErr result (AppendsFront (O.written out.old) (O.written out.new) (concat (frames_shown (machinery program.now) (seen executor.now)))) }
    ensures by_one_put { All IsShort (frames_shown (machinery program.now) (seen executor.now)) → OnOk result (PutsLines (told_by O.written O.puts out.old) (told_by O.written O.puts out.new) (frames_shown (machinery program.now) (seen executor.now))) }
    ensures cut { All IsShort (frames_shown (machinery program.now) (seen executor.now)) → OnErr result (PutsFirst (told_by O.written O.puts out.old) (told_by O.written O.puts out.new) (frames_shown (machinery program.now) (seen executor.now))) }
    ensures failed { IsErrOf result SureFault.Write → Rose (O.faults out.old) (O.faults out.new) }
    ensures count { O.faults out.old ≤ O.faults out.new }
{
    let own = program.code.frame_words(executor.run.frame.func)?;
    write_waiting(
        executor.alloc,
        &program.map,
        &executor.run.stack,
        own,
        &executor.heap,
        program.code.module(),
        out,
    )?;
    Ok(())
}

// Writes the line that closes a run, and where its objects stand, if that is shown.
fn write_closing<O: Sink>(
    program: &Program,
    executor: &Executor,
    end: End,
    places: bool,
    out: &mut O,
) -> Result<(), SureFault>
    requires settled { AreSettled executor.now.heap.stands }
    ensures ok { OnOk result (O.written out.new ≡ append_known (O.written out.old) (concat (end_lines program.now.code places end (seen executor.now)))) }
    ensures err { OnErr result (AppendsFront (O.written out.old) (O.written out.new) (concat (end_lines program.now.code places end (seen executor.now)))) }
    ensures by_one_put { All IsShort (end_lines program.now.code places end (seen executor.now)) → OnOk result (PutsLines (told_by O.written O.puts out.old) (told_by O.written O.puts out.new) (end_lines program.now.code places end (seen executor.now))) }
    ensures cut { All IsShort (end_lines program.now.code places end (seen executor.now)) → OnErr result (PutsFirst (told_by O.written O.puts out.old) (told_by O.written O.puts out.new) (end_lines program.now.code places end (seen executor.now))) }
    ensures failed { IsErrOf result SureFault.Write → Rose (O.faults out.old) (O.faults out.new) }
    ensures count { O.faults out.old ≤ O.faults out.new }
{
    let module = program.code.module();
    let name = function_name(module, executor.run.frame.func);
    closing(end, name, executor.steps, executor.events, out)?;
    if places {
        write_places(module.layouts(), &executor.heap, out)?;
    }
    Ok(())
}

fn function_name(code: &Module, func: u32) -> &[u8]
    ensures { result.now ≡ function_name code.now.content func }
{
    match code.funcs().get(func as usize) {
        Some(func) => func.name().bytes(),
        None => b"",
    }
}

fn how_ran(end: End, executor: &Executor, lines: u64) -> Ran
    ensures { result ≡ record { end = end; func = record { 0 = executor.now.run.frame.func }; steps = executor.now.steps; events = executor.now.events; lines = lines } }
{
    Ran {
        end,
        func: FuncId(executor.run.frame.func),
        steps: executor.steps,
        events: executor.events,
        lines,
    }
}
