//! Events: the moves of a group, with the walk over the stacks of all tasks; polls and new objects.

ghost use Rattle.std.specs.Prelude.{◌≡◌, ◌≢◌, Some, None, [], map, if◌then◌else◌, IfOk, slice_get, unwrap_or, IsTrue, MatchOption};
ghost use Rattle.ir_ast.specs.Objects.{number};
ghost use Rattle.move_plan.specs.Plans.{flips, go, group};
ghost use Rattle.object_meaning.specs.Effects.{Effect, goes_on};
ghost use Rattle.moving_heap.specs.Heaps.{HasPlace, heap_of};
ghost use Rattle.machine_meaning.specs.Machines.{Machine};
ghost use Rattle.machine_meaning.specs.MachineTasks.{polled_machine};
ghost use Rattle.machine_meaning.specs.Moving.{moved_by, moves_due};
ghost use Rattle.machine_frames.specs.Frames.{CanGoOn};
ghost use Rattle.ir_machine.specs.Executors.{machinery, seen, told, DoesSo, calls_at};
ghost use Rattle.ir_machine.specs.Events.{TaskWalked, SlotWalked, AllWalked, KeepsPlace, MakesObject, MovesSo, gone_to, next_frame, unwalked};
ghost use Rattle.run_tasks.specs.Dids.{effect_of};

use crate::calls::{set_task, take_task};
use crate::executor::{Executor, Program};
use frame_walk::walk;
use ir_ast::{Callee, Cell, Inst, Operand};
use machine_frames::Task;
use machine_lines::fields_of;
use move_plan::{Move, Plan};
use moving_heap::{Moves, Places, Refused};
use run_tasks::Did;
use sp_ids::{End, Memory, Trap, sign};
use std::mem;

impl<'m, 'i> Executor<'m, 'i> {
    // A poll is an event; then its `go` line holds, and the task that runs goes on. What it may want memory for is asked first.
    pub(crate) fn poll(
        &mut self,
        program: &Program<'_, '_>,
        inst: &Inst,
        rest: &[Inst],
        operands: &[Operand],
    ) -> Result<Did, Memory>
        ensures { IfOk result (DoesSo (calls_at (machinery program.now) self.old inst.now rest.now Callee.Poll operands.now) self.new) }
    {
        let event = self.events.saturating_add(1);
        if !self.can_come_on(go_of(program.plan, event)) {
            return Err(Memory);
        }
        if !waits_not(self.tasks.as_slice(), self.task) {
            return Err(Memory);
        }
        self.events = event;
        Ok(self.pass_event(program))
    }

    // The event of a poll, which is counted.
    fn pass_event(&mut self, program: &Program<'_, '_>) -> Did
        requires hole { slice_get self.old.tasks.items self.old.task ≡ Some None }
        requires goes { CanGoOn (next_frame (go program.now.plan.now self.old.events) self.old.run.frame self.old.tasks.items) }
        ensures { told (effect_of result (seen self.new)) ≡ told (moved_by (machinery program.now) (moves_due (machinery program.now) self.old.heap self.old.events) (seen self.old) (λ machine. goes_on (polled_machine (machinery program.now) machine))) }
    {
        let event = self.events;
        let lost = happen(
            program,
            event,
            self.heap.places_mut(),
            &mut self.run,
            self.tasks.as_mut_slice(),
        );
        if lost {
            return Did::Ends(End::LostFrame);
        }
        self.go_to(go_of(program.plan, event));
        self.run.resume(0);
        Did::GoesOn
    }

    // Whether the task that runs behind a poll with this `go` line can go on there.
    fn can_come_on(&self, to: Option<u64>) -> bool
        ensures { IsTrue result → CanGoOn (next_frame to self.now.run.frame self.now.tasks.items) }
    {
        match to {
            None => self.run.can_go_on(),
            Some(to) => match task_at(self.tasks.as_slice(), to) {
                None => self.run.can_go_on(),
                Some(task) => task.can_go_on(),
            },
        }
    }

    // A new object is an event. Its room is taken first, and what else it may want memory for is asked.
    pub(crate) fn make(
        &mut self,
        program: &Program<'_, '_>,
        inst: &Inst,
        rest: &[Inst],
        layout: u32,
        operands: &[Operand],
    ) -> Result<Did, Memory>
        ensures { IfOk result (DoesSo (calls_at (machinery program.now) self.old inst.now rest.now (Callee.New layout) operands.now) self.new) }
    {
        let count = sign(64, self.argument(operands, 0));
        let fields = fields_of(program.code.module().layouts(), layout);
        if !self.run.can_go_on() {
            return Err(Memory);
        }
        if !waits_not(self.tasks.as_slice(), self.task) {
            return Err(Memory);
        }
        let places = self.heap.places_mut();
        places.reserve(fields, count)?;
        let event = self.events.saturating_add(1);
        self.events = event;
        let did = make_object(
            program,
            event,
            layout,
            fields,
            count,
            places,
            &mut self.run,
            self.tasks.as_mut_slice(),
        );
        Ok(did)
    }

    // The task of a `go` line runs, if there is one.
    fn go_to(&mut self, to: Option<u64>)
        ensures goes { seen self.new ≡ gone_to to (seen self.old) }
        ensures frame { self.new.run.frame ≡ next_frame to self.old.run.frame self.old.tasks.items }
    {
        match to {
            None => {}
            Some(to) => self.switch_to(to),
        }
    }

    // Another task runs, if it was started, has not ended and isn't the running one.
    fn switch_to(&mut self, to: u64)
        ensures goes { seen self.new ≡ gone_to (Some to) (seen self.old) }
        ensures frame { self.new.run.frame ≡ next_frame (Some to) self.old.run.frame self.old.tasks.items }
    {
        let Some(run) = take_task(&mut self.tasks, to) else {
            return;
        };
        let waits = mem::replace(&mut self.run, run);
        set_task(&mut self.tasks, self.task, Some(waits));
        set_task(&mut self.tasks, to, None);
        self.task = to;
    }
}

// The event of a new object, for which there is room: its moves, then the object, and the running task goes on behind it.
fn make_object<'m>(
    program: &Program<'_, '_>,
    event: u64,
    layout: u32,
    fields: &[Cell],
    count: i64,
    places: &mut Places,
    run: &mut Task<'m>,
    tasks: &mut [Option<Task<'m>>],
) -> Did
    requires room { HasPlace places.old fields.now count }
    requires goes { CanGoOn run.old.frame }
    ensures { MakesObject (machinery program.now) event layout fields.now count run.old tasks.old places.old result run.new tasks.new places.new }
{
    let lost = happen(program, event, places, run, tasks);
    if lost {
        return Did::Ends(End::LostFrame);
    }
    match places.make(layout, fields, count) {
        Ok(address) => {
            run.resume(address);
            Did::GoesOn
        }
        Err(Refused::Count) => Did::Ends(End::Trap(Trap::Count)),
        Err(Refused::Full) => Did::Ends(End::Trap(Trap::Full)),
    }
}

// An event: its moves. Whether a frame was lost, and then nothing has moved.
fn happen<'m>(
    program: &Program<'_, '_>,
    event: u64,
    places: &mut Places,
    run: &mut Task<'m>,
    tasks: &mut [Option<Task<'m>>],
) -> bool
    ensures moved { MovesSo (machinery program.now) (moves_due (machinery program.now) (heap_of places.old) event) run.old tasks.old places.old result run.new tasks.new places.new }
    ensures run { run.new ≡ record run.old { stack = run.new.stack } }
    ensures tasks { map unwalked tasks.new ≡ map unwalked tasks.old }
    ensures room { KeepsPlace places.old places.new }
{
    let flip = flip_of(program.plan, event);
    let _ = places.ready(group_of(program.plan, event), flip);
    if places.moves().is_empty() {
        return false;
    }
    make_moves(program, places, run, tasks)
}

// The walk over all stacks, and the moves of the pending group.
fn make_moves<'m>(
    program: &Program<'_, '_>,
    places: &mut Places,
    run: &mut Task<'m>,
    tasks: &mut [Option<Task<'m>>],
) -> bool
    requires due { places.old.moves ≢ [] }
    ensures moved { MovesSo (machinery program.now) places.old.moves run.old tasks.old places.old result run.new tasks.new places.new }
    ensures run { run.new ≡ record run.old { stack = run.new.stack } }
    ensures tasks { map unwalked tasks.new ≡ map unwalked tasks.old }
    ensures room { KeepsPlace places.old places.new }
{
    if walk_task(program, run, places.moves()) {
        return true;
    }
    if walk_tasks(program, tasks, places.moves()) {
        return true;
    }
    places.apply();
    false
}

pub(crate) fn flip_of(plan: &Plan, event: u64) -> Option<u64>
    ensures { result ≡ (if flips plan.now event then Some event else None) }
{
    if plan.is_empty() {
        return None;
    }
    if plan.flips(event) { Some(event) } else { None }
}

// The moves of the event's lines.
fn group_of(plan: &Plan, event: u64) -> &[Move]
    ensures { result.now ≡ group plan.now event }
{
    if plan.is_empty() {
        return &[];
    }
    plan.group(event)
}

// The task of the event's `go` line.
fn go_of(plan: &Plan, event: u64) -> Option<u64>
    ensures { result ≡ go plan.now event }
{
    if plan.is_empty() {
        return None;
    }
    plan.go(event)
}

// Whether there is a task of this number, and its frames are elsewhere.
fn waits_not(tasks: &[Option<Task>], task: u64) -> bool
    ensures { IsTrue result → slice_get tasks.now task ≡ Some None }
{
    if task >= tasks.len() as u64 {
        return false;
    }
    tasks[task as usize].is_none()
}

// The frames of a task that waits.
fn task_at<'t, 'm>(tasks: &'t [Option<Task<'m>>], task: u64) -> Option<&'t Task<'m>>
    ensures { MatchOption result (unwrap_or (slice_get tasks.now task) None ≡ None) (λ found. unwrap_or (slice_get tasks.now task) None ≡ Some found.now) }
{
    if task >= tasks.len() as u64 {
        return None;
    }
    tasks[task as usize].as_ref()
}

// The walk over the stack of a task. Whether a frame was lost.
fn walk_task<'m>(program: &Program<'_, '_>, task: &mut Task<'m>, moves: &Moves) -> bool
    ensures walked { TaskWalked (machinery program.now) moves.now.moves task.old result task.new }
    ensures kept { task.new ≡ record task.old { stack = task.new.stack } }
{
    let address = task.frame.return_address(&program.code);
    match walk(&program.map, &mut task.stack, address, moves) {
        Ok(()) => false,
        Err(_lost) => true,
    }
}

fn walk_slot<'m>(program: &Program<'_, '_>, slot: &mut Option<Task<'m>>, moves: &Moves) -> bool
    ensures walked { SlotWalked (machinery program.now) moves.now.moves slot.old result slot.new }
    ensures kept { unwalked slot.new ≡ unwalked slot.old }
{
    match slot {
        None => false,
        Some(task) => walk_task(program, task, moves),
    }
}

// The walk over the stacks of these tasks, up to a frame that was lost.
fn walk_tasks<'m>(program: &Program<'_, '_>, tasks: &mut [Option<Task<'m>>], moves: &Moves) -> bool
    ensures walked { AllWalked (machinery program.now) moves.now.moves tasks.old result tasks.new }
    ensures kept { map unwalked tasks.new ≡ map unwalked tasks.old }
{
    for place in 0..tasks.len() {
        if walk_slot(program, &mut tasks[place], moves) {
            return true;
        }
    }
    false
}
