//! What the trace shows of a step, before the step is taken.

ghost use Rattle.std.specs.Prelude.{◌≡◌, ◌∷◌, ◌++◌, true, map, IfOk, OnOk};
ghost use Rattle.moving_heap.specs.Settled.{IsNumbered};
ghost use Rattle.machine_meaning.specs.Happenings.{changes_by_task, task_changes};
ghost use Rattle.machine_meaning.specs.Machines.{all_frames, all_stacks, spilled};
ghost use Rattle.machine_meaning.specs.MachineSteps.{machine_step};
ghost use Rattle.machine_frames.specs.Frames.{frames_of};
ghost use Rattle.machine_lines.specs.Lines.{line_of};
ghost use Rattle.run_traces.specs.Changes.{change_of};
ghost use Rattle.ir_machine.specs.Executors.{kept, machinery, seen, waiting};
ghost use Rattle.ir_machine.specs.Traces.{CallForeseen, IsForeseen, StepForeseen};

use crate::events::flip_of;
use crate::executor::{Executor, Program};
use ir_ast::{Callee, Inst, Op};
use machine_frames::Task;
use moving_heap::Moves;
use run_traces::{Happening, Room, SlotChange, add_changes, add_moves};
use sp_ids::Memory;

impl<'m, 'i> Executor<'m, 'i> {
    /// What the trace, if there is one, has of the step that comes: whether it is an event, and then what the event does, but for
    /// a frame that may be lost. The entries that a statepoint keeps are in their slots from then on, so the step stays the same.
    pub(crate) fn foresee(
        &mut self,
        program: &Program<'_, '_>,
        trace: bool,
        happening: &mut Happening,
    ) -> Result<bool, Memory>
        requires numbered { IsNumbered self.old.heap.stands }
        ensures event { IfOk result (λ event. StepForeseen (machinery program.now) trace (seen self.old) event happening.new) }
        ensures step { OnOk result (machine_step (machinery program.now) (seen self.new) ≡ machine_step (machinery program.now) (seen self.old)) }
        ensures heap { OnOk result ((seen self.new).heap ≡ (seen self.old).heap) }
    {
        if !trace {
            return Ok(false);
        }
        match self.run.frame.rest.front() {
            None => Ok(false),
            Some(parts) => self.foresee_line(program, parts.0, parts.2.insts, happening),
        }
    }

    fn foresee_line(
        &mut self,
        program: &Program<'_, '_>,
        inst: &Inst,
        rest: &[Inst],
        happening: &mut Happening,
    ) -> Result<bool, Memory>
        requires numbered { IsNumbered self.old.heap.stands }
        requires stands { self.old.run.frame.rest.insts.now ≡ inst.now ∷ rest.now }
        ensures event { IfOk result (λ event. StepForeseen (machinery program.now) true (seen self.old) event happening.new) }
        ensures step { OnOk result (machine_step (machinery program.now) (seen self.new) ≡ machine_step (machinery program.now) (seen self.old)) }
        ensures heap { OnOk result ((seen self.new).heap ≡ (seen self.old).heap) }
    {
        match inst.op() {
            Op::Call { callee, .. } => self.foresee_call(program, *callee, happening),
            Op::Statepoint { callee, types, .. } => {
                self.spill(inst, types.list().len())?;
                self.foresee_call(program, *callee, happening)
            }
            _ => Ok(false),
        }
    }

    // The entries that a statepoint with so many arguments keeps go to their slots.
    fn spill(&mut self, inst: &Inst, arguments: usize) -> Result<(), Memory>
        ensures spilled { OnOk result (seen self.new ≡ spilled (seen self.old) (line_of self.old.run.frame.next inst.now).inst arguments) }
        ensures heap { self.new.heap ≡ self.old.heap }
    {
        self.run.keep(inst, arguments)
    }

    fn foresee_call(
        &mut self,
        program: &Program<'_, '_>,
        callee: Callee,
        happening: &mut Happening,
    ) -> Result<bool, Memory>
        requires numbered { IsNumbered self.old.heap.stands }
        ensures event { IfOk result (λ event. CallForeseen (machinery program.now) (seen self.old) callee event happening.new) }
        ensures kept { seen self.new ≡ seen self.old }
    {
        match callee {
            Callee::Poll => self.foresee_event(program, true, happening),
            Callee::New(_) => self.foresee_event(program, false, happening),
            _ => Ok(false),
        }
    }

    // The verdict, the moves and the slots of the event that comes.
    fn foresee_event(
        &mut self,
        program: &Program<'_, '_>,
        poll: bool,
        happening: &mut Happening,
    ) -> Result<bool, Memory>
        requires numbered { IsNumbered self.old.heap.stands }
        ensures is { IfOk result (λ event. event ≡ true) }
        ensures foreseen { OnOk result (IsForeseen (machinery program.now) (seen self.old) poll happening.new) }
        ensures kept { seen self.new ≡ seen self.old }
    {
        let number = self.events.saturating_add(1);
        let flip = flip_of(program.plan, number);
        happening.number = number;
        happening.poll = poll;
        happening.verdict = self.heap.ready(program.plan.group(number), flip);
        happening.moves.clear();
        happening.slots.clear();
        if self.heap.moves().is_empty() {
            return Ok(true);
        }
        add_moves(&self.heap, &mut happening.moves)?;
        self.add_slots(program, &mut happening.room, &mut happening.slots)?;
        Ok(true)
    }

    // The slots of all tasks under the moves of the pending group, by the tasks' numbers.
    fn add_slots(
        &self,
        program: &Program<'_, '_>,
        room: &mut Room,
        slots: &mut Vec<SlotChange>,
    ) -> Result<(), Memory>
        ensures { OnOk result (map change_of slots.new.items ≡ map change_of slots.old.items ++ changes_by_task (machinery program.now) self.now.heap.moves 0 (all_frames (seen self.now)) (all_stacks (seen self.now))) }
    {
        if self.tasks.len() > u32::MAX as usize {
            return Err(Memory);
        }
        for place in 0..self.tasks.len() {
            let number = place as u32;
            if u64::from(number) == self.task {
                add_task(program, &self.run, number, self.heap.moves(), room, slots)?;
            } else {
                let task = &self.tasks[place];
                add_waiting(program, task, number, self.heap.moves(), room, slots)?;
            }
        }
        Ok(())
    }
}

// The slots of a task.
fn add_task(
    program: &Program,
    task: &Task,
    number: u32,
    moves: &Moves,
    room: &mut Room,
    slots: &mut Vec<SlotChange>,
) -> Result<(), Memory>
    ensures { OnOk result (map change_of slots.new.items ≡ map change_of slots.old.items ++ task_changes (machinery program.now) moves.now.moves number (frames_of task.now) task.now.stack) }
{
    let address = task.frame.return_address(&program.code);
    add_changes(
        &program.map,
        &task.stack,
        address,
        moves,
        number,
        room,
        slots,
    )
}

fn add_waiting(
    program: &Program,
    task: &Option<Task>,
    number: u32,
    moves: &Moves,
    room: &mut Room,
    slots: &mut Vec<SlotChange>,
) -> Result<(), Memory>
    ensures { OnOk result (map change_of slots.new.items ≡ map change_of slots.old.items ++ task_changes (machinery program.now) moves.now.moves number (waiting task.now) (kept task.now)) }
{
    match task {
        None => Ok(()),
        Some(task) => add_task(program, task, number, moves, room, slots),
    }
}
