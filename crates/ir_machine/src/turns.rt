//! A turn of a run: its steps up to one that writes something.

ghost use Rattle.std.specs.Prelude.{◌≡◌, false, IfOk, OnOk};
ghost use Rattle.moving_heap.specs.Settled.{IsNumbered};
ghost use Rattle.ir_machine.specs.Executors.{machinery, seen};
ghost use Rattle.ir_machine.specs.Answers.{LeadsOn, Turned, WentFar, is_shown};

use crate::executor::{Executor, Program};
use run_tasks::Did;
use run_traces::Happening;
use sp_ids::Memory;

/// What the last step of a turn did, and whether it is an event that is shown.
#[derive(Clone, Copy, Debug, PartialEq, Eq)]
pub(crate) struct Turn {
    pub event: bool,
    pub did: Did,
}

impl<'m, 'i> Executor<'m, 'i> {
    /// With a trace one step, with what it shows; without one all steps up to the next that prints or ends. The lines that
    /// stay in their frame before a step go along with it.
    pub(crate) fn turn(
        &mut self,
        program: &'m Program<'_, '_>,
        trace: bool,
        happening: &mut Happening,
    ) -> Result<Turn, Memory>
        requires numbered { IsNumbered self.old.heap.stands }
        ensures { IfOk result (λ turn. Turned (machinery program.now) trace (seen self.old) turn.event happening.new turn.did (seen self.new)) }
    {
        if trace {
            self.turn_shown(program, trace, happening)
        } else {
            self.turn_quiet(program)
        }
    }

    #[cold]
    fn turn_shown(
        &mut self,
        program: &'m Program<'_, '_>,
        trace: bool,
        happening: &mut Happening,
    ) -> Result<Turn, Memory>
        requires numbered { IsNumbered self.old.heap.stands }
        ensures { IfOk result (λ turn. Turned (machinery program.now) trace (seen self.old) turn.event happening.new turn.did (seen self.new)) }
    {
        self.go_over(program);
        let event = self.foresee(program, trace, happening)?;
        let did = self.step(program)?;
        Ok(Turn { event, did })
    }

    // All steps up to one that prints or ends.
    fn turn_quiet(&mut self, program: &'m Program<'_, '_>) -> Result<Turn, Memory>
        ensures { IfOk result (λ turn. WentFar (machinery program.now) (seen self.old) turn (seen self.new)) }
    {
        for _ in 0..u64::MAX {
            self.fast_steps(program)?;
            let did = self.step(program)?;
            if is_shown(did) {
                return Ok(Turn { event: false, did });
            }
        }
        Err(Memory)
    }

    // All lines that stay in their frame, all jumps, calls and returns, and all polls at which nothing happens, up to another line.
    #[inline(never)]
    fn fast_steps(&mut self, program: &'m Program<'_, '_>) -> Result<(), Memory>
        ensures { OnOk result (LeadsOn (machinery program.now) false (seen self.old) (seen self.new)) }
    {
        for _ in 0..u64::MAX {
            self.go_over(program);
            let went = self.fast_step(program)?;
            if !went {
                return Ok(());
            }
        }
        Err(Memory)
    }
}

// Whether a step prints or ends.
fn is_shown(did: Did) -> bool
    ensures { result ≡ is_shown did }
{
    match did {
        Did::GoesOn => false,
        Did::Prints(_) => true,
        Did::Ends(_) => true,
    }
}
