//! The laws that each run of the address machine comes to an end, and that what it has printed on the way stands first in
//! what it prints. No code.
ghost use Rattle.runs_unseen.specs.MachineEnds.{EachRunEnds, PrintedFirst};

/// Whatever the module, the map, the input, the plan and the bound are, the machine's run gives an outcome.
pub fn each_run_ends()
    ensures { EachRunEnds }
{}

/// What a run has printed in a state that it comes to is a front of what it prints.
pub fn printed_first()
    ensures { PrintedFirst }
{}
