//! Why the work stops.
use ir_types::Fault;
use map_bytes::MapFault;
use sp_ids::Memory;
use statepoint_verify::Fault as CheckFault;
use tool_words::FileName;

/// What is wrong with the text of a module.
#[derive(Clone, Copy, Debug, PartialEq, Eq)]
pub(crate) enum ModuleFault {
    /// The first line that has no reading in its place.
    Syntax { line: u32 },
    /// The first line that passes a limit.
    Limit { line: u32 },
    /// The least fault of the lines.
    Typed(Fault),
    /// Rewritten, the module would have more relocates than may be.
    TooManyRelocations,
}

/// What is wrong with the text of a plan: its least fault.
#[derive(Clone, Copy, Debug, PartialEq, Eq)]
pub(crate) enum PlanFault {
    /// A line without a form.
    Syntax { line: u32 },
    /// A line whose event is below that of an earlier line, or an `every` line that doesn't stand first.
    Order { line: u32 },
    /// A second `go` line of its event.
    TwoGo { line: u32 },
    /// The first line too many.
    Limit { line: u32 },
}

/// Why the work stops, by the definition of the work over what the files gave.
#[derive(Debug, Drop)]
pub(crate) enum Cause {
    /// The words give no command.
    Words,
    /// The file could not be read.
    ReadFault(FileName),
    /// The file is longer than the limit.
    TooLong(FileName),
    Module(ModuleFault),
    /// The first line of the input that is neither blank nor a number, or that holds the first number too many.
    Input { line: u32 },
    Plan(PlanFault),
    /// The first fault of the bytes of a stack map.
    Map(MapFault),
    /// The least fault that the verifier tells.
    Check(CheckFault),
}

/// Why the work did not come to its end.
#[derive(Debug, Drop)]
pub(crate) enum Refusal {
    Defined(Cause),
    /// Standard output failed.
    WriteFault,
    Memory,
}

impl From<Memory> for Refusal {
    ghost use Rattle.std.specs.Prelude.{◌≡◌};
    ghost use Rattle.statepoint_tool.specs.declared.refusal.Refusal.TheVariants.{Memory as OutOfMemory};

    ghost from_gives = { λ _ refusal. refusal ≡ OutOfMemory };

    fn from(_memory: Memory) -> Self {
        Refusal::Memory
    }
}
