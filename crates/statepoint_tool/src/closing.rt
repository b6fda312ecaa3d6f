//! The line that closes a run, and the status of its end.
ghost use Rattle.std.specs.Prelude.{◌≡◌, ◌≤◌, length, IfOk, OnOk, OnErr};
ghost use Rattle.object_meaning.specs.Texts.{function_name};
ghost use Rattle.tool_io.specs.Counts.{Rose};
ghost use Rattle.tool_io.specs.Sink.{append_known, AppendsFront};
ghost use Rattle.tool_io.specs.Told.{add_told};
ghost use Rattle.statepoint_tool.specs.Closings.{closing_line, status_of_end};

use crate::status::Status;
use ir_ast::Module;
use sp_ids::{End, FuncId};
use tool_io::{Failed, Sink};
use tool_report::closing;

/// Puts the line that closes a run of the module that ended so, in this function and after so many steps and events, and
/// gives the status of its end.
pub(crate) fn close<O: Sink>(
    code: &Module,
    end: End,
    func: FuncId,
    steps: u64,
    events: u64,
    out: &mut O,
) -> Result<Status, Failed>
    ensures ok { IfOk result (λ status. status ≡ status_of_end end) }
    ensures written { OnOk result (O.written out.new ≡ append_known (O.written out.old) (closing_line code.now.content end func.0 steps events)) }
    ensures front { OnErr result (AppendsFront (O.written out.old) (O.written out.new) (closing_line code.now.content end func.0 steps events)) }
    ensures by_one_put { length (closing_line code.now.content end func.0 steps events) ≤ 8192 → OnOk result (O.puts out.new ≡ add_told (O.puts out.old) (closing_line code.now.content end func.0 steps events)) }
    ensures failed { OnErr result (Rose (O.faults out.old) (O.faults out.new)) }
    ensures count { O.faults out.old ≤ O.faults out.new }
{
    closing(end, function_name(code, func), steps, events, out)?;
    Ok(status_of(end))
}

fn function_name(code: &Module, func: FuncId) -> &[u8]
    ensures { result.now ≡ function_name code.now.content func.0 }
{
    match code.funcs().get(func.0 as usize) {
        Some(func) => func.name().bytes(),
        None => b"",
    }
}

/// The status of a run that ends so.
pub(crate) fn status_of(end: End) -> Status
    ensures { result ≡ status_of_end end }
{
    match end {
        End::Return(_) => Status::Done,
        End::Trap(_) => Status::Trapped,
        End::OutOfSteps => Status::OutOfSteps,
        End::Poison | End::LostFrame => Status::Stray,
    }
}
