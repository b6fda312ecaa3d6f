//! The readings of a text.

ghost use Rattle.std.specs.Prelude.{◌≡◌, ◌≤◌, length, map, IfOk, IfErr, OnOk, IsTrue};
ghost use Rattle.ir_reader.specs.Text.{opening, readings_in, text_readings, outcome};
ghost use Rattle.ir_reader.specs.Limits.{counts_fit};
ghost use Rattle.ir_reader.specs.Raws.{seen_numbered};
ghost use Rattle.ir_reader.specs.Reads.{TextGives, AfterLine, FaultOfLine};

use crate::faults::{LineFault, ReadFault};
use crate::raw::Raw;
use crate::states::{Counts, Place, State};
use crate::woven::Woven;
use ir_ast::Form;
use sp_ids::limits::FILE_BYTES;
use sp_text::{Kind, Line, Lines, Token};
use std::alloc::Global;

// How many tokens of a line are found before it is read; further ones are found as they are reached.
const TOKENS_AT_ONCE: usize = 256;

const NO_TOKEN: Token<'static> = Token {
    kind: Kind::Word,
    bytes: b"a",
};

impl State {
    // Nothing was read yet of a text in this form.
    fn opening(form: Form) -> State
        ensures { result ≡ opening form }
    {
        State {
            form,
            place: Place::Top,
            counts: Counts {
                layouts: 0,
                functions: 0,
                values: 0,
                instructions: 0,
                relocates: 0,
            },
        }
    }
}

/// The readings of a text in the source form: of all its lines that are neither empty nor dropped, each with its
/// number; or the first line that has no reading in its place or passes a limit. A text that ends inside a function
/// has no reading at the line after its last. [`ReadFault::Memory`] says nothing of the text.
pub fn read(alloc: Global, text: &[u8]) -> Result<Raw<'_>, ReadFault>
    requires { length text.now ≤ FILE_BYTES }
    ensures exact { TextGives (λ raw. map seen_numbered raw.lines) result (text_readings text.now) }
    ensures text { IfOk result (λ raw. raw.text ≡ text.now) }
    ensures form { IfOk result (λ raw. raw.form ≡ Form.Source) }
{
    let readings = all_readings(alloc, Form::Source, text)?;
    Ok(Raw::of(text, Form::Source, readings))
}

/// The readings of a text in the rewritten form, which has all lines of the source form and those of statepoint
/// groups; or its first fault, as [`read`] tells it.
pub fn read_rewritten(alloc: Global, text: &[u8]) -> Result<Raw<'_>, ReadFault>
    requires { length text.now ≤ FILE_BYTES }
    ensures exact { TextGives (λ raw. map seen_numbered raw.lines) result (readings_in Form.Rewritten text.now) }
    ensures text { IfOk result (λ raw. raw.text ≡ text.now) }
    ensures form { IfOk result (λ raw. raw.form ≡ Form.Rewritten) }
{
    let readings = all_readings(alloc, Form::Rewritten, text)?;
    Ok(Raw::of(text, Form::Rewritten, readings))
}

fn all_readings(alloc: Global, form: Form, text: &[u8]) -> Result<Woven<'_>, ReadFault>
    requires { length text.now ≤ FILE_BYTES }
    ensures { TextGives (λ readings. map seen_numbered readings) result (readings_in form text.now) }
{
    let mut lines = Lines::of(text);
    let mut state = State::opening(form);
    let mut number = 1;
    let mut readings = Woven::new(alloc);
    let mut room = [NO_TOKEN; TOKENS_AT_ONCE];
    while let Some(line) = lines.next_line() {
        read_line(alloc, &mut state, line, &mut room, &mut readings)?;
        number = line.number + 1;
    }
    if state.place.is_top() {
        Ok(readings)
    } else {
        Err(ReadFault::Syntax { line: number })
    }
}

// Reads one line, and keeps what it says.
fn read_line<'a>(
    alloc: Global,
    state: &mut State,
    line: Line<'a>,
    room: &mut [Token<'a>],
    readings: &mut Woven<'a>,
) -> Result<(), ReadFault>
    requires { IsTrue (counts_fit state.old.counts) }
    ensures ok { OnOk result (AfterLine (outcome state.old line.entry.bytes.now) line.entry.number state.old state.new
        (map seen_numbered readings.old) (map seen_numbered readings.new)) }
    ensures fault { IfErr result (λ fault. FaultOfLine fault line.entry.number (outcome state.old line.entry.bytes.now)) }
    ensures counts { OnOk result (IsTrue (counts_fit state.new.counts)) }
{
    match state.read(alloc, line, room, readings) {
        Ok(()) => Ok(()),
        Err(LineFault::NoReading) => Err(ReadFault::Syntax { line: line.number }),
        Err(LineFault::OverLimit) => Err(ReadFault::Limit { line: line.number }),
        Err(LineFault::Memory) => Err(ReadFault::Memory),
    }
}
