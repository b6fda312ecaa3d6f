//! A line of a function resolved: its instruction, and the first of what it loses.

ghost use Rattle.std.specs.Prelude.{◌≡◌, ◌+◌, ◌<◌, [], ◌∷◌, ◌++◌, length, drop, map, OnOk, if◌then◌else◌};
ghost use Rattle.ir_lines.specs.Faults.GroupShape.{is_count};
ghost use Rattle.ir_lines.specs.Faults.PointerCast.{is_cast};
ghost use Rattle.ir_lines.specs.Modules.{instruction_said, with_line};
ghost use Rattle.ir_lines.specs.Notes.{Notes};
ghost use Rattle.ir_lines.specs.ReadLines.{is_instruction};
ghost use Rattle.ir_lines.specs.Views.{seen_guarded, said, seen_lines};
ghost use Rattle.module_build.specs.Known.{known_in};
ghost use Rattle.module_build.specs.Lost.{tables_in, spells_wrong_count, miscounts_in, LostBy, LostIn};

use crate::lost::{Lost, nothing_lost};
use crate::scope::Scope;
use ir_ast::{Form, Inst};
use ir_lines::best::First;
use ir_reader::{Literal, NumberedReading, Reading, StatepointCall};
use sp_ids::Memory;
use std::alloc::{AllocError, Global};

// A conversion from or to pointers.
fn is_cast(reading: &Reading) -> bool
    ensures { result ≡ is_cast (said reading.now) }
{
    matches!(reading, Reading::Cast { .. })
}

fn is_count(literal: Literal, count: usize) -> bool
    ensures { result ≡ is_count literal count }
{
    (!literal.negative || literal.magnitude == 0) && literal.magnitude == count as u64
}

fn tells_count(call: &StatepointCall) -> bool
    ensures { result ≡ is_count (seen_guarded call.now).count (length (seen_guarded call.now).passed) }
{
    is_count(call.count, call.passed.len())
}

// Whether a statepoint spells another number of arguments than it has.
fn spells_wrong_count(reading: &Reading) -> bool
    ensures { result ≡ spells_wrong_count (said reading.now) }
{
    match reading {
        Reading::Statepoint { call, .. } => !tells_count(&**call),
        _ => false,
    }
}

fn miscounts(form: Form, reading: &Reading) -> bool
    ensures { result ≡ miscounts_in form (said reading.now) }
{
    match form {
        Form::Source => false,
        Form::Rewritten => spells_wrong_count(reading),
    }
}

// What the tests of a line say.
#[derive(Clone, Copy)]
struct Tests {
    unknown: bool,
    misspelled: bool,
    cast: bool,
    miscounted: bool,
}

fn note_tests(tests: Tests, line: u32, first: &mut First)
    ensures { Notes first.old.found first.new.found
        (λ l code. (l ≡ line) × LostBy tests.unknown tests.misspelled tests.cast tests.miscounted code) }
{
    first.note_if(tests.unknown, line, 4);
    first.note_if(tests.misspelled, line, 5);
    first.note_if(tests.cast, line, 16);
    first.note_if(tests.miscounted, line, 18);
}

fn tested(form: Form, reading: &Reading, lost: Lost) -> Tests
    ensures unknown { result.unknown ≡ lost.unknown }
    ensures misspelled { result.misspelled ≡ lost.misspelled }
    ensures cast { result.cast ≡ is_cast (said reading.now) }
    ensures miscounted { result.miscounted ≡ miscounts_in form (said reading.now) }
{
    Tests {
        unknown: lost.unknown,
        misspelled: lost.misspelled,
        cast: is_cast(reading),
        miscounted: miscounts(form, reading),
    }
}

/// Whether it stands for an instruction.
pub fn is_instruction(reading: &Reading) -> bool
    ensures { result ≡ is_instruction (said reading.now) }
{
    !matches!(
        reading,
        Reading::Layout { .. }
            | Reading::Declare { .. }
            | Reading::Define { .. }
            | Reading::Close
            | Reading::Label { .. }
            | Reading::Case { .. }
            | Reading::SwitchEnd
    )
}

// Adds a line behind the others, where it stands for an instruction.
fn keep_number(line: &NumberedReading, numbers: &mut Vec<u32>) -> Result<(), AllocError>
    ensures { OnOk result (numbers.new.items
        ≡ numbers.old.items ++ (if is_instruction (said line.now.reading) then line.now.line ∷ [] else [])) }
{
    if is_instruction(&line.reading) {
        numbers.push(line.line)?;
    }
    Ok(())
}

/// Adds the instruction of a line and its number behind the others, where it is one; a `switch` has the cases that stand
/// behind it. Notes what the line loses: a name that there isn't, a number outside its type, a call of other types, a
/// conversion from or to pointers, a count.
pub fn resolve_line(
    scope: &Scope,
    alloc: Global,
    line: &NumberedReading,
    behind: &[NumberedReading],
    insts: &mut Vec<Inst>,
    numbers: &mut Vec<u32>,
    first: &mut First,
) -> Result<(), Memory>
    ensures insts { OnOk result (insts.new.items ≡ insts.old.items ++ map (λ one. one.1)
        (with_line line.now.line (instruction_said (known_in scope.now) (seen_lines behind.now) (said line.now.reading)))) }
    ensures numbers { OnOk result (numbers.new.items ≡ numbers.old.items ++ map (λ one. one.0)
        (with_line line.now.line (instruction_said (known_in scope.now) (seen_lines behind.now) (said line.now.reading)))) }
    ensures noted { OnOk result (Notes first.old.found first.new.found
        (λ l code. (l ≡ line.now.line) × LostIn scope.now.form (tables_in scope.now) (said line.now.reading) code)) }
{
    let mut lost = nothing_lost();
    scope.instruction(alloc, &line.reading, behind, insts, &mut lost)?;
    keep_number(line, numbers)?;
    note_tests(tested(scope.form, &line.reading, lost), line.line, first);
    Ok(())
}

/// The lines behind one.
pub fn behind<'t, 'a>(lines: &'t [NumberedReading<'a>], i: usize) -> &'t [NumberedReading<'a>]
    requires { i < length lines.now }
    ensures { result.now ≡ drop (i + 1) lines.now }
{
    &lines[i + 1..]
}
