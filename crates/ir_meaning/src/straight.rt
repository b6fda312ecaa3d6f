//! Straight lines, one after another.

ghost use Rattle.std.specs.Prelude.{◌≡◌, Ok, Err, MatchOption, length, slice_set};
ghost use Rattle.std.specs.List.{All};
ghost use Rattle.object_meaning.specs.Registers.{put};
ghost use Rattle.flat_code.specs.Flats.{IsSizedLine, line_done, lines_done};
ghost use Rattle.ir_meaning.specs.Straights.{held_in, outcome};

use crate::computing::{acted, held};
use flat_code::{Action, FlatLine};
use object_store::{Objects, Word};
use sp_ids::Trap;

/// These lines, up to a trap.
pub fn straight(registers: &mut [Word], objects: &mut Objects, lines: &[FlatLine]) -> Option<Trap>
    requires { All IsSizedLine lines.now }
    ensures done { outcome result (held_in registers.new objects.new) ≡ lines_done objects.old.layouts (held_in registers.old objects.old) lines.now }
    ensures layouts { objects.new.layouts ≡ objects.old.layouts }
{
    for line in lines {
        if let Some(trap) = one_line(registers, objects, line) {
            return Some(trap);
        }
    }
    None
}

fn one_line(registers: &mut [Word], objects: &mut Objects, line: &FlatLine) -> Option<Trap>
    requires { IsSizedLine line.now }
    ensures done { MatchOption result (line_done objects.old.layouts (held_in registers.old objects.old) line.now ≡ Ok (held_in registers.new objects.new)) (λ trap. line_done objects.old.layouts (held_in registers.old objects.old) line.now ≡ Err trap) }
    ensures layouts { objects.new.layouts ≡ objects.old.layouts }
{
    match line.action {
        Action::Load(cell) => match objects.load(cell, held(registers, line.first)) {
            Ok(word) => {
                put(registers, line.to, word);
                None
            }
            Err(trap) => Some(trap),
        },
        Action::Store(cell) => {
            let word = held(registers, line.first);
            match objects.store(cell, held(registers, line.second), word) {
                Ok(()) => {
                    put(registers, line.to, Word::of(0));
                    None
                }
                Err(trap) => Some(trap),
            }
        }
        _ => match acted(registers, line) {
            Ok(word) => {
                put(registers, line.to, word);
                None
            }
            Err(trap) => Some(trap),
        },
    }
}

/// The register that a result goes to is written.
pub fn put(registers: &mut [Word], to: Option<u32>, word: Word)
    ensures { registers.new ≡ put to word registers.old }
{
    if let Some(register) = to {
        write(registers, register as usize, word);
    }
}

fn write(registers: &mut [Word], register: usize, word: Word)
    ensures { registers.new ≡ slice_set registers.old register word }
{
    if register < registers.len() {
        registers[register] = word;
    }
}
