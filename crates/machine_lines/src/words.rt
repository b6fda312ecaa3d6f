//! Operands and registers, as words.

ghost use Rattle.std.specs.Prelude.{◌≡◌, map, slice_index_or, slice_set};
ghost use Rattle.ir_ast.specs.Objects.{number};
ghost use Rattle.object_meaning.specs.Registers.{nothing, value, operand, number_in, put};
ghost use Rattle.machine_meaning.specs.Words.{worded_operand};

use ir_ast::Operand;

/// The word that an operand is in a frame with these registers: a register's, a literal, or 0.
pub fn word(registers: &[u64], operand: Operand) -> u64
    ensures value { value (map number registers.now) (worded_operand operand) ≡ number result }
    ensures plain { number_in (value (map number registers.now) operand) ≡ result }
{
    match operand {
        Operand::Value(id) => register(registers, id.0),
        Operand::Int(literal) => literal,
        Operand::Null => 0,
        Operand::Fun(_) => 0,
    }
}

#[tactic(auto, using(crate::proofs::WordLemmas::register_is))]
fn register(registers: &[u64], register: u32) -> u64
    ensures { slice_index_or (map number registers.now) register nothing ≡ number result }
{
    registers.get(register as usize).copied().unwrap_or(0)
}

/// The word of the operand at a place of a line, or 0.
pub fn word_at(registers: &[u64], operands: &[Operand], place: usize) -> u64
    ensures { operand (map number registers.now) (map worded_operand operands.now) place ≡ number result }
{
    match operands.get(place) {
        None => 0,
        Some(operand) => word(registers, *operand),
    }
}

/// The register that a result goes to is written.
#[inline(always)]
pub fn put(registers: &mut [u64], to: Option<usize>, word: u64)
    ensures { map number registers.new ≡ put to (number word) (map number registers.old) }
{
    if let Some(register) = to {
        write(registers, register, word);
    }
}

#[inline(always)]
fn write(registers: &mut [u64], register: usize, word: u64)
    ensures { registers.new ≡ slice_set registers.old register word }
{
    if register < registers.len() {
        registers[register] = word;
    }
}
