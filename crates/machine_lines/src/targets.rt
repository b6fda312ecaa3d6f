//! Where a terminator leads.

ghost use Rattle.std.specs.Prelude.{◌≡◌, ◌<◌, map, drop, length, IfSome};
ghost use Rattle.std.specs.List.{position};
ghost use Rattle.ir_ast.specs.Objects.{number};
ghost use Rattle.object_meaning.specs.Jumps.{branch_taken, case_taken, is_case};
ghost use Rattle.machine_meaning.specs.Words.{worded_operand};

use flat_code::cases_of;
use ir_ast::Operand;

/// Which label of a `br` with a condition is taken.
pub fn branch_taken(word: u64) -> usize
    ensures { result ≡ branch_taken (number word) }
{
    if word > 0 { 0 } else { 1 }
}

/// Which label of a `switch` is taken: the first equal case's, or the default's, which stands first.
pub fn case_taken(word: u64, operands: &[Operand]) -> usize
    ensures { result ≡ case_taken (number word) (drop 1 (map worded_operand operands.now)) }
{
    match place_of(word, cases_of(operands)) {
        None => 0,
        Some(place) => place + 1,
    }
}

fn place_of(number: u64, cases: &[Operand]) -> Option<usize>
    ensures value { result ≡ position (λ one. is_case number (worded_operand one)) cases.now }
    ensures within { IfSome result (λ place. place < length cases.now) }
{
    cases.iter().position(|one| is_case(number, one))
}

fn is_case(number: u64, operand: &Operand) -> bool
    ensures { result ≡ is_case number (worded_operand operand.now) }
{
    match operand {
        Operand::Int(literal) => *literal == number,
        Operand::Null => number == 0,
        _ => false,
    }
}
