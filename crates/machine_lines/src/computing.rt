//! What the lines on integers compute, on words.

ghost use Rattle.std.specs.Prelude.{◌≡◌, ◌≤◌, true, [], Ok, IfSome};
ghost use Rattle.ir_ast.specs.Objects.{number};
ghost use Rattle.object_meaning.specs.Comparisons.{bit, numbers_compare};
ghost use Rattle.object_meaning.specs.Computing.{computed, with_number};
ghost use Rattle.sp_ids.specs.Numbers.{signed};
ghost use Rattle.object_meaning.specs.Numbers.{width_of, sign_extended, arithmetic};
ghost use Rattle.flat_code.specs.Actions.{number_done, ExtendsWell};
ghost use Rattle.machine_meaning.specs.Words.{worded_type};
ghost use Rattle.machine_lines.specs.Decoding.{is_plain, found_word};

use crate::decoded::Decoded;
use flat_code::{Action, computed_number, width_of};
use ir_ast::{Op, Pred, Ty};
use sp_ids::{Trap, sign, wrap};

/// What a line with this operator and type gives of its first three operands (LLVM Language Reference, "Binary
/// Operations", "Bitwise Binary Operations", "Conversion Operations", "'icmp' Instruction", "'select' Instruction"),
/// or why it traps; pointers are compared as numbers.
pub fn computed(op: &Op, ty: &Ty, first: u64, second: u64, third: u64) -> Result<u64, Trap>
    ensures { is_plain op.now ≡ true → computed [] op.now (worded_type op.now ty.now) (number first) (number second) (number third) ≡ with_number result }
{
    match op {
        Op::Add => of_two(Action::Add, ty, first, second),
        Op::Sub => of_two(Action::Sub, ty, first, second),
        Op::Mul => of_two(Action::Mul, ty, first, second),
        Op::Udiv => of_two(Action::Udiv, ty, first, second),
        Op::Sdiv => of_two(Action::Sdiv, ty, first, second),
        Op::Urem => of_two(Action::Urem, ty, first, second),
        Op::Srem => of_two(Action::Srem, ty, first, second),
        Op::And => of_two(Action::And, ty, first, second),
        Op::Or => of_two(Action::Or, ty, first, second),
        Op::Xor => of_two(Action::Xor, ty, first, second),
        Op::Shl => of_two(Action::Shl, ty, first, second),
        Op::Lshr => of_two(Action::Lshr, ty, first, second),
        Op::Ashr => of_two(Action::Ashr, ty, first, second),
        Op::Icmp(pred) => compared(*pred, ty, first, second),
        Op::Trunc(to) => of_two(Action::Truncate, &Ty::Int(*to), first, second),
        Op::Zext(_) => Ok(first),
        Op::Sext(to) => extended(*to, ty, first),
        Op::Select => Ok(if first > 0 { second } else { third }),
        Op::Phi
        | Op::Gep { .. }
        | Op::Load
        | Op::Store
        | Op::Call { .. }
        | Op::Statepoint { .. }
        | Op::GcResult
        | Op::GcRelocate
        | Op::Br
        | Op::CondBr
        | Op::Switch
        | Op::Ret
        | Op::Unreachable => Ok(0),
    }
}

/// The number that a line with this operator and type gives which computes one, unless it traps; none, for any other line.
#[inline(always)]
pub(crate) fn outcome(op: &Op, ty: &Ty, decoded: &Decoded, registers: &[u64]) -> Option<u64>
    requires some_bits { 1 ≤ decoded.now.width }
    requires word { decoded.now.width ≤ 64 }
    requires width { decoded.now.width ≡ width_of ty.now }
    ensures plain { IfSome result (λ word. decoded.now.plain ≡ true) }
    ensures value { IfSome result (λ word. computed [] op.now (worded_type op.now ty.now) (number (found_word registers.now decoded.now.first)) (number (found_word registers.now decoded.now.second)) (number (found_word registers.now decoded.now.third)) ≡ Ok (number word)) }
{
    if !decoded.plain {
        return None;
    }
    let width = decoded.width;
    let first = decoded.first.word(registers);
    let second = decoded.second.word(registers);
    match op {
        Op::Add => Some(wrap(width, first.wrapping_add(second))),
        Op::Sub => Some(wrap(width, first.wrapping_sub(second))),
        Op::Mul => Some(wrap(width, first.wrapping_mul(second))),
        Op::Udiv => quotient(first, second),
        Op::Urem => remainder(first, second),
        Op::And => Some(first & second),
        Op::Or => Some(first | second),
        Op::Xor => Some(first ^ second),
        Op::Shl => left_shift(width, first, second),
        Op::Lshr => right_shift(width, first, second),
        Op::Icmp(pred) => Some(compared_word(*pred, ty, first, second)),
        Op::Zext(_) => Some(first),
        Op::Sdiv => rare(op, ty, first, second),
        Op::Srem => rare(op, ty, first, second),
        Op::Ashr => rare(op, ty, first, second),
        Op::Trunc(_) => rare(op, ty, first, second),
        Op::Sext(_) => rare(op, ty, first, second),
        Op::Select => {
            if first > 0 {
                Some(second)
            } else {
                Some(decoded.third.word(registers))
            }
        }
        _ => None,
    }
}

// The same of the lines that are rare.
fn rare(op: &Op, ty: &Ty, first: u64, second: u64) -> Option<u64>
    ensures { is_plain op.now ≡ true → IfSome result (λ word. computed [] op.now (worded_type op.now ty.now) (number first) (number second) (number 0) ≡ Ok (number word)) }
{
    computed(op, ty, first, second, 0).ok()
}

fn quotient(left: u64, right: u64) -> Option<u64>
    ensures { IfSome result (λ word. arithmetic Op.Udiv 64 left right ≡ Ok word) }
{
    if right == 0 { None } else { Some(left / right) }
}

fn remainder(left: u64, right: u64) -> Option<u64>
    ensures { IfSome result (λ word. arithmetic Op.Urem 64 left right ≡ Ok word) }
{
    if right == 0 { None } else { Some(left % right) }
}

fn left_shift(width: u32, left: u64, right: u64) -> Option<u64>
    requires some_bits { 1 ≤ width }
    requires word { width ≤ 64 }
    ensures { IfSome result (λ word. arithmetic Op.Shl width left right ≡ Ok word) }
{
    if right < u64::from(width) {
        Some(wrap(width, left << right))
    } else {
        None
    }
}

fn right_shift(width: u32, left: u64, right: u64) -> Option<u64>
    requires { width ≤ 64 }
    ensures { IfSome result (λ word. arithmetic Op.Lshr width left right ≡ Ok word) }
{
    if right < u64::from(width) {
        Some(left >> right)
    } else {
        None
    }
}

// An action on two numbers of a type.
fn of_two(action: Action, ty: &Ty, left: u64, right: u64) -> Result<u64, Trap>
    requires { ExtendsWell action }
    ensures { result ≡ number_done action (width_of ty.now) left right }
{
    computed_number(action, width_of(ty), left, right)
}

fn compared(pred: Pred, ty: &Ty, left: u64, right: u64) -> Result<u64, Trap>
    ensures { result ≡ number_done (Action.Compare pred) (width_of (worded_type (Op.Icmp pred) ty.now)) left right }
{
    Ok(compared_word(pred, ty, left, right))
}

#[inline(always)]
fn compared_word(pred: Pred, ty: &Ty, left: u64, right: u64) -> u64
    ensures { result ≡ bit (numbers_compare pred (width_of (worded_type (Op.Icmp pred) ty.now)) left right) }
{
    match pred {
        Pred::Eq => u64::from(left == right),
        Pred::Ne => u64::from(left != right),
        Pred::Ugt => u64::from(left > right),
        Pred::Uge => u64::from(left >= right),
        Pred::Ult => u64::from(left < right),
        Pred::Ule => u64::from(left <= right),
        Pred::Sgt => u64::from(signed(ty, left) > signed(ty, right)),
        Pred::Sge => u64::from(signed(ty, left) >= signed(ty, right)),
        Pred::Slt => u64::from(signed(ty, left) < signed(ty, right)),
        Pred::Sle => u64::from(signed(ty, left) <= signed(ty, right)),
    }
}

// The signed number that a word of a type is, or that a pointer's word is.
fn signed(ty: &Ty, word: u64) -> i64
    ensures { (pred : Pred) → result ≡ signed (width_of (worded_type (Op.Icmp pred) ty.now)) word }
{
    sign(width_of(ty), word)
}

fn extended(to: u32, ty: &Ty, word: u64) -> Result<u64, Trap>
    ensures { result ≡ Ok (sign_extended (width_of ty.now) (width_of (Ty.Int to)) word) }
{
    of_two(Action::SignExtend(width_of(&Ty::Int(to))), ty, word, 0)
}

/// The signed number of a type, as a word of 64 bits.
pub fn widened(ty: &Ty, word: u64) -> u64
    ensures { result ≡ sign_extended (width_of ty.now) 64 word }
{
    wrap(64, sign(width_of(ty), word).cast_unsigned())
}

/// Whether a line computes a number of numbers.
pub fn is_plain(op: &Op) -> bool
    ensures { result ≡ is_plain op.now }
{
    match op {
        Op::Add
        | Op::Sub
        | Op::Mul
        | Op::Udiv
        | Op::Sdiv
        | Op::Urem
        | Op::Srem
        | Op::And
        | Op::Or
        | Op::Xor
        | Op::Shl
        | Op::Lshr
        | Op::Ashr
        | Op::Icmp(_)
        | Op::Trunc(_)
        | Op::Zext(_)
        | Op::Sext(_)
        | Op::Select => true,
        Op::Phi
        | Op::Gep { .. }
        | Op::Load
        | Op::Store
        | Op::Call { .. }
        | Op::Statepoint { .. }
        | Op::GcResult
        | Op::GcRelocate
        | Op::Br
        | Op::CondBr
        | Op::Switch
        | Op::Ret
        | Op::Unreachable => false,
    }
}
