//! What the operators on integers compute, on words.

ghost use Rattle.std.specs.Prelude.{◌≡◌, ◌≤◌, ◌+◌, ◌-◌, ◌*◌, ◌^◌, Ok, Err};
ghost use Rattle.sp_ids.specs.Numbers.{wrapped, signed};
ghost use Rattle.object_meaning.specs.Numbers.{width_of, spelled, arithmetic, sign_extended, overflows};
ghost use Rattle.flat_code.specs.Actions.{number_done, IsSized};
ghost use Rattle.object_meaning.specs.Comparisons.{numbers_compare};

use crate::lines::Action;
use ir_ast::{Op, Pred, Ty};
use sp_ids::{Trap, sign, wrap};

/// The bits of a register of this type, from 1 to 64.
pub fn width_of(ty: &Ty) -> u32
    ensures value { result ≡ width_of ty.now }
    ensures some_bits { 1 ≤ result }
    ensures word { result ≤ 64 }
{
    match ty {
        Ty::Int(width) => (*width).min(64).max(1),
        Ty::Void | Ty::Ptr | Ty::Token => 64,
    }
}

// The low bits of a signed number.
fn spelled(width: u32, number: i64) -> u64
    requires some_bits { 1 ≤ width }
    requires word { width ≤ 64 }
    ensures { result ≡ spelled width number }
{
    wrap(width, number.cast_unsigned())
}

/// What an action gives of two numbers (LLVM Language Reference, "Binary Operations", "Bitwise Binary Operations",
/// "Conversion Operations", "'icmp' Instruction"); one on pointers or objects gives 0.
pub fn computed_number(action: Action, width: u32, left: u64, right: u64) -> Result<u64, Trap>
    requires sized { IsSized action width }
    ensures { result ≡ number_done action width left right }
{
    match action {
        Action::Add => Ok(wrap(width, left.wrapping_add(right))),
        Action::Sub => Ok(wrap(width, left.wrapping_sub(right))),
        Action::Mul => Ok(wrap(width, left.wrapping_mul(right))),
        Action::Udiv => quotient(left, right),
        Action::Urem => remainder(left, right),
        Action::Sdiv => signed_quotient(width, left, right),
        Action::Srem => signed_remainder(width, left, right),
        Action::And => Ok(left & right),
        Action::Or => Ok(left | right),
        Action::Xor => Ok(left ^ right),
        Action::Shl => left_shift(width, left, right),
        Action::Lshr => right_shift(width, left, right),
        Action::Ashr => signed_right_shift(width, left, right),
        Action::Compare(pred) => Ok(u64::from(compare(pred, width, left, right))),
        Action::Truncate => Ok(wrap(width, left)),
        Action::Widen => Ok(left),
        Action::SignExtend(to) => Ok(sign_extended(width, to, left)),
        Action::ComparePointers(_)
        | Action::Select
        | Action::Advance { .. }
        | Action::Load(_)
        | Action::Store(_)
        | Action::Nothing => Ok(0),
    }
}

fn quotient(left: u64, right: u64) -> Result<u64, Trap>
    ensures { result ≡ arithmetic Op.Udiv 64 left right }
{
    if right == 0 {
        Err(Trap::Div)
    } else {
        Ok(left / right)
    }
}

fn remainder(left: u64, right: u64) -> Result<u64, Trap>
    ensures { result ≡ arithmetic Op.Urem 64 left right }
{
    if right == 0 {
        Err(Trap::Div)
    } else {
        Ok(left % right)
    }
}

fn signed_quotient(width: u32, left: u64, right: u64) -> Result<u64, Trap>
    requires some_bits { 1 ≤ width }
    requires word { width ≤ 64 }
    ensures { result ≡ arithmetic Op.Sdiv width left right }
{
    if wrap(width, right) == 0 {
        return Err(Trap::Div);
    }
    if overflows(width, left, right) {
        return Err(Trap::Overflow);
    }
    Ok(spelled(width, sign(width, left) / sign(width, right)))
}

fn signed_remainder(width: u32, left: u64, right: u64) -> Result<u64, Trap>
    requires some_bits { 1 ≤ width }
    requires word { width ≤ 64 }
    ensures { result ≡ arithmetic Op.Srem width left right }
{
    if wrap(width, right) == 0 {
        return Err(Trap::Div);
    }
    if overflows(width, left, right) {
        return Err(Trap::Overflow);
    }
    Ok(spelled(width, sign(width, left) % sign(width, right)))
}

// Whether the least signed number is divided by -1.
fn overflows(width: u32, left: u64, right: u64) -> bool
    requires some_bits { 1 ≤ width }
    requires word { width ≤ 64 }
    ensures { result ≡ overflows width left right }
{
    let highest = 1u64 << (width - 1);
    wrap(width, left) == highest && wrap(width, right) == highest - 1 + highest
}

fn left_shift(width: u32, left: u64, right: u64) -> Result<u64, Trap>
    requires some_bits { 1 ≤ width }
    requires word { width ≤ 64 }
    ensures { result ≡ arithmetic Op.Shl width left right }
{
    if right < u64::from(width) {
        Ok(wrap(width, left << right))
    } else {
        Err(Trap::Shift)
    }
}

fn right_shift(width: u32, left: u64, right: u64) -> Result<u64, Trap>
    requires some_bits { 1 ≤ width }
    requires word { width ≤ 64 }
    ensures { result ≡ arithmetic Op.Lshr width left right }
{
    if right < u64::from(width) {
        Ok(left >> right)
    } else {
        Err(Trap::Shift)
    }
}

fn signed_right_shift(width: u32, left: u64, right: u64) -> Result<u64, Trap>
    requires some_bits { 1 ≤ width }
    requires word { width ≤ 64 }
    ensures { result ≡ arithmetic Op.Ashr width left right }
{
    if right < u64::from(width) {
        Ok(spelled(width, sign(width, left) >> right))
    } else {
        Err(Trap::Shift)
    }
}

// The signed number that the low bits spell, in a wider type.
fn sign_extended(width: u32, to: u32, number: u64) -> u64
    requires some_bits { 1 ≤ width }
    requires word { width ≤ 64 }
    requires some_bits_to { 1 ≤ to }
    requires word_to { to ≤ 64 }
    ensures { result ≡ sign_extended width to number }
{
    spelled(to, sign(width, number))
}

// `icmp PRED iN left, right`.
fn compare(pred: Pred, width: u32, left: u64, right: u64) -> bool
    requires some_bits { 1 ≤ width }
    requires word { width ≤ 64 }
    ensures { result ≡ numbers_compare pred width left right }
{
    match pred {
        Pred::Eq => left == right,
        Pred::Ne => left != right,
        Pred::Ugt => left > right,
        Pred::Uge => left >= right,
        Pred::Ult => left < right,
        Pred::Ule => left <= right,
        Pred::Sgt => sign(width, left) > sign(width, right),
        Pred::Sge => sign(width, left) >= sign(width, right),
        Pred::Slt => sign(width, left) < sign(width, right),
        Pred::Sle => sign(width, left) <= sign(width, right),
    }
}
