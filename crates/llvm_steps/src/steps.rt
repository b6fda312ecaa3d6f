//! What LLVM's integer intrinsics are written out as: a row of steps, each by an operator of the profile.

ghost use Rattle.std.specs.Prelude.{◌≡◌, ◌≤◌, ◌-◌, ◌/◌, ◌^◌, IfOk};
ghost use Rattle.llvm_steps.specs.Rows.{row_of, bits_summed, bytes_summed, shifts_left, shifts_right};

use ir_ast::Pred;
use line_tokens::Binary;
use sp_ids::Memory;
use std::alloc::Global;

/// An intrinsic on integers of one width (LLVM Language Reference, "Standard C/C++ Library Intrinsics" and on).
#[derive(Clone, Copy, Debug, PartialEq, Eq)]
pub enum Intrinsic {
    /// `smax`, `smin`, `umax`, `umin`: the first operand where it stands so to the second, else the second.
    Pick(Pred),
    Abs,
    /// `usub.sat`
    SubSaturating,
    /// `uadd.sat`
    AddSaturating,
    /// `ctpop`
    Ones,
    /// `bswap`
    BytesTurned,
    /// `fshl`
    FunnelLeft,
    /// `fshr`
    FunnelRight,
    /// `uadd.with.overflow`
    AddChecked,
    /// `usub.with.overflow`
    SubChecked,
    /// `umul.with.overflow`
    MulChecked,
    /// `sadd.with.overflow`
    SignedAddChecked,
    /// `ssub.with.overflow`
    SignedSubChecked,
    /// `smul.with.overflow`
    SignedMulChecked,
}

/// What a step takes.
#[derive(Clone, Copy, Debug, PartialEq, Eq)]
pub enum Operand {
    /// An operand of the intrinsic, counted from 0.
    Given(u32),
    /// The result of an earlier step, counted from 0.
    Made(u32),
    Number(u64),
}

/// A step.
#[derive(Clone, Copy, Debug, PartialEq, Eq)]
pub enum Step {
    Compute(Binary, Operand, Operand),
    /// The result has one bit.
    Compare(Pred, Operand, Operand),
    /// The second operand where the first is 1, else the third.
    Choose(Operand, Operand, Operand),
    /// The same of operands with one bit.
    ChooseBit(Operand, Operand, Operand),
}

const A: Operand = Operand::Given(0);

const B: Operand = Operand::Given(1);

const C: Operand = Operand::Given(2);

const ZERO: Operand = Operand::Number(0);

const ONE: Operand = Operand::Number(1);

impl Intrinsic {
    /// The intrinsic of this name, without the width behind it.
    pub fn of(name: &[u8]) -> Option<Intrinsic> {
        match name {
            b"llvm.smax" => Some(Intrinsic::Pick(Pred::Sgt)),
            b"llvm.smin" => Some(Intrinsic::Pick(Pred::Slt)),
            b"llvm.umax" => Some(Intrinsic::Pick(Pred::Ugt)),
            b"llvm.umin" => Some(Intrinsic::Pick(Pred::Ult)),
            b"llvm.abs" => Some(Intrinsic::Abs),
            b"llvm.usub.sat" => Some(Intrinsic::SubSaturating),
            b"llvm.uadd.sat" => Some(Intrinsic::AddSaturating),
            b"llvm.ctpop" => Some(Intrinsic::Ones),
            b"llvm.bswap" => Some(Intrinsic::BytesTurned),
            b"llvm.fshl" => Some(Intrinsic::FunnelLeft),
            b"llvm.fshr" => Some(Intrinsic::FunnelRight),
            b"llvm.uadd.with.overflow" => Some(Intrinsic::AddChecked),
            b"llvm.usub.with.overflow" => Some(Intrinsic::SubChecked),
            b"llvm.umul.with.overflow" => Some(Intrinsic::MulChecked),
            b"llvm.sadd.with.overflow" => Some(Intrinsic::SignedAddChecked),
            b"llvm.ssub.with.overflow" => Some(Intrinsic::SignedSubChecked),
            b"llvm.smul.with.overflow" => Some(Intrinsic::SignedMulChecked),
            _ => None,
        }
    }

    /// Whether it gives a pair: the result of the first step, and that of the last one as a bit.
    pub fn is_checked(self) -> bool {
        matches!(
            self,
            Intrinsic::AddChecked
                | Intrinsic::SubChecked
                | Intrinsic::MulChecked
                | Intrinsic::SignedAddChecked
                | Intrinsic::SignedSubChecked
                | Intrinsic::SignedMulChecked
        )
    }
}

/// The steps of an intrinsic at a width from 1 to 64. The last one gives the result; of a pair the first one gives the number,
/// and the last one whether it overflowed.
pub fn steps_of(alloc: Global, intrinsic: Intrinsic, width: u32) -> Result<Vec<Step>, Memory>
    requires { (1 ≤ width) × (width ≤ 64) }
    ensures { IfOk result (λ steps. steps.items ≡ row_of intrinsic width) }
{
    match intrinsic {
        Intrinsic::Pick(pred) => Ok(vec![in alloc;
            Step::Compare(pred, A, B),
            Step::Choose(made(0), A, B),
        ]?),
        Intrinsic::Abs => Ok(vec![in alloc;
            Step::Compute(Binary::Sub, ZERO, A),
            Step::Compare(Pred::Slt, A, ZERO),
            Step::Choose(made(1), made(0), A),
        ]?),
        Intrinsic::SubSaturating => Ok(vec![in alloc;
            Step::Compute(Binary::Sub, A, B),
            Step::Compare(Pred::Ugt, A, B),
            Step::Choose(made(1), made(0), ZERO),
        ]?),
        Intrinsic::AddSaturating => Ok(vec![in alloc;
            Step::Compute(Binary::Add, A, B),
            Step::Compare(Pred::Ult, made(0), A),
            Step::Choose(made(1), Operand::Number(ones(width)), made(0)),
        ]?),
        Intrinsic::Ones => sum_of_bits(alloc, width),
        Intrinsic::BytesTurned => sum_of_bytes(alloc, width),
        Intrinsic::FunnelLeft => funnel_left(alloc, width),
        Intrinsic::FunnelRight => funnel_right(alloc, width),
        Intrinsic::AddChecked => Ok(vec![in alloc;
            Step::Compute(Binary::Add, A, B),
            Step::Compare(Pred::Ult, made(0), A),
        ]?),
        Intrinsic::SubChecked => Ok(vec![in alloc;
            Step::Compute(Binary::Sub, A, B),
            Step::Compare(Pred::Ult, A, B),
        ]?),
        Intrinsic::MulChecked => Ok(vec![in alloc;
            Step::Compute(Binary::Mul, A, B),
            Step::Compare(Pred::Eq, A, ZERO),
            Step::Choose(made(1), ONE, A),
            Step::Compute(Binary::Udiv, made(0), made(2)),
            Step::Compare(Pred::Ne, made(3), B),
            Step::ChooseBit(made(1), ZERO, made(4)),
        ]?),
        Intrinsic::SignedAddChecked => Ok(vec![in alloc;
            Step::Compute(Binary::Add, A, B),
            Step::Compare(Pred::Slt, B, ZERO),
            Step::Compare(Pred::Slt, made(0), A),
            Step::Compare(Pred::Sge, made(0), A),
            Step::ChooseBit(made(1), made(3), made(2)),
        ]?),
        Intrinsic::SignedSubChecked => Ok(vec![in alloc;
            Step::Compute(Binary::Sub, A, B),
            Step::Compare(Pred::Slt, B, ZERO),
            Step::Compare(Pred::Sgt, made(0), A),
            Step::Compare(Pred::Sle, made(0), A),
            Step::ChooseBit(made(1), made(3), made(2)),
        ]?),
        Intrinsic::SignedMulChecked => Ok(vec![in alloc;
            Step::Compute(Binary::Mul, A, B),
            Step::Compare(Pred::Eq, A, ZERO),
            Step::Compare(Pred::Eq, A, Operand::Number(ones(width))),
            Step::Choose(made(1), ONE, A),
            Step::Choose(made(2), ONE, made(3)),
            Step::Compute(Binary::Sdiv, made(0), made(4)),
            Step::Compare(Pred::Ne, made(5), B),
            Step::ChooseBit(made(1), ZERO, made(6)),
            Step::Compare(Pred::Eq, B, Operand::Number(highest(width))),
            Step::ChooseBit(made(2), made(8), made(7)),
        ]?),
    }
}

// The upper half of the two operands side by side, shifted left. One bit has no place to go.
fn funnel_left(alloc: Global, width: u32) -> Result<Vec<Step>, Memory>
    requires { (1 ≤ width) × (width ≤ 64) }
    ensures { IfOk result (λ steps. steps.items ≡ shifts_left width) }
{
    if width == 1 {
        return Ok(vec![in alloc; Step::Compute(Binary::Add, A, ZERO)]?);
    }
    Ok(vec![in alloc;
        Step::Compute(Binary::Urem, C, Operand::Number(width as u64)),
        Step::Compute(Binary::Sub, Operand::Number(width as u64 - 1), made(0)),
        Step::Compute(Binary::Lshr, B, ONE),
        Step::Compute(Binary::Lshr, made(2), made(1)),
        Step::Compute(Binary::Shl, A, made(0)),
        Step::Compute(Binary::Add, made(4), made(3)),
    ]?)
}

// The lower half of the two operands side by side, shifted right.
fn funnel_right(alloc: Global, width: u32) -> Result<Vec<Step>, Memory>
    requires { (1 ≤ width) × (width ≤ 64) }
    ensures { IfOk result (λ steps. steps.items ≡ shifts_right width) }
{
    if width == 1 {
        return Ok(vec![in alloc; Step::Compute(Binary::Add, B, ZERO)]?);
    }
    Ok(vec![in alloc;
        Step::Compute(Binary::Urem, C, Operand::Number(width as u64)),
        Step::Compute(Binary::Sub, Operand::Number(width as u64 - 1), made(0)),
        Step::Compute(Binary::Shl, A, ONE),
        Step::Compute(Binary::Shl, made(2), made(1)),
        Step::Compute(Binary::Lshr, B, made(0)),
        Step::Compute(Binary::Add, made(3), made(4)),
    ]?)
}

fn made(step: u32) -> Operand
    ensures { result ≡ Operand.Made step }
{
    Operand::Made(step)
}

// The word whose highest bit of the width is set.
fn highest(width: u32) -> u64
    requires { (1 ≤ width) × (width ≤ 64) }
    ensures { result ≡ 2 ^ (width - 1) }
{
    1 << (width - 1)
}

// The word whose low bits of the width are set.
fn ones(width: u32) -> u64
    requires { (1 ≤ width) × (width ≤ 64) }
    ensures { result ≡ 2 ^ width - 1 }
{
    let highest = 1u64 << (width - 1);
    highest - 1 + highest
}

// The sum of the bits.
fn sum_of_bits(alloc: Global, width: u32) -> Result<Vec<Step>, Memory>
    requires { (1 ≤ width) × (width ≤ 64) }
    ensures { IfOk result (λ steps. steps.items ≡ bits_summed (width - 1)) }
{
    let mut steps = Vec::new(alloc);
    steps.push(Step::Compute(Binary::And, A, ONE))?;
    for at in 0..width - 1 {
        let sum = 3 * at;
        steps.push(Step::Compute(Binary::Lshr, A, Operand::Number(at as u64 + 1)))?;
        steps.push(Step::Compute(Binary::And, made(sum + 1), ONE))?;
        steps.push(Step::Compute(Binary::Add, made(sum), made(sum + 2)))?;
    }
    Ok(steps)
}

// The sum of the bytes, each moved to the other end.
fn sum_of_bytes(alloc: Global, width: u32) -> Result<Vec<Step>, Memory>
    requires { (1 ≤ width) × (width ≤ 64) }
    ensures { IfOk result (λ steps. steps.items ≡ bytes_summed (width / 8) (width / 8)) }
{
    let count = width / 8;
    let mut steps = Vec::new(alloc);
    steps.push(Step::Compute(Binary::And, A, ZERO))?;
    for at in 0..count {
        let sum = 4 * at;
        let up = 8 * (count - 1 - at);
        steps.push(Step::Compute(Binary::Lshr, A, Operand::Number(8 * at as u64)))?;
        steps.push(Step::Compute(Binary::And, made(sum + 1), Operand::Number(255)))?;
        steps.push(Step::Compute(Binary::Shl, made(sum + 2), Operand::Number(up as u64)))?;
        steps.push(Step::Compute(Binary::Add, made(sum), made(sum + 3)))?;
    }
    Ok(steps)
}
