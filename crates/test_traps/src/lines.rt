//! Lines of functions.
//!
//! A line has its operator, the type of the line, and its operands `TYPE:VALUE`, where `v3` is the value 3 of the function
//! and `@1` its function 1. After ` ! ` come the operands of a call's bundle. A line whose type isn't `void` has a result,
//! but for `ret`.

use anyhow::{Result, bail};
use ir_ast::{Callee, Elem, Inst, Name, Op, Operand, Pred, Rest, Ty, Types};
use smallvec::SmallVec;
use sp_ids::{FuncId, ValueId};
use std::alloc::Global;

/// The instruction that a line spells.
pub(crate) fn inst_of(alloc: Global, line: &str) -> Result<Inst> {
    let (spelled, bundle) = line.split_once(" ! ").unwrap_or((line, ""));
    let (operator, rest) = spelled.split_once(' ').unwrap_or((spelled, "void"));
    let (ty, words) = rest.split_once(' ').unwrap_or((rest, ""));
    let ty = ty_of(ty)?;
    let mut operands = SmallVec::new(alloc);
    let mut types = Vec::new(alloc);
    for (of, operand) in entries(alloc, words)? {
        operands.push(operand)?;
        types.push(of)?;
    }
    let named = if ty == Ty::Void || operator == "ret" {
        None
    } else {
        Some(name_of(alloc, "r")?)
    };
    let op = op_of(operator, Types::of(alloc, types.as_slice())?)?;
    let bundle = entries(alloc, bundle)?;
    let rest = Rest::of(alloc, &[], bundle)?;
    Ok(Inst::of(named, op, ty, operands, rest))
}

/// A name.
pub(crate) fn name_of(alloc: Global, spelled: &str) -> Result<Name> {
    Ok(Name::of(alloc, spelled.as_bytes())?)
}

fn op_of(word: &str, types: Types) -> Result<Op> {
    let op = match word {
        "mul" => Op::Mul,
        "udiv" => Op::Udiv,
        "sdiv" => Op::Sdiv,
        "eq" => Op::Icmp(Pred::Eq),
        "trunc8" => Op::Trunc(8),
        "first" => advance(Elem::Layout(0), Some(0)),
        "second" => advance(Elem::Layout(0), Some(1)),
        "bytes" => advance(Elem::Int(8), None),
        "ret" => Op::Ret,
        "unreachable" => Op::Unreachable,
        _ => Op::Call {
            callee: callee_of(word)?,
            types,
        },
    };
    Ok(op)
}

// A `getelementptr`.
fn advance(elem: Elem, place: Option<u32>) -> Op {
    Op::Gep {
        elem,
        index_width: 64,
        place,
    }
}

fn callee_of(word: &str) -> Result<Callee> {
    match word {
        "new" => Ok(Callee::New(0)),
        "print" => Ok(Callee::Print),
        "read" => Ok(Callee::Read),
        "start" => Ok(Callee::TaskStart),
        _ => match word.strip_prefix("@") {
            Some(number) => Ok(Callee::Fun(FuncId(number.parse()?))),
            None => bail!("no such operator"),
        },
    }
}

// Operands with their types.
fn entries(alloc: Global, words: &str) -> Result<Vec<(Ty, Operand)>> {
    let mut list = Vec::new(alloc);
    for word in words.split_whitespace() {
        let Some((ty, value)) = word.split_once(':') else {
            bail!("an operand has no type");
        };
        list.push((ty_of(ty)?, operand_of(value)?))?;
    }
    Ok(list)
}

fn ty_of(word: &str) -> Result<Ty> {
    match word {
        "ptr" => Ok(Ty::Ptr),
        "void" => Ok(Ty::Void),
        _ => match word.strip_prefix("i") {
            Some(bits) => Ok(Ty::Int(bits.parse()?)),
            None => bail!("no such type"),
        },
    }
}

fn operand_of(word: &str) -> Result<Operand> {
    if word == "null" {
        return Ok(Operand::Null);
    }
    if let Some(number) = word.strip_prefix("v") {
        return Ok(Operand::Value(ValueId(number.parse()?)));
    }
    match word.strip_prefix("@") {
        Some(number) => Ok(Operand::Fun(FuncId(number.parse()?))),
        None => Ok(Operand::Int(word.parse()?)),
    }
}
