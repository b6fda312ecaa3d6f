//! A function as flat tables: its instructions in text order, and its values by number.

ghost use Rattle.std.specs.Prelude.{◌≡◌, ◌||◌, ◌<◌, ◌^◌, ◌++◌, length, map, IfOk};
ghost use Rattle.std.specs.Option.{option_map};
ghost use Rattle.ir_ast.specs.Funcs.{instructions_of};
ghost use Rattle.ir_ast.specs.Values.{definitions_of, definition_type, outcome_type, value_types};
ghost use Rattle.ir_ast.specs.Derived.{is_step};
ghost use Rattle.ir_ast.specs.Faults.PhiEdges.{is_phi};
ghost use Rattle.body_tables.specs.Bodies.{seen_insts, inst_of, given_by, any_step, any_phi};

use ir_ast::{Block, Func, Inst, Op, Ty};
use sp_ids::Memory;
use std::alloc::Global;

/// The instructions of a function in text order.
pub fn instructions(alloc: Global, func: &Func) -> Result<Vec<&Inst>, Memory>
    ensures insts { IfOk result (λ insts. seen_insts insts.items ≡ instructions_of func.now.content.blocks) }
    ensures few { length (instructions_of func.now.content.blocks) < 2 ^ 30 }
{
    let room = room_for(func.blocks());
    let mut insts = Vec::with_capacity(alloc, room)?;
    for block in func.blocks() {
        add_block(block, &mut insts)?;
    }
    Ok(insts)
}

// Room for the instructions of all blocks.
fn room_for(blocks: &[Block]) -> usize {
    let mut room: usize = 0;
    for block in blocks {
        room = room.saturating_add(block.insts().len());
    }
    room
}

fn add_block<'a>(block: &'a Block, insts: &mut Vec<&'a Inst>) -> Result<(), Memory>
    ensures { IfOk result (λ _. seen_insts insts.new.items ≡ seen_insts insts.old.items ++ block.now.insts) }
{
    for inst in block.insts() {
        insts.push(inst)?;
    }
    Ok(())
}

// The type of an instruction's result.
fn outcome_type(inst: &Inst) -> Ty
    ensures { result ≡ outcome_type inst.now.op inst.now.ty }
{
    match inst.op() {
        Op::Icmp(_) => Ty::Int(1),
        Op::Trunc(width) => Ty::Int(*width),
        Op::Zext(width) => Ty::Int(*width),
        Op::Sext(width) => Ty::Int(*width),
        Op::Statepoint { .. } => Ty::Token,
        _ => *inst.ty(),
    }
}

fn push_type(inst: &Inst, types: &mut Vec<Ty>) -> Result<(), Memory>
    ensures { IfOk result (λ _. types.new.items ≡ types.old.items ++ map definition_type (given_by inst.now)) }
{
    if inst.result().is_some() {
        types.push(outcome_type(inst))?;
    }
    Ok(())
}

// Whether there is a step, with one more instruction.
fn or_step(has_step: bool, inst: &Inst) -> bool
    ensures { result ≡ (has_step || is_step inst.now.op) }
{
    has_step || matches!(inst.op(), Op::Gep { .. })
}

// Whether there is a phi, with one more instruction.
fn or_phi(has_phi: bool, inst: &Inst) -> bool
    ensures { result ≡ (has_phi || is_phi inst.now.op) }
{
    has_phi || matches!(inst.op(), Op::Phi)
}

/// The types of the values of a function, and what is among its instructions.
#[derive(Drop)]
pub struct ValueTable {
    pub types: Vec<Ty>,
    /// One is a `getelementptr`.
    pub has_step: bool,
    /// One is a phi.
    pub has_phi: bool,
}

/// The types of the values of a function that has these instructions, and what is among these.
pub fn value_table(alloc: Global, func: &Func, insts: &[&Inst]) -> Result<ValueTable, Memory>
    requires { seen_insts insts.now ≡ instructions_of func.now.content.blocks }
    ensures types { IfOk result (λ values. values.types.items ≡ value_types func.now.content) }
    ensures steps { IfOk result (λ values. values.has_step ≡ any_step (instructions_of func.now.content.blocks)) }
    ensures phis { IfOk result (λ values. values.has_phi ≡ any_phi (instructions_of func.now.content.blocks)) }
{
    let room = func.args().len().saturating_add(insts.len());
    let mut types = Vec::with_capacity(alloc, room)?;
    for arg in func.args() {
        types.push(arg.ty)?;
    }
    let mut has_step = false;
    let mut has_phi = false;
    for inst in insts {
        push_type(inst, &mut types)?;
        has_step = or_step(has_step, inst);
        has_phi = or_phi(has_phi, inst);
    }
    Ok(ValueTable {
        types,
        has_step,
        has_phi,
    })
}

fn push_giver<'a>(inst: &'a Inst, givers: &mut Vec<Option<&'a Inst>>) -> Result<(), Memory>
    ensures { IfOk result (λ _. map (option_map (λ inst. inst.now)) givers.new.items
        ≡ map (option_map (λ inst. inst.now)) givers.old.items ++ map inst_of (given_by inst.now)) }
{
    if inst.result().is_some() {
        givers.push(Some(inst))?;
    }
    Ok(())
}

/// The instruction that gives each value of a function that has these instructions; none gives an argument.
pub(crate) fn givers<'a>(
    alloc: Global,
    func: &Func,
    insts: &[&'a Inst],
) -> Result<Vec<Option<&'a Inst>>, Memory>
    requires { seen_insts insts.now ≡ instructions_of func.now.content.blocks }
    ensures { IfOk result (λ givers. map (option_map (λ inst. inst.now)) givers.items ≡ map inst_of (definitions_of func.now.content)) }
{
    let room = func.args().len().saturating_add(insts.len());
    let mut givers = Vec::with_capacity(alloc, room)?;
    for _arg in func.args() {
        givers.push(None)?;
    }
    for inst in insts {
        push_giver(inst, &mut givers)?;
    }
    Ok(givers)
}
