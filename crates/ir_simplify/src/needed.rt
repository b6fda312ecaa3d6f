//! A table that drops what nothing needs. The search proposes it, and the look of `thinning` decides.

use crate::search::value_of;
use fold_tables::is_pure;
use ir_ast::{Inst, Operand};
use sp_ids::Memory;
use std::alloc::Global;

// The values that are needed.
#[derive(Drop)]
struct Marking {
    marks: Vec<bool>,
    // Those for whose sake nothing was marked yet.
    work: Vec<u32>,
}

/// The table that drops each pure result of a function that has these instructions and so many arguments, but those that an
/// instruction needs which stays.
pub(crate) fn thinned(alloc: Global, args: usize, insts: &[&Inst]) -> Result<Vec<Operand>, Memory> {
    let marks = needed(alloc, args, insts)?;
    let mut table = Vec::with_capacity(alloc, marks.len())?;
    for (value, mark) in marks.iter().enumerate() {
        table.push(if *mark {
            value_of(value)
        } else {
            Operand::Null
        })?;
    }
    Ok(table)
}

fn needed(alloc: Global, args: usize, insts: &[&Inst]) -> Result<Vec<bool>, Memory> {
    let mut givers = Vec::with_capacity(alloc, insts.len())?;
    for inst in insts {
        if inst.result().is_some() {
            givers.push(*inst)?;
        }
    }
    let count = args.saturating_add(givers.len());
    let mut needed = Marking {
        marks: vec![in alloc; false; count]?,
        work: Vec::new(alloc),
    };
    needed.mark_first(args, insts)?;
    for _ in 0..count {
        match needed.work.pop() {
            Some(value) => needed.mark_for(args, givers.as_slice(), value as usize)?,
            None => return Ok(needed.marks),
        }
    }
    Ok(needed.marks)
}

impl Marking {
    // Arguments, the results of what isn't pure, and what these use.
    fn mark_first(&mut self, args: usize, insts: &[&Inst]) -> Result<(), Memory> {
        for value in 0..args {
            self.mark(value_of(value))?;
        }
        let mut next = args;
        for inst in insts {
            if !is_pure(inst) {
                self.mark_uses(inst)?;
                if inst.result().is_some() {
                    self.mark(value_of(next))?;
                }
            }
            if inst.result().is_some() {
                next = next.saturating_add(1);
            }
        }
        Ok(())
    }

    // What the instruction uses that gives the value.
    fn mark_for(&mut self, args: usize, givers: &[&Inst], value: usize) -> Result<(), Memory> {
        if value < args {
            return Ok(());
        }
        match givers.get(value - args) {
            Some(giver) => self.mark_uses(giver),
            None => Ok(()),
        }
    }

    fn mark_uses(&mut self, inst: &Inst) -> Result<(), Memory> {
        for operand in inst.operands() {
            self.mark(*operand)?;
        }
        for (_ty, operand) in inst.bundle() {
            self.mark(*operand)?;
        }
        Ok(())
    }

    fn mark(&mut self, operand: Operand) -> Result<(), Memory> {
        if let Operand::Value(id) = operand {
            let value = id.0 as usize;
            if value < self.marks.len() && !self.marks[value] {
                self.marks[value] = true;
                self.work.push(id.0)?;
            }
        }
        Ok(())
    }
}
