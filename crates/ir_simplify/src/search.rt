//! A table of what can stand for the values of a function. The search proposes it, and the looks of `folding` decide.

use crate::users::Users;
use fold_tables::{chosen, is_other, literal_given, stand_for};
use ir_ast::{Inst, Op, Operand};
use sp_ids::{Memory, ValueId};
use std::alloc::Global;

// How often a user is put up at most, for each time that it uses a value: lists are joined to longer ones.
const TURNS: usize = 34;

// How far a phi was looked at: the entry that all others are to be the same as, and the first that isn't.
#[derive(Clone, Copy)]
struct Stop {
    first: usize,
    at: usize,
}

#[derive(Drop)]
struct Search<'a> {
    args: usize,
    // The instruction of each result.
    givers: Vec<&'a Inst>,
    table: Vec<Operand>,
    users: Users,
    stops: Vec<Stop>,
    // The values to be looked at.
    work: Vec<u32>,
}

/// What can stand for each value of a function that has these instructions and so many arguments.
pub(crate) fn found(alloc: Global, args: usize, insts: &[&Inst]) -> Result<Vec<Operand>, Memory> {
    let mut search = opened(alloc, args, insts)?;
    search.look_at_all()?;
    Ok(search.closed())
}

fn opened<'a>(alloc: Global, args: usize, insts: &[&'a Inst]) -> Result<Search<'a>, Memory> {
    let givers = givers(alloc, insts)?;
    let count = args.saturating_add(givers.len());
    Ok(Search {
        args,
        table: identity(alloc, count)?,
        users: all_users(alloc, args, count, givers.as_slice())?,
        stops: vec![in alloc; Stop { first: 0, at: 0 }; givers.len()]?,
        work: all_results(alloc, args, givers.len())?,
        givers,
    })
}

fn givers<'a>(alloc: Global, insts: &[&'a Inst]) -> Result<Vec<&'a Inst>, Memory> {
    let mut givers = Vec::with_capacity(alloc, insts.len())?;
    for inst in insts {
        if inst.result().is_some() {
            givers.push(*inst)?;
        }
    }
    Ok(givers)
}

/// The number of a value; none has more than 32 bits.
pub(crate) fn numbered(value: usize) -> u32 {
    u32::try_from(value).unwrap_or(u32::MAX)
}

pub(crate) fn value_of(value: usize) -> Operand {
    Operand::Value(ValueId(numbered(value)))
}

/// The table in which each value stands for itself.
fn identity(alloc: Global, count: usize) -> Result<Vec<Operand>, Memory> {
    let mut table = Vec::with_capacity(alloc, count)?;
    for value in 0..count {
        table.push(value_of(value))?;
    }
    Ok(table)
}

// The results in text order, the first on top.
fn all_results(alloc: Global, args: usize, results: usize) -> Result<Vec<u32>, Memory> {
    let mut work = Vec::with_capacity(alloc, results)?;
    for result in 0..results {
        work.push(numbered(args.saturating_add(results - 1 - result)))?;
    }
    Ok(work)
}

// A phi looks for its own value among its entries, so it counts as one of its users.
fn all_users(alloc: Global, args: usize, count: usize, givers: &[&Inst]) -> Result<Users, Memory> {
    let mut users = Users::new(alloc, count)?;
    for (result, giver) in givers.iter().enumerate() {
        let value = args.saturating_add(result);
        add_uses(&mut users, giver.operands(), numbered(value))?;
        if giver.op().is_phi() {
            users.add(value, numbered(value))?;
        }
    }
    Ok(users)
}

fn add_uses(users: &mut Users, operands: &[Operand], user: u32) -> Result<(), Memory> {
    for operand in operands {
        if let Operand::Value(id) = operand {
            users.add(id.0 as usize, user)?;
        }
    }
    Ok(())
}

impl Search<'_> {
    fn look_at_all(&mut self) -> Result<(), Memory> {
        let mut turns = self.work.len();
        for giver in self.givers.iter() {
            turns = turns
                .saturating_add(giver.operands().len())
                .saturating_add(1);
        }
        for _ in 0..turns.saturating_mul(TURNS) {
            match self.work.pop() {
                Some(value) => self.look_at(value as usize)?,
                None => return Ok(()),
            }
        }
        Ok(())
    }

    fn look_at(&mut self, value: usize) -> Result<(), Memory> {
        if value < self.args
            || stand_for(self.table.as_slice(), value_of(value)) != value_of(value)
        {
            return Ok(());
        }
        match self.standing(value) {
            Some(operand) => self.replace(value, operand),
            None => Ok(()),
        }
    }

    // What can stand for a result by what is known now.
    fn standing(&mut self, value: usize) -> Option<Operand> {
        let inst = *self.givers.get(value.saturating_sub(self.args))?;
        let own = ValueId(numbered(value));
        match inst.op() {
            Op::Phi => self.only_entry(value, inst.operands()),
            Op::Select => {
                settle(self.table.as_mut_slice(), inst.operands());
                chosen(self.table.as_slice(), inst.operands()).filter(|operand| is_other(
                    own, *operand,
                ))
            }
            _ => {
                settle(self.table.as_mut_slice(), inst.operands());
                literal_given(self.table.as_slice(), inst).map(Operand::Int)
            }
        }
    }

    // The one operand for which all entries of a phi stand but those that stand for it. The look goes on where it stopped.
    fn only_entry(&mut self, value: usize, entries: &[Operand]) -> Option<Operand> {
        let result = value.saturating_sub(self.args);
        let own = ValueId(numbered(value));
        let mut stop = *self.stops.get(result)?;
        let mut only = self.entry_root(entries, stop.first);
        let mut agree = !entries.is_empty();
        for place in stop.at..entries.len() {
            let entry = self.entry_root(entries, place);
            if is_other(own, entry) {
                if !is_other(own, only) {
                    stop.first = place;
                    only = entry;
                } else if !only.is_same(entry) {
                    agree = false;
                    break;
                }
            }
            stop.at = place + 1;
        }
        if result < self.stops.len() {
            self.stops[result] = stop;
        }
        if agree && is_other(own, only) {
            Some(only)
        } else {
            None
        }
    }

    fn entry_root(&mut self, entries: &[Operand], place: usize) -> Operand {
        let entry = entries.get(place).copied().unwrap_or(Operand::Null);
        root(self.table.as_mut_slice(), entry)
    }

    fn replace(&mut self, value: usize, operand: Operand) -> Result<(), Memory> {
        if value < self.table.len() {
            self.table[value] = operand;
        }
        match operand {
            Operand::Value(id) => self.join(value, id.0 as usize),
            _ => self.users.put_up(value, &mut self.work),
        }
    }

    // Whoever uses two values of which one comes to stand for the other is in both lists: the shorter one is put up.
    fn join(&mut self, value: usize, to: usize) -> Result<(), Memory> {
        let shorter = if self.users.count(value) <= self.users.count(to) {
            value
        } else {
            to
        };
        self.users.put_up(shorter, &mut self.work)?;
        self.users.join(value, to);
        Ok(())
    }

    // The table, in which what stands for a value stands for itself.
    fn closed(mut self) -> Vec<Operand> {
        for value in 0..self.table.len() {
            root(self.table.as_mut_slice(), value_of(value));
        }
        for value in 0..self.table.len() {
            let operand = root(self.table.as_mut_slice(), value_of(value));
            if value < self.table.len() {
                self.table[value] = operand;
            }
        }
        self.table
    }
}

// Lets what stands for these operands be found at once.
fn settle(table: &mut [Operand], operands: &[Operand]) {
    for operand in operands {
        if let Operand::Value(id) = operand {
            let to = root(table, *operand);
            let place = id.0 as usize;
            if place < table.len() {
                table[place] = to;
            }
        }
    }
}

// What stands for an operand in the end; ways to it are halved.
fn root(table: &mut [Operand], operand: Operand) -> Operand {
    let mut now = operand;
    for _ in 0..table.len() {
        let next = stand_for(table, now);
        let after = stand_for(table, next);
        if let Operand::Value(id) = now {
            let place = id.0 as usize;
            if place < table.len() {
                table[place] = after;
            }
        }
        if next.is_same(now) {
            return now;
        }
        now = after;
    }
    now
}
