//! The tasks of a run: which one runs, and what is kept of each other that waits.

ghost use Rattle.std.specs.Prelude.{◌≡◌, ◌≢◌, ◌<◌, ◌≤◌, ◌++◌, ◌∷◌, [], ℕ, None, Some, IfOk, OnOk, OnErr, OnSome, length, option_copied, slice_get, slice_index_or, slice_set, unwrap_or};
ghost use Rattle.run_tasks.specs.Tables.{AreKeyed, GoesBack, Switches, waiting_in};

use slab::Slab;
use sp_ids::Memory;
use sp_ids::limits::TASKS;
use std::alloc::Global;
use std::marker::Model;
use std::mem;

/// The tasks of a run, by number. What the running one has is elsewhere, with the one who runs it; of each other task that has
/// not ended it is kept here. The keys under which that stands are shown nowhere.
#[derive(Drop)]
pub struct Tasks<T> {
    running: usize,
    keys: Vec<Option<usize>>,
    entries: Slab<T>,
}

impl<T> Model for Tasks<T> {
    ghost use Rattle.run_tasks.specs.Tables.{Table, table_code, waiting_in, IsKept};

    ghost Value = { Table T };

    ghost coded = { table_code T.code };

    ghost view = { λ tasks. record { task = tasks.running; waiting = waiting_in tasks.keys.items tasks.entries } };

    ghost invariant = { λ tasks. IsKept tasks.running tasks.keys.items tasks.entries };
}

impl<T> Tasks<T> {
    /// The number of the task that runs.
    pub fn task(&self) -> usize
        ensures { result ≡ self.now.task }
    {
        self.running
    }

    /// A law, by a call that does nothing: nothing is kept of the task that runs.
    pub fn law_of_running(&self)
        ensures { slice_get self.now.waiting self.now.task ≡ Some None }
    {
        let _ = &self.running;
    }

    /// How many tasks there have been.
    pub fn count(&self) -> usize
        ensures value { result ≡ length self.now.waiting }
        ensures few { result ≤ 64 }
    {
        self.keys.len()
    }

    /// What is kept of a task, if it waits.
    pub fn waiting(&self, number: usize) -> Option<&T>
        ensures { option_copied result ≡ slice_index_or self.now.waiting number None }
    {
        match key_at(self.keys.as_slice(), number) {
            None => None,
            Some(key) => self.entries.get(key),
        }
    }

    /// What is kept of a task, if it waits, is handed out, and isn't kept from then on.
    pub fn take(&mut self, number: usize) -> Option<T>
        ensures given { result ≡ slice_index_or self.old.waiting number None }
        ensures left { self.new ≡ record self.old { waiting = slice_set self.old.waiting number None } }
        ensures other { OnSome result (number ≢ self.old.task) }
    {
        if number >= self.keys.len() {
            return None;
        }
        take_entry(&mut self.keys, &mut self.entries, number)
    }

    /// This is kept of a task of which nothing was, and which doesn't run.
    pub fn put(&mut self, number: usize, state: T)
        requires empty { slice_get self.old.waiting number ≡ Some None }
        requires other { number ≢ self.old.task }
        ensures { self.new ≡ record self.old { waiting = slice_set self.old.waiting number (Some state) } }
    {
        put_entry(&mut self.keys, &mut self.entries, number, state);
    }

    /// Another task runs, if it waits, in place of the one that runs, of which this is kept then. Whether it does.
    pub fn switch(&mut self, to: u64, running: &mut T) -> bool
        ensures { Switches result self.old running.old to self.new running.new }
    {
        if to >= self.keys.len() as u64 {
            return false;
        }
        let number = to as usize;
        match take_entry(&mut self.keys, &mut self.entries, number) {
            None => false,
            Some(next) => {
                let waits = mem::replace(running, next);
                put_entry(&mut self.keys, &mut self.entries, self.running, waits);
                self.running = number;
                true
            }
        }
    }
}

impl<T: Drop> Tasks<T> {
    /// Task 0 runs, and there is no other.
    pub fn new(alloc: Global) -> Result<Tasks<T>, Memory>
        ensures { IfOk result (λ tasks. tasks ≡ record { task = 0; waiting = None ∷ [] }) }
    {
        let entries = Slab::with_capacity(alloc, 1)?;
        let mut keys = Vec::with_capacity(alloc, 1)?;
        keys.push(None)?;
        Ok(Tasks {
            running: 0,
            keys,
            entries,
        })
    }

    /// A new task runs, which begins so, and what the running one had is kept.
    pub fn begin(&mut self, first: T, running: &mut T) -> Result<(), Memory>
        requires { length self.old.waiting < 64 }
        ensures begun { OnOk result (self.new ≡ record { task = length self.old.waiting; waiting = slice_set self.old.waiting self.old.task (Some running.old) ++ None ∷ [] }) }
        ensures runs { OnOk result (running.new ≡ first) }
        ensures kept { OnErr result (self.new ≡ self.old) }
        ensures stays { OnErr result (running.new ≡ running.old) }
    {
        let number = self.keys.len();
        self.entries.reserve(number + 1)?;
        self.keys.push(None)?;
        let waits = mem::replace(running, first);
        put_entry(&mut self.keys, &mut self.entries, self.running, waits);
        self.running = number;
        Ok(())
    }

    /// The running task has ended, and task 0 runs, if it waits. Whether it does.
    pub fn end(&mut self, running: &mut T) -> bool
        ensures { GoesBack result self.old running.old self.new running.new }
    {
        if self.keys.is_empty() {
            return false;
        }
        match take_entry(&mut self.keys, &mut self.entries, 0) {
            None => false,
            Some(next) => {
                *running = next;
                self.running = 0;
                true
            }
        }
    }
}

fn key_at(keys: &[Option<usize>], number: usize) -> Option<usize>
    ensures { result ≡ slice_index_or keys.now number None }
{
    if number < keys.len() {
        keys[number]
    } else {
        None
    }
}

// What stands under the key of a task is handed out, and the task has no key from then on.
fn take_entry<T>(keys: &mut Vec<Option<usize>>, entries: &mut Slab<T>, number: usize) -> Option<T>
    requires keyed { AreKeyed keys.old.items entries.old }
    requires there { number < length keys.old.items }
    ensures given { result ≡ slice_index_or (waiting_in keys.old.items entries.old) number None }
    ensures left { waiting_in keys.new.items entries.new ≡ slice_set (waiting_in keys.old.items entries.old) number None }
    ensures keys { keys.new.items ≡ slice_set keys.old.items number None }
    ensures keyed { AreKeyed keys.new.items entries.new }
{
    let key = key_at(keys.as_slice(), number);
    keys[number] = None;
    match key {
        None => None,
        Some(key) => entries.try_remove(key),
    }
}

// This stands under a key of its own, which a task without a key has from then on.
fn put_entry<T>(keys: &mut Vec<Option<usize>>, entries: &mut Slab<T>, number: usize, state: T)
    requires keyed { AreKeyed keys.old.items entries.old }
    requires there { number < length keys.old.items }
    requires empty { slice_index_or keys.old.items number None ≡ None }
    ensures left { waiting_in keys.new.items entries.new ≡ slice_set (waiting_in keys.old.items entries.old) number (Some state) }
    ensures others { (place : ℕ) → place ≢ number → slice_index_or keys.new.items place None ≡ slice_index_or keys.old.items place None }
    ensures count { length keys.new.items ≡ length keys.old.items }
    ensures keyed { AreKeyed keys.new.items entries.new }
{
    let key = entries.insert_reserved(state);
    keys[number] = Some(key);
}
