//! Which phi is looked at next. Each phi watches two of its operands that have become different names, none of them its own; where
//! these become one name, or its own, it is looked at again, from where it stopped. So each operand is passed once, and where two
//! names become one, the shorter list of watchers moves. Nothing here decides anything: each phi that is proposed is looked at whole.

ghost use Rattle.std.specs.Prelude.{◌≡◌, IfOk, IfSome};
ghost use Rattle.phi_webs.specs.Forests.{KeepsEnds};
ghost use Rattle.phi_webs.specs.Settled.{phi_of, web_of, HasOther, CanGo};

use crate::forest::{end_of, up};
use crate::looks::only_other;
use crate::rows::{PhiRow, Replaced};
use std::alloc::{AllocError, Global};

/// The search over a web.
#[derive(Drop)]
pub(crate) struct Search {
    // phis to look at
    work: Vec<usize>,
    // of each phi how far it has been looked at
    watches: Vec<Watch>,
    // the phi of each name, and `NONE`
    phis_of: Vec<usize>,
    // of each name its watchers
    lists: Vec<List>,
    nodes: Vec<Node>,
}

// Two operands of a phi, and how many operands were passed.
#[derive(Clone, Copy, Drop)]
struct Watch {
    first: Option<u32>,
    second: Option<u32>,
    passed: usize,
}

// The first node of a list, and how many it has.
#[derive(Clone, Copy, Drop)]
struct List {
    node: usize,
    len: usize,
}

#[derive(Clone, Copy, Drop)]
struct Node {
    phi: usize,
    next: usize,
}

const NONE: usize = usize::MAX;

const EMPTY: List = List { node: NONE, len: 0 };

impl Search {
    /// All phis are to be looked at, the first of them first.
    pub(crate) fn of(alloc: Global, phis: &[PhiRow<'_>]) -> Result<Search, AllocError> {
        let mut names = 0;
        let mut work = Vec::with_capacity(alloc, phis.len())?;
        for (place, phi) in phis.iter().enumerate() {
            work.push(place)?;
            names = greatest(*phi).max(names);
        }
        work.reverse();
        let names = (names as usize).saturating_add(1);
        let mut phis_of = vec![in alloc; NONE; names]?;
        for (place, phi) in phis.iter().enumerate() {
            let name = phi.name as usize;
            if name < phis_of.len() {
                phis_of[name] = place;
            }
        }
        let unseen = Watch {
            first: None,
            second: None,
            passed: 0,
        };
        Ok(Search {
            work,
            watches: vec![in alloc; unseen; phis.len()]?,
            phis_of,
            lists: vec![in alloc; EMPTY; names]?,
            nodes: Vec::new(alloc),
        })
    }

    /// The next phi that can go; none where the search knows of none.
    pub(crate) fn next_gone(
        &mut self,
        phis: &[PhiRow<'_>],
        ups: &mut Vec<u32>,
    ) -> Result<Option<Replaced>, AllocError>
        ensures some { IfOk result (λ gone. IfSome gone (CanGo ups.old.items (web_of phis.now))) }
        ensures keeps { KeepsEnds ups.old.items ups.new.items }
    {
        for _look in 0..u64::MAX {
            let Some(place) = self.work.pop() else {
                return Ok(None);
            };
            if place >= phis.len() {
                return Ok(None);
            }
            if let Some(gone) = self.look(place, phis[place], ups)? {
                return Ok(Some(gone));
            }
        }
        Ok(None)
    }

    // A look at a phi, which may go where its operands end.
    fn look(
        &mut self,
        place: usize,
        phi: PhiRow<'_>,
        ups: &mut Vec<u32>,
    ) -> Result<Option<Replaced>, AllocError>
        ensures some { IfOk result (λ gone. IfSome gone (λ g. HasOther ups.old.items (phi_of phi.entry) g.value)) }
        ensures name { IfOk result (λ gone. IfSome gone (λ g. g.name ≡ phi.entry.name)) }
        ensures keeps { KeepsEnds ups.old.items ups.new.items }
    {
        if self.watches_on(place, phi, ups)? {
            return Ok(None);
        }
        match only_other(ups, phi) {
            Some(value) => Ok(Some(Replaced {
                name: phi.name,
                value,
            })),
            None => Ok(None),
        }
    }

    // Whether a phi has two operands to watch, the second perhaps found now.
    fn watches_on(
        &mut self,
        place: usize,
        phi: PhiRow<'_>,
        ups: &mut Vec<u32>,
    ) -> Result<bool, AllocError>
        ensures { KeepsEnds ups.old.items ups.new.items }
    {
        if place >= self.watches.len() || up(ups, phi.name) != phi.name {
            return Ok(true);
        }
        let watch = self.watches[place];
        let first = apart(watch.first, phi.name, ups);
        let second = apart(watch.second, phi.name, ups);
        if let (Some(one), Some(two)) = (first, second) {
            if one != two {
                return Ok(true);
            }
        }
        self.watch_from(place, phi, first.or(second), watch.passed, ups)
    }

    // Looks for operands to watch beside a name, from a place on.
    fn watch_from(
        &mut self,
        place: usize,
        phi: PhiRow<'_>,
        known: Option<u32>,
        passed: usize,
        ups: &mut Vec<u32>,
    ) -> Result<bool, AllocError>
        ensures { KeepsEnds ups.old.items ups.new.items }
    {
        let mut first = known;
        for at in passed..phi.operands.len() {
            let end = end_of(ups, phi.operands[at]);
            if end == phi.name || first == Some(end) {
                continue;
            }
            self.link_new(place, end)?;
            if first.is_some() {
                self.keep(place, first, Some(end), at);
                return Ok(true);
            }
            first = Some(end);
        }
        self.keep(place, first, None, phi.operands.len());
        Ok(false)
    }

    fn keep(&mut self, place: usize, first: Option<u32>, second: Option<u32>, passed: usize) {
        if place < self.watches.len() {
            self.watches[place] = Watch {
                first,
                second,
                passed,
            };
        }
    }

    fn link_new(&mut self, phi: usize, name: u32) -> Result<(), AllocError> {
        let node = self.nodes.len();
        self.nodes.push(Node { phi, next: NONE })?;
        self.link(node, name);
        Ok(())
    }

    // Puts a node into the list of a name.
    fn link(&mut self, node: usize, name: u32) {
        let name = name as usize;
        if name < self.lists.len() && node < self.nodes.len() {
            let list = self.lists[name];
            self.nodes[node].next = list.node;
            self.lists[name] = List {
                node,
                len: list.len.saturating_add(1),
            };
        }
    }

    /// The watchers of a name that went are those of the name that took its place.
    pub(crate) fn merge(
        &mut self,
        gone: Replaced,
        phis: &[PhiRow<'_>],
        ups: &mut Vec<u32>,
    ) -> Result<(), AllocError>
        ensures { KeepsEnds ups.old.items ups.new.items }
    {
        let mut node = self.shorter(gone);
        for _step in 0..u64::MAX {
            if node >= self.nodes.len() {
                break;
            }
            let Node { phi, next } = self.nodes[node];
            self.meet(node, phi, gone.value, phis, ups)?;
            node = next;
        }
        let value = gone.value as usize;
        if value < self.phis_of.len() && self.phis_of[value] != NONE {
            self.work.push(self.phis_of[value])?;
        }
        Ok(())
    }

    // Leaves the longer list of two names to the second, and gives the first node of the shorter one.
    fn shorter(&mut self, gone: Replaced) -> usize {
        let (from, to) = (gone.name as usize, gone.value as usize);
        if from >= self.lists.len() || to >= self.lists.len() {
            return NONE;
        }
        let (one, two) = (self.lists[from], self.lists[to]);
        self.lists[from] = EMPTY;
        if one.len <= two.len {
            return one.node;
        }
        self.lists[to] = one;
        two.node
    }

    // A watcher whose operands are no longer apart is looked at again; others go on watching.
    fn meet(
        &mut self,
        node: usize,
        phi: usize,
        name: u32,
        phis: &[PhiRow<'_>],
        ups: &mut Vec<u32>,
    ) -> Result<(), AllocError>
        ensures { KeepsEnds ups.old.items ups.new.items }
    {
        if phi >= phis.len() || phi >= self.watches.len() {
            return Ok(());
        }
        let own = phis[phi].name;
        let watch = self.watches[phi];
        let first = apart(watch.first, own, ups);
        let second = apart(watch.second, own, ups);
        if first.is_none() || second.is_none() || first == second {
            self.work.push(phi)?;
        } else {
            self.link(node, name);
        }
        Ok(())
    }
}

// What a watched operand has become, unless that is the phi itself.
fn apart(watched: Option<u32>, name: u32, ups: &mut Vec<u32>) -> Option<u32>
    ensures { KeepsEnds ups.old.items ups.new.items }
{
    let end = end_of(ups, watched?);
    if end == name { None } else { Some(end) }
}

// The greatest number that a phi names.
fn greatest(phi: PhiRow<'_>) -> u32 {
    let mut greatest = phi.name;
    for operand in phi.operands {
        greatest = greatest.max(*operand);
    }
    greatest
}
