//! Waypoints of a function: places from which the later results are counted.
ghost use Rattle.std.specs.Prelude.{◌≡◌, ◌≤◌, List, IfSome};
ghost use Rattle.std.specs.List.{All};
ghost use Rattle.ir_ast.specs.Blocks.{BasicBlock};
ghost use Rattle.print_tables.specs.Waypoints.{IsWaypoint};

use arrayvec::ArrayVec;
use ir_ast::{Block, Func};
use std::marker::Model;

/// A place in a function's blocks, and how many results stand before it.
#[derive(Clone, Copy, Debug, Default)]
pub struct Waypoint {
    pub results: u32,
    pub block: u32,
    pub inst: u32,
}

/// Waypoints of a function, at most `MOST`, from which the names of its values are found. Contracts see their list.
#[derive(Drop)]
pub struct Waypoints<const MOST: usize> {
    power: u32,
    places: ArrayVec<Waypoint, MOST>,
}

impl<const MOST: usize> Model for Waypoints<MOST> {
    ghost use Rattle.std.specs.Prelude.{List};
    ghost use Rattle.print_tables.specs.declared.waypoints.Waypoint.{Waypoint as Place};

    ghost Value = { List Place };

    ghost view = { λ waypoints. waypoints.places.items };
}

impl<const MOST: usize> Waypoints<MOST> {
    /// Walks over the function once, which has about so many results.
    pub fn of(func: &Func, results: usize) -> Waypoints<MOST>
        ensures { All (IsWaypoint func.now.content.blocks) result }
    {
        let power = power_for(results, MOST);
        Waypoints {
            power,
            places: waypoints_of(func.blocks(), power),
        }
    }

    /// The power of 2 that the function has results for each of them.
    pub(crate) fn power(&self) -> u32 {
        self.power
    }

    /// They themselves.
    pub(crate) fn places(&self) -> &[Waypoint]
        ensures { result.now ≡ self.now }
    {
        self.places.as_slice()
    }
}

// Waypoints of these blocks: one at each so many results, of which the number is 2 to this power.
fn waypoints_of<const MOST: usize>(blocks: &[Block], power: u32) -> ArrayVec<Waypoint, MOST>
    ensures { All (IsWaypoint blocks.now) result.items }
{
    let mask = 1usize.wrapping_shl(power).saturating_sub(1);
    let mut waypoints = ArrayVec::new();
    let mut results = 0usize;
    for (block, lines) in blocks.iter().enumerate() {
        for (inst, line) in lines.insts().iter().enumerate() {
            if line.result().is_some() {
                add(results, mask, block, inst, &mut waypoints);
                match results.checked_add(1) {
                    Some(more) => results = more,
                    None => return waypoints,
                }
            }
        }
    }
    waypoints
}

// Adds a waypoint, where the number of results is one at which there is to be one, and there is room.
fn add<const MOST: usize>(
    results: usize,
    mask: usize,
    block: usize,
    inst: usize,
    waypoints: &mut ArrayVec<Waypoint, MOST>,
)
    ensures { (blocks : List BasicBlock) → All (IsWaypoint blocks) waypoints.old.items
        → IsWaypoint blocks (record { results = results; block = block; inst = inst }) → All (IsWaypoint blocks) waypoints.new.items }
{
    if results & mask != 0 {
        return;
    }
    if let Some(waypoint) = waypoint_of(results, block, inst) {
        let _ = waypoints.try_push(waypoint);
    }
}

fn waypoint_of(results: usize, block: usize, inst: usize) -> Option<Waypoint>
    ensures { IfSome result (λ waypoint. waypoint ≡ record { results = results; block = block; inst = inst }) }
{
    Some(Waypoint {
        results: u32::try_from(results).ok()?,
        block: u32::try_from(block).ok()?,
        inst: u32::try_from(inst).ok()?,
    })
}

// The power of 2 that so many results are for each waypoint, so that there are waypoints for all.
fn power_for(results: usize, most: usize) -> u32 {
    for power in 0..32 {
        if results.wrapping_shr(power) < most {
            return power;
        }
    }
    32
}

/// How many results the function has.
pub fn count_results(func: &Func) -> usize {
    let mut count = 0usize;
    for block in func.blocks() {
        for inst in block.insts() {
            if inst.result().is_some() {
                count = count.saturating_add(1);
            }
        }
    }
    count
}

/// The last of the waypoints before the result with this number, where they stand as they do for this power, or else the function's
/// start.
pub(crate) fn waypoint_before(waypoints: &[Waypoint], power: u32, number: usize) -> Waypoint
    ensures right { (blocks : List BasicBlock) → All (IsWaypoint blocks) waypoints.now → IsWaypoint blocks result }
    ensures before { result.results ≤ number }
{
    let place = number.wrapping_shr(power);
    match waypoints.get(place) {
        Some(waypoint) if waypoint.results as usize <= number => *waypoint,
        _ => Waypoint {
            results: 0,
            block: 0,
            inst: 0,
        },
    }
}

/// The one of the waypoints at the result with this number, where they stand as they do for this power.
#[inline(always)]
pub(crate) fn waypoint_at(waypoints: &[Waypoint], power: u32, number: usize) -> Option<&Waypoint>
    ensures right { IfSome result (λ waypoint. (blocks : List BasicBlock) → All (IsWaypoint blocks) waypoints.now → IsWaypoint blocks waypoint.now) }
    ensures at { IfSome result (λ waypoint. waypoint.now.results ≡ number) }
{
    match waypoints.get(number.wrapping_shr(power)) {
        Some(waypoint) if waypoint.results as usize == number => Some(waypoint),
        _ => None,
    }
}
