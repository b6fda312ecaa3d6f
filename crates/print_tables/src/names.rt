//! What the lines of a function name.
ghost use Rattle.std.specs.Prelude.{◌≡◌, map, drop, IfSome};
ghost use Rattle.std.specs.List.{All};
ghost use Rattle.ir_ast.specs.Funcs.{content_of, instructions_of};
ghost use Rattle.print_tables.specs.Names.{layout_name, function_name, block_name, value_name, result_name as name_of_result};
ghost use Rattle.print_tables.specs.Waypoints.{instructions_from, IsWaypoint};

use crate::waypoints::{Waypoint, Waypoints, waypoint_at, waypoint_before};
use ir_ast::{Block, Func, Layout};
use sp_ids::{BlockId, FuncId, ValueId};
use std::marker::Model;

/// A function, and the layouts and functions of its module. Contracts see `Names`.
#[derive(Drop)]
pub struct Scope<'a> {
    layouts: &'a [Layout],
    funcs: &'a [Func],
    func: &'a Func,
    power: u32,
    waypoints: &'a [Waypoint],
}

impl<'a> Model for Scope<'a> {
    ghost use Rattle.std.specs.Prelude.{map};
    ghost use Rattle.std.specs.List.{All};
    ghost use Rattle.ir_ast.specs.Funcs.{content_of};
    ghost use Rattle.print_tables.specs.Names.{Names};
    ghost use Rattle.print_tables.specs.Waypoints.{IsWaypoint};

    ghost Value = { Names };

    ghost view = { λ scope. record {
      layouts = scope.layouts.now;
      funcs = map content_of scope.funcs.now;
      func = scope.func.now.content;
    } };

    ghost invariant = { λ scope. All (IsWaypoint scope.func.now.content.blocks) scope.waypoints.now };
}

impl<'a> Scope<'a> {
    /// The scope of a function in which names are found from its waypoints.
    pub fn of<const MOST: usize>(
        layouts: &'a [Layout],
        funcs: &'a [Func],
        func: &'a Func,
        waypoints: &'a Waypoints<MOST>,
    ) -> Scope<'a>
        requires { All (IsWaypoint func.now.content.blocks) waypoints.now }
        ensures { result ≡ record { layouts = layouts.now; funcs = map content_of funcs.now; func = func.now.content } }
    {
        Scope {
            layouts,
            funcs,
            func,
            power: waypoints.power(),
            waypoints: waypoints.places(),
        }
    }

    /// The same, where names are found from the function's start.
    pub fn of_short(layouts: &'a [Layout], funcs: &'a [Func], func: &'a Func) -> Scope<'a>
        ensures { result ≡ record { layouts = layouts.now; funcs = map content_of funcs.now; func = func.now.content } }
    {
        Scope {
            layouts,
            funcs,
            func,
            power: 0,
            waypoints: &[],
        }
    }

    /// The function.
    pub fn func(&self) -> &Func
        ensures { result.now.content ≡ self.now.func }
    {
        self.func
    }

    /// The name of the layout with this place, or nothing where there is none.
    pub fn layout(&self, layout: u32) -> &[u8]
        ensures { result.now ≡ layout_name self.now.layouts layout }
    {
        name_of_layout(self.layouts, layout)
    }

    /// The name of a function of the module, or nothing where there is none.
    pub fn function(&self, func: FuncId) -> &[u8]
        ensures { result.now ≡ function_name self.now.funcs func.0 }
    {
        match self.funcs.get(func.0 as usize) {
            Some(func) => func.name().bytes(),
            None => &[],
        }
    }

    /// The name of a block of the function, or nothing where there is none.
    pub fn block(&self, block: BlockId) -> &[u8]
        ensures { result.now ≡ block_name self.now.func block.0 }
    {
        match self.func.blocks().get(block.0 as usize) {
            Some(block) => block.name().bytes(),
            None => &[],
        }
    }

    /// The name of a value of the function, or nothing where there is none.
    pub fn value(&self, value: ValueId) -> &[u8]
        ensures { result.now ≡ value_name self.now.func value.0 }
    {
        name_of_value(self.func, self.waypoints, self.power, value)
    }
}

/// The name of the layout with this place, or nothing where there is none.
pub fn name_of_layout(layouts: &[Layout], layout: u32) -> &[u8]
    ensures { result.now ≡ layout_name layouts.now layout }
{
    match layouts.get(layout as usize) {
        Some(layout) => layout.name().bytes(),
        None => &[],
    }
}

/// The elements after the first `count`.
pub fn after<T>(elements: &[T], count: usize) -> &[T]
    ensures { result.now ≡ drop count elements.now }
{
    if count <= elements.len() {
        &elements[count..]
    } else {
        &[]
    }
}

fn name_of_value<'a>(func: &'a Func, waypoints: &[Waypoint], power: u32, value: ValueId) -> &'a [u8]
    requires { All (IsWaypoint func.now.content.blocks) waypoints.now }
    ensures { result.now ≡ value_name func.now.content value.0 }
{
    let args = func.args();
    match args.get(value.0 as usize) {
        Some(arg) => arg.name.bytes(),
        None => result_name(
            func.blocks(),
            waypoints,
            power,
            value.0 as usize - args.len(),
        ),
    }
}

// The name of the result with this number among the results of these blocks, in text order.
fn result_name<'a>(
    blocks: &'a [Block],
    waypoints: &[Waypoint],
    power: u32,
    number: usize,
) -> &'a [u8]
    requires { All (IsWaypoint blocks.now) waypoints.now }
    ensures { result.now ≡ name_of_result (instructions_of blocks.now) number }
{
    match name_at_waypoint(blocks, waypoints, power, number) {
        Some(name) => name,
        None => name_past_waypoint(blocks, waypoints, power, number),
    }
}

// The same, where a waypoint stands at that result.
#[inline(always)]
fn name_at_waypoint<'a>(
    blocks: &'a [Block],
    waypoints: &[Waypoint],
    power: u32,
    number: usize,
) -> Option<&'a [u8]>
    requires { All (IsWaypoint blocks.now) waypoints.now }
    ensures { IfSome result (λ name. name.now ≡ name_of_result (instructions_of blocks.now) number) }
{
    let waypoint = waypoint_at(waypoints, power, number)?;
    let block = blocks.get(waypoint.block as usize)?;
    let inst = block.insts().get(waypoint.inst as usize)?;
    match inst.result() {
        Some(name) => Some(name.bytes()),
        None => None,
    }
}

// The same, where one stands before it, or none.
#[inline(never)]
fn name_past_waypoint<'a>(
    blocks: &'a [Block],
    waypoints: &[Waypoint],
    power: u32,
    number: usize,
) -> &'a [u8]
    requires { All (IsWaypoint blocks.now) waypoints.now }
    ensures { result.now ≡ name_of_result (instructions_of blocks.now) number }
{
    let start = waypoint_before(waypoints, power, number);
    name_from(blocks, start, number - start.results as usize)
}

// The name of the result with this number among the results from a place on.
fn name_from(blocks: &[Block], start: Waypoint, number: usize) -> &[u8]
    ensures { result.now ≡ name_of_result (instructions_from (drop start.block blocks.now) start.inst) number }
{
    let mut left = number;
    let mut first = start.inst as usize;
    for block in after(blocks, start.block as usize) {
        for inst in after(block.insts(), first) {
            if let Some(name) = inst.result() {
                if left == 0 {
                    return name.bytes();
                }
                left -= 1;
            }
        }
        first = 0;
    }
    &[]
}
