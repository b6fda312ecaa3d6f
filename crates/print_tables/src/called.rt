//! Which externals a module calls, by one walk over its functions.
ghost use Rattle.std.specs.Prelude.{◌≡◌, ℕ, ◌==◌, ◌+◌, ◌<◌, ◌≤◌, false, map, IfSome, IfNone};
ghost use Rattle.std.specs.List.{list_any};
ghost use Rattle.std.specs.Option.{option_map_or};
ghost use Rattle.ir_ast.specs.Funcs.{content_of};
ghost use Rattle.print_tables.specs.Externals.{is_callee, is_result, is_call_of, calls};
ghost use Rattle.print_tables.specs.Called.{external_at, Marks};

use crate::External;
use crate::externals::is_called;
use ir_ast::{Block, Callee, Func, Inst, Op, Ty};
use std::marker::Model;

// Places in the table.
const PRINT: usize = 0;

const READ: usize = 1;

const TASK_START: usize = 2;

const POLL: usize = 3;

const CHECK: usize = 4;

const SAME: usize = 5;

const STATEPOINTS: usize = 6;

const RELOCATES: usize = 7;

const RESULT_POINTER: usize = 8;

// What stands before the result of the integer type of width 1.
const BEFORE_WIDTHS: usize = 8;

// What stands before the first layout.
const BEFORE_LAYOUTS: usize = 73;

// As many places as a module with 4,096 layouts has.
const PLACES: usize = 4_169;

/// Which externals some functions call. Contracts see the functions.
#[derive(Drop)]
pub struct Called<'a> {
    funcs: &'a [Func],
    table: [bool; PLACES],
}

impl<'a> Model for Called<'a> {
    ghost use Rattle.std.specs.Prelude.{List, map};
    ghost use Rattle.ir_ast.specs.Funcs.{Function, content_of};
    ghost use Rattle.print_tables.specs.Called.{AreCalled};

    ghost Value = { List Function };

    ghost view = { λ called. map content_of called.funcs.now };

    ghost invariant = { λ called. AreCalled (map content_of called.funcs.now) called.table };
}

impl<'a> Called<'a> {
    /// Walks over the functions once.
    pub fn of(funcs: &'a [Func]) -> Called<'a>
        ensures { result ≡ map content_of funcs.now }
    {
        let mut table = [false; PLACES];
        mark_called(funcs, &mut table);
        Called { funcs, table }
    }

    /// The functions.
    pub fn funcs(&self) -> &'a [Func]
        ensures { map content_of result.now ≡ self.now }
    {
        self.funcs
    }

    /// Whether a line of the functions calls the external. One look at the table answers for each
    /// external of a module with at most 4,096 layouts.
    pub fn calls(&self, external: External) -> bool
        ensures { result ≡ calls self.now external }
    {
        match place_of(external) {
            Some(place) if place < PLACES => self.table[place],
            _ => is_called(self.funcs, external),
        }
    }
}

// The place of an external, where it has one.
fn place_of(external: External) -> Option<usize>
    ensures { IfSome result (λ place. external_at place ≡ external) }
{
    match external {
        External::New(layout) => Some(BEFORE_LAYOUTS + layout as usize),
        External::Print => Some(PRINT),
        External::Read => Some(READ),
        External::TaskStart => Some(TASK_START),
        External::Poll => Some(POLL),
        External::Check => Some(CHECK),
        External::Same => Some(SAME),
        External::StatepointFamily => Some(STATEPOINTS),
        External::RelocateFamily => Some(RELOCATES),
        External::ResultOf(width) => place_of_width(width),
        External::ResultPointer => Some(RESULT_POINTER),
    }
}

// The place of the result of this width, where it has one.
fn place_of_width(width: u32) -> Option<usize>
    ensures some { IfSome result (λ place. (place ≡ 8 + width) × (1 ≤ width) × (width ≤ 64)) }
    ensures none { IfNone result (1 ≤ width → 64 < width) }
{
    match width {
        1..=64 => Some(BEFORE_WIDTHS + width as usize),
        _ => None,
    }
}

// The place of a callee.
fn place_of_callee(callee: Callee) -> Option<usize>
    ensures { (place : ℕ) → is_callee (external_at place) callee ≡ option_map_or (λ named. place == named) result false }
{
    match callee {
        Callee::Fun(_) => None,
        Callee::New(layout) => Some(BEFORE_LAYOUTS + layout as usize),
        Callee::Print => Some(PRINT),
        Callee::Read => Some(READ),
        Callee::TaskStart => Some(TASK_START),
        Callee::Poll => Some(POLL),
        Callee::Check => Some(CHECK),
        Callee::Same => Some(SAME),
    }
}

// The place of the `gc.result` of this type.
fn place_of_result(ty: Ty) -> Option<usize>
    ensures { (place : ℕ) → is_result (external_at place) ty ≡ option_map_or (λ named. place == named) result false }
{
    match ty {
        Ty::Int(width) => place_of_width(width),
        Ty::Ptr => Some(RESULT_POINTER),
        Ty::Void | Ty::Token => None,
    }
}

// Sets the flag with this place.
fn mark(place: Option<usize>, called: &mut [bool])
    ensures { Marks (λ other. option_map_or (λ named. other == named) place false) called.old called.new }
{
    if let Some(place) = place {
        if place < called.len() {
            called[place] = true;
        }
    }
}

fn mark_line(inst: &Inst, called: &mut [bool])
    ensures { Marks (λ place. is_call_of (external_at place) inst.now.op inst.now.ty) called.old called.new }
{
    match inst.op() {
        Op::Call { callee, .. } => mark(place_of_callee(*callee), called),
        Op::Statepoint { callee, .. } => {
            mark(Some(STATEPOINTS), called);
            mark(place_of_callee(*callee), called);
        }
        Op::GcResult => mark(place_of_result(*inst.ty()), called),
        Op::GcRelocate => mark(Some(RELOCATES), called),
        _ => {}
    }
}

fn mark_block(block: &Block, called: &mut [bool])
    ensures { Marks (λ place. list_any (λ inst. is_call_of (external_at place) inst.op inst.ty) block.now.insts) called.old called.new }
{
    for inst in block.insts() {
        mark_line(inst, called);
    }
}

fn mark_func(func: &Func, called: &mut [bool])
    ensures { Marks (λ place. list_any (λ block. list_any (λ inst. is_call_of (external_at place) inst.op inst.ty) block.insts) func.now.content.blocks) called.old called.new }
{
    for block in func.blocks() {
        mark_block(block, called);
    }
}

fn mark_funcs(funcs: &[Func], called: &mut [bool])
    ensures { Marks (λ place. list_any (λ func. list_any (λ block. list_any (λ inst. is_call_of (external_at place) inst.op inst.ty) block.insts) func.content.blocks) funcs.now) called.old called.new }
{
    for func in funcs {
        mark_func(func, called);
    }
}

// Sets the flags of the externals that these functions call.
fn mark_called(funcs: &[Func], called: &mut [bool])
    ensures { Marks (λ place. calls (map content_of funcs.now) (external_at place)) called.old called.new }
{
    mark_funcs(funcs, called);
}
