//! The types of values, and what a line asks of its operands and its type.

ghost use Rattle.std.specs.Prelude.{◌≡◌, ◌<◌, ◌^◌, ◌++◌, ◌-◌, ◌↔◌, ℕ, IsTrue, IfSome, Some, map, length, replicate, slice_get};
ghost use Rattle.std.specs.List.{All, AllZip};
ghost use Rattle.ir_ast.specs.declared.types.Ty.TheVariants.{Int, Ptr};
ghost use Rattle.ir_ast.specs.Scope.{scope_of};
ghost use Rattle.ir_ast.specs.Values.{value_types};
ghost use Rattle.ir_ast.specs.Faults.TypeClash.{Fits, asked, IsNarrower, IsWider, IsCellType, HasField};
ghost use Rattle.ir_resolve.specs.ModuleFaults.{RuleBesidesCalls, IsTypedBesidesCalls};

use ir_ast::{Cell, Elem, Func, Inst, Layout, Module, Op, Operand, Ty};

// ---- what fits

fn is_type(ty: Ty, other: Ty) -> bool
    ensures { IsTrue result ↔ (ty ≡ other) }
{
    ty == other
}

fn has_type(given: Option<Ty>, ty: Ty) -> bool
    ensures { IsTrue result ↔ (given ≡ Some ty) }
{
    match given {
        Some(given) => is_type(given, ty),
        None => false,
    }
}

// Whether the number is below 2^`width`.
fn is_below(width: u32, number: u64) -> bool
    ensures { IsTrue result ↔ (number < 2 ^ width) }
{
    64 <= width || number < 1u64 << width
}

fn literal_fits(number: u64, ty: Ty) -> bool
    ensures { IsTrue result ↔ ((width : ℕ) × (ty ≡ Int width) × (number < 2 ^ width)) }
{
    match ty {
        Ty::Int(width) => is_below(width, number),
        Ty::Void | Ty::Ptr | Ty::Token => false,
    }
}

/// Whether an operand fits a type, where the values have these.
pub(crate) fn fits(values: &[Ty], operand: Operand, ty: Ty) -> bool
    ensures { IsTrue result ↔ Fits values.now operand ty }
{
    match operand {
        Operand::Value(value) => has_type(values.get(value.0 as usize).copied(), ty),
        Operand::Int(number) => literal_fits(number, ty),
        Operand::Null => is_type(ty, Ty::Ptr),
        Operand::Fun(_) => is_type(ty, Ty::Void),
    }
}

fn each_fits(values: &[Ty], operands: &[Operand], types: &[Ty]) -> bool
    ensures { IsTrue result ↔ AllZip (Fits values.now) operands.now types.now }
{
    if operands.len() != types.len() {
        return false;
    }
    for (place, operand) in operands.iter().enumerate() {
        if !fits(values, *operand, types[place]) {
            return false;
        }
    }
    true
}

/// Whether all operands fit a type.
pub(crate) fn all_fit(values: &[Ty], operands: &[Operand], ty: Ty) -> bool
    ensures { IsTrue result ↔ All (λ operand. Fits values.now operand ty) operands.now }
{
    for operand in operands {
        if !fits(values, *operand, ty) {
            return false;
        }
    }
    true
}

fn same_fit(values: &[Ty], operands: &[Operand], ty: Ty) -> bool
    ensures { IsTrue result ↔ AllZip (Fits values.now) operands.now (replicate (length operands.now) ty) }
{
    all_fit(values, operands, ty)
}

// Whether the entries of a bundle fit their types.
fn bundle_fits(values: &[Ty], bundle: &[(Ty, Operand)]) -> bool
    ensures { IsTrue result ↔ All (λ entry. Fits values.now entry.1 entry.0) bundle.now }
{
    for entry in bundle {
        if !fits(values, entry.1, entry.0) {
            return false;
        }
    }
    true
}

// ---- what a line asks besides

fn is_narrower(width: u32, ty: Ty) -> bool
    ensures { IsTrue result ↔ IsNarrower width ty }
{
    match ty {
        Ty::Int(than) => width < than,
        Ty::Void | Ty::Ptr | Ty::Token => false,
    }
}

fn is_wider(width: u32, ty: Ty) -> bool
    ensures { IsTrue result ↔ IsWider width ty }
{
    match ty {
        Ty::Int(than) => than < width,
        Ty::Void | Ty::Ptr | Ty::Token => false,
    }
}

fn is_cell(ty: Ty) -> bool
    ensures { IsTrue result ↔ IsCellType ty }
{
    Cell::of(&ty).is_some()
}

fn is_field(layout: Option<&Layout>, place: u32) -> bool
    ensures { IsTrue result ↔ IfSome layout.entry (λ one. place < length one.now.fields) }
{
    match layout {
        Some(layout) => (place as usize) < layout.fields().len(),
        None => true,
    }
}

fn has_field(layouts: &[Layout], elem: Elem, place: Option<u32>) -> bool
    ensures { IsTrue result ↔ HasField (map (λ layout. length layout.fields) layouts.now) elem place }
{
    match elem {
        Elem::Layout(layout) => match place {
            Some(place) => is_field(layouts.get(layout as usize), place),
            None => true,
        },
        Elem::Int(_) | Elem::Ptr => true,
    }
}

// ---- a whole line

fn both_fit(values: &[Ty], passed: &[Operand], types: &[Ty], live: &[Operand]) -> bool
    ensures { IsTrue result ↔ (AllZip (Fits values.now) passed.now types.now × All (λ operand. Fits values.now operand Ptr) live.now) }
{
    each_fits(values, passed, types) && all_fit(values, live, Ty::Ptr)
}

fn statepoint_fits(values: &[Ty], operands: &[Operand], types: &[Ty]) -> bool
    ensures { IsTrue result ↔ AllZip (Fits values.now) operands.now (types.now ++ replicate (length operands.now - length types.now) Ptr) }
{
    if operands.len() < types.len() {
        return false;
    }
    let passed = &operands[..types.len()];
    both_fit(values, passed, types, &operands[types.len()..])
}

fn operands_fit(values: &[Ty], inst: &Inst) -> bool
    ensures { IsTrue result ↔ AllZip (Fits values.now) inst.now.operands (asked inst.now.op inst.now.ty (length inst.now.operands)) }
{
    let operands = inst.operands();
    let ty = *inst.ty();
    match inst.op() {
        Op::Select => each_fits(values, operands, &[Ty::Int(1), ty, ty]),
        Op::Gep { index_width, .. } => each_fits(
            values,
            operands,
            &[Ty::Ptr, Ty::Int(*index_width)],
        ),
        Op::Load => each_fits(values, operands, &[Ty::Ptr]),
        Op::Store => each_fits(values, operands, &[ty, Ty::Ptr]),
        Op::Call { types, .. } => each_fits(values, operands, types.list()),
        Op::Statepoint { types, .. } => statepoint_fits(values, operands, types.list()),
        Op::GcResult => each_fits(values, operands, &[Ty::Token]),
        Op::GcRelocate => each_fits(values, operands, &[Ty::Token, Ty::Int(32), Ty::Int(32)]),
        _ => same_fit(values, operands, ty),
    }
}

// Whether the operands of a line fit, and the entries of its bundle.
fn uses_fit(values: &[Ty], inst: &Inst) -> bool
    ensures { IsTrue result ↔ (AllZip (Fits values.now) inst.now.operands (asked inst.now.op inst.now.ty (length inst.now.operands))
        × All (λ entry. Fits values.now entry.1 entry.0) inst.now.bundle) }
{
    operands_fit(values, inst) && bundle_fits(values, inst.bundle())
}

fn keeps_rule(module: &Module, func: &Func, inst: &Inst) -> bool
    ensures { IsTrue result ↔ RuleBesidesCalls (scope_of «module».now.content func.now.content) inst.now.op inst.now }
{
    let ty = *inst.ty();
    match inst.op() {
        Op::Trunc(width) => is_narrower(*width, ty),
        Op::Zext(width) => is_wider(*width, ty),
        Op::Sext(width) => is_wider(*width, ty),
        Op::Gep { elem, place, .. } => has_field(module.layouts(), *elem, *place),
        Op::Load => is_cell(ty),
        Op::Store => is_cell(ty),
        Op::Ret => is_type(ty, *func.answer()),
        _ => true,
    }
}

/// Whether the line has the types that it asks, besides those of what it calls.
pub(crate) fn is_typed(module: &Module, func: &Func, values: &[Ty], inst: &Inst) -> bool
    requires { values.now ≡ value_types func.now.content }
    ensures { IsTrue result ↔ IsTypedBesidesCalls (scope_of «module».now.content func.now.content) inst.now }
{
    uses_fit(values, inst) && keeps_rule(module, func, inst)
}
