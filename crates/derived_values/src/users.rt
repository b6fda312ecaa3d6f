//! For each value the phis and selects that use it.

ghost use Rattle.std.specs.Prelude.{◌≡◌, ◌<◌, [], ◌∷◌, ◌++◌, replicate, length, map, slice_index_or, slice_set, IfOk};
ghost use Rattle.std.specs.List.{filter_map};
ghost use Rattle.std.specs.Option.{option_to_list};
ghost use Rattle.ir_ast.specs.Operands.{value_in};
ghost use Rattle.derived_values.specs.Users.{AddsUsers};

use ir_ast::{Operand, Ty};
use std::alloc::{AllocError, Global};

/// So many values without users.
pub(crate) fn no_users(alloc: Global, count: usize) -> Result<Vec<Vec<usize>>, AllocError>
    ensures { IfOk result (λ users. map (λ row. row.items) users.items ≡ replicate count []) }
{
    let mut users = Vec::with_capacity(alloc, count)?;
    for _ in 0..count {
        users.push(Vec::new(alloc))?;
    }
    Ok(users)
}

/// Adds the user to those of the values among its operands and in its bundle.
pub(crate) fn add_used(
    users: &mut Vec<Vec<usize>>,
    operands: &[Operand],
    bundle: &[(Ty, Operand)],
    user: usize,
) -> Result<(), AllocError>
    ensures { IfOk result (λ _. AddsUsers (filter_map value_in (operands.now ++ map (λ entry. entry.1) bundle.now)) user
        (map (λ row. row.items) users.old.items) (map (λ row. row.items) users.new.items)) }
{
    add_operands(users, operands, user)?;
    add_bundle(users, bundle, user)?;
    Ok(())
}

fn add_operands(
    users: &mut Vec<Vec<usize>>,
    operands: &[Operand],
    user: usize,
) -> Result<(), AllocError>
    ensures { IfOk result (λ _. AddsUsers (filter_map value_in operands.now) user (map (λ row. row.items) users.old.items) (map (λ row. row.items) users.new.items)) }
{
    for operand in operands {
        add_operand(users, *operand, user)?;
    }
    Ok(())
}

fn add_bundle(
    users: &mut Vec<Vec<usize>>,
    bundle: &[(Ty, Operand)],
    user: usize,
) -> Result<(), AllocError>
    ensures { IfOk result (λ _. AddsUsers (filter_map value_in (map (λ entry. entry.1) bundle.now)) user (map (λ row. row.items) users.old.items) (map (λ row. row.items) users.new.items)) }
{
    for entry in bundle {
        add_operand(users, entry.1, user)?;
    }
    Ok(())
}

fn add_operand(users: &mut Vec<Vec<usize>>, operand: Operand, user: usize) -> Result<(), AllocError>
    ensures { IfOk result (λ _. AddsUsers (option_to_list (value_in operand)) user (map (λ row. row.items) users.old.items) (map (λ row. row.items) users.new.items)) }
{
    match operand {
        Operand::Value(value) => add_user(users, value.0 as usize, user),
        Operand::Int(_) | Operand::Null | Operand::Fun(_) => Ok(()),
    }
}

fn add_user(users: &mut Vec<Vec<usize>>, value: usize, user: usize) -> Result<(), AllocError>
    ensures { IfOk result (λ _. AddsUsers (value ∷ []) user (map (λ row. row.items) users.old.items) (map (λ row. row.items) users.new.items)) }
{
    if value < users.len() {
        push_user(users, value, user)?;
    }
    Ok(())
}

fn push_user(users: &mut Vec<Vec<usize>>, value: usize, user: usize) -> Result<(), AllocError>
    requires { value < length users.old.items }
    ensures { IfOk result (λ _. map (λ row. row.items) users.new.items ≡ slice_set (map (λ row. row.items) users.old.items) value
        (slice_index_or (map (λ row. row.items) users.old.items) value [] ++ user ∷ [])) }
{
    users[value].push(user)?;
    Ok(())
}
