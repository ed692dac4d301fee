//! The conditions of the partials of lines, and the last of all: `condition_made` of specs/Making.

ghost use Rattle.std.specs.Prelude.{◌≡◌, IfOk, OnOk};
ghost use Rattle.cpa_interpolant_bits.specs.Nodes.{made};
ghost use Rattle.cpa_interpolant_conditions.specs.Making.{condition_at, condition_made, joint_made};
ghost use Rattle.cpa_interpolant_conditions.specs.Making.{numbered, partial_made, partials_made};

use crate::clauses::leaf_conditions;
use cpa_chains::{Joint, Leaf, Partial};
use cpa_interpolant_bits::{Condition, Conditions};
use std::alloc::{AllocError, Global};

/// The condition of a number; one that names nothing stands for false.
fn condition_at(known: &[Condition], number: usize) -> Condition
    ensures { result ≡ condition_at known.now number }
{
    match known.get(number) {
        Some(condition) => *condition,
        None => Condition::Known(false),
    }
}

/// A condition joined with that of the number that a joint names.
fn joined(
    conditions: &mut Conditions,
    known: &[Condition],
    condition: Condition,
    joint: Joint,
) -> Result<Condition, AllocError>
    ensures { IfOk result (λ c. made conditions.new c
        ≡ joint_made known.now (made conditions.old condition) joint) }
{
    let other = condition_at(known, joint.clause as usize);
    if joint.or {
        conditions.either(condition, other)
    } else {
        conditions.both(condition, other)
    }
}

/// The condition of the partial of a line.
fn partial_condition(
    conditions: &mut Conditions,
    known: &[Condition],
    partial: &Partial,
) -> Result<Condition, AllocError>
    ensures { IfOk result (λ c. made conditions.new c
        ≡ partial_made (numbered conditions.old known.now) partial.now) }
{
    let mut condition = condition_at(known, partial.first as usize);
    for joint in &partial.joints {
        condition = joined(conditions, known, condition, *joint)?;
    }
    Ok(condition)
}

/// Adds the conditions of the partials of the lines.
fn push_conditions(
    conditions: &mut Conditions,
    known: &mut Vec<Condition>,
    partials: &[Partial],
) -> Result<(), AllocError>
    ensures { OnOk result (numbered conditions.new known.new.items
        ≡ partials_made (numbered conditions.old known.old.items) partials.now) }
{
    for partial in partials {
        let condition = partial_condition(conditions, known, partial)?;
        known.push(condition)?;
    }
    Ok(())
}

/// The condition of the last of the partials, made behind the conditions that are there. It takes
/// time linear in the clauses' literals and the lines' joints.
pub fn condition_of(
    alloc: Global,
    conditions: &mut Conditions,
    leaves: &[Leaf],
    partials: &[Partial],
) -> Result<Condition, AllocError>
    ensures { IfOk result (λ c. made conditions.new c
        ≡ condition_made conditions.old leaves.now partials.now) }
{
    let mut known = leaf_conditions(alloc, conditions, leaves)?;
    push_conditions(conditions, &mut known, partials)?;
    Ok(condition_at(&known, known.len().saturating_sub(1)))
}
