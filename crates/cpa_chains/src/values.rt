//! The value of partials where the variables have values, `last_value` of `specs/Partials.antt`.

ghost use Rattle.std.specs.Prelude.{◌≡◌, ◌∷◌, [], false, map, slice_index_or, IfOk, OnOk};
ghost use Rattle.std.specs.List.{list_any};
ghost use Rattle.cpa_cnf.specs.Models.{value_of_literal};
ghost use Rattle.cpa_chains.specs.Partials.{joined, leaf_value, partial_value, values_behind};
ghost use Rattle.cpa_chains.specs.Partials.{last_value};

use crate::partial::{Joint, Leaf, Partial};
use cpa_cnf::Lit;
use std::alloc::{AllocError, Global};

/// The value of the last partial, where the variables have these values and those beyond them are
/// false. A number that names nothing stands for false.
pub fn last_value(
    alloc: Global,
    leaves: &[Leaf],
    partials: &[Partial],
    values: &[bool],
) -> Result<bool, AllocError>
    ensures { IfOk result (λ value. value ≡ last_value values.now leaves.now partials.now) }
{
    let mut known = leaf_values(alloc, leaves, values)?;
    push_values(&mut known, partials)?;
    Ok(value_at(&known, known.len().saturating_sub(1)))
}

/// The values of the partials of the clauses.
fn leaf_values(alloc: Global, leaves: &[Leaf], values: &[bool]) -> Result<Vec<bool>, AllocError>
    ensures { IfOk result (λ known. known.items ≡ map (leaf_value values.now) leaves.now) }
{
    let mut known = Vec::with_capacity(alloc, leaves.len())?;
    for leaf in leaves {
        known.push(leaf_value(leaf, values))?;
    }
    Ok(known)
}

/// Adds the values of the partials of the lines.
fn push_values(known: &mut Vec<bool>, partials: &[Partial]) -> Result<(), AllocError>
    ensures { OnOk result (known.new.items ≡ values_behind known.old.items partials.now) }
{
    for partial in partials {
        let value = partial_value(known, partial);
        known.push(value)?;
    }
    Ok(())
}

/// The value of a number, false where it names nothing.
fn value_at(known: &[bool], number: usize) -> bool
    ensures { result ≡ slice_index_or known.now number false }
{
    number < known.len() && known[number]
}

/// Whether the literal is true.
fn literal_value(values: &[bool], literal: Lit) -> bool
    ensures { result ≡ value_of_literal values.now literal }
{
    value_at(values, literal.var() as usize) != literal.is_negative()
}

/// The value of the partial of a clause.
fn leaf_value(leaf: &Leaf, values: &[bool]) -> bool
    ensures { result ≡ leaf_value values.now leaf.now }
{
    match leaf {
        Leaf::Always => true,
        Leaf::Any(literals) => any_true(values, literals.as_slice()),
    }
}

/// Whether one of the literals is true.
fn any_true(values: &[bool], literals: &[Lit]) -> bool
    ensures { result ≡ list_any (value_of_literal values.now) literals.now }
{
    for literal in literals {
        if literal_value(values, *literal) {
            return true;
        }
    }
    false
}

/// The value and that of a joint's clause, joined.
fn joined(known: &[bool], value: bool, joint: Joint) -> bool
    ensures { result ≡ joined known.now value (joint ∷ []) }
{
    let other = value_at(known, joint.clause as usize);
    if joint.or {
        value || other
    } else {
        value && other
    }
}

/// The value of the partial of a line.
fn partial_value(known: &[bool], partial: &Partial) -> bool
    ensures { result ≡ partial_value known.now partial.now }
{
    let mut value = value_at(known, partial.first as usize);
    for joint in &partial.joints {
        value = joined(known, value, *joint);
    }
    value
}
