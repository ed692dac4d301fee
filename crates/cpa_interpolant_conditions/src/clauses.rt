//! The conditions of the partials of clauses: `leaves_made` of specs/Making.

ghost use Rattle.std.specs.Prelude.{◌≡◌, [], false, IfOk};
ghost use Rattle.cpa_interpolant_bits.specs.declared.nodes.Condition.TheVariants.{Known};
ghost use Rattle.cpa_interpolant_bits.specs.Nodes.{made};
ghost use Rattle.cpa_interpolant_conditions.specs.Making.{any_made, leaf_made, leaves_made};
ghost use Rattle.cpa_interpolant_conditions.specs.Making.{numbered};

use cpa_chains::Leaf;
use cpa_cnf::Lit;
use cpa_interpolant_bits::{Condition, Conditions};
use std::alloc::{AllocError, Global};

/// One of the literals is true.
fn any_of(conditions: &mut Conditions, literals: &[Lit]) -> Result<Condition, AllocError>
    ensures { IfOk result (λ c. made conditions.new c
        ≡ any_made (made conditions.old (Known false)) literals.now) }
{
    let mut any = Condition::Known(false);
    for literal in literals {
        let one = conditions.literal(*literal)?;
        any = conditions.either(any, one)?;
    }
    Ok(any)
}

/// The condition of the partial of a clause.
fn leaf_condition(conditions: &mut Conditions, leaf: &Leaf) -> Result<Condition, AllocError>
    ensures { IfOk result (λ c. made conditions.new c ≡ leaf_made conditions.old leaf.now) }
{
    match leaf {
        Leaf::Always => Ok(Condition::Known(true)),
        Leaf::Any(literals) => any_of(conditions, literals.as_slice()),
    }
}

/// The conditions of the partials of the clauses.
pub(crate) fn leaf_conditions(
    alloc: Global,
    conditions: &mut Conditions,
    leaves: &[Leaf],
) -> Result<Vec<Condition>, AllocError>
    ensures { IfOk result (λ known. numbered conditions.new known.items
        ≡ leaves_made (numbered conditions.old []) leaves.now) }
{
    let mut known = Vec::with_capacity(alloc, leaves.len())?;
    for leaf in leaves {
        let condition = leaf_condition(conditions, leaf)?;
        known.push(condition)?;
    }
    Ok(known)
}
