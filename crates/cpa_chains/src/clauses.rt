//! The partials of the formula's clauses, `leaves_of` of `specs/Partials.antt`.
//! Proved with `proofs/Filling.antt`.

ghost use Rattle.std.specs.Prelude.{◌≡◌, length, filter, IfOk};
ghost use Rattle.std.specs.List.{AllByRecursion};
ghost use Rattle.cpa_cnf.specs.Lines.{AreBelow};
ghost use Rattle.cpa_chains.specs.Partials.{leaves_of};
ghost use Rattle.cpa_chains.specs.Tables.{is_noted, leaf_noted, leaves_noted};

use crate::partial::Leaf;
use crate::sides::variables_of_b;
use cpa_cnf::{Clause, Cnf, Lit};
use cpa_ints::Seq;
use std::alloc::{AllocError, Global};

/// The partial of each clause of the formula: the literals of a clause of A that are of shared
/// variables, and true for a clause of B.
pub fn leaves(alloc: Global, cnf: &Cnf, sides: &[bool]) -> Result<Vec<Leaf>, AllocError>
    requires sides { length sides.now ≡ length cnf.now.clauses }
    requires below { AllByRecursion (AreBelow cnf.now.vars) cnf.now.clauses }
    ensures { IfOk result (λ leaves. leaves.items ≡ leaves_of cnf.now sides.now) }
{
    let table = variables_of_b(alloc, cnf, sides)?;
    let leaves = all_leaves(alloc, &table, sides, cnf.clauses.as_slice())?;
    Ok(leaves)
}

/// The partials of clauses by the table of the variables of B.
fn all_leaves(
    alloc: Global,
    table: &[bool],
    sides: &[bool],
    clauses: &[Clause],
) -> Result<Vec<Leaf>, AllocError>
    requires sides { length sides.now ≡ length clauses.now }
    requires below { AllByRecursion (AreBelow (length table.now)) clauses.now }
    ensures { IfOk result (λ leaves. leaves.items ≡ leaves_noted table.now sides.now clauses.now) }
{
    let mut leaves = Vec::with_capacity(alloc, clauses.len())?;
    for i in 0..clauses.len() {
        leaves.push(leaf(alloc, table, sides[i], clauses[i].literals())?)?;
    }
    Ok(leaves)
}

/// The partial of a clause of this side.
fn leaf(alloc: Global, table: &[bool], side: bool, literals: &[Lit]) -> Result<Leaf, AllocError>
    requires { AreBelow (length table.now) literals.now }
    ensures { IfOk result (λ leaf. leaf ≡ leaf_noted table.now side literals.now) }
{
    if side {
        Ok(Leaf::Any(noted(alloc, table, literals)?))
    } else {
        Ok(Leaf::Always)
    }
}

/// The literals whose variables are noted in the table.
fn noted(alloc: Global, table: &[bool], literals: &[Lit]) -> Result<Seq<Lit>, AllocError>
    requires { AreBelow (length table.now) literals.now }
    ensures { IfOk result (λ kept. kept ≡ filter (is_noted table.now) literals.now) }
{
    let mut kept = Seq::new(alloc);
    for literal in literals {
        if table[literal.var() as usize] {
            kept.push(*literal)?;
        }
    }
    Ok(kept)
}
