//! The expression of the last partial interpolant of a refutation: `interpolant_expr` of
//! specs/Interpolants. By the checker alone.

ghost use Rattle.std.specs.Prelude.{◌≡◌, length, IfOk};
ghost use Rattle.std.specs.List.{AllByRecursion};
ghost use Rattle.cpa_cnf.specs.Lines.{AreBelow, IsRefutation};
ghost use Rattle.cpa_interpolant_bits.specs.Limits.{unless_large};
ghost use Rattle.cpa_interpolant_conditions.specs.Interpolants.{interpolant_expr};

use crate::laws::conditions_of_partials_mean;
use crate::lines::condition_of;
use cpa_chains::{leaves, partials};
use cpa_cnf::{Cnf, Line};
use cpa_expr::Expr;
use cpa_interpolant_bits::{Bit, Conditions};
use cpa_ints::Boxed;
use std::alloc::{AllocError, Global};

/// The expression of the last partial interpolant of the lines of a refutation, over the bits that
/// the variables are; None where it has more than 2,000 nodes or is higher than 300. `sides` says
/// of each clause of the formula whether it is one of A. It takes time linear in the formula and
/// the lines, and memory besides for the nodes that they share.
pub fn interpolant(
    alloc: Global,
    cnf: &Cnf,
    sides: &[bool],
    log: &[Line],
    bits: &[Option<Bit>],
) -> Result<Option<Boxed<Expr>>, AllocError>
    requires sides { length sides.now ≡ length cnf.now.clauses }
    requires below { AllByRecursion (AreBelow cnf.now.vars) cnf.now.clauses }
    requires refutes { IsRefutation cnf.now log.now }
    ensures { IfOk result (λ found. found
        ≡ unless_large (interpolant_expr bits.now cnf.now sides.now log.now)) }
{
    conditions_of_partials_mean();
    let leaves = leaves(alloc, cnf, sides)?;
    let partials = partials(alloc, cnf, sides, log)?;
    let mut conditions = Conditions::new(alloc);
    let last = condition_of(alloc, &mut conditions, &leaves, &partials)?;
    let found = conditions.expression(alloc, bits, last)?;
    Ok(found)
}
