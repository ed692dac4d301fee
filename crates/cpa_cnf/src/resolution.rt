//! The resolvent of two clauses, as `IsResolvent` of `specs/Resolution.antt` defines it.
//! Proved with `proofs/resolution/`.

ghost use Rattle.std.specs.Prelude.{◌≡◌, ◌↔◌, ◌==◌, ◌||◌, ◌&&◌, ℕ, not, None, IfOk, OnOk, IfSome};
ghost use Rattle.std.specs.Prelude.{IsNone};
ghost use Rattle.cpa_cnf.specs.Clauses.{has, IsClause};
ghost use Rattle.cpa_cnf.specs.Resolution.{clash_literal, in_union_without, IsResolvent};

use crate::clause::Clause;
use crate::literal::Lit;
use std::alloc::{AllocError, Global};

/// The literal of the pivot that `a` has and whose opposite `b` has, if there is one.
fn clash(a: &Clause, b: &Clause, pivot: u32) -> Option<Lit>
    ensures { result ≡ clash_literal a.now b.now pivot }
{
    let positive = Lit::new(pivot, false);
    let negative = Lit::new(pivot, true);
    if a.contains(positive) && b.contains(negative) {
        Some(positive)
    } else if a.contains(negative) && b.contains(positive) {
        Some(negative)
    } else {
        None
    }
}

/// The resolvent of `a` and `b` on the pivot: `a` without the pivot's literal, `b` without the
/// opposite one. A literal of the pivot that either has besides stays.
pub fn resolve(
    alloc: Global,
    a: &Clause,
    b: &Clause,
    pivot: u32,
) -> Result<Option<Clause>, AllocError>
    ensures resolvent { IfOk result (λ found. IfSome found (IsResolvent a.now b.now pivot)) }
    ensures none { IfOk result (λ found. IsNone found ↔ (clash_literal a.now b.now pivot ≡ None)) }
{
    match clash(a, b, pivot) {
        Some(literal) => Ok(Some(union_without(alloc, a, b, literal)?)),
        None => Ok(None),
    }
}

/// The literals of `a` but for `literal`, and those of `b` but for its opposite.
fn union_without(alloc: Global, a: &Clause, b: &Clause, literal: Lit) -> Result<Clause, AllocError>
    ensures union { IfOk result (λ c. (l : ℕ)
        → has c l ≡ in_union_without (has a.now) (has b.now) literal l) }
    ensures sorted { IfOk result IsClause }
{
    let mut left = Vec::new(alloc);
    push_others(&mut left, a.literals(), literal)?;
    push_others(&mut left, b.literals(), literal.opposite())?;
    Clause::from_lits(left)
}

/// Adds the literals but for `out`.
fn push_others(left: &mut Vec<Lit>, literals: &[Lit], out: Lit) -> Result<(), AllocError>
    ensures { OnOk result ((l : ℕ) → has left.new.items l
        ≡ (has left.old.items l || (has literals.now l && not (l == out)))) }
{
    for literal in literals {
        if *literal != out {
            left.push(*literal)?;
        }
    }
    Ok(())
}
