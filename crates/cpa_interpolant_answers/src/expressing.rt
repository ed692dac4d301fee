//! The expression of a cut whose formula is refuted, by `IsAnswer` of specs/Answers.
//! Proved with `proofs/Concluding.antt`.

ghost use Rattle.std.specs.Prelude.{◌≡◌, ℕ, List, length, IfOk};
ghost use Rattle.std.specs.List.{AllByRecursion};
ghost use Rattle.cpa_cnf.specs.declared.formula.Line.{Line as ALine};
ghost use Rattle.cpa_cnf.specs.Lines.{AreBelow};
ghost use Rattle.cpa_expr.specs.declared.tree.Expr.{Expr as AnExpr};
ghost use Rattle.cpa_model.specs.declared.automaton.Act.{Act as AnAct};
ghost use Rattle.cpa_model.specs.declared.automaton.Cfa.{Cfa as ACfa};
ghost use Rattle.cpa_chains.specs.Interpolants.{IsInterpolant};
ghost use Rattle.cpa_chains.specs.Partials.{partials_of};
ghost use Rattle.cpa_interpolant_bits.specs.Limits.{unless_large};
ghost use Rattle.cpa_interpolant_conditions.specs.Interpolants.{interpolant_expr};
ghost use Rattle.cpa_interpolant_answers.specs.Answers.{IsAnswer};
ghost use Rattle.cpa_interpolant_answers.specs.Asked.{IsOfCut, IsWhole};

use crate::answer::Answer;
use crate::asking::Refuted;
use crate::joints::JoinedParts;
use cpa_chains::{Partial, leaves};
use cpa_expr::Expr;
use cpa_interpolant_bits::Conditions;
use cpa_interpolant_conditions::{condition_of, conditions_of_partials_mean};
use cpa_interpolant_cuts::{cuts_are_typed, cuts_interpolate};
use cpa_ints::Boxed;
use std::alloc::{AllocError, Global};

/// The expression of the last of the partials of lines, or None where it is too large.
fn expressed(
    alloc: Global,
    joined: &JoinedParts,
    partials: &[Partial],
) -> Result<Option<Boxed<Expr>>, AllocError>
    requires sides { length joined.now.sides.items ≡ length joined.now.cnf.clauses }
    requires below { AllByRecursion (AreBelow joined.now.cnf.vars) joined.now.cnf.clauses }
    ensures { (log : List ALine)
        → partials.now ≡ partials_of joined.now.cnf joined.now.sides.items log
        → IfOk result (λ found. found ≡ unless_large (interpolant_expr joined.now.bits.items
        joined.now.cnf joined.now.sides.items log)) }
{
    conditions_of_partials_mean();
    let leaves = leaves(alloc, &joined.cnf, &joined.sides)?;
    let mut conditions = Conditions::new(alloc);
    let last = condition_of(alloc, &mut conditions, &leaves, partials)?;
    let found = conditions.expression(alloc, &joined.bits, last)?;
    Ok(found)
}

/// What comes of a cut whose formula is refuted, where the partials of the lines are these.
pub(crate) fn conclude(
    alloc: Global,
    refuted: Refuted,
    partials: &[Partial],
) -> Result<Answer, AllocError>
    requires whole { IsWhole refuted }
    requires list { partials.now
        ≡ partials_of refuted.joined.cnf refuted.joined.sides.items refuted.lines.items }
    requires interpolant { IsInterpolant refuted.joined.cnf refuted.joined.sides.items
        partials.now }
    ensures { (cfa : ACfa) (learnt gates : ℕ) (e : AnExpr) (a : AnAct) (acts : List AnAct)
        → IsOfCut cfa learnt gates e a acts refuted
        → IfOk result (IsAnswer cfa learnt gates e a acts) }
{
    cuts_interpolate();
    cuts_are_typed();
    let found = expressed(alloc, &refuted.joined, partials)?;
    match found {
        Some(expr) => Ok(Answer::Next(expr)),
        None => Ok(Answer::Large(refuted.lines)),
    }
}
