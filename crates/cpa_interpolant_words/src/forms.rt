//! The forms of the two parts of a path at a cut, `before_cut` and `behind_cut` of
//! `cpa_interpolant_rules`. Proved with `proofs/Edges.antt`.

ghost use Rattle.std.specs.Prelude.{◌≡◌, ◌<◌, length, slice_get, Some, IfOk};
ghost use Rattle.std.specs.List.{AllByRecursion};
ghost use Rattle.cpa_model.specs.declared.automaton.Edge.{Edge as AnEdge};
ghost use Rattle.cpa_folds.specs.Along.{acts_along};
ghost use Rattle.cpa_interpolant_rules.specs.Parts.{told, before_cut, behind_cut, weight_of};

use cpa_edgeform::EdgeForm;
use cpa_expr::{Expr, copy};
use cpa_ints::Seq;
use cpa_model::{Cfa, Elem, Fact};
use std::alloc::{AllocError, Global};

/// The element of the states on whose store the expression is nonzero.
fn told(alloc: Global, expr: &Expr) -> Result<Elem, AllocError>
    ensures { IfOk result (λ elem. elem ≡ told expr.now) }
{
    let mut facts = Seq::new(alloc);
    let expr = copy(alloc, expr)?;
    facts.push(Fact::Truth { expr, holds: true })?;
    Elem::new(alloc, facts)
}

/// The part before a cut: the expression is nonzero, and then the edge is taken.
pub fn part_before(alloc: Global, cfa: &Cfa, expr: &Expr, edge: u32) -> Result<EdgeForm, AllocError>
    requires { edge < length cfa.now.edges }
    ensures { (g : AnEdge) → slice_get cfa.now.edges edge ≡ Some g
        → IfOk result (λ form. form ≡ before_cut cfa.now.cells expr.now g.act) }
{
    let mut form = EdgeForm::begin(alloc, cfa, false)?;
    let elem = told(alloc, expr)?;
    form.holds_now(&elem)?;
    form.take_edge(cfa, edge)?;
    Ok(form)
}

/// The part behind a cut: the edges are taken, from any store on.
pub fn part_behind(alloc: Global, cfa: &Cfa, edges: &[u32]) -> Result<EdgeForm, AllocError>
    requires path { AllByRecursion (λ edge. edge < length cfa.now.edges) edges.now }
    ensures { IfOk result (λ form.
        form ≡ behind_cut cfa.now.cells (acts_along cfa.now edges.now)) }
{
    let mut form = EdgeForm::begin(alloc, cfa, false)?;
    for number in edges {
        form.take_edge(cfa, *number)?;
    }
    Ok(form)
}

/// What two parts weigh together, or the greatest `u64` where it is more. Takes no memory.
pub fn weight_of(before: &EdgeForm, behind: &EdgeForm) -> u64
    ensures { result ≡ weight_of before.now behind.now }
{
    before.weight().saturating_add(behind.weight())
}
