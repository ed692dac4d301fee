//! Steps whose outcome is known, since all that was asked about them was decided. What is kept of a
//! step is right for each step like it, in whichever automaton (`specs/Known.antt`).

ghost use Rattle.std.specs.Prelude.{◌≡◌, ◌∷◌, List, IsTrue, IfOk, IfSome};
ghost use Rattle.cpa_model.specs.Expressions.{types_of};
ghost use Rattle.cpa_facts.specs.declared.fact.Fact.{Fact as AFact};
ghost use Rattle.cpa_predicate.specs.Known.{told, IsKnown, IsKnown-prop};
ghost use Rattle.cpa_predicate.specs.Transfer.{IsOutcome, NoneOpen};

use cpa_expr::{copy, same_expr};
use cpa_ints::IntType;
use cpa_model::{Act, Cell, Cfa, Edge, Elem, Expr, Fact, Facts, Seq};
use std::alloc::{AllocError, Global};

/// What is found of a step: the truths of the predicates behind it, or that it leads nowhere.
pub(crate) type Outcome = Option<Seq<Option<bool>>>;

/// A step by an act from an element that says some truths of predicates, in an automaton with cells
/// of some types, and its outcome.
#[derive(Drop)]
pub(crate) struct Known {
    types: Seq<IntType>,
    act: Act,
    truths: Seq<(Expr, bool)>,
    preds: Seq<Expr>,
    outcome: Option<Seq<Option<bool>>>,
    ghost is_right: { IsKnown types act truths preds outcome } by { IsKnown-prop types act truths preds outcome },
}

/// Whether the cells have these types.
fn have_types(cells: &[Cell], types: &[IntType]) -> bool
    ensures { IsTrue result → types_of cells.now ≡ types.now }
{
    let mut rest = types;
    for cell in cells {
        match rest {
            [ty, behind @ ..] => {
                if cell.ty != *ty {
                    return false;
                }
                rest = behind;
            }
            [] => return false,
        }
    }
    rest.is_empty()
}

/// Whether the two are the same act.
fn same_act(a: &Act, b: &Act) -> bool
    ensures { IsTrue result → a.now ≡ b.now }
{
    match (a, b) {
        (Act::Skip, Act::Skip) => true,
        (
            Act::Assign {
                base,
                len,
                index,
                value,
            },
            Act::Assign {
                base: first,
                len: count,
                index: place,
                value: written,
            },
        ) => base == first && len == count && same_expr(index, place) && same_expr(value, written),
        (
            Act::Assume { test, holds },
            Act::Assume {
                test: other,
                holds: wanted,
            },
        ) => same_expr(test, other) && holds == wanted,
        (Act::Input { cell }, Act::Input { cell: other }) => cell == other,
        (Act::Call { site }, Act::Call { site: other }) => site == other,
        (Act::Return { site }, Act::Return { site: other }) => site == other,
        _ => false,
    }
}

/// What is left of the truths behind the one that the fact says, if it says one. Nothing where it
/// says another one than the first.
fn behind_said<'a>(fact: &Fact, truths: &'a [(Expr, bool)]) -> Option<&'a [(Expr, bool)]>
    ensures { IfSome result (λ rest. (facts : List AFact) → told facts ≡ rest.now
        → told (fact.now ∷ facts) ≡ truths.now) }
{
    match fact {
        Fact::Truth { expr, holds } => match truths {
            [first, rest @ ..] => {
                if same_expr(expr, &first.0) && *holds == first.1 {
                    Some(rest)
                } else {
                    None
                }
            }
            [] => None,
        },
        Fact::At { .. } | Fact::Stack { .. } | Fact::Equals { .. } | Fact::Within { .. } => {
            Some(truths)
        }
    }
}

/// Whether these are the truths that the facts say, in their order.
fn say(facts: &Facts, truths: &[(Expr, bool)]) -> bool
    ensures { IsTrue result → told facts.now ≡ truths.now }
{
    let mut rest = truths;
    for fact in facts {
        match behind_said(fact, rest) {
            Some(behind) => rest = behind,
            None => return false,
        }
    }
    rest.is_empty()
}

/// Whether the two are the same predicates in the same order.
fn same_preds(preds: &[Expr], others: &[Expr]) -> bool
    ensures { IsTrue result → preds.now ≡ others.now }
{
    preds == others
}

/// An equal act.
fn copy_act(alloc: Global, act: &Act) -> Result<Act, AllocError>
    ensures { IfOk result (λ a. a ≡ act.now) }
{
    match act {
        Act::Skip => Ok(Act::Skip),
        Act::Assign {
            base,
            len,
            index,
            value,
        } => Ok(Act::Assign {
            base: *base,
            len: *len,
            index: copy(alloc, index)?,
            value: copy(alloc, value)?,
        }),
        Act::Assume { test, holds } => Ok(Act::Assume {
            test: copy(alloc, test)?,
            holds: *holds,
        }),
        Act::Input { cell } => Ok(Act::Input { cell: *cell }),
        Act::Call { site } => Ok(Act::Call { site: *site }),
        Act::Return { site } => Ok(Act::Return { site: *site }),
    }
}

/// The types of the cells.
fn types_of(alloc: Global, cells: &[Cell]) -> Result<Seq<IntType>, AllocError>
    ensures { IfOk result (λ types. types ≡ types_of cells.now) }
{
    let mut types = Seq::new(alloc);
    for cell in cells {
        types.push(cell.ty)?;
    }
    Ok(types)
}

/// The truths that the facts say of predicates.
fn told(alloc: Global, facts: &Facts) -> Result<Seq<(Expr, bool)>, AllocError>
    ensures { IfOk result (λ truths. truths ≡ told facts.now) }
{
    let mut truths = Seq::new(alloc);
    for fact in facts {
        if let Fact::Truth { expr, holds } = fact {
            truths.push((copy(alloc, expr)?, *holds))?;
        }
    }
    Ok(truths)
}

/// Copies of the predicates.
fn copy_preds(alloc: Global, preds: &[Expr]) -> Result<Seq<Expr>, AllocError>
    ensures { IfOk result (λ ps. ps ≡ preds.now) }
{
    let mut copies = Seq::new(alloc);
    for p in preds {
        copies.push(copy(alloc, p)?)?;
    }
    Ok(copies)
}

/// An equal outcome.
fn copy_outcome(alloc: Global, outcome: &Outcome) -> Result<Outcome, AllocError>
    ensures { IfOk result (λ o. o ≡ outcome.now) }
{
    match outcome {
        None => Ok(None),
        Some(truths) => Ok(Some(Seq::from_vec(truths.as_slice().to_vec(alloc)?))),
    }
}

/// What is kept of the step along the edge, whose outcome is known.
pub(crate) fn known_step(
    alloc: Global,
    cfa: &Cfa,
    edge: &Edge,
    elem: &Elem,
    preds: &[Expr],
    outcome: &Outcome,
) -> Result<Known, AllocError>
    requires { IsOutcome NoneOpen cfa.now elem.now edge.now preds.now outcome.now }
{
    let types = types_of(alloc, cfa.cells.as_slice())?;
    let preds = copy_preds(alloc, preds)?;
    let outcome = copy_outcome(alloc, outcome)?;
    let truths = told(alloc, &elem.facts)?;
    let act = copy_act(alloc, &edge.act)?;
    Ok(Known {
        types,
        act,
        truths,
        preds,
        outcome,
    })
}

/// Whether what is known is of the step along the edge.
fn is_of(known: &Known, cfa: &Cfa, edge: &Edge, elem: &Elem, preds: &[Expr]) -> bool
    ensures { IsTrue result → (types_of cfa.now.cells ≡ known.now.types)
        × (edge.now.act ≡ known.now.act) × (told elem.now.facts ≡ known.now.truths)
        × (preds.now ≡ known.now.preds) }
{
    same_act(&edge.act, &known.act)
        && say(&elem.facts, known.truths.as_slice())
        && same_preds(preds, known.preds.as_slice())
        && have_types(cfa.cells.as_slice(), known.types.as_slice())
}

impl Known {
    /// The outcome, where it is that of the step along the edge.
    pub(crate) fn outcome_of(
        &self,
        cfa: &Cfa,
        edge: &Edge,
        elem: &Elem,
        preds: &[Expr],
    ) -> Option<&Outcome>
        ensures { IfSome result (λ outcome.
            IsOutcome NoneOpen cfa.now elem.now edge.now preds.now outcome.now) }
    {
        let is_own = is_of(self, cfa, edge, elem, preds);
        if is_own { Some(&self.outcome) } else { None }
    }
}
