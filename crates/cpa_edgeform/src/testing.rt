//! Facts on a store as tests, and the denials of these, by specs/Tests of `cpa_form_rules`.
//! Proved with `proofs/testing/`.

ghost use Rattle.std.specs.Prelude.{◌≡◌, ◌++◌, true, map, IfOk, OnOk};
ghost use Rattle.std.specs.List.{flat_map};
ghost use Rattle.cpa_expr.specs.Cells.{scalar_read};
ghost use Rattle.cpa_expr.specs.declared.tree.CmpOp.TheVariants as cmp;
ghost use Rattle.cpa_expr.specs.declared.tree.Expr.TheVariants.{Const, Cmp, And};
ghost use Rattle.cpa_form_rules.specs.Tests.{type_at, fact_tests, tests_of, other_than, denied};
ghost use Rattle.cpa_form_rules.specs.Tests.{denials_of};

use crate::nodes::{has_value, scalar};
use crate::settling::push_copies;
use cpa_expr::{CmpOp, Expr, both, comparison, constant, copied, copy, either, negation};
use cpa_form_renaming::{Place, trap_test};
use cpa_ints::{Boxed, IntType, Seq};
use cpa_model::{Elem, Fact, Facts};
use std::alloc::{AllocError, Global};

/// The type of a cell.
pub(crate) fn type_at(places: &[Place], cell: u32) -> IntType
    ensures { result ≡ type_at places.now cell }
{
    match places.get(cell as usize) {
        Some(place) => place.ty,
        None => IntType::I32,
    }
}

/// Whether the cell's value is at least this number.
fn at_least(alloc: Global, ty: IntType, cell: u32, lo: &i128) -> Result<Boxed<Expr>, AllocError>
    ensures { IfOk result (λ e. e ≡ Cmp cmp.Le ty (Const ty lo.now) (scalar_read ty cell)) }
{
    let least = constant(alloc, ty, *lo)?;
    let read = scalar(alloc, ty, cell)?;
    comparison(alloc, CmpOp::Le, ty, least, read)
}

/// Whether the cell's value is at most this number.
fn at_most(alloc: Global, ty: IntType, cell: u32, hi: &i128) -> Result<Boxed<Expr>, AllocError>
    ensures { IfOk result (λ e. e ≡ Cmp cmp.Le ty (scalar_read ty cell) (Const ty hi.now)) }
{
    let read = scalar(alloc, ty, cell)?;
    let most = constant(alloc, ty, *hi)?;
    comparison(alloc, CmpOp::Le, ty, read, most)
}

/// Whether the cell's value lies between these numbers.
fn lies_within(
    alloc: Global,
    ty: IntType,
    cell: u32,
    lo: &i128,
    hi: &i128,
) -> Result<Boxed<Expr>, AllocError>
    ensures { IfOk result (λ e. e ≡ And
        (Cmp cmp.Le ty (Const ty lo.now) (scalar_read ty cell))
        (Cmp cmp.Le ty (scalar_read ty cell) (Const ty hi.now))) }
{
    let above = at_least(alloc, ty, cell, lo)?;
    let below = at_most(alloc, ty, cell, hi)?;
    both(alloc, above, below)
}

/// Adds what a fact asks.
fn push_tests(
    alloc: Global,
    out: &mut Seq<(Expr, bool)>,
    places: &[Place],
    fact: &Fact,
) -> Result<(), AllocError>
    ensures { OnOk result (out.new ≡ out.old ++ fact_tests places.now fact.now) }
{
    match fact {
        Fact::At { .. } | Fact::Stack { .. } => Ok(()),
        Fact::Equals { cell, value } => {
            let ty = type_at(places, *cell);
            let test = has_value(alloc, ty, *cell, constant(alloc, ty, *value)?)?;
            out.push((test.into_inner(), true))
        }
        Fact::Within { cell, lo, hi } => {
            let ty = type_at(places, *cell);
            let test = lies_within(alloc, ty, *cell, lo, hi)?;
            out.push((test.into_inner(), true))
        }
        Fact::Truth { expr, holds } => out.push((copy(alloc, expr)?, *holds)),
    }
}

/// What facts ask, in order.
pub(crate) fn tests_of(
    alloc: Global,
    places: &[Place],
    facts: &Facts,
) -> Result<Seq<(Expr, bool)>, AllocError>
    ensures { IfOk result (λ tests. tests ≡ tests_of places.now facts.now) }
{
    let mut tests = Seq::new(alloc);
    for fact in facts {
        push_tests(alloc, &mut tests, places, fact)?;
    }
    Ok(tests)
}

/// Whether the expression has the truth other than this one.
fn other_than(alloc: Global, holds: bool, e: &Expr) -> Result<Boxed<Expr>, AllocError>
    ensures { IfOk result (λ r. r ≡ other_than holds e.now) }
{
    let e = copied(alloc, e)?;
    if holds { negation(alloc, e) } else { Ok(e) }
}

/// Whether the expression traps or has the other truth.
fn failure(alloc: Global, e: &Expr, holds: bool) -> Result<Boxed<Expr>, AllocError>
    ensures { IfOk result (λ r. r ≡ (denied (e.now, holds)).0) }
{
    let trap = Boxed::new(alloc, trap_test(alloc, e)?)?;
    let other = other_than(alloc, holds, e)?;
    either(alloc, trap, other)
}

/// The denials of tests.
fn denials(alloc: Global, tests: &[(Expr, bool)]) -> Result<Seq<(Expr, bool)>, AllocError>
    ensures { IfOk result (λ all. all ≡ map denied tests.now) }
{
    let mut all = Seq::new(alloc);
    for one in tests {
        let failure = failure(alloc, &one.0, one.1)?;
        all.push((failure.into_inner(), true))?;
    }
    Ok(all)
}

/// The denials of what an element's facts ask.
fn denials_of(alloc: Global, places: &[Place], elem: &Elem) -> Result<Seq<(Expr, bool)>, AllocError>
    ensures { IfOk result (λ all. all ≡ denials_of places.now elem.now.facts) }
{
    let tests = tests_of(alloc, places, &elem.facts)?;
    denials(alloc, tests.as_slice())
}

/// The denials of what each element's facts ask.
pub(crate) fn all_denials(
    alloc: Global,
    places: &[Place],
    elems: &[Elem],
) -> Result<Seq<Seq<(Expr, bool)>>, AllocError>
    ensures { IfOk result (λ lists. lists
        ≡ map (λ elem. denials_of places.now elem.facts) elems.now) }
{
    let mut lists = Seq::new(alloc);
    for elem in elems {
        lists.push(denials_of(alloc, places, elem)?)?;
    }
    Ok(lists)
}

/// The lists, one behind the other.
pub(crate) fn joined_lists(
    alloc: Global,
    lists: &[Seq<(Expr, bool)>],
) -> Result<Seq<(Expr, bool)>, AllocError>
    ensures { IfOk result (λ all. all ≡ flat_map (λ tests. tests) lists.now) }
{
    let mut all = Seq::new(alloc);
    for tests in lists {
        push_copies(alloc, &mut all, tests.as_slice())?;
    }
    Ok(all)
}
