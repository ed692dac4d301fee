//! What two elements are merged to, by `specs/Merging.antt`: it looks at the cells alone of which
//! one of them says something. Proved with `proofs/MergedLemmas.antt`.

ghost use Rattle.std.specs.Prelude.{◌≡◌, ◌<◌, ◌^◌, ◌||◌, ℕ, Bool, length, slice_get, IfOk, OnOk};
ghost use Rattle.cpa_model.specs.Automata.{IsAutomaton};
ghost use Rattle.cpa_interval.specs.Merging.{merged_bounds, merged_along, merged_all, is_kept};
ghost use Rattle.cpa_interval.specs.Merging.{merged_at, put_where, numbers_for, merged};
ghost use Rattle.cpa_interval.specs.Filling.{is_listed, IsRightBut};

use crate::cells::{cell_bounds, elem_of_all};
use crate::covers::covers;
use crate::numbers::near_numbers;
use crate::widening::widened;
use cpa_iface::MergeRule;
use cpa_interval_bounds::{Bounds, CellBounds, KnownBounds};
use cpa_ints::IntType;
use cpa_model::{Cell, Cfa, Elem, copy_elem};
use std::alloc::{AllocError, Global};

/// What takes the place of the old element where the new one has come. The constants of the
/// automaton are looked at where bounds are widened alone.
pub(crate) fn merged(
    alloc: Global,
    cfa: &Cfa,
    rule: MergeRule,
    new: &Elem,
    old: &Elem,
) -> Result<Elem, AllocError>
    requires { IsAutomaton cfa.now }
    ensures { IfOk result (λ e. e ≡ merged cfa.now rule new.now old.now) }
{
    if is_kept(rule, new, old) {
        return copy_elem(old);
    }
    let numbers = numbers_for(alloc, rule, cfa)?;
    merged_all(alloc, rule, &numbers, cfa.cells.as_slice(), new, old)
}

/// Whether the old element stays: it covers the new one, so that nothing grows.
fn is_kept(rule: MergeRule, new: &Elem, old: &Elem) -> bool
    ensures { result ≡ is_kept rule new.now old.now }
{
    match rule {
        MergeRule::Sep => true,
        MergeRule::Join | MergeRule::Widen => covers(new, old),
    }
}

/// The numbers at which the rule stops.
fn numbers_for(alloc: Global, rule: MergeRule, cfa: &Cfa) -> Result<Vec<i128>, AllocError>
    ensures { IfOk result (λ numbers. numbers.items ≡ numbers_for rule cfa.now) }
{
    match rule {
        MergeRule::Sep | MergeRule::Join => Ok(Vec::new(alloc)),
        MergeRule::Widen => near_numbers(alloc, cfa),
    }
}

/// The element of the merged bounds.
fn merged_all(
    alloc: Global,
    rule: MergeRule,
    numbers: &[i128],
    cells: &[Cell],
    new: &Elem,
    old: &Elem,
) -> Result<Elem, AllocError>
    requires { length cells.now < 2 ^ 32 }
    ensures { IfOk result (λ e. e ≡ merged_all rule numbers.now cells.now new.now old.now) }
{
    let olds = cell_bounds(alloc, cells, &old.facts)?;
    let news = cell_bounds(alloc, cells, &new.facts)?;
    let both = merged_along(alloc, rule, numbers, &olds, &news)?;
    let elem = elem_of_all(alloc, &both)?;
    Ok(elem)
}

/// The merged bounds of each cell. Those of which the elements say nothing keep all numbers of
/// their types.
fn merged_along<'a>(
    alloc: Global,
    rule: MergeRule,
    numbers: &[i128],
    olds: &KnownBounds<'a>,
    news: &KnownBounds,
) -> Result<KnownBounds<'a>, AllocError>
    requires { news.now.cells ≡ olds.now.cells }
    ensures cells { IfOk result (λ all. all.cells ≡ olds.now.cells) }
    ensures each { IfOk result (λ all. all.each
        ≡ merged_along rule numbers.now olds.now.cells olds.now.each news.now.each) }
{
    let mut all = KnownBounds::of_types(alloc, olds.cells());
    merge_each(&mut all, rule, numbers, olds, news, news.known())?;
    merge_each(&mut all, rule, numbers, olds, news, olds.known())?;
    Ok(all)
}

/// Merges the bounds of these cells.
fn merge_each(
    all: &mut KnownBounds,
    rule: MergeRule,
    numbers: &[i128],
    olds: &KnownBounds,
    news: &KnownBounds,
    known: &[CellBounds],
) -> Result<(), AllocError>
    ensures cells { all.new.cells ≡ all.old.cells }
    ensures each { (left : ℕ → Bool) → IsRightBut (λ c. is_listed c known.now || left c)
        (merged_along rule numbers.now all.old.cells olds.now.each news.now.each) all.old.each
        → OnOk result (IsRightBut left
        (merged_along rule numbers.now all.old.cells olds.now.each news.now.each) all.new.each) }
{
    for (near, it) in known.iter().enumerate() {
        merge_at(all, rule, numbers, olds, news, it, near)?;
    }
    Ok(())
}

/// Merges the bounds of a cell, where it is there. Lists in one order have it near one place.
fn merge_at(
    all: &mut KnownBounds,
    rule: MergeRule,
    numbers: &[i128],
    olds: &KnownBounds,
    news: &KnownBounds,
    it: &CellBounds,
    near: usize,
) -> Result<(), AllocError>
    ensures cells { all.new.cells ≡ all.old.cells }
    ensures each { OnOk result (all.new.each ≡ put_where it.now.cell (merged_at rule numbers.now
        (slice_get all.old.cells it.now.cell) (slice_get olds.now.each it.now.cell)
        (slice_get news.now.each it.now.cell)) all.old.each) }
{
    let cell = it.cell;
    match merged_at(
        rule,
        numbers,
        all.cells(),
        cell,
        olds.at_near(cell, near),
        news.at_near(cell, near),
    ) {
        Some(own) => all.put_near(cell, near, own),
        None => Ok(()),
    }
}

/// The merged bounds of a cell, where it is there.
fn merged_at(
    rule: MergeRule,
    numbers: &[i128],
    cells: &[Cell],
    cell: usize,
    old: Option<Bounds>,
    new: Option<Bounds>,
) -> Option<Bounds>
    ensures { result ≡ merged_at rule numbers.now (slice_get cells.now cell) old new }
{
    match (cells.get(cell), old, new) {
        (Some(it), Some(old), Some(new)) => Some(merged_bounds(rule, numbers, it.ty, old, new)),
        _ => None,
    }
}

/// The merged bounds of a cell of this type.
fn merged_bounds(rule: MergeRule, numbers: &[i128], ty: IntType, old: Bounds, new: Bounds) -> Bounds
    ensures { result ≡ merged_bounds rule numbers.now ty old new }
{
    match rule {
        MergeRule::Sep => old,
        MergeRule::Join => old.hull(new),
        MergeRule::Widen => widened(numbers, ty, old, new),
    }
}
