//! Expressions for the cuts of a path, made from its last edge back to its first. After each cut
//! some small expressions are wanted; before its edge as few are chosen as make them nonzero after
//! it, of those that hold behind all runs up to there: the path's own tests, then what is wanted
//! carried over the edge (carrying.rt), then bounds of cells and comparisons of two (bounds.rt).
//! Nothing is promised of them: whether they are interpolants is found out of each edge by itself
//! (checking.rt).

ghost use Rattle.std.specs.Prelude.{◌<◌, length};
ghost use Rattle.std.specs.List.{AllByRecursion};
ghost use Rattle.cpa_model.specs.Automata.{IsAutomaton};

use crate::asking::Limits;
use crate::atoms::{Gathered, gathered_along};
use crate::bounds::{bounds, relations};
use crate::carrying::carried;
use crate::checking::is_zero;
use crate::holding::{Known, behind, holding};
use crate::nodes::{conjunction, push_new};
use crate::reading::{cell_count, cover, needs, reads_only, reads_written};
use crate::selecting::{are_enough, fewest};
use crate::slicing::sliced;
use cpa_expr::{Expr, constant, copied, size};
use cpa_ints::{Boxed, IntType};
use cpa_model::{Act, Cfa};
use std::alloc::{AllocError, Global};

/// The most nodes of an expression that is carried over an edge.
const MAX_SIZE: u64 = 300;

/// The most nodes of one that is preferred to bounds.
const SMALL_SIZE: u64 = 8;

/// The most cells that bounds are looked for.
const MAX_BOUNDED: usize = 6;

/// The list of the one expression.
fn alone(alloc: Global, e: Boxed<Expr>) -> Result<Option<Vec<Expr>>, AllocError> {
    let mut list = Vec::new(alloc);
    list.push(e.into_inner())?;
    Ok(Some(list))
}

/// Whether the act is a test, or writes a cell that the expression may read.
fn may_change(cfa: &Cfa, act: &Act, e: &Expr) -> bool
    requires automaton { IsAutomaton cfa.now }
{
    match act {
        Act::Assume { .. } => true,
        _ => reads_written(cfa, act, e),
    }
}

/// Whether the act tests, or copies a cell or a number.
fn is_plain(act: &Act, e: &Expr) -> bool {
    match act {
        Act::Assume { .. } => is_zero(e),
        Act::Assign { value, .. } => size(value) <= 3,
        Act::Skip | Act::Input { .. } | Act::Call { .. } | Act::Return { .. } => false,
    }
}

/// The cells that the expression or the act reads.
fn needed_cells(alloc: Global, cfa: &Cfa, act: &Act, e: &Expr) -> Result<Vec<u32>, AllocError>
    requires automaton { IsAutomaton cfa.now }
{
    let mut cells = Vec::new(alloc);
    for cell in 0..cell_count(cfa) {
        if needs(act, e, cell) {
            cells.push(cell)?;
        }
    }
    Ok(cells)
}

/// Copies of those that read no other cells than these.
fn over(alloc: Global, cfa: &Cfa, es: &[Expr], cells: &[u32]) -> Result<Vec<Expr>, AllocError>
    requires automaton { IsAutomaton cfa.now }
{
    let mut own = Vec::new(alloc);
    for e in es {
        if reads_only(cfa, e, cells) {
            let e = copied(alloc, e)?;
            own.push(e.into_inner())?;
        }
    }
    Ok(own)
}

/// The values of the cells behind some run along the edges, or none where no run is found.
fn values_behind(
    alloc: Global,
    cfa: &Cfa,
    edges: &[u32],
    limits: Limits,
) -> Result<Vec<i128>, AllocError>
    requires automaton { IsAutomaton cfa.now }
    requires path { AllByRecursion (λ edge. edge < length cfa.now.edges) edges.now }
{
    let zero = constant(alloc, IntType::I32, 0)?;
    let known = behind(alloc, cfa, edges, zero.get(), limits)?;
    match known {
        Known::Unless(store) => Ok(store.values.into_vec()),
        Known::Always | Known::Open => Ok(Vec::new(alloc)),
    }
}

/// As few of these as are enough before the edge, of those that hold behind all runs up to it.
fn by_tests(
    alloc: Global,
    cfa: &Cfa,
    before: &[u32],
    edge: u32,
    tests: Vec<Expr>,
    e: &Expr,
    limits: Limits,
) -> Result<Option<Vec<Expr>>, AllocError>
    requires automaton { IsAutomaton cfa.now }
    requires path { AllByRecursion (λ edge. edge < length cfa.now.edges) before.now }
    requires edge { edge < length cfa.now.edges }
{
    if tests.is_empty() {
        return Ok(None);
    }
    let known = holding(alloc, cfa, before, tests, limits)?;
    if known.is_empty() {
        return Ok(None);
    }
    let found = fewest(alloc, cfa, &known, edge, e, limits)?;
    match found {
        Some(few) => Ok(covering(cfa, edge, few, e)),
        None => Ok(None),
    }
}

/// The expressions, where they speak of each cell that this one reads after the edge, or the edge
/// does.
fn covering(cfa: &Cfa, edge: u32, few: Vec<Expr>, e: &Expr) -> Option<Vec<Expr>>
    requires automaton { IsAutomaton cfa.now }
    requires edge { edge < length cfa.now.edges }
{
    if cover(cfa, &few, &cfa.edge(edge).act, e) {
        Some(few)
    } else {
        None
    }
}

/// As few as are enough before the edge of the tests, of bounds and of comparisons of two cells.
fn by_bounds(
    alloc: Global,
    cfa: &Cfa,
    before: &[u32],
    edge: u32,
    gathered: &Gathered,
    e: &Expr,
    limits: Limits,
) -> Result<Option<Vec<Expr>>, AllocError>
    requires automaton { IsAutomaton cfa.now }
    requires path { AllByRecursion (λ edge. edge < length cfa.now.edges) before.now }
    requires edge { edge < length cfa.now.edges }
{
    let act = &cfa.edge(edge).act;
    let cells = needed_cells(alloc, cfa, act, e)?;
    if MAX_BOUNDED < cells.len() {
        return Ok(None);
    }
    let mut offered = over(alloc, cfa, &gathered.tests, &cells)?;
    let values = values_behind(alloc, cfa, before, limits)?;
    let mut found = bounds(alloc, cfa, &cells, &gathered.numbers, &values)?;
    offered.append(&mut found)?;
    let mut found = relations(alloc, cfa, &cells)?;
    offered.append(&mut found)?;
    by_tests(alloc, cfa, before, edge, offered, e, limits)
}

/// Expressions that are enough before the edge for this one to be nonzero after it, where these
/// edges come before it; or None where none are known of. The edge does not do by itself.
fn chosen(
    alloc: Global,
    cfa: &Cfa,
    before: &[u32],
    edge: u32,
    gathered: &Gathered,
    e: &Expr,
    limits: Limits,
) -> Result<Option<Vec<Expr>>, AllocError>
    requires automaton { IsAutomaton cfa.now }
    requires path { AllByRecursion (λ edge. edge < length cfa.now.edges) before.now }
    requires edge { edge < length cfa.now.edges }
{
    let act = &cfa.edge(edge).act;
    let carried = carried(alloc, act, e)?;
    let small = carried_size(&carried);
    if is_plain(act, e) && small <= MAX_SIZE {
        return only(alloc, carried);
    }
    let cells = needed_cells(alloc, cfa, act, e)?;
    let tests = over(alloc, cfa, &gathered.tests, &cells)?;
    let found = by_tests(alloc, cfa, before, edge, tests, e, limits)?;
    if found.is_some() {
        return Ok(found);
    }
    if small <= SMALL_SIZE {
        return only(alloc, carried);
    }
    let found = by_bounds(alloc, cfa, before, edge, gathered, e, limits)?;
    if found.is_some() || MAX_SIZE < small {
        return Ok(found);
    }
    only(alloc, carried)
}

/// How many nodes what is carried has, or the greatest `u64`.
fn carried_size(carried: &Option<Boxed<Expr>>) -> u64 {
    match carried {
        Some(e) => size(e.get()),
        None => u64::MAX,
    }
}

/// The list of what is carried.
fn only(alloc: Global, carried: Option<Boxed<Expr>>) -> Result<Option<Vec<Expr>>, AllocError> {
    match carried {
        Some(e) => alone(alloc, e),
        None => Ok(None),
    }
}

/// Expressions that are enough before the edge for this one to be nonzero after it, where these
/// edges come before it; or None where none are known of.
fn needed(
    alloc: Global,
    cfa: &Cfa,
    before: &[u32],
    edge: u32,
    gathered: &Gathered,
    e: &Expr,
    limits: Limits,
) -> Result<Option<Vec<Expr>>, AllocError>
    requires automaton { IsAutomaton cfa.now }
    requires path { AllByRecursion (λ edge. edge < length cfa.now.edges) before.now }
    requires edge { edge < length cfa.now.edges }
{
    let act = &cfa.edge(edge).act;
    if !may_change(cfa, act, e) {
        return alone(alloc, copied(alloc, e)?);
    }
    let made = are_enough(alloc, cfa, &[], edge, e, limits)?;
    if made && cover(cfa, &[], act, e) {
        return Ok(Some(Vec::new(alloc)));
    }
    let cells = needed_cells(alloc, cfa, act, e)?;
    let sliced = sliced(alloc, cfa, before, &cells)?;
    let related = if is_zero(e) { before } else { &sliced };
    let stays = stays(alloc, cfa, related, act, e, limits)?;
    if stays {
        return alone(alloc, copied(alloc, e)?);
    }
    chosen(alloc, cfa, related, edge, gathered, e, limits)
}

/// Whether the act is a test, and the expression is found to hold behind all runs before it.
fn stays(
    alloc: Global,
    cfa: &Cfa,
    before: &[u32],
    act: &Act,
    e: &Expr,
    limits: Limits,
) -> Result<bool, AllocError>
    requires automaton { IsAutomaton cfa.now }
    requires path { AllByRecursion (λ edge. edge < length cfa.now.edges) before.now }
{
    match act {
        Act::Assume { .. } => match behind(alloc, cfa, before, e, limits)? {
            Known::Always => Ok(true),
            Known::Unless(_) | Known::Open => Ok(false),
        },
        _ => Ok(false),
    }
}

/// Adds those that are not there.
fn push_all_new(alloc: Global, all: &mut Vec<Expr>, es: &[Expr]) -> Result<(), AllocError> {
    for e in es {
        push_new(alloc, all, copied(alloc, e)?)?;
    }
    Ok(())
}

/// What is needed before the edge for all expressions to be nonzero behind it, or None where
/// something is not known of.
fn all_needed(
    alloc: Global,
    cfa: &Cfa,
    before: &[u32],
    edge: u32,
    gathered: &Gathered,
    es: &[Expr],
    limits: Limits,
) -> Result<Option<Vec<Expr>>, AllocError>
    requires automaton { IsAutomaton cfa.now }
    requires path { AllByRecursion (λ edge. edge < length cfa.now.edges) before.now }
    requires edge { edge < length cfa.now.edges }
{
    let mut all = Vec::new(alloc);
    for e in es {
        let needed = needed(alloc, cfa, before, edge, gathered, e, limits)?;
        match needed {
            None => return Ok(None),
            Some(own) => push_all_new(alloc, &mut all, &own)?,
        }
    }
    Ok(Some(all))
}

/// The expression of a cut: the int 1 before the first edge.
fn at_cut(alloc: Global, place: usize, wanted: &[Expr]) -> Result<Boxed<Expr>, AllocError> {
    if place == 0 {
        return constant(alloc, IntType::I32, 1);
    }
    conjunction(alloc, wanted)
}

/// The list of the int 0.
fn zeros(alloc: Global) -> Result<Vec<Expr>, AllocError> {
    let mut list = Vec::new(alloc);
    let zero = constant(alloc, IntType::I32, 0)?;
    list.push(zero.into_inner())?;
    Ok(list)
}

/// An expression for each cut, the first of them 1 and the last 0, or None where none is known of.
pub(crate) fn choose(
    alloc: Global,
    cfa: &Cfa,
    edges: &[u32],
    limits: Limits,
) -> Result<Option<Vec<Expr>>, AllocError>
    requires automaton { IsAutomaton cfa.now }
    requires path { AllByRecursion (λ edge. edge < length cfa.now.edges) edges.now }
{
    let gathered = gathered_along(alloc, cfa, edges)?;
    let mut wanted = zeros(alloc)?;
    let mut exprs = zeros(alloc)?;
    let mut place = edges.len();
    while 0 < place {
        place -= 1;
        let before = &edges[..place];
        let found = all_needed(alloc, cfa, before, edges[place], &gathered, &wanted, limits)?;
        match found {
            None => return Ok(None),
            Some(all) => wanted = all,
        }
        let expr = at_cut(alloc, place, &wanted)?;
        exprs.push(expr.into_inner())?;
    }
    exprs.reverse();
    Ok(Some(exprs))
}
