//! What an edge makes of an element, by `specs/Transfer.antt`. Where the facts are in the order of
//! the cells, and all tracked, it takes time in their blocks and in the expressions.
//! Proved with `proofs/ChangeLemmas.antt` and `proofs/PlaceLemmas.antt`.

ghost use Rattle.std.specs.Prelude.{◌≡◌, ◌<◌, ◌≤◌, ◌^◌, ◌+◌, ◌-◌, [], ◌∷◌, ◌++◌, true, length, min};
ghost use Rattle.std.specs.Prelude.{IfOk, OnOk, List};
ghost use Rattle.std.specs.List.{list_all};
ghost use Rattle.cpa_model.specs.Automata.{IsAutomaton};
ghost use Rattle.cpa_facts.specs.declared.fact.Fact.{Fact as AFact};
ghost use Rattle.cpa_facts.specs.Runs.{run_of};
ghost use Rattle.cpa_iface.specs.Meanings.{IsPrecision};
ghost use Rattle.cpa_folds.specs.Tracking.{is_tracked};
ghost use Rattle.cpa_value_changes.specs.Acts.{after_act};
ghost use Rattle.cpa_value_changes.specs.Cells.{known_cells};
ghost use Rattle.cpa_value.specs.Cells.{elem_of};
ghost use Rattle.cpa_value_changes.specs.Tables.{are_ordered, changed};
ghost use Rattle.cpa_value.specs.Tables.{is_within, facts_within};
ghost use Rattle.cpa_value.specs.Tables.{facts_along};
ghost use Rattle.cpa_value.specs.Transfer.{elems_of, next_values};

use crate::cells::{elem_of_known, known_cells, push_fact};
use cpa_iface::Precision;
use cpa_model::{Act, Block, Cfa, Edge, Elem, Fact, Facts, Pieces, Run, Seq, copy_elem, copy_fact};
use cpa_value_changes::{Change, KnownCells, are_ordered, change_by, place_of};
use cpa_value_tracked::Tracked;
use std::alloc::{AllocError, Global};

/// What the edge makes of the element.
pub(crate) fn next_values(
    alloc: Global,
    cfa: &Cfa,
    precision: &Precision,
    elem: &Elem,
    edge: &Edge,
) -> Result<Vec<Elem>, AllocError>
    requires automaton { IsAutomaton cfa.now }
    requires precision { IsPrecision cfa.now precision.now }
    ensures { IfOk result (λ es. es.items ≡ next_values cfa.now precision.now elem.now edge.now) }
{
    let count = cfa.cells.len();
    let tracked = Tracked::of(alloc, precision, count)?;
    after_elem(alloc, &edge.act, elem, count, &tracked)
}

/// The elements of what the act makes of the known values that the element says.
fn after_elem(
    alloc: Global,
    act: &Act,
    elem: &Elem,
    count: usize,
    tracked: &Tracked,
) -> Result<Vec<Elem>, AllocError>
    requires { count < 2 ^ 32 }
    ensures { IfOk result (λ es. es.items ≡ elems_of (is_tracked tracked.now)
        (after_act (is_tracked tracked.now) act.now (known_cells count elem.now.facts))) }
{
    if are_ordered(&elem.facts, count) {
        return after(alloc, act, elem, count, tracked);
    }
    let ordered = in_order(alloc, &elem.facts, count)?;
    let elems = after(alloc, act, &ordered, count, tracked)?;
    Ok(elems)
}

/// The same known values, in the order of the cells.
fn in_order(alloc: Global, facts: &Facts, count: usize) -> Result<Elem, AllocError>
    requires { count < 2 ^ 32 }
    ensures ordered { IfOk result (λ e. are_ordered count 0 e.facts ≡ true) }
    ensures same { IfOk result (λ e. known_cells count e.facts ≡ known_cells count facts.now) }
{
    let cells = known_cells(alloc, facts, count)?;
    elem_of_known(alloc, &cells)
}

/// The same of an element with facts in the order of the cells.
fn after(
    alloc: Global,
    act: &Act,
    elem: &Elem,
    count: usize,
    tracked: &Tracked,
) -> Result<Vec<Elem>, AllocError>
    requires few { count < 2 ^ 32 }
    requires ordered { are_ordered count 0 elem.now.facts ≡ true }
    ensures { IfOk result (λ es. es.items ≡ elems_of (is_tracked tracked.now)
        (after_act (is_tracked tracked.now) act.now (known_cells count elem.now.facts))) }
{
    let mut elems = Vec::new(alloc);
    match change_by(act, &KnownCells::new(&elem.facts, count), tracked) {
        Some(change) => {
            elems.push(elem_behind(alloc, elem, count, change, tracked)?)?;
            Ok(elems)
        }
        None => Ok(elems),
    }
}

/// The element of the tracked cells behind a change. Where all facts are of tracked cells, it
/// shares those of other cells, and is the same one where no cell changes.
fn elem_behind(
    alloc: Global,
    elem: &Elem,
    count: usize,
    change: Change,
    tracked: &Tracked,
) -> Result<Elem, AllocError>
    requires few { count < 2 ^ 32 }
    requires ordered { are_ordered count 0 elem.now.facts ≡ true }
    ensures { IfOk result (λ e. e
        ≡ elem_of (is_tracked tracked.now) (changed change (known_cells count elem.now.facts))) }
{
    if !are_within(&elem.facts, count, tracked) {
        return facts_behind(alloc, &elem.facts, count, change, tracked);
    }
    if change.count == 0 {
        return copy_elem(elem);
    }
    facts_replaced(alloc, &elem.facts, count, change, tracked)
}

/// Whether each fact says a value of a tracked cell. It takes time in the blocks of the facts,
/// where these are runs of cells that stand at their own places in the precision.
fn are_within(facts: &Facts, count: usize, tracked: &Tracked) -> bool
    ensures { result ≡ list_all (is_within (is_tracked tracked.now) 0 count) facts.now }
{
    match facts.pieces() {
        Pieces::Slice(facts) => are_facts_within(facts, count, tracked),
        Pieces::Blocks(blocks) => are_all_within(blocks, count, tracked),
    }
}

/// The same of the facts of blocks.
fn are_all_within(blocks: &[Block], count: usize, tracked: &Tracked) -> bool
    ensures { result
        ≡ list_all (list_all (is_within (is_tracked tracked.now) 0 count)) blocks.now }
{
    blocks
        .iter()
        .all(|block| is_block_within(block, count, tracked))
}

/// The same of the facts of a block.
fn is_block_within(block: &Block, count: usize, tracked: &Tracked) -> bool
    ensures { result ≡ list_all (is_within (is_tracked tracked.now) 0 count) block.now }
{
    if is_run_within(block.run(), count, tracked) {
        return true;
    }
    are_facts_within(block.facts(), count, tracked)
}

/// The same of facts one after the other.
fn are_facts_within(facts: &[Fact], count: usize, tracked: &Tracked) -> bool
    ensures { result ≡ list_all (is_within (is_tracked tracked.now) 0 count) facts.now }
{
    facts.iter().all(|fact| is_within(fact, 0, count, tracked))
}

/// Whether there is a run of cells that are seen to be tracked.
fn is_run_within(run: Option<Run>, count: usize, tracked: &Tracked) -> bool
    ensures { (facts : List AFact) → run_of facts ≡ run → result ≡ true →
        list_all (is_within (is_tracked tracked.now) 0 count) facts ≡ true }
{
    match run {
        Some(run) => {
            let first = run.first as usize;
            let cells = run.count as usize;
            first + cells <= count && tracked.has_run(first, cells)
        }
        None => false,
    }
}

/// The element of the cells behind a change, where all facts are of tracked cells: those of cells
/// that stay are shared.
fn facts_replaced(
    alloc: Global,
    facts: &Facts,
    count: usize,
    change: Change,
    tracked: &Tracked,
) -> Result<Elem, AllocError>
    requires few { count < 2 ^ 32 }
    requires ordered { are_ordered count 0 facts.now ≡ true }
    requires within { list_all (is_within (is_tracked tracked.now) 0 count) facts.now ≡ true }
    ensures { IfOk result (λ e.
        e ≡ elem_of (is_tracked tracked.now) (changed change (known_cells count facts.now))) }
{
    let first = lesser(change.first, count);
    let taken = lesser(change.count, count - first);
    let end = first + taken;
    let mut own = Seq::new(alloc);
    push_along(&mut own, change.value, first, end, tracked)?;
    let from = place_of(facts, first);
    let to = place_of(facts, end);
    Ok(Elem {
        facts: facts.replaced(alloc, from, to, own)?,
    })
}

/// The element of the tracked cells behind a change, made anew.
fn facts_behind(
    alloc: Global,
    facts: &Facts,
    count: usize,
    change: Change,
    tracked: &Tracked,
) -> Result<Elem, AllocError>
    requires few { count < 2 ^ 32 }
    requires ordered { are_ordered count 0 facts.now ≡ true }
    ensures { IfOk result (λ e.
        e ≡ elem_of (is_tracked tracked.now) (changed change (known_cells count facts.now))) }
{
    let first = lesser(change.first, count);
    let taken = lesser(change.count, count - first);
    let end = first + taken;
    let most = facts.len().saturating_add(taken);
    let mut left = Seq::from_vec(Vec::with_capacity(alloc, most)?);
    push_within(alloc, &mut left, facts, 0, first, tracked)?;
    push_along(&mut left, change.value, first, end, tracked)?;
    push_within(alloc, &mut left, facts, end, count, tracked)?;
    Elem::new(alloc, left)
}

/// The lesser of two numbers.
fn lesser(a: usize, b: usize) -> usize
    ensures { result ≡ min a b }
{
    if a < b { a } else { b }
}

/// Adds the facts of the tracked cells from one on and before another.
fn push_within(
    alloc: Global,
    left: &mut Seq<Fact>,
    facts: &Facts,
    from: usize,
    to: usize,
    tracked: &Tracked,
) -> Result<(), AllocError>
    ensures { OnOk result
        (left.new ≡ left.old ++ facts_within (is_tracked tracked.now) from to facts.now) }
{
    for fact in facts {
        if is_within(fact, from, to, tracked) {
            left.push(copy_fact(alloc, fact)?)?;
        }
    }
    Ok(())
}

/// Whether the fact says a value of one of these cells, which is tracked.
fn is_within(fact: &Fact, from: usize, to: usize, tracked: &Tracked) -> bool
    ensures { result ≡ is_within (is_tracked tracked.now) from to fact.now }
{
    match fact {
        Fact::Equals { cell, .. } => {
            from <= *cell as usize && (*cell as usize) < to && tracked.has(*cell)
        }
        _ => false,
    }
}

/// Adds this value, where it is one, for each tracked cell from one on and before another.
fn push_along(
    left: &mut Seq<Fact>,
    value: Option<i128>,
    first: usize,
    end: usize,
    tracked: &Tracked,
) -> Result<(), AllocError>
    requires order { first ≤ end }
    requires few { end < 2 ^ 32 }
    ensures { OnOk result (left.new
        ≡ left.old ++ facts_along (is_tracked tracked.now) (λ _. value) first (end - first)) }
{
    for cell in first..end {
        let number = cell as u32;
        push_fact(left, number, value, tracked.has(number))?;
    }
    Ok(())
}
