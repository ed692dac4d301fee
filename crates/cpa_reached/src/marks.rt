//! Marks of rows, by which entries are passed over without a look at their elements. What a mark
//! tells stands in `specs/Marks.antt`; proved with `proofs/Marking.antt` and `proofs/Runs.antt`.

ghost use Rattle.std.specs.Prelude.{◌≡◌, ◌+◌, ◌<◌, ◌^◌, List, Some, length, is_some, IfSome, IfOk};
ghost use Rattle.std.specs.Prelude.{IsTrue};
ghost use Rattle.std.specs.List.{AllByRecursion};
ghost use Rattle.cpa_model.specs.declared.states.State.{State};
ghost use Rattle.cpa_model.specs.Facts.{FactHolds};
ghost use Rattle.cpa_facts.specs.declared.fact.Fact.{Fact as AFact};
ghost use Rattle.cpa_facts.specs.Blocks.{joined};
ghost use Rattle.cpa_facts.specs.Runs.{run_of};
ghost use Rattle.cpa_reached.specs.Marks.{is_above, past, past_all, Counts, Tells, IsMarkOf};
ghost use Rattle.cpa_reached.specs.Marks.{Differ, DiffersAt};
ghost use Rattle.cpa_reached.specs.Passed.{LeavesOut};

use cpa_model::{Block, Elem, Fact, Facts, Pieces, Run, mixed};
use std::alloc::{AllocError, Global};

/// How many prints there are.
const PRINTS: u64 = 0x1_0000_0000;

/// Behind so many cells a mark begins anew.
const LONGEST: u32 = 0x1_0000;

/// The values that an element gives to the cells of a run, told by a number.
#[derive(Clone, Copy)]
pub struct Mark {
    /// The place of the element in its row.
    pub place: u32,
    /// The first cell of the run.
    pub first: u32,
    /// How many cells it has. None, where nothing is told.
    pub count: u32,
    /// What is made of their values.
    pub print: u32,
}

/// A mark that tells nothing.
fn blank(place: u32, first: u32) -> Mark
    ensures place { result.place ≡ place }
    ensures counts { (s : State) → Counts s result }
    ensures none { result.count ≡ 0 }
    ensures next { result.first + result.count ≡ first }
{
    Mark {
        place,
        first,
        count: 0,
        print: 0,
    }
}

/// The run that goes on at this cell: the one so far, or a new one.
fn run_at(mark: Mark, cell: u32) -> Mark
    ensures place { result.place ≡ mark.place }
    ensures counts { (s : State) → Counts s mark → Counts s result }
    ensures next { result.first + result.count ≡ cell }
    ensures room { result.count < 2 ^ 16 }
{
    let end = mark.first as u64 + mark.count as u64;
    if end == cell as u64 && mark.count < LONGEST {
        return mark;
    }
    blank(mark.place, cell)
}

/// What the facts tell with one more.
fn followed(mark: Mark, fact: &Fact) -> Mark
    ensures place { result.place ≡ mark.place }
    ensures counts { (s : State) → FactHolds s fact.now → Counts s mark → Counts s result }
{
    match fact {
        Fact::Equals { cell, value } => {
            let run = run_at(mark, *cell);
            Mark {
                place: run.place,
                first: run.first,
                count: run.count + 1,
                print: mixed(run.print, *value),
            }
        }
        _ => blank(mark.place, 0),
    }
}

/// What the facts tell with one after the other of these.
fn followed_by_each(mark: Mark, facts: &[Fact]) -> Mark
    ensures place { result.place ≡ mark.place }
    ensures counts { (s : State) → AllByRecursion (FactHolds s) facts.now → Counts s mark
        → Counts s result }
{
    let mut told = mark;
    for fact in facts {
        told = followed(told, fact);
    }
    told
}

/// What the facts tell with a run of them more, of which no fact is looked at.
fn followed_by_run(mark: Mark, run: Run) -> Mark
    ensures place { result.place ≡ mark.place }
    ensures counts { (s : State) (facts : List AFact) → run_of facts ≡ Some run
        → AllByRecursion (FactHolds s) facts → Counts s mark → Counts s result }
{
    let own = run_at(mark, run.first);
    match own.count.checked_add(run.count) {
        Some(count) => Mark {
            place: own.place,
            first: own.first,
            count,
            print: ((own.print as u64 * run.factor as u64 + run.print as u64) % PRINTS) as u32,
        },
        None => blank(mark.place, 0),
    }
}

/// What the facts tell with those of a block.
fn followed_by_block(mark: Mark, block: &Block) -> Mark
    ensures place { result.place ≡ mark.place }
    ensures counts { (s : State) → AllByRecursion (FactHolds s) block.now → Counts s mark
        → Counts s result }
{
    match block.run() {
        Some(run) => followed_by_run(mark, run),
        None => followed_by_each(mark, block.facts()),
    }
}

/// What the facts tell with those of these blocks. A block that is a run takes one step.
fn followed_by_blocks(mark: Mark, blocks: &[Block]) -> Mark
    ensures place { result.place ≡ mark.place }
    ensures counts { (s : State) → AllByRecursion (FactHolds s) (joined blocks.now)
        → Counts s mark → Counts s result }
{
    let mut told = mark;
    for block in blocks {
        told = followed_by_block(told, block);
    }
    told
}

/// The mark of the facts of the element at a place.
fn marked(place: u32, facts: &Facts) -> Mark
    ensures place { result.place ≡ place }
    ensures counts { (s : State) → AllByRecursion (FactHolds s) facts.now → Counts s result }
{
    let mark = blank(place, 0);
    match facts.pieces() {
        Pieces::Slice(facts) => followed_by_each(mark, facts),
        Pieces::Blocks(blocks) => followed_by_blocks(mark, blocks),
    }
}

/// The mark of the element at this place where it tells anything, else the one before.
fn later(mark: Mark, elems: &[Elem], place: usize) -> Mark
    requires { place < length elems.now }
    ensures { Tells mark elems.now → Tells result elems.now }
{
    if place > u32::MAX as usize {
        return mark;
    }
    let other = marked(place as u32, &elems[place].facts);
    if other.count > 0 { other } else { mark }
}

/// The mark of a row: that of its last element whose last fact is the value of a cell.
pub(crate) fn mark_of(elems: &[Elem]) -> Mark
    ensures { Tells result elems.now }
{
    let mut mark = blank(0, 0);
    for place in 0..elems.len() {
        mark = later(mark, elems, place);
    }
    mark
}

/// Whether the fact is the value of a cell, and not of one below.
fn is_above(least: u64, fact: &Fact) -> bool
    ensures { result ≡ is_above least fact.now }
{
    match fact {
        Fact::Equals { cell, .. } => !((*cell as u64) < least),
        _ => false,
    }
}

/// The least cell that may follow the fact.
fn past(fact: &Fact) -> u64
    ensures { result ≡ past fact.now }
{
    match fact {
        Fact::Equals { cell, .. } => *cell as u64 + 1,
        _ => 0,
    }
}

/// The least cell that may follow these facts, where they are values of ascending cells from the
/// least one on.
fn past_each(least: u64, facts: &[Fact]) -> Option<u64>
    ensures { result ≡ past_all least facts.now }
{
    let mut next = least;
    for fact in facts {
        if !is_above(next, fact) {
            return None;
        }
        next = past(fact);
    }
    Some(next)
}

/// The same of a run of facts.
fn past_run(least: u64, run: Run) -> Option<u64>
    ensures { (facts : List AFact) → run_of facts ≡ Some run → result ≡ past_all least facts }
{
    if (run.first as u64) < least {
        None
    } else {
        Some(run.first as u64 + run.count as u64)
    }
}

/// The same of the facts of a block.
fn past_block(least: u64, block: &Block) -> Option<u64>
    ensures { result ≡ past_all least block.now }
{
    match block.run() {
        Some(run) => past_run(least, run),
        None => past_each(least, block.facts()),
    }
}

/// The same of the facts of these blocks. A block that is a run takes one step.
fn past_blocks(least: u64, blocks: &[Block]) -> Option<u64>
    ensures { result ≡ past_all least (joined blocks.now) }
{
    let mut next = least;
    for block in blocks {
        next = past_block(next, block)?;
    }
    Some(next)
}

/// Whether the facts are values of ascending cells, so that there is a state of which they hold.
fn ascend(facts: &Facts) -> bool
    ensures { result ≡ is_some (past_all 0 facts.now) }
{
    let behind = match facts.pieces() {
        Pieces::Slice(facts) => past_each(0, facts),
        Pieces::Blocks(blocks) => past_blocks(0, blocks),
    };
    behind.is_some()
}

/// The mark of a row, where the element that it is of holds of some state. Takes no memory.
pub fn watch(elems: &[Elem]) -> Option<Mark>
    ensures { IfSome result (λ mark. IsMarkOf mark elems.now) }
{
    let mark = mark_of(elems);
    if mark.count == 0 {
        return None;
    }
    match elems.get(mark.place as usize) {
        Some(elem) => {
            if ascend(&elem.facts) {
                Some(mark)
            } else {
                None
            }
        }
        None => None,
    }
}

/// Whether the marks are of the same place and run, and of other values.
fn differ(mark: Mark, kept: Mark) -> bool
    ensures { IsTrue result → Differ mark kept }
{
    kept.print != mark.print
        && kept.first == mark.first
        && kept.count == mark.count
        && kept.place == mark.place
}

/// Whether such a mark stands at the number.
fn differs_at(mark: Mark, marks: &[Mark], number: u32) -> bool
    ensures { IsTrue result → DiffersAt mark marks.now number }
{
    match marks.get(number as usize) {
        Some(kept) => differ(mark, *kept),
        None => false,
    }
}

/// These numbers but those at which a mark stands that differs.
pub(crate) fn left(
    alloc: Global,
    mark: Mark,
    marks: &[Mark],
    numbers: &[u32],
) -> Result<Vec<u32>, AllocError>
    ensures { IfOk result (λ left.
        LeavesOut (DiffersAt mark marks.now) numbers.now left.items) }
{
    let mut left = Vec::new(alloc);
    for number in numbers {
        if !differs_at(mark, marks, *number) {
            left.push(*number)?;
        }
    }
    Ok(left)
}
