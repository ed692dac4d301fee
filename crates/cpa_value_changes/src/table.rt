//! The known values of cells as the facts that say them, by `specs/Tables.antt`: a value is found
//! by halving. Proved with `proofs/TableLemmas.antt` and `proofs/OrderLemmas.antt`.

ghost use Rattle.std.specs.Prelude.{◌≡◌, ℕ, true, List, Some, None};
ghost use Rattle.std.specs.List.{slice_index_or};
ghost use Rattle.std.specs.Option.{option_copied};
ghost use Rattle.cpa_facts.specs.declared.fact.Fact.{Fact as AFact};
ghost use Rattle.cpa_facts.specs.Blocks.{joined};
ghost use Rattle.cpa_facts.specs.Runs.{run_of};
ghost use Rattle.cpa_value_changes.specs.Cells.{known_cells};
ghost use Rattle.cpa_value_changes.specs.Tables.{are_ordered, end_in, is_before, place_in};
ghost use Rattle.cpa_value_changes.specs.Tables.{own_value};

use cpa_model::{Block, Fact, Facts, Pieces, Run};
use std::marker::Model;

/// Facts that say values of some of the first cells, in the order of the cells. Contracts see a
/// value for each cell, where it is known.
#[derive(Drop)]
pub struct KnownCells<'a> {
    facts: &'a Facts,
    count: usize,
}

impl<'a> Model for KnownCells<'a> {
    ghost use Rattle.std.specs.Prelude.{◌≡◌, ℤ, List, Option, true};
    ghost use Rattle.cpa_value_changes.specs.Cells.{known_cells};
    ghost use Rattle.cpa_value_changes.specs.Tables.{are_ordered};

    ghost Value = { List (Option ℤ) };

    ghost view = { λ k. known_cells k.count k.facts.now };

    ghost invariant = { λ k. are_ordered k.count 0 k.facts.now ≡ true };
}

impl<'a> KnownCells<'a> {
    /// What the facts say of the first `count` cells.
    pub fn new(facts: &'a Facts, count: usize) -> KnownCells<'a>
        requires { are_ordered count 0 facts.now ≡ true }
        ensures { result ≡ known_cells count facts.now }
    {
        KnownCells { facts, count }
    }

    /// The value of the cell, where it is known.
    pub fn value_at(&self, cell: usize) -> Option<i128>
        ensures { result ≡ slice_index_or self.now cell None }
    {
        value_among(self.facts, self.count, cell)
    }
}

/// Whether each fact says a value of one of the first `count` cells, in the order of the cells, and
/// no two of one cell. It takes time in the blocks of the facts, where these are runs.
pub fn are_ordered(facts: &Facts, count: usize) -> bool
    ensures { result ≡ are_ordered count 0 facts.now }
{
    match facts.pieces() {
        Pieces::Slice(facts) => end_of_facts(facts, 0, count).is_some(),
        Pieces::Blocks(blocks) => are_blocks_ordered(blocks, count),
    }
}

/// The same of the facts of these blocks.
fn are_blocks_ordered(blocks: &[Block], count: usize) -> bool
    ensures { result ≡ are_ordered count 0 (joined blocks.now) }
{
    let mut low = 0;
    for block in blocks {
        match end_of(block, low, count) {
            Some(end) => low = end,
            None => return false,
        }
    }
    true
}

/// The least cell that may follow the block, where its facts are in order from `low` on.
fn end_of(block: &Block, low: usize, count: usize) -> Option<usize>
    ensures { result ≡ end_in count low block.now }
{
    match block.run() {
        Some(run) => end_of_run(run, low, count),
        None => end_of_facts(block.facts(), low, count),
    }
}

/// The same of the facts of a run.
fn end_of_run(run: Run, low: usize, count: usize) -> Option<usize>
    ensures { (facts : List AFact) → run_of facts ≡ Some run → result ≡ end_in count low facts }
{
    let first = run.first as usize;
    let end = first + run.count as usize;
    if low <= first && end <= count {
        Some(end)
    } else {
        None
    }
}

/// The same of facts one after the other.
fn end_of_facts(facts: &[Fact], low: usize, count: usize) -> Option<usize>
    ensures { result ≡ end_in count low facts.now }
{
    let mut end = low;
    for fact in facts {
        match fact {
            Fact::Equals { cell, .. } => {
                let cell = *cell as usize;
                if cell < end || count <= cell {
                    return None;
                }
                end = cell + 1;
            }
            _ => return None,
        }
    }
    Some(end)
}

/// How many facts stand before those of the cell and of later ones, where they are ordered. It is
/// found by halving.
pub fn place_of(facts: &Facts, cell: usize) -> usize
    ensures { (n : ℕ) → are_ordered n 0 facts.now ≡ true → result ≡ place_in cell facts.now }
{
    let mut low = 0;
    let mut high = facts.len();
    while low < high {
        let middle = low + (high - low) / 2;
        if is_before(facts.get(middle), cell) {
            low = middle + 1;
        } else {
            high = middle;
        }
    }
    low
}

/// Whether the fact says a value of an earlier cell.
fn is_before(fact: Option<&Fact>, cell: usize) -> bool
    ensures { result ≡ is_before cell (option_copied fact.entry) }
{
    match fact {
        Some(Fact::Equals { cell: own, .. }) => (*own as usize) < cell,
        _ => false,
    }
}

/// The value that the facts say of the cell.
fn value_among(facts: &Facts, _count: usize, cell: usize) -> Option<i128>
    requires { are_ordered _count 0 facts.now ≡ true }
    ensures { result ≡ slice_index_or (known_cells _count facts.now) cell None }
{
    own_value(facts.get(place_of(facts, cell)), cell)
}

/// The value that the fact says of the cell.
fn own_value(fact: Option<&Fact>, cell: usize) -> Option<i128>
    ensures { result ≡ own_value cell (option_copied fact.entry) }
{
    match fact {
        Some(Fact::Equals { cell: own, value }) => {
            if *own as usize == cell {
                Some(*value)
            } else {
                None
            }
        }
        _ => None,
    }
}
