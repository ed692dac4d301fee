//! Facts that copies share, which contracts see as a list: `facts_at` of `specs/Places.antt`.
//! Proved with `proofs/BlockLemmas.antt`, `proofs/FillingLemmas.antt` and `proofs/Steps.antt`.
ghost use Rattle.std.specs.Prelude.{◌≡◌, ◌<◌, ◌+◌, ◌↔◌, ◌^◌, [], List, length, IfOk, IsTrue};
ghost use Rattle.std.specs.Prelude.{slice_get, ◌++◌, take, drop};
ghost use Rattle.std.specs.Option.{option_copied};
ghost use Rattle.std.specs.Iterator.{YieldsFirstRef};
ghost use Rattle.std.specs.Iterator.Runs.{EveryRun, ItemsMapTo};
ghost use Rattle.cpa_facts.specs.declared.fact.Fact.{Fact as AFact};
ghost use Rattle.cpa_facts.specs.Blocks.{joined, fact_in, AreFilled};
ghost use Rattle.cpa_facts.specs.Places.{facts_in, AreKept};

use crate::block::{BLOCK, Block};
use crate::fact::Fact;
use crate::filling::Filling;
use crate::iter::Iter;
use crate::pieces::Pieces;
use crate::place::Place;
use crate::shared::Shared;
use cpa_ints::Seq;
use std::alloc::{AllocError, Global};
use std::marker::Model;

/// Facts that copies share, so that a copy takes no memory, in any thread, and a list of many that
/// differs in a few shares the blocks of the others. Contracts see the list.
#[derive(Drop)]
pub struct Facts {
    place: Place,
}

impl Model for Facts {
    ghost use Rattle.std.specs.Prelude.{List};
    ghost use Rattle.std.specs.Coded.{coded_list};
    ghost use Rattle.cpa_facts.specs.declared.fact.Fact.{Fact};
    ghost use Rattle.cpa_facts.specs.contracts.fact.Fact as e;
    ghost use Rattle.cpa_facts.specs.Places.{facts_at, AreCounted};

    ghost Value = { List Fact };

    ghost coded = { coded_list e.the_row.coded };

    ghost view = { λ f. facts_at f.place };

    ghost invariant = { λ f. AreCounted f.place };
}

impl Facts {
    /// No facts. They take no memory.
    pub fn new() -> Facts
        ensures { result ≡ [] }
    {
        Facts {
            place: Place::Few(Shared::new()),
        }
    }

    /// These facts, in order. None take no memory.
    pub fn from_seq(alloc: Global, items: Seq<Fact>) -> Result<Facts, AllocError>
        ensures { IfOk result (λ f. f ≡ items) }
    {
        if items.len() <= BLOCK {
            return Ok(Facts {
                place: Place::of_few(alloc, items)?,
            });
        }
        let mut filling = Filling::new(alloc, items.len().div_ceil(BLOCK), BLOCK)?;
        filling.push_all(alloc, items)?;
        filled(alloc, filling)
    }

    /// The facts with others in place of those from one place on and before another. Of many facts
    /// the blocks before these are shared; so are those behind, where as many facts come as go.
    pub fn replaced(
        &self,
        alloc: Global,
        from: usize,
        to: usize,
        items: Seq<Fact>,
    ) -> Result<Facts, AllocError>
        ensures { IfOk result (λ f. f ≡ take from self.now ++ items ++ drop to self.now) }
    {
        match self.pieces() {
            Pieces::Slice(facts) => replaced_in_slice(alloc, facts, from, to, items),
            Pieces::Blocks(blocks) => replaced_in_blocks(alloc, blocks, from, to, items),
        }
    }

    /// How many facts there are.
    pub fn len(&self) -> usize
        ensures { result ≡ length self.now }
    {
        match self.pieces() {
            Pieces::Slice(facts) => facts.len(),
            Pieces::Blocks(blocks) => count_of(blocks),
        }
    }

    /// Whether there is no fact.
    pub fn is_empty(&self) -> bool
        ensures { IsTrue result ↔ (self.now ≡ []) }
    {
        self.len() == 0
    }

    /// The fact at a place, counted from 0.
    pub fn get(&self, place: usize) -> Option<&Fact>
        ensures { option_copied result ≡ slice_get self.now place }
    {
        match self.pieces() {
            Pieces::Slice(facts) => facts.get(place),
            Pieces::Blocks(blocks) => fact_among(blocks, place),
        }
    }

    /// The pieces in which the facts stand, in order.
    pub fn pieces(&self) -> Pieces<'_>
        ensures facts { facts_in result ≡ self.now }
        ensures kept { AreKept result }
    {
        self.place.pieces()
    }

    /// The facts, one after the other.
    pub fn iter(&self) -> Iter<'_>
        ensures rest { result ≡ self.now }
        ensures bound { length result < 2 ^ 64 }
        ensures runs { EveryRun (YieldsFirstRef (λ (left : List AFact). left))
            (λ p. ItemsMapTo p (λ x. x.now) p.from) }
    {
        // Each caller's loop needs that the facts can be counted.
        let _count = self.len();
        Iter::new(self.pieces())
    }

    /// The same facts once more. It takes no memory, and fails only where so many share them that
    /// they can't be counted.
    pub fn share(&self) -> Result<Facts, AllocError>
        ensures { IfOk result (λ f. f ≡ self.now) }
    {
        Ok(Facts {
            place: self.place.share()?,
        })
    }
}

impl<'a> IntoIterator for &'a Facts {
    type Item = &'a Fact;

    type IntoIter = Iter<'a>;

    ghost into_iter_gives = { λ f it. (it ≡ f.now) × (length it < 2 ^ 64)
        × EveryRun (YieldsFirstRef (λ (left : List AFact). left))
        (λ p. ItemsMapTo p (λ x. x.now) p.from) };

    fn into_iter(self) -> Iter<'a> {
        self.iter()
    }
}

/// How many facts the blocks have.
fn count_of(blocks: &[Block]) -> usize
    requires filled { AreFilled blocks.now }
    requires bound { length (joined blocks.now) < 2 ^ 64 }
    ensures { result ≡ length (joined blocks.now) }
{
    match blocks.split_last() {
        Some((last, front)) => front.len() * BLOCK + last.facts().len(),
        None => 0,
    }
}

/// The fact at a place, found in its block.
fn fact_among(blocks: &[Block], place: usize) -> Option<&Fact>
    requires { AreFilled blocks.now }
    ensures { option_copied result ≡ slice_get (joined blocks.now) place }
{
    fact_in(block_at(blocks, place / BLOCK), place % BLOCK)
}

/// The block of this number.
fn block_at(blocks: &[Block], number: usize) -> Option<&Block>
    ensures { option_copied result ≡ slice_get blocks.now number }
{
    blocks.get(number)
}

/// The fact at a place of the block, where there is one.
fn fact_in(block: Option<&Block>, place: usize) -> Option<&Fact>
    ensures { option_copied result ≡ fact_in (option_copied block.entry) place }
{
    match block {
        Some(block) => block.facts().get(place),
        None => None,
    }
}

/// The first facts, so many.
fn first_of(facts: &[Fact], count: usize) -> &[Fact]
    ensures { result.now ≡ take count facts.now }
{
    if facts.len() <= count {
        facts
    } else {
        &facts[..count]
    }
}

/// The facts behind the first ones, so many.
fn rest_of(facts: &[Fact], count: usize) -> &[Fact]
    ensures { result.now ≡ drop count facts.now }
{
    if facts.len() <= count {
        &[]
    } else {
        &facts[count..]
    }
}

/// The facts of a slice with others in place of those from one place on and before another.
fn replaced_in_slice(
    alloc: Global,
    facts: &[Fact],
    from: usize,
    to: usize,
    items: Seq<Fact>,
) -> Result<Facts, AllocError>
    ensures { IfOk result (λ f. f ≡ take from facts.now ++ items ++ drop to facts.now) }
{
    let mut filling = Filling::new(alloc, 0, facts.len().saturating_add(items.len()))?;
    filling.push_copies(alloc, first_of(facts, from))?;
    filling.push_all(alloc, items)?;
    filling.push_copies(alloc, rest_of(facts, to))?;
    filled(alloc, filling)
}

/// The same of the facts of blocks.
fn replaced_in_blocks(
    alloc: Global,
    blocks: &[Block],
    from: usize,
    to: usize,
    items: Seq<Fact>,
) -> Result<Facts, AllocError>
    ensures { IfOk result (λ f. f ≡ take from (joined blocks.now) ++ items
        ++ drop to (joined blocks.now)) }
{
    let mut filling = Filling::new(alloc, blocks.len(), BLOCK)?;
    filling.push_front(alloc, blocks, from)?;
    filling.push_all(alloc, items)?;
    with_behind(alloc, filling, blocks, to)
}

/// The facts that were put into blocks.
fn filled(alloc: Global, filling: Filling) -> Result<Facts, AllocError>
    ensures { IfOk result (λ f. f ≡ filling) }
{
    Ok(Facts {
        place: filling.into_place(alloc)?,
    })
}

/// The facts that were put into blocks and those of other blocks behind the first ones, so many.
fn with_behind(
    alloc: Global,
    filling: Filling,
    blocks: &[Block],
    count: usize,
) -> Result<Facts, AllocError>
    ensures { IfOk result (λ f. f ≡ filling ++ drop count (joined blocks.now)) }
{
    let mut filling = filling;
    match blocks.split_last() {
        Some((last, front)) => {
            let left = filling.push_behind(alloc, front, count)?;
            with_last(alloc, filling, last, left)
        }
        None => filled(alloc, filling),
    }
}

/// The facts that were put into blocks and those of a last block behind its first ones, so many.
fn with_last(
    alloc: Global,
    filling: Filling,
    last: &Block,
    count: usize,
) -> Result<Facts, AllocError>
    ensures { IfOk result (λ f. f ≡ filling ++ drop count last.now) }
{
    if count == 0 {
        return Ok(Facts {
            place: filling.into_place_before(alloc, last)?,
        });
    }
    let mut filling = filling;
    filling.push_end(alloc, last, count)?;
    filled(alloc, filling)
}
