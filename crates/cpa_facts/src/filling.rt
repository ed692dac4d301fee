//! Facts that are put one behind the other into blocks, and whole blocks that are shared where they
//! fit, by `specs/Blocks.antt`. Proved with `proofs/FillingLemmas.antt`.
ghost use Rattle.std.specs.Prelude.{◌≡◌, ◌<◌, ◌≤◌, ◌+◌, ◌-◌, ◌*◌, ◌∷◌, ◌++◌, [], IfOk, IfSome};
ghost use Rattle.std.specs.Prelude.{OnOk, length};
ghost use Rattle.std.specs.Prelude.{◌↔◌, IsTrue};
ghost use Rattle.std.specs.Prelude.{take, drop};
ghost use Rattle.cpa_facts.specs.Blocks.{joined, AreFilled, AreFull};
ghost use Rattle.cpa_facts.specs.Places.{facts_at, AreCounted};

use crate::block::{BLOCK, Block};
use crate::fact::{Fact, copy_fact};
use crate::place::Place;
use crate::shared::Shared;
use cpa_ints::Seq;
use std::alloc::{AllocError, Global};
use std::marker::Model;
use std::mem;

/// Facts that are put into blocks. Contracts see the facts.
#[derive(Drop)]
pub(crate) struct Filling {
    /// Full ones.
    blocks: Seq<Block>,
    /// What stands behind them, no more than a block holds.
    rest: Seq<Fact>,
}

impl Model for Filling {
    ghost use Rattle.std.specs.Prelude.{◌≤◌, ◌++◌, List, length};
    ghost use Rattle.std.specs.Coded.{coded_list};
    ghost use Rattle.cpa_facts.specs.declared.fact.Fact.{Fact};
    ghost use Rattle.cpa_facts.specs.contracts.fact.Fact as e;
    ghost use Rattle.cpa_facts.specs.Blocks.{joined, AreFull};

    ghost Value = { List Fact };

    ghost coded = { coded_list e.the_row.coded };

    ghost view = { λ f. joined f.blocks ++ f.rest };

    ghost invariant = { λ f. AreFull f.blocks × (length f.rest ≤ 16) };
}

impl Filling {
    /// No facts, with room for so many blocks, and behind them for so many facts of one.
    pub(crate) fn new(alloc: Global, blocks: usize, facts: usize) -> Result<Filling, AllocError>
        ensures { IfOk result (λ f. f ≡ []) }
    {
        Ok(Filling {
            blocks: Seq::from_vec(Vec::with_capacity(alloc, blocks)?),
            rest: Seq::from_vec(Vec::with_capacity(alloc, facts.min(BLOCK))?),
        })
    }

    /// Puts a fact behind the others.
    pub(crate) fn push(&mut self, alloc: Global, fact: Fact) -> Result<(), AllocError>
        ensures { OnOk result (self.new ≡ self.old ++ fact ∷ []) }
    {
        make_room(alloc, &mut self.blocks, &mut self.rest)?;
        self.rest.push(fact)
    }

    /// Puts facts behind the others.
    pub(crate) fn push_all(&mut self, alloc: Global, facts: Seq<Fact>) -> Result<(), AllocError>
        ensures { OnOk result (self.new ≡ self.old ++ facts) }
    {
        for fact in facts.into_vec() {
            self.push(alloc, fact)?;
        }
        Ok(())
    }

    /// Puts copies of the facts behind the others.
    pub(crate) fn push_copies(&mut self, alloc: Global, facts: &[Fact]) -> Result<(), AllocError>
        ensures { OnOk result (self.new ≡ self.old ++ facts.now) }
    {
        for fact in facts {
            self.push(alloc, copy_fact(alloc, fact)?)?;
        }
        Ok(())
    }

    /// Puts the facts of a block behind the others, which shares it where it then stands as a
    /// whole.
    fn push_block(&mut self, alloc: Global, block: &Block) -> Result<(), AllocError>
        ensures { OnOk result (self.new ≡ self.old ++ block.now) }
    {
        if block.facts().len() != BLOCK {
            return self.push_copies(alloc, block.facts());
        }
        make_room(alloc, &mut self.blocks, &mut self.rest)?;
        if !self.rest.is_empty() {
            return self.push_copies(alloc, block.facts());
        }
        self.blocks.push(block.share()?)
    }

    /// Puts the first facts of the blocks, so many, behind the others.
    pub(crate) fn push_front(
        &mut self,
        alloc: Global,
        blocks: &[Block],
        count: usize,
    ) -> Result<(), AllocError>
        ensures { OnOk result (self.new ≡ self.old ++ take count (joined blocks.now)) }
    {
        let mut left = count;
        for block in blocks {
            left = self.push_start(alloc, block, left)?;
        }
        Ok(())
    }

    /// Puts the first facts of a block behind the others, and says how many are left to be put.
    fn push_start(
        &mut self,
        alloc: Global,
        block: &Block,
        count: usize,
    ) -> Result<usize, AllocError>
        ensures facts { OnOk result (self.new ≡ self.old ++ take count block.now) }
        ensures left { IfOk result (λ left. left ≡ count - length block.now) }
    {
        let facts = block.facts();
        if facts.len() <= count {
            self.push_block(alloc, block)?;
            return Ok(count - facts.len());
        }
        self.push_copies(alloc, &facts[..count])?;
        Ok(0)
    }

    /// Puts the facts of the blocks behind the first ones, so many, behind the others, and says how
    /// many are left to be passed over.
    pub(crate) fn push_behind(
        &mut self,
        alloc: Global,
        blocks: &[Block],
        count: usize,
    ) -> Result<usize, AllocError>
        ensures facts { OnOk result (self.new ≡ self.old ++ drop count (joined blocks.now)) }
        ensures left { IfOk result (λ left. left ≡ count - length (joined blocks.now)) }
    {
        let mut left = count;
        for block in blocks {
            left = self.push_end(alloc, block, left)?;
        }
        Ok(left)
    }

    /// Puts the facts of a block behind its first ones behind the others, and says how many are
    /// left to be passed over.
    pub(crate) fn push_end(
        &mut self,
        alloc: Global,
        block: &Block,
        count: usize,
    ) -> Result<usize, AllocError>
        ensures facts { OnOk result (self.new ≡ self.old ++ drop count block.now) }
        ensures left { IfOk result (λ left. left ≡ count - length block.now) }
    {
        if count == 0 {
            self.push_block(alloc, block)?;
            return Ok(0);
        }
        let facts = block.facts();
        if facts.len() <= count {
            return Ok(count - facts.len());
        }
        self.push_copies(alloc, &facts[count..])?;
        Ok(0)
    }

    /// How many facts there are.
    fn len(&self) -> Result<usize, AllocError>
        ensures { IfOk result (λ n. n ≡ length self.now) }
    {
        facts_of(self.blocks.len(), self.rest.len()).ok_or(AllocError)
    }

    /// Where all facts stand.
    pub(crate) fn into_place(self, alloc: Global) -> Result<Place, AllocError>
        ensures facts { IfOk result (λ place. facts_at place ≡ self) }
        ensures counted { IfOk result AreCounted }
    {
        // A place has no more facts than can be counted.
        let _count = self.len()?;
        let Filling { blocks, rest } = self;
        if blocks.is_empty() {
            return Place::of_few(alloc, rest);
        }
        let blocks = with_last(alloc, blocks, rest)?;
        Ok(Place::Many(Shared::from_seq(alloc, blocks)?))
    }

    /// Where all facts stand with those of a last block, which is shared where it then stands as a
    /// whole.
    pub(crate) fn into_place_before(self, alloc: Global, last: &Block) -> Result<Place, AllocError>
        ensures facts { IfOk result (λ place. facts_at place ≡ self ++ last.now) }
        ensures counted { IfOk result AreCounted }
    {
        // A place has no more facts than can be counted.
        let _count = sum_of(self.len()?, last.facts().len())?;
        let Filling {
            mut blocks,
            mut rest,
        } = self;
        make_room(alloc, &mut blocks, &mut rest)?;
        if rest.is_empty() && fits(last.facts()) {
            blocks.push(last.share()?)?;
            return Ok(Place::Many(Shared::from_seq(alloc, blocks)?));
        }
        let mut all = Filling { blocks, rest };
        all.push_copies(alloc, last.facts())?;
        all.into_place(alloc)
    }
}

/// Whether the facts can be a block.
fn fits(facts: &[Fact]) -> bool
    ensures { IsTrue result ↔ (0 < length facts.now) × (length facts.now ≤ 16) }
{
    !facts.is_empty() && facts.len() <= BLOCK
}

/// Makes a block of the facts behind the blocks where they are as many as one holds.
fn make_room(alloc: Global, blocks: &mut Seq<Block>, rest: &mut Seq<Fact>) -> Result<(), AllocError>
    requires full { AreFull blocks.old }
    requires few { length rest.old ≤ 16 }
    ensures full { AreFull blocks.new }
    ensures room { length rest.new < 16 }
    ensures same { OnOk result (joined blocks.new ++ rest.new ≡ joined blocks.old ++ rest.old) }
{
    if rest.len() < BLOCK {
        return Ok(());
    }
    let facts = mem::replace(rest, Seq::new(alloc));
    blocks.push(Block::new(alloc, facts)?)
}

/// The facts of so many full blocks, and so many more.
fn facts_of(blocks: usize, rest: usize) -> Option<usize>
    ensures { IfSome result (λ n. n ≡ 16 * blocks + rest) }
{
    blocks.checked_mul(BLOCK)?.checked_add(rest)
}

/// The sum, where it can be said.
fn sum_of(a: usize, b: usize) -> Result<usize, AllocError>
    ensures { IfOk result (λ n. n ≡ a + b) }
{
    a.checked_add(b).ok_or(AllocError)
}

/// The blocks with a last one of these facts, where there are any.
fn with_last(alloc: Global, blocks: Seq<Block>, rest: Seq<Fact>) -> Result<Seq<Block>, AllocError>
    requires full { AreFull blocks }
    requires few { length rest ≤ 16 }
    ensures whole { IfOk result (λ all. joined all ≡ joined blocks ++ rest) }
    ensures filled { IfOk result (λ all. AreFilled all) }
{
    let mut blocks = blocks;
    if rest.is_empty() {
        return Ok(blocks);
    }
    blocks.push(Block::new(alloc, rest)?)?;
    Ok(blocks)
}
