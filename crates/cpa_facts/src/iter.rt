//! Facts, one after the other: those of a slice, or of blocks (`joined` of `specs/Blocks.antt`).
ghost use Rattle.std.specs.Prelude.{◌≡◌, ◌++◌, ◌∷◌, [], List};
ghost use Rattle.std.specs.Iterator.{YieldsFirstRef, item_count};
ghost use Rattle.cpa_facts.specs.declared.fact.Fact.{Fact as AFact};
ghost use Rattle.cpa_facts.specs.Blocks.{joined};
ghost use Rattle.cpa_facts.specs.Places.{facts_in};

use crate::block::Block;
use crate::fact::Fact;
use crate::pieces::Pieces;
use std::marker::Model;

/// Facts, one after the other. Contracts see those that are left.
#[derive(Drop)]
pub struct Iter<'a> {
    /// What is left of the facts in hand.
    facts: &'a [Fact],
    blocks: &'a [Block],
}

impl<'a> Model for Iter<'a> {
    ghost use Rattle.std.specs.Prelude.{◌++◌, List};
    ghost use Rattle.cpa_facts.specs.declared.fact.Fact.{Fact};
    ghost use Rattle.cpa_facts.specs.Blocks.{joined};
    ghost use Rattle.std.specs.Coded.{coded_list};
    ghost use Rattle.cpa_facts.specs.contracts.fact.Fact as e;

    ghost Value = { List Fact };

    ghost coded = { coded_list e.the_row.coded };

    ghost view = { λ i. i.facts.now ++ joined i.blocks.now };
}

impl<'a> Iter<'a> {
    /// The facts of the pieces.
    pub(crate) fn new(pieces: Pieces<'a>) -> Iter<'a>
        ensures { result ≡ facts_in pieces.entry }
    {
        match pieces {
            Pieces::Slice(facts) => Iter { facts, blocks: &[] },
            Pieces::Blocks(blocks) => Iter { facts: &[], blocks },
        }
    }
}

impl<'a> Iterator for Iter<'a> {
    type Item = &'a Fact;

    ghost next_gives = { YieldsFirstRef (λ (left : List AFact). left) };

    ghost remaining = { item_count (λ (left : List AFact). left) };

    fn next(&mut self) -> Option<&'a Fact> {
        while self.facts.is_empty() {
            let (block, blocks) = self.blocks.split_first()?;
            self.facts = block.facts();
            self.blocks = blocks;
        }
        let (fact, facts) = self.facts.split_first()?;
        self.facts = facts;
        Some(fact)
    }
}
