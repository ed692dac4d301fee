//! Clauses by their hash: for each bucket a chain of numbers, the greatest first (Knuth, The Art of
//! Computer Programming 3, 6.4). What a chain covers is `IsIndexed`, proved in proofs/Chaining.

ghost use Rattle.std.specs.Prelude.{◌≡◌, ◌<◌, ◌+◌, ◌%◌, ◌^◌, ℕ, length, slice_index, slice_set};
ghost use Rattle.std.specs.Prelude.{IfOk};
ghost use Rattle.cpa_sat_arena.specs.Hashes.{clause_hash, mixed_hash};

use cpa_cnf::Lit;
use std::alloc::{AllocError, Global};

/// How many values a u32 has.
const VALUES: usize = 1 << 32;

/// The prime next to 2^32 over the golden ratio (Knuth 6.4).
pub(crate) const MULTIPLIER: u32 = 2654435761;

/// Chains of numbers. A link is a number and one, or 0 at the end of a chain.
#[derive(Drop)]
pub(crate) struct Index {
    /// The first link of each bucket.
    pub(crate) heads: Vec<u32>,
    /// The link behind each number.
    pub(crate) nexts: Vec<u32>,
}

impl Index {
    /// Room for no number.
    pub(crate) fn none(alloc: Global) -> Index
        ensures heads { length result.heads.items ≡ 0 }
        ensures nexts { length result.nexts.items ≡ 0 }
    {
        Index {
            heads: Vec::new(alloc),
            nexts: Vec::new(alloc),
        }
    }

    /// Room for so many numbers, none of which is there yet.
    pub(crate) fn new(alloc: Global, room: usize) -> Result<Index, AllocError>
        ensures heads { IfOk result (λ index. length index.heads.items ≡ room) }
        ensures nexts { IfOk result (λ index. length index.nexts.items ≡ room) }
        ensures empty { IfOk result (λ index. (b : ℕ) → slice_index index.heads.items b ≡ 0) }
    {
        Ok(Index {
            heads: vec![in alloc; 0; room]?,
            nexts: vec![in alloc; 0; room]?,
        })
    }

    /// The first link of a hash's bucket.
    pub(crate) fn first(&self, hash: u32) -> u32
        ensures { result ≡ slice_index self.now.heads.items (hash % length self.now.heads.items) }
    {
        if self.heads.is_empty() {
            return 0;
        }
        self.heads[hash as usize % self.heads.len()]
    }

    /// The link behind a number.
    pub(crate) fn next(&self, number: u32) -> u32
        requires { number < length self.now.nexts.items }
        ensures { result ≡ slice_index self.now.nexts.items number }
    {
        self.nexts[number as usize]
    }

    /// Puts a number at the head of its hash's bucket.
    pub(crate) fn link(&mut self, number: u32, hash: u32)
        requires room { number < length self.old.nexts.items }
        requires some { 0 < length self.old.heads.items }
        requires small { number + 1 < 2 ^ 32 }
        ensures heads { self.new.heads.items
            ≡ slice_set self.old.heads.items (hash % length self.old.heads.items) (number + 1) }
        ensures nexts { self.new.nexts.items
            ≡ slice_set self.old.nexts.items number
            (slice_index self.old.heads.items (hash % length self.old.heads.items)) }
    {
        let bucket = hash as usize % self.heads.len();
        self.nexts[number as usize] = self.heads[bucket];
        self.heads[bucket] = number + 1;
    }
}

/// A hash, with one more literal.
fn mixed(hash: u32, literal: Lit) -> u32
    ensures { result ≡ mixed_hash hash literal }
{
    let number = (literal.number() % VALUES) as u32;
    hash.wrapping_add(number).wrapping_mul(MULTIPLIER)
}

/// The hash of a clause.
pub(crate) fn hash_of(literals: &[Lit]) -> u32
    ensures { result ≡ clause_hash literals.now }
{
    let mut hash = 0;
    for literal in literals {
        hash = mixed(hash, *literal);
    }
    hash
}
