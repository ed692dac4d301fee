//! The literals of all clauses in one flat array, with the extent and the hash of each clause, and
//! an index by hash. What the parts keep is `IsStored`, proved in proofs/Stores.

ghost use Rattle.std.specs.Prelude.{◌≡◌, ◌+◌, ◌≢◌, ◌↔◌, ◌<◌, ◌*◌, ◌^◌, ◌++◌, ◌∷◌, ℕ, [], length};
ghost use Rattle.std.specs.Prelude.{slice_index_or, IsTrue, IfSome, IfNone, IfOk, OnOk, OnErr};
ghost use Rattle.std.specs.List.{AllByRecursion};
ghost use Rattle.cpa_sat_arena.specs.declared.literal.TheConstants.{NO_CLAUSE};
ghost use Rattle.cpa_sat_arena.specs.Extents.{hash_at, IsFiled, IsKept, IsRoomy, IsStored};
ghost use Rattle.cpa_sat_arena.specs.Extents.{clauses_of, hashes_of};
ghost use Rattle.cpa_sat_arena.specs.Hashes.{clause_hash, IsIndexed};

use crate::index::{Index, hash_of};
use crate::literal::{ClauseRef, NO_CLAUSE, PackedLit};
use cpa_cnf::{Clause, Lit};
use std::alloc::{AllocError, Global};

/// The most clauses of an arena: `NO_CLAUSE` is the number of none of them.
const MOST_CLAUSES: usize = NO_CLAUSE as usize - 1;

/// The places that an index has for each clause.
const PLACES_EACH: usize = 2;

/// The places that it has besides.
const SPARE_PLACES: usize = 64;

/// Where the literals of a clause stand, and its hash.
#[derive(Clone, Copy)]
pub(crate) struct Extent {
    pub(crate) from: u32,
    pub(crate) to: u32,
    pub(crate) hash: u32,
}

/// The parts of an arena.
#[derive(Drop)]
pub(crate) struct Store {
    pub(crate) alloc: Global,
    pub(crate) literals: Vec<PackedLit>,
    pub(crate) extents: Vec<Extent>,
    pub(crate) index: Index,
}

/// Adds the literals of a clause; where memory runs out, those that had room stay.
fn push_literals(literals: &mut Vec<PackedLit>, clause: &Clause) -> Result<(), AllocError>
    requires { AllByRecursion (λ l. l < 2 ^ 32) clause.now }
    ensures ok { OnOk result (literals.new.items ≡ literals.old.items ++ clause.now) }
    ensures err { OnErr result (IsKept literals.old.items literals.new.items) }
{
    for literal in clause.literals() {
        literals.push(PackedLit::pack(*literal))?;
    }
    Ok(())
}

/// Adds the literals and the extent of a clause, and gives its hash; where memory runs out, the
/// clauses stay.
fn file(
    literals: &mut Vec<PackedLit>,
    extents: &mut Vec<Extent>,
    clause: &Clause,
) -> Result<u32, AllocError>
    requires small { AllByRecursion (λ l. l < 2 ^ 32) clause.now }
    requires filed { AllByRecursion (IsFiled literals.old.items) extents.old.items }
    ensures filed { AllByRecursion (IsFiled literals.new.items) extents.new.items }
    ensures clauses { OnOk result (clauses_of literals.new.items extents.new.items
        ≡ clauses_of literals.old.items extents.old.items ++ clause.now ∷ []) }
    ensures hashes { IfOk result (λ hash. hashes_of extents.new.items ≡ hashes_of extents.old.items
        ++ hash ∷ []) }
    ensures kept { OnErr result (extents.new.items ≡ extents.old.items) }
    ensures same { OnErr result (clauses_of literals.new.items extents.old.items
        ≡ clauses_of literals.old.items extents.old.items) }
{
    let hash = hash_of(clause.literals());
    let from = literals.len();
    push_literals(literals, clause)?;
    let to = literals.len();
    if to > u32::MAX as usize {
        return Err(AllocError);
    }
    extents.push(Extent {
        from: from as u32,
        to: to as u32,
        hash,
    })?;
    Ok(hash)
}

/// An index of the clauses that has room for as many again.
fn indexed(alloc: Global, extents: &[Extent]) -> Result<Index, AllocError>
    requires { length extents.now + 1 < 2 ^ 32 }
    ensures { IfOk result (IsRoomy extents.now) }
{
    let mut index = Index::new(alloc, extents.len() * PLACES_EACH + SPARE_PLACES)?;
    for number in 0..extents.len() {
        index.link(number as u32, extents[number].hash);
    }
    Ok(index)
}

/// Makes room for one more clause in the index, which stays as it is where memory runs out.
fn make_room(alloc: Global, extents: &[Extent], index: &mut Index) -> Result<(), AllocError>
    requires few { length extents.now + 1 < 2 ^ 32 }
    requires is_indexed { IsIndexed (hash_at extents.now) (length extents.now)
        (length index.old.heads.items) index.old.heads.items index.old.nexts.items }
    ensures ok { OnOk result (IsRoomy extents.now index.new) }
    ensures err { OnErr result (index.new ≡ index.old) }
{
    if extents.len() < index.nexts.len() {
        return Ok(());
    }
    *index = indexed(alloc, extents)?;
    Ok(())
}

/// Whether the clause of the number is this one, whose hash is known.
fn is_clause(
    literals: &[PackedLit],
    extents: &[Extent],
    number: u32,
    hash: u32,
    clause: &Clause,
) -> bool
    requires filed { AllByRecursion (IsFiled literals.now) extents.now }
    requires inside { number < length extents.now }
    requires hash { hash ≡ clause_hash clause.now }
    ensures { IsTrue result ↔ (slice_index_or (clauses_of literals.now extents.now) number []
        ≡ clause.now) }
{
    let extent = extents[number as usize];
    let kept = &literals[extent.from as usize..extent.to as usize];
    extent.hash == hash && is_same(kept, clause.literals())
}

/// Whether two lists of literals are equal.
fn is_same(kept: &[PackedLit], literals: &[Lit]) -> bool
    ensures { IsTrue result ↔ (kept.now ≡ literals.now) }
{
    if kept.len() != literals.len() {
        return false;
    }
    for i in 0..kept.len() {
        if kept[i].index() != literals[i].number() {
            return false;
        }
    }
    true
}

impl Store {
    /// No clauses.
    pub(crate) fn new(alloc: Global) -> Store
        ensures stored { IsStored result }
        ensures empty { result.extents.items ≡ [] }
    {
        Store {
            alloc,
            literals: Vec::new(alloc),
            extents: Vec::new(alloc),
            index: Index::none(alloc),
        }
    }

    /// The literals of a clause.
    pub(crate) fn clause(&self, number: usize) -> &[PackedLit]
        requires stored { IsStored self.now }
        requires inside { number < length self.now.extents.items }
        ensures { result.now ≡ slice_index_or
            (clauses_of self.now.literals.items self.now.extents.items) number [] }
    {
        let extent = self.extents[number];
        &self.literals[extent.from as usize..extent.to as usize]
    }

    /// Adds a clause at the end. Where memory runs out, or a clause would have a number or a place
    /// that passes u32, the clauses stay as they are.
    pub(crate) fn push(&mut self, clause: &Clause) -> Result<(), AllocError>
        requires stored { IsStored self.old }
        requires small { AllByRecursion (λ l. l < 2 ^ 32) clause.now }
        ensures stored { IsStored self.new }
        ensures pushed { OnOk result
            (clauses_of self.new.literals.items self.new.extents.items
            ≡ clauses_of self.old.literals.items self.old.extents.items ++ clause.now ∷ []) }
        ensures few { OnOk result (length self.new.extents.items < NO_CLAUSE) }
        ensures kept { OnErr result (clauses_of self.new.literals.items self.new.extents.items
            ≡ clauses_of self.old.literals.items self.old.extents.items) }
    {
        let number = self.extents.len();
        if number >= MOST_CLAUSES {
            return Err(AllocError);
        }
        make_room(self.alloc, &self.extents, &mut self.index)?;
        let hash = file(&mut self.literals, &mut self.extents, clause)?;
        self.index.link(number as u32, hash);
        Ok(())
    }

    /// A clause that is equal to this one, if one stands.
    pub(crate) fn find(&self, clause: &Clause) -> Option<ClauseRef>
        requires { IsStored self.now }
        ensures some { IfSome result (λ k. k < length self.now.extents.items) }
        ensures equal { IfSome result
            (λ k. slice_index_or (clauses_of self.now.literals.items self.now.extents.items) k []
            ≡ clause.now) }
        ensures none { IfNone result ((k : ℕ) → k < length self.now.extents.items
            → slice_index_or (clauses_of self.now.literals.items self.now.extents.items) k []
            ≢ clause.now) }
    {
        let hash = hash_of(clause.literals());
        let mut link = self.index.first(hash);
        while link > 0 {
            let number = link - 1;
            if is_clause(&self.literals, &self.extents, number, hash, clause) {
                return Some(ClauseRef::new(number as usize));
            }
            link = self.index.next(number);
        }
        None
    }
}
