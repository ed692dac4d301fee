//! The chain of resolutions of a conflict. The marks by literal are the present clause, so a
//! resolution clears one mark and sets others.

ghost use Rattle.std.specs.Prelude.{◌≡◌, ◌<◌, ◌||◌, ◌&&◌, ◌==◌, ◌*◌, ℕ, not, true, false, []};
ghost use Rattle.std.specs.Prelude.{length, slice_index_or, OnOk, IfOk};
ghost use Rattle.cpa_cnf.specs.Literals.{opposite};
ghost use Rattle.cpa_cnf.specs.Clauses.{has, IsClause};
ghost use Rattle.cpa_cnf.specs.Lines.{AreBelow, IsGoodLine};
ghost use Rattle.cpa_cnf.specs.Marking.{marked, IsBlank};
ghost use Rattle.cpa_sat_trail.specs.Trails.{IsTrail, AreClauses};
ghost use Rattle.cpa_sat_search.specs.Analyses.{AreNoted, HasMarksOf, HasUnion, IsAsBefore, IsIdle};
ghost use Rattle.cpa_sat_search.specs.Analyses.{IsDerived};

use cpa_cnf::{Clause, Line, Lit, Step};
use cpa_ints::Seq;
use cpa_sat_arena::{Arena, ClauseRef, PackedLit, literal_count};
use cpa_sat_trail::Trail;
use std::alloc::{AllocError, Global};
use std::mem;

/// A chain of resolutions under way.
#[derive(Drop)]
pub(crate) struct Analysis {
    pub(crate) vars: u32,
    pub(crate) marks: Vec<bool>,
    /// The literals that were marked at some time.
    pub(crate) touched: Vec<PackedLit>,
    /// The clause that the chain begins with.
    pub(crate) first: ClauseRef,
    pub(crate) steps: Vec<Step>,
    /// The place from which marked literals are counted, and their number: a hint alone.
    pub(crate) from: u32,
    pub(crate) live: u32,
}

impl Analysis {
    /// No mark is set.
    pub(crate) fn new(alloc: Global, vars: u32) -> Result<Analysis, AllocError>
        ensures idle { IfOk result IsIdle }
        ensures vars { IfOk result (λ a. a.vars ≡ vars) }
    {
        Ok(Analysis {
            vars,
            marks: vec![in alloc; false; literal_count(vars)]?,
            touched: Vec::new(alloc),
            first: ClauseRef::none(),
            steps: Vec::new(alloc),
            from: 0,
            live: 0,
        })
    }

    /// Marks a literal, and counts it if it became false late.
    fn mark(&mut self, literal: PackedLit, place: u32) -> Result<(), AllocError>
        requires inside { literal < length self.old.marks.items }
        requires noted { AreNoted self.old }
        ensures marks { OnOk result ((l : ℕ)
            → marked self.new.marks.items l ≡ (marked self.old.marks.items l || (literal == l))) }
        ensures noted { OnOk result (AreNoted self.new) }
        ensures same { OnOk result (IsAsBefore self.old self.new) }
    {
        let at = literal.index();
        if self.marks[at] {
            return Ok(());
        }
        self.marks[at] = true;
        self.count(place);
        self.touched.push(literal)?;
        Ok(())
    }

    /// Counts a literal that became false at the place, if that is late enough.
    fn count(&mut self, place: u32)
        ensures { self.new ≡ record self.old { live = self.new.live } }
    {
        if place >= self.from {
            self.live = self.live.wrapping_add(1);
        }
    }

    /// Marks the literals of a clause but for one.
    fn mark_others(
        &mut self,
        trail: &Trail,
        clause: &[PackedLit],
        except: PackedLit,
    ) -> Result<(), AllocError>
        requires trail { IsTrail trail.now }
        requires vars { trail.now.vars ≡ self.old.vars }
        requires long { length self.old.marks.items ≡ 2 * self.old.vars }
        requires below { AreBelow self.old.vars clause.now }
        requires noted { AreNoted self.old }
        ensures marks { OnOk result ((l : ℕ)
            → marked self.new.marks.items l
            ≡ (marked self.old.marks.items l || (has clause.now l && not (l == except)))) }
        ensures noted { OnOk result (AreNoted self.new) }
        ensures same { OnOk result (IsAsBefore self.old self.new) }
    {
        for literal in clause {
            if *literal != except {
                let place = trail.places[literal.opposite().index()];
                self.mark(*literal, place)?;
            }
        }
        Ok(())
    }

    /// Counts marked literals from a place on.
    pub(crate) fn count_from(&mut self, place: u32)
        ensures { self.new ≡ record self.old { from = place; live = 0 } }
    {
        self.from = place;
        self.live = 0;
    }

    /// Begins the chain with a clause.
    pub(crate) fn begin(
        &mut self,
        arena: &Arena,
        trail: &Trail,
        number: ClauseRef,
    ) -> Result<(), AllocError>
        requires trail { IsTrail trail.now }
        requires vars { trail.now.vars ≡ self.old.vars }
        requires clauses { AreClauses self.old.vars arena.now }
        requires inside { number < length arena.now }
        requires idle { IsIdle self.old }
        ensures derived { OnOk result (IsDerived arena.now self.new) }
        ensures vars { OnOk result (self.new.vars ≡ self.old.vars) }
        ensures marks { OnOk result (HasMarksOf (slice_index_or arena.now number []) self.new) }
    {
        self.touched.clear();
        self.steps.clear();
        self.first = number;
        self.mark_others(trail, arena.clause(number), PackedLit::none())?;
        Ok(())
    }

    /// Resolves the present clause on a literal of its with a clause that has the opposite one.
    pub(crate) fn resolve(
        &mut self,
        arena: &Arena,
        trail: &Trail,
        literal: PackedLit,
        number: ClauseRef,
    ) -> Result<(), AllocError>
        requires trail { IsTrail trail.now }
        requires vars { trail.now.vars ≡ self.old.vars }
        requires clauses { AreClauses self.old.vars arena.now }
        requires inside { number < length arena.now }
        requires derived { IsDerived arena.now self.old }
        requires range { literal < 2 * self.old.vars }
        requires here { marked self.old.marks.items literal ≡ true }
        requires not_here { marked self.old.marks.items (opposite literal) ≡ false }
        requires there { has (slice_index_or arena.now number []) (opposite literal) ≡ true }
        ensures derived { OnOk result (IsDerived arena.now self.new) }
        ensures vars { OnOk result (self.new.vars ≡ self.old.vars) }
        ensures union { OnOk result (HasUnion self.old (slice_index_or arena.now number []) literal
            self.new) }
    {
        self.marks[literal.index()] = false;
        self.live = self.live.wrapping_sub(1);
        self.mark_others(trail, arena.clause(number), literal.opposite())?;
        let pivot = literal.var().number();
        let clause = number.number();
        self.steps.push(Step { pivot, clause })?;
        Ok(())
    }

    /// Whether the literal is marked.
    pub(crate) fn is_marked(&self, literal: PackedLit) -> bool
        ensures { result ≡ marked self.now.marks.items literal }
    {
        let number = literal.index();
        number < self.marks.len() && self.marks[number]
    }

    /// Takes the mark off a literal, if it has one, and adds the literal to those that had one.
    fn take(&mut self, literal: PackedLit, literals: &mut Vec<Lit>) -> Result<(), AllocError>
        ensures taken { OnOk result ((l : ℕ)
            → has literals.new.items l
            ≡ (has literals.old.items l
            || (marked self.old.marks.items literal && (literal == l)))) }
        ensures left { OnOk result ((l : ℕ)
            → marked self.new.marks.items l
            ≡ (marked self.old.marks.items l && not (literal == l))) }
        ensures same { OnOk result (IsAsBefore self.old self.new) }
        ensures touched { OnOk result (self.new.touched.items ≡ self.old.touched.items) }
    {
        if self.is_marked(literal) {
            literals.push(literal.unpack())?;
            self.marks[literal.index()] = false;
        }
        Ok(())
    }

    /// The marked literals, whose marks it takes off.
    fn take_all(&mut self, alloc: Global) -> Result<Vec<Lit>, AllocError>
        requires { AreNoted self.old }
        ensures taken { IfOk result (λ lits. (l : ℕ)
            → has lits.items l ≡ marked self.old.marks.items l) }
        ensures blank { OnOk result (IsBlank self.new.marks.items) }
        ensures same { OnOk result (IsAsBefore self.old self.new) }
    {
        let mut literals = Vec::new(alloc);
        for k in 0..self.touched.len() {
            let literal = self.touched[k];
            self.take(literal, &mut literals)?;
        }
        Ok(literals)
    }

    /// The line of the chain. No mark is left, and no step.
    pub(crate) fn finish(&mut self, alloc: Global, arena: &Arena) -> Result<Line, AllocError>
        requires { IsDerived arena.now self.old }
        ensures line { IfOk result (λ line. IsGoodLine self.old.vars arena.now line) }
        ensures literals { IfOk result (λ line. (l : ℕ)
            → has line.clause l ≡ marked self.old.marks.items l) }
        ensures sorted { IfOk result (λ line. IsClause line.clause) }
        ensures idle { OnOk result (IsIdle self.new) }
        ensures vars { OnOk result (self.new.vars ≡ self.old.vars) }
    {
        let clause = Clause::from_lits(self.take_all(alloc)?)?;
        let steps = Seq::from_vec(mem::replace(&mut self.steps, Vec::new(alloc)));
        Ok(Line {
            clause,
            first: self.first.number(),
            steps,
        })
    }
}
