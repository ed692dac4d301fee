//! The search: propagate, decide, learn from a clause that is false, jump back.
//! It keeps `IsState` of `specs/States.antt`. Proved with `proofs/Growth.antt`.

ghost use Rattle.std.specs.Prelude.{◌≡◌, ◌≢◌, ◌<◌, ◌≤◌, ◌+◌, ◌-◌, ◌*◌, ◌^◌, ℕ, [], ◌∷◌, ◌++◌};
ghost use Rattle.std.specs.Prelude.{length, slice_index_or, OnOk, IfOk, IfSome, IfNone};
ghost use Rattle.cpa_cnf.specs.Clauses.{IsClause};
ghost use Rattle.cpa_cnf.specs.Lines.{IsGoodLine};
ghost use Rattle.cpa_sat_arena.specs.declared.literal.TheConstants.{NO_CLAUSE};
ghost use Rattle.cpa_sat_trail.specs.Trails.{IsFalse, IsTrail, height};
ghost use Rattle.cpa_sat_trail.specs.Findings.{IsOpen};
ghost use Rattle.cpa_sat_trail.specs.Progress.{Asserts, IsRisen, IsSound, progress};
ghost use Rattle.cpa_sat_trail.specs.Propagations.{IsPropagated};
ghost use Rattle.cpa_sat_search.specs.States.{IsAsBut, IsAsButAnalysis, IsLearned};
ghost use Rattle.cpa_sat_search.specs.States.{IsNumberOf, IsState, IsTurned, rank};

use crate::analysis::Analysis;
use crate::conflict::analyse;
use crate::quality::Quality;
use crate::redundancy::Redundancy;
use cpa_cnf::{Cnf, Line};
use cpa_sat_arena::{Arena, ClauseRef, PackedLit};
use cpa_sat_trail::{
    Jump, NO_PLACE, Order, Restarts, Trail, Watches, decide, force_units, is_open, jump_back,
    open_literal, propagate, unsatisfied, watch_clause,
};
use std::alloc::{AllocError, Global};

/// A search under way. Its calls take the formula for their contracts, which say what the state is
/// to it; where a body hands it on to no other call, `let _vars = cnf.vars;` is its one use.
#[derive(Drop)]
pub(crate) struct Search {
    pub(crate) alloc: Global,
    pub(crate) arena: Arena,
    pub(crate) trail: Trail,
    pub(crate) analysis: Analysis,
    pub(crate) lines: Vec<Line>,
    pub(crate) watches: Watches,
    pub(crate) order: Order,
    pub(crate) restarts: Restarts,
    pub(crate) redundancy: Redundancy,
    pub(crate) quality: Quality,
    /// The place of the next literal to propagate.
    pub(crate) next: usize,
    /// The place before which no decision was found when it was last looked for. None comes there,
    /// since literals before the first decision stay.
    pub(crate) ground: usize,
}

/// How a turn of the search ends: a decision, or a clause that is false.
#[derive(Clone, Copy)]
pub(crate) enum Turn {
    Again,
    Satisfied,
    Refuted,
    Spent,
}

/// The next literal to decide, by the order.
fn pick(order: &mut Order, trail: &Trail) -> Option<PackedLit>
    requires { IsTrail trail.now }
    ensures { IfSome result (IsOpen trail.now) }
{
    for _ in 0..trail.vars {
        let literal = order.pop()?;
        if is_open(trail, literal) {
            return Some(literal);
        }
    }
    None
}

impl Search {
    /// Propagates; the number of a clause that is false, if there is one.
    fn propagate_trail(&mut self) -> Result<Option<ClauseRef>, AllocError>
        requires { IsSound self.old.arena self.old.trail }
        ensures sound { OnOk result (IsSound self.new.arena self.new.trail) }
        ensures rises { OnOk result (IsRisen self.old.trail self.new.trail) }
        ensures same { OnOk result (IsAsBut self.old self.new) }
        ensures conflict { IfOk result (IsPropagated self.new.arena self.new.trail) }
    {
        let arena = &mut self.arena;
        let trail = &mut self.trail;
        let found = propagate(arena, trail, &mut self.watches, &mut self.next)?;
        Ok(found)
    }

    /// The line of the chain from a clause that is false, and the jump that its clause forces.
    fn analyse(&mut self, cnf: &Cnf, number: ClauseRef) -> Result<Learned, AllocError>
        requires state { IsState cnf.now self.old }
        requires inside { number < length self.old.arena }
        requires untrue { IsFalse (slice_index_or self.old.arena number []) self.old.trail }
        ensures state { OnOk result (IsState cnf.now self.new) }
        ensures same { OnOk result (IsAsButAnalysis self.old self.new) }
        ensures learned { IfOk result (IsLearned cnf.now self.new) }
    {
        let _vars = cnf.vars;
        let arena = &mut self.arena;
        let trail = &mut self.trail;
        let analysis = &mut self.analysis;
        let jump = analyse(analysis, &mut self.redundancy, arena, trail, number)?;
        bump(&mut self.order, analysis);
        let line = analysis.finish(self.alloc, arena)?;
        Ok(Learned { line, jump })
    }

    /// Adds a line that is new.
    fn add(&mut self, cnf: &Cnf, line: Line) -> Result<(), AllocError>
        requires state { IsState cnf.now self.old }
        requires good { IsGoodLine cnf.now.vars self.old.arena line }
        requires sorted { IsClause line.clause }
        requires filled { line.clause ≢ [] }
        requires fresh { (k : ℕ) → k < length self.old.arena
            → slice_index_or self.old.arena k [] ≢ line.clause }
        ensures state { OnOk result (IsState cnf.now self.new) }
        ensures trail { OnOk result (self.new.trail ≡ self.old.trail) }
        ensures arena { OnOk result (self.new.arena ≡ self.old.arena ++ line.clause ∷ []) }
        ensures lines { OnOk result (self.new.lines.items ≡ self.old.lines.items ++ line ∷ []) }
    {
        let _vars = cnf.vars;
        self.watches.add()?;
        self.quality.add(self.redundancy.distance)?;
        self.arena.push(&line.clause)?;
        self.lines.push(line)?;
        Ok(())
    }

    /// Jumps back, and puts the variables whose literals go into the order again.
    fn backjump(&mut self, cnf: &Cnf, jump: Jump, number: ClauseRef) -> Result<(), AllocError>
        requires state { IsState cnf.now self.old }
        requires inside { number < length self.old.arena }
        requires asserts { Asserts (slice_index_or self.old.arena number []) self.old.trail jump }
        ensures state { OnOk result (IsState cnf.now self.new) }
        ensures lines { OnOk result (self.new.lines.items ≡ self.old.lines.items) }
        ensures rises { OnOk result (progress self.old.trail < progress self.new.trail) }
    {
        let _vars = cnf.vars;
        let arena = &mut self.arena;
        let trail = &mut self.trail;
        release(&mut self.order, trail, jump.cut)?;
        jump_back(trail, arena, jump, number)?;
        self.next = jump.cut;
        Ok(())
    }
}

impl Search {
    /// Ends with the empty clause, or with the lines spent.
    fn refute(&mut self, cnf: &Cnf, line: Line, learnt: u32) -> Result<Turn, AllocError>
        requires state { IsState cnf.now self.old }
        requires within { length self.old.lines.items ≤ learnt }
        requires good { IsGoodLine cnf.now.vars self.old.arena line }
        requires empty { line.clause ≡ [] }
        ensures { IfOk result (IsTurned cnf.now learnt self.old self.new) }
    {
        let _vars = cnf.vars;
        if self.lines.len() >= learnt as usize {
            return Ok(Turn::Spent);
        }
        self.lines.push(line)?;
        Ok(Turn::Refuted)
    }

    /// Jumps by a clause that stands already.
    fn assert_known(
        &mut self,
        cnf: &Cnf,
        jump: Jump,
        number: ClauseRef,
        learnt: u32,
    ) -> Result<Turn, AllocError>
        requires state { IsState cnf.now self.old }
        requires within { length self.old.lines.items ≤ learnt }
        requires inside { number < length self.old.arena }
        requires asserts { Asserts (slice_index_or self.old.arena number []) self.old.trail jump }
        ensures { IfOk result (IsTurned cnf.now learnt self.old self.new) }
    {
        self.backjump(cnf, jump, number)?;
        Ok(Turn::Again)
    }

    /// Adds a line and jumps by its clause.
    fn learn(&mut self, cnf: &Cnf, line: Line, jump: Jump, learnt: u32) -> Result<Turn, AllocError>
        requires state { IsState cnf.now self.old }
        requires within { length self.old.lines.items ≤ learnt }
        requires good { IsGoodLine cnf.now.vars self.old.arena line }
        requires sorted { IsClause line.clause }
        requires fresh { (k : ℕ) → k < length self.old.arena
            → slice_index_or self.old.arena k [] ≢ line.clause }
        requires asserts { Asserts line.clause self.old.trail jump }
        ensures { IfOk result (IsTurned cnf.now learnt self.old self.new) }
    {
        if self.lines.len() >= learnt as usize {
            return Ok(Turn::Spent);
        }
        let number = ClauseRef::new(self.arena.len());
        self.add(cnf, line)?;
        self.watch(cnf, number)?;
        self.backjump(cnf, jump, number)?;
        self.restart(cnf)?;
        self.reduce_watches(cnf)?;
        Ok(Turn::Again)
    }

    /// Watches two literals of a clause.
    fn watch(&mut self, cnf: &Cnf, number: ClauseRef) -> Result<(), AllocError>
        requires state { IsState cnf.now self.old }
        requires inside { number < length self.old.arena }
        ensures state { OnOk result (IsState cnf.now self.new) }
        ensures same { OnOk result (IsAsButAnalysis self.old self.new) }
    {
        let _vars = cnf.vars;
        let arena = &mut self.arena;
        let trail = &mut self.trail;
        watch_clause(&mut self.watches, trail, arena.clause(number), number)?;
        Ok(())
    }

    /// Watches fewer clauses, if it is time to.
    fn reduce_watches(&mut self, cnf: &Cnf) -> Result<(), AllocError>
        requires { IsState cnf.now self.old }
        ensures state { OnOk result (IsState cnf.now self.new) }
        ensures same { OnOk result (IsAsButAnalysis self.old self.new) }
    {
        let _vars = cnf.vars;
        let arena = &mut self.arena;
        let trail = &mut self.trail;
        let ground = first_decision(trail, self.ground);
        self.ground = ground;
        if ground < trail.lits.len() {
            return Ok(());
        }
        if self.quality.is_due() {
            self.quality.choose();
            watch_kept(&mut self.watches, &self.quality, arena, trail)?;
        }
        Ok(())
    }

    /// Takes all decisions back, if it is time to.
    fn restart(&mut self, cnf: &Cnf) -> Result<(), AllocError>
        requires { IsState cnf.now self.old }
        ensures state { OnOk result (IsState cnf.now self.new) }
        ensures lines { OnOk result (self.new.lines.items ≡ self.old.lines.items) }
    {
        let _vars = cnf.vars;
        if !self.restarts.is_due() {
            return Ok(());
        }
        let trail = &mut self.trail;
        let ground = first_decision(trail, self.ground);
        release(&mut self.order, trail, ground)?;
        trail.cut(ground);
        self.next = self.next.min(ground);
        Ok(())
    }
}

impl Search {
    /// Learns from a clause that is false, and jumps back; or ends.
    fn conflict(&mut self, cnf: &Cnf, number: ClauseRef, learnt: u32) -> Result<Turn, AllocError>
        requires state { IsState cnf.now self.old }
        requires within { length self.old.lines.items ≤ learnt }
        requires inside { number < length self.old.arena }
        requires untrue { IsFalse (slice_index_or self.old.arena number []) self.old.trail }
        ensures { IfOk result (IsTurned cnf.now learnt self.old self.new) }
    {
        let Learned { line, jump } = self.analyse(cnf, number)?;
        match jump {
            Some(jump) => self.assert_line(cnf, line, jump, learnt),
            None => self.refute(cnf, line, learnt),
        }
    }

    /// Jumps by the clause of a line, which is added where its clause does not stand yet.
    fn assert_line(
        &mut self,
        cnf: &Cnf,
        line: Line,
        jump: Jump,
        learnt: u32,
    ) -> Result<Turn, AllocError>
        requires state { IsState cnf.now self.old }
        requires within { length self.old.lines.items ≤ learnt }
        requires good { IsGoodLine cnf.now.vars self.old.arena line }
        requires sorted { IsClause line.clause }
        requires asserts { Asserts line.clause self.old.trail jump }
        ensures { IfOk result (IsTurned cnf.now learnt self.old self.new) }
    {
        match self.find(&line) {
            Some(number) => self.assert_known(cnf, jump, number, learnt),
            None => self.learn(cnf, line, jump, learnt),
        }
    }

    /// The number of the clause that is the line's.
    fn find(&self, line: &Line) -> Option<ClauseRef>
        requires { length self.now.arena < NO_CLAUSE }
        ensures some { IfSome result (IsNumberOf self.now.arena line.now.clause) }
        ensures none { IfNone result ((k : ℕ) → k < length self.now.arena
            → slice_index_or self.now.arena k [] ≢ line.now.clause) }
    {
        self.arena.find(&line.clause)
    }

    /// Decides that a literal is true.
    fn decide(&mut self, cnf: &Cnf, literal: PackedLit, learnt: u32) -> Result<Turn, AllocError>
        requires state { IsState cnf.now self.old }
        requires within { length self.old.lines.items ≤ learnt }
        requires open { IsOpen self.old.trail literal }
        ensures { IfOk result (IsTurned cnf.now learnt self.old self.new) }
    {
        let _vars = cnf.vars;
        let arena = &mut self.arena;
        let trail = &mut self.trail;
        decide(trail, arena, literal)?;
        Ok(Turn::Again)
    }

    /// Decides, or looks at all clauses where the order has no literal left.
    fn decide_next(&mut self, cnf: &Cnf, learnt: u32) -> Result<Turn, AllocError>
        requires state { IsState cnf.now self.old }
        requires within { length self.old.lines.items ≤ learnt }
        ensures { IfOk result (IsTurned cnf.now learnt self.old self.new) }
    {
        let trail = &mut self.trail;
        match pick(&mut self.order, trail) {
            Some(literal) => self.decide(cnf, literal, learnt),
            None => self.check_model(cnf, learnt),
        }
    }

    /// Ends with a model, or decides a literal of a clause of which none is true.
    fn check_model(&mut self, cnf: &Cnf, learnt: u32) -> Result<Turn, AllocError>
        requires state { IsState cnf.now self.old }
        requires within { length self.old.lines.items ≤ learnt }
        ensures { IfOk result (IsTurned cnf.now learnt self.old self.new) }
    {
        let arena = &mut self.arena;
        let trail = &mut self.trail;
        match unsatisfied(arena, trail) {
            Some(number) => match open_literal(trail, arena.clause(number)) {
                Some(literal) => self.decide(cnf, literal, learnt),
                None => self.conflict(cnf, number, learnt),
            },
            None => Ok(Turn::Satisfied),
        }
    }

    /// Propagates, and keeps the state.
    pub(crate) fn propagate(&mut self, cnf: &Cnf) -> Result<Option<ClauseRef>, AllocError>
        requires { IsState cnf.now self.old }
        ensures state { OnOk result (IsState cnf.now self.new) }
        ensures lines { OnOk result (self.new.lines.items ≡ self.old.lines.items) }
        ensures least { OnOk result ((n : ℕ) → rank n self.new ≤ rank n self.old) }
        ensures conflict { IfOk result (IsPropagated self.new.arena self.new.trail) }
    {
        let _vars = cnf.vars;
        let found = self.propagate_trail()?;
        Ok(found)
    }

    /// Decides, or learns from a clause that is false.
    pub(crate) fn step(
        &mut self,
        cnf: &Cnf,
        found: Option<ClauseRef>,
        learnt: u32,
    ) -> Result<Turn, AllocError>
        requires state { IsState cnf.now self.old }
        requires within { length self.old.lines.items ≤ learnt }
        requires conflict { IsPropagated self.old.arena self.old.trail found }
        ensures { IfOk result (IsTurned cnf.now learnt self.old self.new) }
    {
        match found {
            Some(number) => self.conflict(cnf, number, learnt),
            None => self.decide_next(cnf, learnt),
        }
    }
}

impl Search {
    /// Makes the literals of unit clauses true; the number of a clause that is false, if one is.
    fn force_units(&mut self, cnf: &Cnf) -> Result<Option<ClauseRef>, AllocError>
        requires { IsState cnf.now self.old }
        ensures state { OnOk result (IsState cnf.now self.new) }
        ensures lines { OnOk result (self.new.lines.items ≡ self.old.lines.items) }
        ensures conflict { IfOk result (IsPropagated self.new.arena self.new.trail) }
    {
        let _vars = cnf.vars;
        let arena = &mut self.arena;
        let trail = &mut self.trail;
        let found = force_units(arena, trail)?;
        Ok(found)
    }

    /// Propagates the unit clauses; the number of a clause that is false, if one is.
    pub(crate) fn begin(&mut self, cnf: &Cnf) -> Result<Option<ClauseRef>, AllocError>
        requires { IsState cnf.now self.old }
        ensures state { OnOk result (IsState cnf.now self.new) }
        ensures lines { OnOk result (self.new.lines.items ≡ self.old.lines.items) }
        ensures conflict { IfOk result (IsPropagated self.new.arena self.new.trail) }
    {
        match self.force_units(cnf)? {
            Some(number) => Ok(Some(number)),
            None => self.propagate(cnf),
        }
    }
}

/// The place of the first decision from a place on, or the height where there is none.
fn first_decision(trail: &Trail, from: usize) -> usize
    requires { IsTrail trail.now }
    ensures { result ≤ height trail.now }
{
    for place in from..trail.lits.len() {
        if trail.reason(place).is_none() {
            return place;
        }
    }
    trail.lits.len()
}

/// Watches the clauses that are kept, but for those of which a literal is true for good.
fn watch_kept(
    watches: &mut Watches,
    quality: &Quality,
    arena: &Arena,
    ground: &Trail,
) -> Result<(), AllocError>
    requires { length arena.now < NO_CLAUSE }
{
    watches.reset();
    for number in 0..arena.len() {
        let reference = ClauseRef::new(number);
        let clause = arena.clause(reference);
        if quality.is_kept(number) && !is_settled(ground, clause) {
            watch_clause(watches, ground, clause, reference)?;
        }
    }
    Ok(())
}

/// Whether a literal of the clause is true.
fn is_settled(trail: &Trail, clause: &[PackedLit]) -> bool {
    clause
        .iter()
        .any(|literal| trail.when_false(literal.opposite()) != NO_PLACE)
}

/// Puts the variables of the literals from the place on into the order again.
fn release(order: &mut Order, trail: &Trail, from: usize) -> Result<(), AllocError> {
    for place in from..trail.lits.len() {
        order.release(trail.lits[place])?;
    }
    Ok(())
}

/// Raises the activities of the variables that the analysis met.
fn bump(order: &mut Order, analysis: &Analysis) {
    for literal in &analysis.touched {
        order.bump(literal.var());
    }
    order.decay();
}

/// What a conflict teaches.
#[derive(Drop)]
pub(crate) struct Learned {
    pub(crate) line: Line,
    pub(crate) jump: Option<Jump>,
}
