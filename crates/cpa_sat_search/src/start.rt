//! From a formula to a search, and from the end of the search to what it found
//! (`specs/Endings.antt`). Proved with `proofs/Loading.antt`.

ghost use Rattle.std.specs.Prelude.{◌≡◌, ◌<◌, ◌≤◌, ◌^◌, [], ◌∷◌, ◌++◌, length, IfOk, OnOk};
ghost use Rattle.std.specs.List.{AllByRecursion};
ghost use Rattle.cpa_cnf.specs.Clauses.{IsClause};
ghost use Rattle.cpa_cnf.specs.Lines.{AreBelow};
ghost use Rattle.cpa_cnf.specs.Models.{IsModel};
ghost use Rattle.cpa_sat_arena.specs.declared.literal.TheConstants.{NO_CLAUSE};
ghost use Rattle.cpa_sat_trail.specs.Findings.{AreSatisfied};
ghost use Rattle.cpa_sat_search.specs.Endings.{IsEnding};
ghost use Rattle.cpa_sat_search.specs.States.{AreLoaded, IsState};

use crate::analysis::Analysis;
use crate::engine::{Search, Turn};
use crate::found::Found;
use crate::quality::Quality;
use crate::redundancy::Redundancy;
use cpa_cnf::{Clause, Cnf, Line};
use cpa_sat_arena::Arena;
use cpa_sat_trail::{Order, Restarts, Trail, VARS_LIMIT, values, watch_all};
use std::alloc::{AllocError, Global};
use std::mem;

/// Adds a clause of a formula, whose literals rise.
fn load_clause(arena: &mut Arena, clause: &Clause) -> Result<(), AllocError>
    requires { AllByRecursion (λ l. l < 2 ^ 32) clause.now }
    ensures loaded { OnOk result (arena.new ≡ arena.old ++ clause.now ∷ []) }
    ensures sorted { OnOk result (IsClause clause.now) }
    ensures few { OnOk result (length arena.new < NO_CLAUSE) }
{
    let _sorted = clause.literals();
    arena.push(clause)?;
    Ok(())
}

/// The clauses of the formula.
fn load(alloc: Global, cnf: &Cnf) -> Result<Arena, AllocError>
    requires vars { cnf.now.vars < 2 ^ 31 }
    requires below { AllByRecursion (AreBelow cnf.now.vars) cnf.now.clauses }
    ensures { IfOk result (AreLoaded cnf.now (length cnf.now.clauses)) }
{
    let mut arena = Arena::new(alloc);
    for clause in &cnf.clauses {
        load_clause(&mut arena, clause)?;
    }
    Ok(arena)
}

/// A search at its beginning.
fn start(alloc: Global, cnf: &Cnf) -> Result<Search, AllocError>
    requires vars { cnf.now.vars < 2 ^ 31 }
    requires below { AllByRecursion (AreBelow cnf.now.vars) cnf.now.clauses }
    ensures state { IfOk result (IsState cnf.now) }
    ensures lines { IfOk result (λ s. length s.lines.items ≡ 0) }
{
    let arena = load(alloc, cnf)?;
    let trail = Trail::new(alloc, cnf.vars)?;
    let watches = watch_all(alloc, &arena, &trail)?;
    let analysis = Analysis::new(alloc, cnf.vars)?;
    let order = Order::new(alloc, cnf.vars)?;
    let redundancy = Redundancy::new(alloc, cnf.vars)?;
    let quality = Quality::new(alloc, arena.len())?;
    let lines = Vec::new(alloc);
    Ok(Search {
        alloc,
        arena,
        trail,
        analysis,
        lines,
        watches,
        order,
        restarts: Restarts::new(),
        redundancy,
        quality,
        next: 0,
        ground: 0,
    })
}

/// The model at the end of a search.
fn model(search: &mut Search, cnf: &Cnf) -> Result<Vec<bool>, AllocError>
    requires state { IsState cnf.now search.old }
    requires satisfied { AreSatisfied search.old.arena search.old.trail }
    ensures { IfOk result (λ v. IsModel cnf.now v.items) }
{
    let _vars = cnf.vars;
    let trail = &mut search.trail;
    let found = values(search.alloc, trail)?;
    Ok(found)
}

/// The lines at the end of a search.
fn lines(search: &mut Search) -> Vec<Line>
    ensures { result.items ≡ search.old.lines.items }
{
    mem::replace(&mut search.lines, Vec::new(search.alloc))
}

/// Decides, or learns from a clause that is false, and propagates, until the search ends.
fn run(search: &mut Search, cnf: &Cnf, learnt: u32) -> Result<Found, AllocError>
    requires state { IsState cnf.now search.old }
    requires within { length search.old.lines.items ≤ learnt }
    ensures { IfOk result (IsEnding cnf.now learnt) }
{
    let mut conflict = search.begin(cnf)?;
    loop {
        match search.step(cnf, conflict, learnt)? {
            Turn::Again => conflict = search.propagate(cnf)?,
            Turn::Satisfied => return Ok(Found::Model(model(search, cnf)?)),
            Turn::Refuted => return Ok(Found::Refuted(lines(search))),
            Turn::Spent => return Ok(Found::Spent(lines(search))),
        }
    }
}

/// Searches for a model of the formula, or a refutation of at most `learnt` lines. Where neither is
/// found within `learnt` lines, it gives these. Want of memory is also answered where the formula
/// has 2^31 variables, or more than 2^32 - 2 clauses would stand.
pub fn solve(alloc: Global, cnf: &Cnf, learnt: u32) -> Result<Found, AllocError>
    requires { AllByRecursion (AreBelow cnf.now.vars) cnf.now.clauses }
    ensures { IfOk result (IsEnding cnf.now learnt) }
{
    if cnf.vars >= VARS_LIMIT {
        return Err(AllocError);
    }
    let mut search = start(alloc, cnf)?;
    run(&mut search, cnf, learnt)
}
