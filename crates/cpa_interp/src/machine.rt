//! A machine that holds a state of an execution and changes it in place, edge by edge. What a turn
//! makes of it is `specs/Turns.antt`; shown in `proofs/Turning.antt`.
ghost use Rattle.std.specs.Prelude.{◌≡◌, ◌<◌, ◌^◌, ◌↔◌, IsTrue, List, ℤ, length};
ghost use Rattle.std.specs.Prelude.{Bool, IfOk, IfSome, IfNone, IsSomeAnd, false, map, slice_get};
ghost use Rattle.std.specs.Prelude.{slice_set};
ghost use Rattle.std.specs.List.{Contains};
ghost use Rattle.cpa_model.specs.declared.automaton.Edge.{Edge};
ghost use Rattle.cpa_model.specs.declared.program.Program.{Program};
ghost use Rattle.cpa_model.specs.Automata.{IsAutomaton, IsAutomatonOf, IsStateOf, initial_state};
ghost use Rattle.cpa_model.specs.Automata.{rank_of};
ghost use Rattle.cpa_model.specs.Programs.{IsWellFormed};
ghost use Rattle.cpa_model.specs.Steps.{Assigns};
ghost use Rattle.cpa_expr.specs.Values.{HasTruth, value_of};
ghost use Rattle.cpa_ints.specs.Integers.{IsInRange};
ghost use Rattle.cpa_interp.specs.Turns.{AreAlike, AreWaysOf, IsOpen, IsWay, Leave, Performs};
ghost use Rattle.cpa_interp.specs.Turns.{Turns, state_of};
ghost use Rattle.std.specs.List.Sorted.{IsNonDecreasingBy};

use crate::edges::with_rank;
use crate::outcome::Outcome;
use crate::stores::{accepts, assign, put, starts};
use cpa_model::{Act, Cell, Cfa, Edge, Expr, Seq, Store, has_truth, step_stack, steps_keep_states};
use std::alloc::{AllocError, Global};

/// A state of an execution, and how many inputs it has taken.
#[derive(Drop)]
pub(crate) struct Machine {
    pub(crate) point: u32,
    /// The sites of the calls to return to, the last one on top.
    pub(crate) calls: Vec<u32>,
    pub(crate) store: Store,
    pub(crate) taken: u32,
}

impl Machine {
    /// A machine in the initial state.
    pub(crate) fn new(alloc: Global, cfa: &Cfa) -> Result<Machine, AllocError>
        ensures { IfOk result (λ m. (state_of m ≡ initial_state cfa.now) × (m.taken ≡ 0)) }
    {
        let values = starts(alloc, cfa.cells.as_slice())?;
        Ok(Machine {
            point: cfa.start,
            calls: Vec::new(alloc),
            store: Store {
                values: Seq::from_vec(values),
            },
            taken: 0,
        })
    }

    /// Makes a step along one of the edges that leave the point, or says why there is none.
    pub(crate) fn turn(
        &mut self,
        alloc: Global,
        cfa: &Cfa,
        edges: &[Edge],
        inputs: &[i128],
    ) -> Result<Option<Outcome>, AllocError>
        requires automaton { IsAutomaton cfa.now }
        requires leave { Leave cfa.now self.old.point edges.now }
        requires state { IsStateOf cfa.now (state_of self.old) }
        requires few { length inputs.now < 2 ^ 32 }
        ensures { (P : Program) → IsWellFormed P → IsAutomatonOf P cfa.now
            → IfOk result (λ held. Turns P inputs.now self.old self.new held) }
    {
        steps_keep_states();
        let Some(edge) = self.pick(edges) else {
            return Ok(Some(Outcome::Trapped { point: self.point }));
        };
        match self.perform(alloc, cfa.cells.as_slice(), &edge.act, inputs)? {
            Some(held) => Ok(Some(held)),
            None => {
                self.point = edge.to;
                Ok(None)
            }
        }
    }

    /// The edge that is open: the test that holds, the return to the call on top, or the one edge
    /// that is there.
    fn pick<'e>(&self, edges: &'e [Edge]) -> Option<&'e Edge>
        requires { AreAlike edges.now }
        ensures some { IfSome result (λ e. Contains edges.now e.now
            × IsOpen e.now.act self.now.calls.items self.now.store.values) }
        ensures none { IfNone result ((e : Edge) → Contains edges.now e
            → IsOpen e.act self.now.calls.items self.now.store.values → ⊥) }
    {
        let first = edges.first()?;
        match &first.act {
            Act::Assume { test, .. } => way_of(edges, test, &self.store),
            Act::Return { .. } => with_rank(edges, *self.calls.last()?),
            _ => Some(first),
        }
    }

    /// Does to the stack and to the store what the act says, or says why it cannot.
    fn perform(
        &mut self,
        alloc: Global,
        cells: &[Cell],
        act: &Act,
        inputs: &[i128],
    ) -> Result<Option<Outcome>, AllocError>
        requires few { length inputs.now < 2 ^ 32 }
        requires open { IsOpen act.now self.old.calls.items self.old.store.values }
        ensures { IfOk result
            (λ held. Performs cells.now act.now inputs.now self.old self.new held) }
    {
        match act {
            Act::Skip | Act::Assume { .. } => Ok(None),
            Act::Call { .. } | Act::Return { .. } => {
                step_stack(act, &mut self.calls)?;
                Ok(None)
            }
            Act::Assign {
                base,
                len,
                index,
                value,
            } => {
                if assign(alloc, &mut self.store, *base, *len, index, value) {
                    Ok(None)
                } else {
                    Ok(Some(Outcome::Trapped { point: self.point }))
                }
            }
            Act::Input { cell } => Ok(self.input(alloc, cells, *cell, inputs)),
        }
    }

    /// Gives the cell the next input, or says why it cannot.
    fn input(
        &mut self,
        alloc: Global,
        cells: &[Cell],
        cell: u32,
        inputs: &[i128],
    ) -> Option<Outcome>
        requires few { length inputs.now < 2 ^ 32 }
        ensures { Performs cells.now (Act.Input cell) inputs.now self.old self.new result }
    {
        match inputs.get(self.taken as usize) {
            None => Some(Outcome::InputsShort { point: self.point }),
            Some(number) => {
                if accepts(cells, cell, *number) {
                    put(alloc, &mut self.store, cell as usize, *number);
                    self.taken += 1;
                    None
                } else {
                    Some(Outcome::BadInput { place: self.taken })
                }
            }
        }
    }
}

/// The way from the test that its truth opens; none where the test traps.
fn way_of<'e>(edges: &'e [Edge], test: &Expr, store: &Store) -> Option<&'e Edge>
    requires ordered { IsNonDecreasingBy (λ (e : Edge). rank_of e.act) edges.now }
    requires tests { AreWaysOf test.now edges.now }
    ensures some { IfSome result (λ e. Contains edges.now e.now
        × IsWay test.now e.now.act store.now.values) }
    ensures none { IfNone result ((e : Edge) → Contains edges.now e
        → IsWay test.now e.act store.now.values → ⊥) }
{
    let rank = way_rank(test, store)?;
    with_rank(edges, rank)
}

/// The rank of the way from the test that its truth opens; none where the test traps.
fn way_rank(test: &Expr, store: &Store) -> Option<u32>
    ensures some { IfSome result (λ rank. (holds : Bool) × HasTruth store.now.values test.now holds
        × (rank ≡ rank_of (Act.Assume test.now holds))) }
    ensures none { IfNone result ((holds : Bool) → HasTruth store.now.values test.now holds → ⊥) }
{
    if has_truth(test, true, store) {
        Some(0)
    } else if has_truth(test, false, store) {
        Some(1)
    } else {
        None
    }
}
