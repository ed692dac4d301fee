//! Interpolants along a path in the program's own words, or a model of the path's query, by
//! `IsFound` of specs/Words. Proved with `proofs/Whole.antt`.

ghost use Rattle.std.specs.Prelude.{◌≡◌, ◌<◌, length, IfOk, IsTrue};
ghost use Rattle.std.specs.List.{AllByRecursion};
ghost use Rattle.cpa_model.specs.Automata.{IsAutomaton};
ghost use Rattle.cpa_folds.specs.Along.{acts_along};
ghost use Rattle.cpa_interpolant_rules.specs.Found.{IsLight};
ghost use Rattle.cpa_interpolant_rules.specs.Interpolants.{one};
ghost use Rattle.cpa_interpolant_words.specs.Words.{IsFound};

use crate::asking::{Asked, Limits, ask};
use crate::checking::are_interpolants;
use crate::choosing::choose;
use crate::forms::{part_before, part_behind, weight_of};
use cpa_expr::{Expr, Store, constant};
use cpa_form_rules::forms_are_runs;
use cpa_ints::{Boxed, IntType};
use cpa_model::{Cfa, edges_are_sound, steps_keep_states};
use std::alloc::{AllocError, Global};

/// The most lines that a search may learn that is asked of a candidate.
const CANDIDATE_LINES: u32 = 2_000;

/// What comes of looking for interpolants along a path.
#[derive(Drop)]
pub enum Words {
    /// Interpolants of the path.
    Cuts(Vec<Expr>),
    /// A model of the path's query from any store.
    Model(Store),
    /// Neither was found.
    Open,
}

/// The int 1.
fn int_one(alloc: Global) -> Result<Boxed<Expr>, AllocError>
    ensures { IfOk result (λ e. e ≡ one) }
{
    constant(alloc, IntType::I32, 1)
}

/// Whether the first cut is as light as is allowed.
fn is_light(alloc: Global, cfa: &Cfa, path: &[u32], gates: u64) -> Result<bool, AllocError>
    requires path { AllByRecursion (λ edge. edge < length cfa.now.edges) path.now }
    ensures { IfOk result (λ yes. IsTrue yes
        → IsLight cfa.now.cells gates (acts_along cfa.now path.now)) }
{
    if path.is_empty() {
        return Ok(false);
    }
    let one = int_one(alloc)?;
    let before = part_before(alloc, cfa, one.get(), path[0])?;
    let behind = part_behind(alloc, cfa, &path[1..])?;
    Ok(weight_of(&before, &behind) <= gates)
}

/// Interpolants of a path that has no run.
fn cuts(alloc: Global, cfa: &Cfa, path: &[u32], limits: Limits) -> Result<Words, AllocError>
    requires automaton { IsAutomaton cfa.now }
    requires path { AllByRecursion (λ edge. edge < length cfa.now.edges) path.now }
    ensures { IfOk result (IsFound cfa.now.cells limits.gates (acts_along cfa.now path.now)) }
{
    let chosen = choose(alloc, cfa, path, limits)?;
    match chosen {
        None => Ok(Words::Open),
        Some(exprs) => {
            let found = are_interpolants(alloc, cfa, path, &exprs, limits)?;
            if found {
                Ok(Words::Cuts(exprs))
            } else {
                Ok(Words::Open)
            }
        }
    }
}

/// Looks for a model of the path's query, and then for interpolants along it. Each search writes at
/// most `learnt` lines, and that for a candidate at most 2,000; no query weighs more than `gates`.
pub fn look(
    alloc: Global,
    cfa: &Cfa,
    path: &[u32],
    learnt: u32,
    gates: u64,
) -> Result<Words, AllocError>
    requires automaton { IsAutomaton cfa.now }
    requires path { AllByRecursion (λ edge. edge < length cfa.now.edges) path.now }
    ensures { IfOk result (IsFound cfa.now.cells gates (acts_along cfa.now path.now)) }
{
    forms_are_runs();
    edges_are_sound();
    steps_keep_states();
    let light = is_light(alloc, cfa, path, gates)?;
    if !light {
        return Ok(Words::Open);
    }
    let form = part_behind(alloc, cfa, path)?;
    let asked = ask(alloc, &form, Limits { learnt, gates })?;
    match asked {
        Asked::Sometimes(store) => Ok(Words::Model(store)),
        Asked::Never => {
            let learnt = learnt.min(CANDIDATE_LINES);
            cuts(alloc, cfa, path, Limits { learnt, gates })
        }
        Asked::Open => Ok(Words::Open),
    }
}
