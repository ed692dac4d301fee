//! The walk over the cuts of a path, `IsAlong` of specs/Along, by one thread or by several.
//! Proved with `proofs/Walked.antt`.

ghost use Rattle.std.specs.Prelude.{◌≡◌, ◌+◌, ◌<◌, ◌≤◌, ℕ, ◌∷◌, [], length, IfOk, IfSome};
ghost use Rattle.std.specs.List.{AllByRecursion};
ghost use Rattle.cpa_model.specs.Automata.{IsAutomaton};
ghost use Rattle.cpa_folds.specs.Along.{acts_along};
ghost use Rattle.cpa_interpolant_rules.specs.Interpolants.{one};
ghost use Rattle.cpa_interpolant.specs.Along.{IsAlong};
ghost use Rattle.cpa_interpolant.specs.Walked.{IsNextAnswer, IsStep, IsWalked, RunsIfRun};

use crate::outcome::Along;
use cpa_audit::Gate;
use cpa_expr::{Expr, constant};
use cpa_interpolant_answers::{Answer, answer_cut, answer_cut_par, model_of};
use cpa_interpolant_words::{Words, look};
use cpa_ints::IntType;
use cpa_model::{Cfa, Path};
use std::alloc::{AllocError, Global};
use std::thread::Threads;

/// A walk over cuts: expressions so far, or its end.
#[derive(Drop)]
enum Walk {
    On(Vec<Expr>),
    Ended(Along),
}

/// The int 1, before the first edge.
fn first(alloc: Global) -> Result<Vec<Expr>, AllocError>
    ensures { IfOk result (λ exprs. exprs.items ≡ one ∷ []) }
{
    let mut exprs = Vec::new(alloc);
    let one = constant(alloc, IntType::I32, 1)?;
    exprs.push(one.into_inner())?;
    Ok(exprs)
}

/// The number of the next cut. There are 2^32 - 1 numbers.
fn cut_of(exprs: &Vec<Expr>) -> Result<u32, AllocError>
    ensures { IfOk result (λ cut. cut ≡ length exprs.now.items) }
{
    let count = exprs.len();
    if count > u32::MAX as usize {
        return Err(AllocError);
    }
    Ok(count as u32)
}

/// Goes on behind a cut that was answered so.
fn step(
    alloc: Global,
    cfa: &Cfa,
    path: &[u32],
    mut exprs: Vec<Expr>,
    answer: Answer,
) -> Result<Walk, AllocError>
    requires automaton { IsAutomaton cfa.now }
    requires path { AllByRecursion (λ edge. edge < length cfa.now.edges) path.now }
    requires runs { RunsIfRun cfa.now.cells (acts_along cfa.now path.now) answer }
    ensures { (learnt gates : ℕ)
        → IsNextAnswer cfa.now learnt gates (acts_along cfa.now path.now) exprs.items answer
        → IfOk result (IsStep cfa.now (acts_along cfa.now path.now) learnt gates
        (length exprs.items)) }
{
    let cut = cut_of(&exprs)?;
    match answer {
        Answer::Next(expr) => {
            exprs.push(expr.into_inner())?;
            Ok(Walk::On(exprs))
        }
        Answer::Run => {
            let store = model_of(alloc, cfa, path)?;
            Ok(Walk::Ended(Along::Model { store }))
        }
        Answer::Learnt(lines) => Ok(Walk::Ended(Along::Learnt { exprs, cut, lines })),
        Answer::Gates(weight) => Ok(Walk::Ended(Along::Gates { exprs, cut, weight })),
        Answer::Large(lines) => Ok(Walk::Ended(Along::Large { exprs, cut, lines })),
    }
}

/// Behind the last cut. A path without edges has no cut, and any store is a model of its query.
fn ended(alloc: Global, cfa: &Cfa, path: &[u32], exprs: Vec<Expr>) -> Result<Along, AllocError>
    requires automaton { IsAutomaton cfa.now }
    requires path { AllByRecursion (λ edge. edge < length cfa.now.edges) path.now }
    ensures { (learnt gates : ℕ)
        → IsWalked cfa.now learnt gates (acts_along cfa.now path.now) exprs.items
        → length exprs.items ≡ length path.now + 1
        → IfOk result (IsAlong cfa.now (acts_along cfa.now path.now) learnt gates) }
{
    if path.is_empty() {
        let store = model_of(alloc, cfa, path)?;
        return Ok(Along::Model { store });
    }
    Ok(Along::Cuts { exprs })
}

/// What is found in the program's own words, or nothing.
fn in_words(
    alloc: Global,
    cfa: &Cfa,
    path: &[u32],
    learnt: u32,
    gates: u64,
) -> Result<Option<Along>, AllocError>
    requires automaton { IsAutomaton cfa.now }
    requires path { AllByRecursion (λ edge. edge < length cfa.now.edges) path.now }
    ensures { IfOk result (λ found. IfSome found
        (IsAlong cfa.now (acts_along cfa.now path.now) learnt gates)) }
{
    let found = look(alloc, cfa, path, learnt, gates)?;
    match found {
        Words::Cuts(exprs) => Ok(Some(Along::Cuts { exprs })),
        Words::Model(store) => Ok(Some(Along::Model { store })),
        Words::Open => Ok(None),
    }
}

/// Interpolants along the path: in the program's own words, where they are found; else bit by bit,
/// cut after cut, where each cut is answered with the expression before it. The two parts of a cut
/// may weigh at most `gates` together, and a search may write at most `learnt` lines.
pub fn along(
    alloc: Global,
    cfa: &Cfa,
    path: &Path,
    learnt: u32,
    gates: u64,
) -> Result<Along, AllocError>
    requires automaton { IsAutomaton cfa.now }
    requires path { AllByRecursion (λ edge. edge < length cfa.now.edges) path.now.edges }
    ensures { IfOk result
        (IsAlong cfa.now (acts_along cfa.now path.now.edges) learnt gates) }
{
    let edges = path.edges.as_slice();
    let worded = in_words(alloc, cfa, edges, learnt, gates)?;
    if let Some(along) = worded {
        return Ok(along);
    }
    let mut exprs = first(alloc)?;
    for i in 0..edges.len() {
        let found = answer_cut(
            alloc,
            cfa,
            &exprs[i],
            edges[i],
            &edges[i + 1..],
            learnt,
            gates,
        )?;
        match step(alloc, cfa, edges, exprs, found)? {
            Walk::On(more) => exprs = more,
            Walk::Ended(along) => return Ok(along),
        }
    }
    ended(alloc, cfa, edges, exprs)
}

/// The same for every number of workers, by so many threads at each cut: they make the partials of
/// its lines, and part p tells the gate as it begins.
pub fn along_par<R: Threads + Sync, G: Gate>(
    rt: &R,
    alloc: Global,
    cfa: &Cfa,
    path: &Path,
    learnt: u32,
    gates: u64,
    workers: u32,
    gate: &G,
) -> Result<Along, AllocError>
    requires automaton { IsAutomaton cfa.now }
    requires path { AllByRecursion (λ edge. edge < length cfa.now.edges) path.now.edges }
    requires workers { (0 < workers) × (workers ≤ 64) }
    ensures { IfOk result
        (IsAlong cfa.now (acts_along cfa.now path.now.edges) learnt gates) }
{
    let edges = path.edges.as_slice();
    let worded = in_words(alloc, cfa, edges, learnt, gates)?;
    if let Some(along) = worded {
        return Ok(along);
    }
    let mut exprs = first(alloc)?;
    for i in 0..edges.len() {
        let found = answer_cut_par(
            rt,
            alloc,
            cfa,
            &exprs[i],
            edges[i],
            &edges[i + 1..],
            learnt,
            gates,
            workers,
            gate,
        )?;
        match step(alloc, cfa, edges, exprs, found)? {
            Walk::On(more) => exprs = more,
            Walk::Ended(along) => return Ok(along),
        }
    }
    ended(alloc, cfa, edges, exprs)
}
