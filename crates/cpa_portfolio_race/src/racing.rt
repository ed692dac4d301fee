//! The answers of several analyses: the configurations are halved until one is left, and what the
//! halves give is joined. By `specs/Races.antt`, with `proofs/Halving.antt`.
ghost use Rattle.std.specs.Prelude.{◌≡◌, ◌<◌, ◌≤◌, ◌+◌, ◌++◌, length, map, IfOk, IsOkAnd};
ghost use Rattle.std.specs.Thread.{IsSync};
ghost use Rattle.cpa_model.specs.Automata.{IsAutomaton};
ghost use Rattle.cpa_composite.specs.Composites.{components};
ghost use Rattle.cpa_portfolio_race.specs.Races.{Agree, AreAnswers};

use crate::laws::answers_agree;
use cpa_audit::Gate;
use cpa_composite::Composite;
use cpa_config::Config;
use cpa_engine::{Answer, analyse};
use cpa_iface::Analysis;
use cpa_model::Cfa;
use std::alloc::{AllocError, Global};
use std::thread::{Threads, join};

/// The answer of one configuration, behind its gate.
fn answer_part<A: Analysis, G: Gate>(
    alloc: Global,
    cfa: &Cfa,
    gate: &G,
    part: u32,
    composites: &mut [Composite<A>],
    configs: &[Config],
) -> Result<Vec<Answer>, AllocError>
    requires automaton { IsAutomaton cfa.now }
    requires one { length composites.old ≡ 1 }
    requires sizes { length configs.now ≡ 1 }
    ensures { IfOk result (λ answers.
        AreAnswers cfa.now (map components composites.old) configs.now answers.items) }
{
    gate.enter(part);
    let answer = analyse(alloc, cfa, &mut composites[0], &configs[0])?;
    let mut answers = Vec::new(alloc);
    answers.push(answer)?;
    Ok(answers)
}

/// The answers of neighbours, after one another, where both halves had memory enough.
fn joined(
    front: Result<Vec<Answer>, AllocError>,
    back: Result<Vec<Answer>, AllocError>,
) -> Result<Vec<Answer>, AllocError>
    ensures { IfOk result (λ answers. IsOkAnd front (λ first. IsOkAnd back (λ second.
        answers.items ≡ first.items ++ second.items))) }
{
    let mut answers = front?;
    let mut behind = back?;
    answers.append(&mut behind)?;
    Ok(answers)
}

/// The answers of the configurations from `first` on.
#[cycle(parts)]
fn answer_parts<R: Threads + Sync, A: Analysis + Send, G: Gate>(
    rt: &R,
    alloc: Global,
    cfa: &Cfa,
    gate: &G,
    first: u32,
    composites: &mut [Composite<A>],
    configs: &[Config],
) -> Result<Vec<Answer>, AllocError>
    requires automaton { IsAutomaton cfa.now }
    requires sizes { length composites.old ≡ length configs.now }
    requires some { 0 < length configs.now }
    requires few { first + length configs.now ≤ 8 }
    ensures { IfOk result (λ answers.
        AreAnswers cfa.now (map components composites.old) configs.now answers.items) }
{
    if configs.len() == 1 {
        return answer_part(alloc, cfa, gate, first, composites, configs);
    }
    let half = configs.len() / 2;
    let (front_configs, back_configs) = configs.split_at(half);
    let (front, back) = composites.split_at_mut(half);
    answer_halves(
        rt,
        alloc,
        cfa,
        gate,
        first,
        front,
        back,
        front_configs,
        back_configs,
    )
}

/// The answers of two neighbouring rows of configurations, each a thread's work.
#[cycle(parts)]
fn answer_halves<R: Threads + Sync, A: Analysis + Send, G: Gate>(
    rt: &R,
    alloc: Global,
    cfa: &Cfa,
    gate: &G,
    first: u32,
    front: &mut [Composite<A>],
    back: &mut [Composite<A>],
    front_configs: &[Config],
    back_configs: &[Config],
) -> Result<Vec<Answer>, AllocError>
    requires automaton { IsAutomaton cfa.now }
    requires front { length front.old ≡ length front_configs.now }
    requires back { length back.old ≡ length back_configs.now }
    requires some { (0 < length front_configs.now) × (0 < length back_configs.now) }
    requires few { first + length front_configs.now + length back_configs.now ≤ 8 }
    ensures { IfOk result (λ answers.
        AreAnswers cfa.now (map components front.old ++ map components back.old)
        (front_configs.now ++ back_configs.now) answers.items) }
{
    let middle = first + front_configs.len() as u32;
    let (a, b) = join(
        rt,
        || -> Result<Vec<Answer>, AllocError>
            requires { IsSync R.row × IsSync G.row × IsAutomaton cfa.now
                × (length front.now ≡ length front_configs.now) × (0 < length front_configs.now)
                × (first + length front_configs.now ≤ 8) }
            ensures { IfOk result (λ answers. AreAnswers cfa.entry.now
                (map components front.entry.now) front_configs.entry.now answers.items) }
        { answer_parts(rt, alloc, cfa, gate, first, front, front_configs) },
        || -> Result<Vec<Answer>, AllocError>
            requires { IsSync R.row × IsSync G.row × IsAutomaton cfa.now
                × (length back.now ≡ length back_configs.now) × (0 < length back_configs.now)
                × (middle + length back_configs.now ≤ 8) }
            ensures { IfOk result (λ answers. AreAnswers cfa.entry.now
                (map components back.entry.now) back_configs.entry.now answers.items) }
        { answer_parts(rt, alloc, cfa, gate, middle, back, back_configs) },
    );
    joined(a, b)
}

/// The answer of each configuration on an automaton, by the composite beside it, in their order.
/// They are halved and joined; configuration p tells the gate as it begins. Want of memory in any
/// part refuses the whole.
pub fn race<R: Threads + Sync, A: Analysis + Send, G: Gate>(
    rt: &R,
    alloc: Global,
    cfa: &Cfa,
    composites: &mut [Composite<A>],
    configs: &[Config],
    gate: &G,
) -> Result<Vec<Answer>, AllocError>
    requires automaton { IsAutomaton cfa.now }
    requires sizes { length composites.old ≡ length configs.now }
    requires few { (0 < length configs.now) × (length configs.now ≤ 8) }
    ensures answers { IfOk result (λ answers.
        AreAnswers cfa.now (map components composites.old) configs.now answers.items) }
    ensures agree { IfOk result (λ answers. Agree answers.items) }
{
    answers_agree();
    answer_parts(rt, alloc, cfa, gate, 0, composites, configs)
}
