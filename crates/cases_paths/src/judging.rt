//! Rows on what `judge` answers, within the budgets of a row. Proved safe by the checker alone.

ghost use Rattle.cpa_iface.specs.Meanings.{IsPathOf};
ghost use Rattle.cpa_model.specs.Automata.{IsAutomaton};

use crate::told::Told;
use cases_reader::{RowFault, index_of_word, push_number, push_word};
use cpa_model::{Cfa, Path};
use cpa_path::{Judged, judge};
use std::alloc::{AllocError, Global};

/// The budgets of a judgement.
#[derive(Clone, Copy)]
pub struct Limits {
    /// The most lines that may be learnt.
    pub learnt: u32,
    /// The most that a path may weigh which is put to the solver.
    pub gates: u64,
}

/// The budgets of these words, `LEARNT GATES`.
pub fn limits_of(words: &[&str]) -> Result<Limits, RowFault> {
    let [learnt, gates] = words else {
        return Err(RowFault::Unreadable);
    };
    let learnt = index_of_word(learnt)?;
    let gates = gates.parse::<u64>()?;
    Ok(Limits { learnt, gates })
}

/// `judge LEARNT GATES : EDGE ..`: `run STEPS`, `none`, `learnt LINES` or `gates WEIGHT`. With
/// `inputs` in the place of `judge` the inputs of a run are told, since there are these alone.
pub fn push_judged(
    alloc: Global,
    out: &mut String,
    cfa: &Cfa,
    path: &Path,
    told: Told,
    limits: &[&str],
) -> Result<(), RowFault>
    requires automaton { IsAutomaton cfa.now }
    requires path { IsPathOf cfa.now path.now }
{
    let Limits { learnt, gates } = limits_of(limits)?;
    let pushed = push_judgement(out, told, &judge(alloc, cfa, path, learnt, gates)?);
    Ok(pushed?)
}

/// What was judged of a path.
fn push_judgement(out: &mut String, told: Told, judged: &Judged) -> Result<(), AllocError> {
    match judged {
        Judged::Run { inputs, steps } => push_run(out, told, inputs, *steps),
        Judged::NoRun => push_word(out, "none"),
        Judged::Learnt { lines } => {
            let count = lines.len();
            write!(out, " learnt {count}")
        }
        Judged::Gates { weight } => write!(out, " gates {weight}"),
    }
}

/// How many steps a run makes, and which inputs it takes.
fn push_run(out: &mut String, told: Told, inputs: &[i128], steps: u64) -> Result<(), AllocError> {
    write!(out, " run {steps}")?;
    if let Told::All = told {
        push_word(out, "inputs")?;
        for input in inputs {
            push_number(out, *input)?;
        }
    }
    Ok(())
}
