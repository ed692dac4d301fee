//! Runs of facts, which give values to consecutive cells, told by a number. What the run of a list
//! of facts is, is `run_of` of `specs/Runs.antt`; what it says of them, `specs/lemmas/Runs.antt`.
ghost use Rattle.std.specs.Prelude.{◌≡◌, ◌≤◌, ◌<◌, ◌+◌, ◌^◌, length};
ghost use Rattle.cpa_facts.specs.Prints.{mixed};
ghost use Rattle.cpa_facts.specs.Runs.{run_at, run_more, run_of};

use crate::fact::Fact;

/// How many prints there are.
const PRINTS: u64 = 0x1_0000_0000;

/// The values that facts give to consecutive cells, told by a number.
#[derive(Clone, Copy)]
pub struct Run {
    /// The first cell.
    pub first: u32,
    /// How many cells there are.
    pub count: u32,
    /// What is made of their values.
    pub print: u32,
    /// By what the print of a run is multiplied that this one follows.
    pub factor: u32,
}

/// The print of one value more.
pub fn mixed(print: u32, value: i128) -> u32
    ensures { result ≡ mixed print value }
{
    let low = (value.unsigned_abs() % PRINTS as u128) as u64;
    ((print as u64 * 31 + low) % PRINTS) as u32
}

/// No value yet.
fn run_at(first: u32) -> Run
    ensures { result ≡ run_at first }
{
    Run {
        first,
        count: 0,
        print: 0,
        factor: 1,
    }
}

/// One value more.
fn run_more(run: Run, value: i128) -> Run
    requires { run.count + 1 < 2 ^ 32 }
    ensures { result ≡ run_more run value }
{
    Run {
        first: run.first,
        count: run.count + 1,
        print: mixed(run.print, value),
        factor: ((run.factor as u64 * 31) % PRINTS) as u32,
    }
}

/// The run of the facts, where they are one.
pub(crate) fn run_of(facts: &[Fact]) -> Option<Run>
    requires { length facts.now < 2 ^ 32 }
    ensures { result ≡ run_of facts.now }
{
    let mut run = match facts {
        [Fact::Equals { cell, .. }, ..] => run_at(*cell),
        _ => return None,
    };
    for fact in facts {
        match fact {
            Fact::Equals { cell, value } => {
                if *cell as u64 != run.first as u64 + run.count as u64 {
                    return None;
                }
                run = run_more(run, *value);
            }
            _ => return None,
        }
    }
    Some(run)
}
