//! What a search finds, by its contract (`specs/Outcomes.antt`). Proved with
//! `proofs/Counting.antt`.

ghost use Rattle.std.specs.Prelude.{IfOk};
ghost use Rattle.std.specs.List.{AllByRecursion};
ghost use Rattle.cpa_cnf.specs.Lines.{AreBelow};
ghost use Rattle.cpa_sat.specs.Outcomes.{IsFound};

use cpa_cnf::Cnf;
use cpa_sat_search::{Found, solve};
use std::alloc::{AllocError, Global};

/// Searches for a model of the formula, or a refutation of at most `learnt` lines. Where neither is
/// found within `learnt` lines, it gives these: they are good, not empty, differ from each other
/// and from the formula's clauses. So it decides where `learnt` is at least 4^vars. Want of memory
/// is also answered where the formula has 2^31 variables, or 2^32 - 2 clauses would stand.
pub fn search(alloc: Global, cnf: &Cnf, learnt: u32) -> Result<Found, AllocError>
    requires { AllByRecursion (AreBelow cnf.now.vars) cnf.now.clauses }
    ensures { IfOk result (IsFound cnf.now learnt) }
{
    let found = solve(alloc, cnf, learnt)?;
    Ok(found)
}
