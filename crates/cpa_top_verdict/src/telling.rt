//! A program, analyses and a configuration come to a verdict and the text of its report: `IsTold`
//! of `specs/Verdicts.antt`; shown with `proofs/Verdicts.antt`.
ghost use Rattle.std.specs.Prelude.{length, map, IfOk};
ghost use Rattle.cpa_model.specs.Programs.{IsWellFormed};
ghost use Rattle.cpa_composite.specs.Components.{ArePlaces, picked};
ghost use Rattle.cpa_top_verdict.specs.Verdicts.{IsTold};

use crate::analysing::answer_on;
use crate::reporting::{Told, told_of};
use cfa_build::build;
use cpa_config::Config;
use cpa_iface::Analysis;
use cpa_model::Program;
use std::alloc::{AllocError, Global};

/// What comes of a program, by the analyses that the configuration picks, in its order and by its
/// rules. Analyses of several types come as one, `Handed` of `cpa_composite`.
pub fn tell<A: Analysis>(
    alloc: Global,
    program: &Program,
    analyses: Vec<A>,
    config: &Config,
) -> Result<Told, AllocError>
    requires well_formed { IsWellFormed program.now }
    requires picks { ArePlaces (length analyses.items) config.now.picks }
    ensures { IfOk result (IsTold program.now
        (picked (map A.meaning analyses.items) config.now.picks) config.now) }
{
    let cfa = build(alloc, program)?;
    let answer = answer_on(alloc, &cfa, analyses, config)?;
    told_of(alloc, program, &cfa, answer, config.model)
}
