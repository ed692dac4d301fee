//! The job of the command `bench`: the verdict on the text of a measurement, and the counts of its
//! run (`IsMeasuredBy` of `specs/Ends.antt`); shown in `proofs/Benches.antt`.
ghost use Rattle.std.specs.Prelude.{◌≡◌, ◌≤◌, length, map, IfOk, IfErr};
ghost use Rattle.std.specs.String.{string_bytes};
ghost use Rattle.cpa_model.specs.Programs.{IsWellFormed};
ghost use Rattle.cpa_composite.specs.Components.{ArePlaces};
ghost use Rattle.cpa_top_bench.specs.Configurations.{IsBenchConfig};
ghost use Rattle.cpa_top_words.specs.Jobs.{bench};
ghost use Rattle.cpa_top_words.specs.declared.job.TheConstants.{MAX_BENCH};
ghost use Rattle.cpa_top_jobs.specs.Files.{Files, NoReadFailed};
ghost use Rattle.cpa_top_jobs.specs.Refusals.{IsCounted, IsDone, IsLackRefused};

use crate::conclusion::Conclusion;
use crate::files::program_of;
use crate::refusal::Refusal;
use crate::verify_job::{names_of, verdict_status};
use cpa_config::Config;
use cpa_iface::Analysis;
use cpa_ints::DataModel;
use cpa_model::Program;
use cpa_top_bench::{bench_config, bench_line, bench_text, measure};
use std::alloc::{AllocError, Global};

/// The configuration of a measurement for the names of the handed analyses.
fn config_for(alloc: Global, names: &[String]) -> Result<Config, Refusal>
    ensures config { IfOk result (IsBenchConfig (map string_bytes names.now)) }
    ensures places { IfOk result (λ config. ArePlaces (length names.now) config.picks) }
    ensures refused { IfErr result (IsLackRefused (map string_bytes names.now)) }
{
    match bench_config(alloc, names)? {
        Some(config) => Ok(config),
        None => Err(Refusal::LacksAnalysis),
    }
}

/// What comes of the program of a measurement of so many functions.
fn conclude<A: Analysis>(
    alloc: Global,
    functions: u32,
    program: &Program,
    analyses: Vec<A>,
    config: &Config,
) -> Result<Conclusion, AllocError>
    requires well_formed { IsWellFormed program.now }
    requires places { ArePlaces (length analyses.items) config.now.picks }
    ensures { IfOk result
        (IsCounted functions (map A.meaning analyses.items) config.now program.now) }
{
    let measured = measure(alloc, program, analyses, config)?;
    Ok(Conclusion {
        status: verdict_status(measured.verdict),
        text: bench_line(alloc, functions, measured)?.into_bytes(),
    })
}

/// Verifies the text of a measurement of so many functions, and counts.
pub fn bench<A: Analysis>(
    alloc: Global,
    functions: u32,
    analyses: Vec<A>,
) -> Result<Conclusion, Refusal>
    requires { functions ≤ MAX_BENCH }
    ensures { (files : Files) → NoReadFailed files
        → IsDone files (map A.meaning analyses.items) (bench functions) result }
{
    let names = names_of(alloc, analyses.as_slice())?;
    let config = config_for(alloc, names.as_slice())?;
    let text = bench_text(alloc, functions)?;
    let program = program_of(alloc, text.as_slice(), DataModel::Lp64)?;
    Ok(conclude(alloc, functions, &program, analyses, &config)?)
}
