//! The job of the command `verify`: the verdict on a program by the handed analyses that the
//! configuration picks (`IsVerified` of `specs/Ends.antt`); shown in `proofs/Stages.antt`.
ghost use Rattle.std.specs.Prelude.{◌≡◌, length, map, option_map, IfOk};
ghost use Rattle.std.specs.String.{string_bytes};
ghost use Rattle.cpa_model.specs.Programs.{IsWellFormed};
ghost use Rattle.cpa_composite.specs.Components.{ArePlaces};
ghost use Rattle.cpa_top_words.specs.Jobs.{verify};
ghost use Rattle.cpa_top_jobs.specs.Files.{files_of};
ghost use Rattle.cpa_top_jobs.specs.Jobs.{names_of};
ghost use Rattle.cpa_top_jobs.specs.Refusals.{IsDone, IsConcluded};
ghost use Rattle.cpa_top_jobs.specs.Statuses.{verdict_status};

use crate::Status;
use crate::conclusion::Conclusion;
use crate::configuring::take_config;
use crate::files::take_program;
use crate::refusal::Refusal;
use cpa_config::Config;
use cpa_iface::Analysis;
use cpa_model::Program;
use cpa_outside::Inputs;
use cpa_report_print::Verdict;
use cpa_top_verdict::tell;
use std::alloc::{AllocError, Global};

/// The names of the handed analyses, in order.
pub fn names_of<A: Analysis>(alloc: Global, analyses: &[A]) -> Result<Vec<String>, AllocError>
    ensures { IfOk result (λ names. map string_bytes names.items
        ≡ names_of (map A.meaning analyses.now)) }
{
    let mut names = Vec::new(alloc);
    for analysis in analyses {
        names.push(String::from_str(alloc, analysis.name())?)?;
    }
    Ok(names)
}

/// The status of a verdict.
pub fn verdict_status(verdict: Verdict) -> Status
    ensures { result ≡ verdict_status verdict }
{
    match verdict {
        Verdict::True | Verdict::Proof => Status::Holds,
        Verdict::False => Status::Fails,
        Verdict::Turns | Verdict::Rounds | Verdict::Learnt | Verdict::Gates | Verdict::NoNew =>
            Status::Unknown,
    }
}

/// What comes of the program.
fn conclude<A: Analysis>(
    alloc: Global,
    program: &Program,
    analyses: Vec<A>,
    config: &Config,
) -> Result<Conclusion, AllocError>
    requires well_formed { IsWellFormed program.now }
    requires places { ArePlaces (length analyses.items) config.now.picks }
    ensures { IfOk result
        (IsConcluded (map A.meaning analyses.items) config.now program.now) }
{
    let told = tell(alloc, program, analyses, config)?;
    Ok(Conclusion {
        status: verdict_status(told.verdict),
        text: told.text,
    })
}

/// Verifies the program of the name, as the file of the other name says, where one is named.
pub fn verify<A: Analysis, I: Inputs>(
    alloc: Global,
    program: &str,
    file: Option<&str>,
    analyses: Vec<A>,
    inputs: &mut I,
) -> Result<Conclusion, Refusal>
    ensures { IsDone
        (files_of (I.bytes_of inputs.old) (I.faults_of inputs.old) (I.faults_of inputs.new))
        (map A.meaning analyses.items)
        (verify program.now (option_map (λ s. s.now) file.entry)) result }
{
    let names = names_of(alloc, analyses.as_slice())?;
    let config = take_config(alloc, inputs, names.as_slice(), file)?;
    let program = take_program(alloc, inputs, program, config.model)?;
    Ok(conclude(alloc, &program, analyses, &config)?)
}
