//! The job of the command `recheck`: what comes of the entries of a report, without the analyses
//! that made it (`IsRecheckedBy` of `specs/Ends.antt`); shown in `proofs/Rechecks.antt`.
ghost use Rattle.std.specs.Prelude.{◌≡◌, map, option_map, IfOk, IfErr};
ghost use Rattle.cpa_model.specs.Programs.{IsWellFormed};
ghost use Rattle.cpa_top_words.specs.Jobs.{recheck};
ghost use Rattle.cpa_top_jobs.specs.Files.{files_of};
ghost use Rattle.cpa_top_jobs.specs.Refusals.{IsChecked, IsDone, IsReportRefused};
ghost use Rattle.cpa_top_jobs.specs.Statuses.{finding_status};

use crate::conclusion::Conclusion;
use crate::configuring::take_config;
use crate::files::{read_file, take_program};
use crate::refusal::Refusal;
use crate::verify_job::names_of;
use crate::{Role, Status};
use cpa_config::Config;
use cpa_iface::Analysis;
use cpa_model::Program;
use cpa_outside::Inputs;
use cpa_top_recheck::{Finding, ReportError, check_text};
use std::alloc::Global;
use std::thread::Threads;

/// The status of a finding.
fn finding_status(finding: Finding) -> Status
    ensures { result ≡ finding_status finding }
{
    match finding {
        Finding::Confirmed => Status::Holds,
        Finding::Refused => Status::Fails,
        Finding::Open => Status::Unknown,
    }
}

/// What comes of the text of a report of the program.
fn conclude<R: Threads + Sync>(
    rt: &R,
    alloc: Global,
    program: &Program,
    text: &[u8],
    config: &Config,
) -> Result<Conclusion, Refusal>
    requires { IsWellFormed program.now }
    ensures checked { IfOk result (IsChecked config.now program.now text.now) }
    ensures refused { IfErr result (IsReportRefused config.now.model program.now text.now) }
{
    match check_text(rt, alloc, program, text, &config.settings, config.model) {
        Ok(told) => Ok(Conclusion {
            status: finding_status(told.finding),
            text: told.text,
        }),
        Err(ReportError::Fault(rule)) => Err(Refusal::NoReport { rule }),
        Err(ReportError::OutOfMemory) => Err(Refusal::OutOfMemory),
    }
}

/// Checks again the entries of the report of the second name, for the program of the first, as the
/// file of the third says, where one is named. The handed analyses are asked for their names alone,
/// by which the configuration is read.
pub fn recheck<R: Threads + Sync, A: Analysis, I: Inputs>(
    rt: &R,
    alloc: Global,
    program: &str,
    report: &str,
    file: Option<&str>,
    analyses: Vec<A>,
    inputs: &mut I,
) -> Result<Conclusion, Refusal>
    ensures { IsDone
        (files_of (I.bytes_of inputs.old) (I.faults_of inputs.old) (I.faults_of inputs.new))
        (map A.meaning analyses.items)
        (recheck program.now report.now (option_map (λ s. s.now) file.entry)) result }
{
    let names = names_of(alloc, analyses.as_slice())?;
    let config = take_config(alloc, inputs, names.as_slice(), file)?;
    let program = take_program(alloc, inputs, program, config.model)?;
    let text = read_file(alloc, inputs, Role::Report, report)?;
    let conclusion = conclude(rt, alloc, &program, text.as_slice(), &config)?;
    Ok(conclusion)
}
