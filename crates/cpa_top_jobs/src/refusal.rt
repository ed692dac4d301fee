//! What refuses a call, with its status and its line (`specs/Refusals.antt`). Proved by the checker
//! alone.
ghost use Rattle.std.specs.Prelude.{◌≡◌};
ghost use Rattle.cpa_top_jobs.specs.declared.refusal.Refusal.TheVariants.{OutOfMemory};
ghost use Rattle.cpa_top_jobs.specs.Lines.{long_line, read_line};
ghost use Rattle.cpa_top_jobs.specs.Refusals.{refusal_status, refusal_line};
ghost use Rattle.cpa_top_recheck.specs.Lines.{report_line};

use crate::{Role, Status};
use cpa_top_recheck::ReportRule;
use std::alloc::AllocError;

/// Why a call is refused.
#[derive(Drop)]
pub enum Refusal {
    /// The words ask for nothing.
    Usage,
    /// The file in this role was not read.
    ReadFailed { role: Role },
    /// The file in this role has more bytes than it may have.
    TooLong { role: Role },
    /// The bytes of the program's file stand for no program; the line names their fault.
    NoProgram { line: String },
    /// The bytes of the configuration's file give no configuration; the line names the rule.
    NoConfig { line: String },
    /// An analysis that a measurement uses is not handed in.
    LacksAnalysis,
    /// The bytes of the inputs' file are no list of inputs.
    NoInputs,
    /// The bytes of the report's file break the rule.
    NoReport { rule: ReportRule },
    OutOfMemory,
}

impl From<AllocError> for Refusal {
    ghost from_gives = { λ _ refusal. refusal ≡ OutOfMemory };

    fn from(_error: AllocError) -> Refusal {
        Refusal::OutOfMemory
    }
}

/// The calls that the program knows, those that are not built among them.
const USAGE: &str = "usage: cpaverify verify PROGRAM [--config FILE]
       cpaverify replay PROGRAM INPUTS [--steps N] [--model NAME]
       cpaverify recheck PROGRAM REPORT [--config FILE] [--proof] [--workers N]
       cpaverify audit PROGRAM PROOF [--workers N] [--model NAME]
       cpaverify bench N
";

/// The line that refuses a report.
fn report_line(rule: ReportRule) -> &'static str
    ensures { result.now ≡ report_line rule }
{
    match rule {
        ReportRule::P1 => "refused report P1\n",
        ReportRule::P2 => "refused report P2\n",
        ReportRule::P3 => "refused report P3\n",
        ReportRule::P4 => "refused report P4\n",
        ReportRule::P5 => "refused report P5\n",
        ReportRule::P6 => "refused report P6\n",
    }
}

/// The line that says that the file in this role was not read.
fn read_line(role: Role) -> &'static str
    ensures { result.now ≡ read_line role }
{
    match role {
        Role::Config => "refused read config\n",
        Role::Program => "refused read program\n",
        Role::Inputs => "refused read inputs\n",
        Role::Report => "refused read report\n",
    }
}

/// The line that says that the file in this role is too long.
fn long_line(role: Role) -> &'static str
    ensures { result.now ≡ long_line role }
{
    match role {
        Role::Config => "refused long config\n",
        Role::Program => "refused long program\n",
        Role::Inputs => "refused long inputs\n",
        Role::Report => "refused long report\n",
    }
}

impl Refusal {
    /// The status with which the call ends.
    pub fn status(&self) -> Status
        ensures { result ≡ refusal_status self.now }
    {
        match self {
            Refusal::Usage => Status::Usage,
            Refusal::ReadFailed { .. } => Status::ReadFailed,
            Refusal::TooLong { .. } => Status::TooLong,
            Refusal::NoProgram { .. } => Status::NoProgram,
            Refusal::NoConfig { .. } | Refusal::LacksAnalysis => Status::NoConfig,
            Refusal::NoInputs => Status::NoInputs,
            Refusal::NoReport { .. } => Status::NoReport,
            Refusal::OutOfMemory => Status::OutOfMemory,
        }
    }

    /// What is written: one line, or the usage text.
    pub fn line(&self) -> &str
        ensures { result.now ≡ refusal_line self.now }
    {
        match self {
            Refusal::Usage => USAGE,
            Refusal::ReadFailed { role } => read_line(*role),
            Refusal::TooLong { role } => long_line(*role),
            Refusal::NoProgram { line } | Refusal::NoConfig { line } => line.as_str(),
            Refusal::LacksAnalysis => "refused config C4 analyses\n",
            Refusal::NoInputs => "refused inputs\n",
            Refusal::NoReport { rule } => report_line(*rule),
            Refusal::OutOfMemory => "refused memory\n",
        }
    }
}
