//! The program: its words, its job, its answer. What it may answer is `Answers` of
//! `specs/Answers.antt`, for the one public call `run`.
#![tactic(auto)]

mod answers;
mod top;

pub use answers::{deliver, deliver_text};
pub use cpa_top_bench::bench_text;
pub use cpa_top_jobs::{MAX_REPORT, Role, Status};
pub use top::run;
