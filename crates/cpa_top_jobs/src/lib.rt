//! The jobs that words may ask for, each from the bytes of its files to a conclusion or a refusal.
//! What a job comes to is `IsDone` of `specs/Refusals.antt`.
#![tactic(auto)]

mod bench_job;
mod conclusion;
mod configuring;
mod files;
mod input_list;
mod inputs_error;
mod place;
mod recheck_job;
mod refusal;
mod replay_job;
mod role;
mod status;
mod verify_job;

pub use bench_job::bench;
pub use conclusion::Conclusion;
pub use files::{read_file, take_program};
pub use recheck_job::recheck;
pub use refusal::Refusal;
pub use replay_job::replay;
pub use role::{MAX_REPORT, Role};
pub use status::Status;
pub use verify_job::{names_of, verdict_status, verify};
