//! What the words of a command line ask for, by what clap promises for one command: `Asks` of
//! `specs/Jobs.antt`.
#![tactic(auto)]

mod job;
mod laws;
mod reading;

pub use job::{Job, MAX_BENCH, STEPS, WordsError};
pub use laws::{
    customary_words_ask, taken_words_ask_for_a_job, words_ask_for_one_job,
    words_ask_for_small_benches,
};
pub use reading::read_words;
