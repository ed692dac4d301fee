//! The command by which the words of a command line are read, and what clap finds in them:
//! `cpaverify` of `specs/Commands.antt`.
#![tactic(auto)]

mod command;
mod matching;

pub use matching::matches_of;
