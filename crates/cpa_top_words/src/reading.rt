//! The job of a list of words, over what clap promises (`Asks` of `specs/Jobs.antt`).
//! `proofs/TakenWords.antt` has that words which clap takes ask for a job.
ghost use Rattle.std.specs.Prelude.{◌≡◌, [], ◌⊎◌, IfOk, IfErr, Some, None, map, option_map};
ghost use Rattle.std.specs.Prelude.{codes};
ghost use Rattle.std.specs.Option.{option_map_or};
ghost use Rattle.std.specs.String.{string_bytes};
ghost use Rattle.clap.specs.Words.{fault_of, first_of, found_of, rows_of, kind_of};
ghost use Rattle.clap.specs.Words.{subcommand_rows_of};
ghost use Rattle.clap.specs.declared.error.ErrorKind.TheVariants.{OutOfMemory};
ghost use Rattle.cpa_top_words_command.specs.Commands.{cpaverify};
ghost use Rattle.cpa_top_words.specs.Jobs.{Asks, IsNoJob, asked_by, job_of, meant, name_of};
ghost use Rattle.cpa_top_words.specs.Jobs.{count_of, model_of, steps_of};
ghost use Rattle.cpa_top_words.specs.declared.job.WordsError.TheVariants.{Refused};

use crate::{Job, MAX_BENCH, STEPS, WordsError};
use clap::error::ErrorKind;
use clap::{ArgMatches, Error};
use cpa_config::{DEFAULT_MODEL, model_named};
use cpa_ints::DataModel;
use cpa_top_words_command::matches_of;
use std::alloc::Global;

/// What an error of clap is: of the words, or of memory.
fn fault_of(error: &Error) -> WordsError
    ensures { result ≡ Refused → kind_of error.now ≡ OutOfMemory → ⊥ }
{
    match error.kind() {
        ErrorKind::OutOfMemory => WordsError::OutOfMemory,
        _ => WordsError::Refused,
    }
}

/// The number of steps that the words name, else `STEPS`.
fn steps_of(matches: &ArgMatches<'_>) -> u64
    ensures { result ≡ steps_of (rows_of (found_of matches.now)) }
{
    match matches.get_one::<u64>("steps") {
        Some(steps) => steps,
        None => STEPS,
    }
}

/// The data model that the words name, if it is one, else `DEFAULT_MODEL` where they name none.
fn model_of(matches: &ArgMatches<'_>) -> Option<DataModel>
    ensures { result ≡ model_of (rows_of (found_of matches.now)) }
{
    match matches.get_str("model") {
        Some(name) => model_named(name),
        None => Some(DEFAULT_MODEL),
    }
}

/// The number of functions that the command requires. Clap takes no words whose number is larger.
fn count_of(matches: &ArgMatches<'_>) -> u32
    ensures { result ≡ count_of (rows_of (found_of matches.now)) }
{
    match matches.get_one::<u64>("N") {
        Some(count) if count <= u64::from(MAX_BENCH) => count as u32,
        _ => 0,
    }
}

/// The name of a file that the command requires.
fn name_of<'a>(matches: &ArgMatches<'a>, id: &'static str) -> &'a str
    ensures { result.now ≡ name_of id.entry.now (rows_of (found_of matches.now)) }
{
    matches.get_str(id).unwrap_or("")
}

/// The name of the configuration's file, where one is named.
fn config_of<'a>(matches: &ArgMatches<'a>) -> Option<&'a str>
    ensures { option_map (λ s. s.now) result
        ≡ first_of (codes "config") (rows_of (found_of matches.now)) }
{
    matches.get_str("config")
}

/// The job of a subcommand with what clap found for it.
fn job_of<'a>(name: &str, matches: &ArgMatches<'a>) -> Option<Job<'a>>
    ensures { option_map meant result ≡ job_of name.now (rows_of (found_of matches.now)) }
{
    if name == "verify" {
        Some(Job::Verify {
            program: name_of(matches, "PROGRAM"),
            config: config_of(matches),
        })
    } else if name == "replay" {
        Some(Job::Replay {
            program: name_of(matches, "PROGRAM"),
            inputs: name_of(matches, "INPUTS"),
            steps: steps_of(matches),
            model: model_of(matches)?,
        })
    } else if name == "recheck" {
        Some(Job::Recheck {
            program: name_of(matches, "PROGRAM"),
            report: name_of(matches, "REPORT"),
            config: config_of(matches),
        })
    } else if name == "bench" {
        Some(Job::Bench {
            count: count_of(matches),
        })
    } else {
        None
    }
}

/// The job of the subcommand that clap found.
fn job_found<'a>(matches: &ArgMatches<'a>) -> Option<Job<'a>>
    ensures { option_map meant result
        ≡ option_map_or (λ p. job_of p.0 p.1) (subcommand_rows_of matches.now) None }
{
    let (name, of_it) = matches.subcommand()?;
    job_of(name, of_it)
}

/// The job of the words, where clap takes them and names a subcommand that has one.
fn job_in<'a>(alloc: Global, words: &'a [String]) -> Result<Job<'a>, WordsError>
    ensures job { IfOk result (λ job. asked_by (map string_bytes words.entry.now)
        ≡ Some (meant job)) }
    ensures taken { IfOk result (λ job. fault_of cpaverify (map string_bytes words.entry.now)
        ≡ []) }
    ensures refused { IfErr result (λ error. error ≡ Refused
        → (fault_of cpaverify (map string_bytes words.entry.now) ≡ [] → ⊥)
        ⊎ (asked_by (map string_bytes words.entry.now) ≡ None)) }
{
    match matches_of(alloc, words) {
        Ok(matches) => job_found(&matches).ok_or(WordsError::Refused),
        Err(error) => Err(fault_of(&error)),
    }
}

/// What the words ask for. They come without the program's own name.
pub fn read_words<'a>(alloc: Global, words: &'a [String]) -> Result<Job<'a>, WordsError>
    ensures asked { IfOk result (λ job. Asks (map string_bytes words.entry.now) (meant job)) }
    ensures refused { IfErr result (λ error. error ≡ Refused
        → IsNoJob (map string_bytes words.entry.now)) }
{
    match job_in(alloc, words) {
        Ok(job) => Ok(job),
        Err(error) => Err(error),
    }
}
