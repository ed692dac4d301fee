//! The command that the words are read by, as clap takes it: `cpaverify` of
//! `specs/Commands.antt`.
ghost use Rattle.std.specs.Prelude.{◌≡◌, IfOk, true};
ghost use Rattle.clap.specs.Words.{App, app_of, with_rule, with_subcommand};
ghost use Rattle.cpa_top_words_command.specs.Commands.{bench_command, cpaverify, recheck_command};
ghost use Rattle.cpa_top_words_command.specs.Commands.{replay_command, top_command, verify_command};
ghost use Rattle.cpa_top_words_command.specs.Commands.{on_program, option_rule, steps_rule};
ghost use Rattle.cpa_top_words_command.specs.Commands.{word_rule};

use clap::{Arg, Command, value_parser};
use std::alloc::{AllocError, Global};

/// `NAME PROGRAM`.
fn on_program<'a>(alloc: Global, name: &'static str) -> Result<Command<'a>, AllocError>
    ensures { IfOk result (λ command. app_of command ≡ on_program name.entry.now) }
{
    Command::new(alloc, name).arg(Arg::new(alloc, "PROGRAM").required(true))
}

/// The command with one more word that must be there, where memory sufficed for what it was.
fn with_word<'a>(
    alloc: Global,
    part: Result<Command<'a>, AllocError>,
    name: &'static str,
) -> Result<Command<'a>, AllocError>
    ensures { (app : App) → IfOk part.entry (λ command. app_of command ≡ app)
        → IfOk result (λ command. app_of command ≡ with_rule app (word_rule name.entry.now)) }
{
    match part {
        Ok(command) => command.arg(Arg::new(alloc, name).required(true)),
        Err(error) => Err(error),
    }
}

/// The command with one more option that takes any text, where memory sufficed for what it was.
fn with_option<'a>(
    alloc: Global,
    part: Result<Command<'a>, AllocError>,
    name: &'static str,
) -> Result<Command<'a>, AllocError>
    ensures { (app : App) → IfOk part.entry (λ command. app_of command ≡ app)
        → IfOk result (λ command. app_of command ≡ with_rule app (option_rule name.entry.now)) }
{
    match part {
        Ok(command) => command.arg(Arg::new(alloc, name).long(name)),
        Err(error) => Err(error),
    }
}

/// The command with `--steps N`, where memory sufficed for what it was.
fn with_steps<'a>(
    alloc: Global,
    part: Result<Command<'a>, AllocError>,
) -> Result<Command<'a>, AllocError>
    ensures { (app : App) → IfOk part.entry (λ command. app_of command ≡ app)
        → IfOk result (λ command. app_of command ≡ with_rule app steps_rule) }
{
    let steps = value_parser!(u64);
    match part {
        Ok(command) => command.arg(Arg::new(alloc, "steps").long("steps").value_parser(steps)),
        Err(error) => Err(error),
    }
}

/// `verify PROGRAM [--config FILE]`.
fn verify_command<'a>(alloc: Global) -> Result<Command<'a>, AllocError>
    ensures { IfOk result (λ command. app_of command ≡ verify_command) }
{
    with_option(alloc, on_program(alloc, "verify"), "config")
}

/// `replay PROGRAM INPUTS [--steps N] [--model NAME]`.
fn replay_command<'a>(alloc: Global) -> Result<Command<'a>, AllocError>
    ensures { IfOk result (λ command. app_of command ≡ replay_command) }
{
    let words = with_word(alloc, on_program(alloc, "replay"), "INPUTS");
    let steps = with_steps(alloc, words);
    with_option(alloc, steps, "model")
}

/// `recheck PROGRAM REPORT [--config FILE]`.
fn recheck_command<'a>(alloc: Global) -> Result<Command<'a>, AllocError>
    ensures { IfOk result (λ command. app_of command ≡ recheck_command) }
{
    let words = with_word(alloc, on_program(alloc, "recheck"), "REPORT");
    with_option(alloc, words, "config")
}

/// `bench N`.
fn bench_command<'a>(alloc: Global) -> Result<Command<'a>, AllocError>
    ensures { IfOk result (λ command. app_of command ≡ bench_command) }
{
    let count = value_parser!(u64).range(..=100);
    Command::new(alloc, "bench").arg(Arg::new(alloc, "N").required(true).value_parser(count))
}

/// What the words are read by before it has subcommands.
fn top_command<'a>(alloc: Global) -> Command<'a>
    ensures { app_of result ≡ top_command }
{
    Command::new(alloc, "cpaverify")
        .no_binary_name(true)
        .disable_help_subcommand(true)
        .subcommand_required(true)
}

/// The command with one more subcommand, where memory sufficed for both.
fn with_subcommand<'a>(
    whole: Result<Command<'a>, AllocError>,
    part: Result<Command<'a>, AllocError>,
) -> Result<Command<'a>, AllocError>
    ensures { (app added : App) → added.top.is_plain ≡ true
        → IfOk whole.entry (λ command. app_of command ≡ app)
        → IfOk part.entry (λ command. app_of command ≡ added)
        → IfOk result (λ command. app_of command ≡ with_subcommand app added.top) }
{
    match whole {
        Ok(command) => match part {
            Ok(added) => command.subcommand(added),
            Err(error) => Err(error),
        },
        Err(error) => Err(error),
    }
}

/// The whole command. The words come without the program's own name.
pub(crate) fn whole_command<'a>(alloc: Global) -> Result<Command<'a>, AllocError>
    ensures { IfOk result (λ command. app_of command ≡ cpaverify) }
{
    let top = with_subcommand(Ok(top_command(alloc)), verify_command(alloc));
    let top = with_subcommand(top, replay_command(alloc));
    let top = with_subcommand(top, recheck_command(alloc));
    with_subcommand(top, bench_command(alloc))
}
