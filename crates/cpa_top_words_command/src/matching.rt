//! What clap finds in the words by the command of `specs/Commands.antt`.
ghost use Rattle.std.specs.Prelude.{◌≡◌, [], IfOk, IfErr, map, true};
ghost use Rattle.std.specs.String.{string_bytes};
ghost use Rattle.clap.specs.Words.{takes, fault_of, kind_of, subcommand_of, subcommand_rows_of};
ghost use Rattle.clap.specs.declared.error.ErrorKind.TheVariants.{OutOfMemory};
ghost use Rattle.cpa_top_words_command.specs.Commands.{cpaverify};

use crate::command::whole_command;
use clap::{ArgMatches, Error};
use std::alloc::Global;

/// What clap finds in the words, which come without the program's own name.
pub fn matches_of<'a>(alloc: Global, words: &'a [String]) -> Result<ArgMatches<'a>, Error>
    ensures found { IfOk result (λ matches. subcommand_rows_of matches
        ≡ subcommand_of cpaverify (map string_bytes words.entry.now)) }
    ensures taken { IfOk result (λ matches. fault_of cpaverify (map string_bytes words.entry.now)
        ≡ []) }
    ensures passed { IfErr result (λ error. takes cpaverify (map string_bytes words.entry.now)
        ≡ true → kind_of error ≡ OutOfMemory) }
    ensures failed { IfErr result (λ error. fault_of cpaverify (map string_bytes words.entry.now)
        ≡ [] → kind_of error ≡ OutOfMemory) }
{
    match whole_command(alloc) {
        Ok(command) => command.try_get_matches_from(words),
        Err(error) => Err(Error::from(error)),
    }
}
