//! What the words of a command ask for: what `read_words` of `cpa_top_words` answers.
//! Proved safe by the checker alone.

use cpa_ints::DataModel;
use cpa_top_words::{Job, WordsError, read_words};
use std::alloc::{AllocError, Global};

/// The words of a row, one blank between two of them. `""` writes the empty word.
fn words_of(alloc: Global, row: &str) -> Result<Vec<String>, AllocError> {
    let mut words = Vec::new(alloc);
    for word in row.split(' ') {
        let word = if word == "\"\"" { "" } else { word };
        words.push(String::from_str(alloc, word)?)?;
    }
    Ok(words)
}

/// The data model, where it is not LP64.
pub(crate) fn model_word(model: DataModel) -> &'static str {
    match model {
        DataModel::Lp64 => "",
        DataModel::Ilp32 => ", ilp32",
    }
}

/// A job in a line, each name in quotes.
fn line_of(alloc: Global, job: Job<'_>) -> Result<String, AllocError> {
    match job {
        Job::Verify {
            program,
            config: None,
        } => format!(in alloc; "verify \"{program}\""),
        Job::Verify {
            program,
            config: Some(config),
        } => format!(in alloc; "verify \"{program}\" by \"{config}\""),
        Job::Replay {
            program,
            inputs,
            steps,
            model,
        } => {
            let model = model_word(model);
            format!(in alloc; "replay \"{program}\" on \"{inputs}\" in {steps}{model}")
        }
        Job::Recheck {
            program,
            report,
            config: None,
        } => format!(in alloc; "recheck \"{program}\" with \"{report}\""),
        Job::Recheck {
            program,
            report,
            config: Some(config),
        } => format!(in alloc; "recheck \"{program}\" with \"{report}\" by \"{config}\""),
        Job::Bench { count } => format!(in alloc; "bench {count}"),
    }
}

/// What the words ask for, or `refused`.
fn asked(alloc: Global, words: &[String]) -> Result<String, AllocError> {
    match read_words(alloc, words) {
        Ok(job) => line_of(alloc, job),
        Err(WordsError::Refused) => String::from_str(alloc, "refused"),
        Err(WordsError::OutOfMemory) => Err(AllocError),
    }
}

/// The answer to the words of a row, one blank between two of them. A row without words asks it of
/// no words.
pub(crate) fn answer(alloc: Global, row: &str) -> Result<String, AllocError> {
    if row.is_empty() {
        return asked(alloc, &[]);
    }
    let words = words_of(alloc, row)?;
    asked(alloc, &words)
}
