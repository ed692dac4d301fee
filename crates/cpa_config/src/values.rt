//! What a value means: a word of a table, or a whole number of a range (`specs/Values.antt`).
//! `named` with `proofs/Tables.antt`.
ghost use Rattle.std.specs.Prelude.{◌≡◌, map};
ghost use Rattle.toml.specs.View.{view};
ghost use Rattle.cpa_config.specs.Values.{models, named, number_in, word_in};

use crate::keys::{MODELS, Range};
use cpa_ints::DataModel;
use toml::Value;

/// What a word stands for in a table.
pub(crate) fn named<T: Copy>(rows: &[(&'static str, T)], word: &str) -> Option<T>
    ensures { result ≡ named (map (λ row. (row.0.now, row.1)) rows.now) word.now }
{
    rows.iter().find(|row| row.0 == word).map(|row| row.1)
}

/// The data model of this name.
pub fn model_named(name: &str) -> Option<DataModel>
    ensures { result ≡ named models name.now }
{
    named(&MODELS, name)
}

/// What the word that a value is stands for in a table.
pub(crate) fn word_in<T: Copy>(rows: &[(&'static str, T)], value: &Value) -> Option<T>
    ensures { result ≡ word_in (map (λ row. (row.0.now, row.1)) rows.now) (view value.now) }
{
    match value.as_str() {
        Some(word) => named(rows, word),
        None => None,
    }
}

/// The number that a value is, where it is a whole one of the range.
pub(crate) fn number_in(range: Range, value: &Value) -> Option<u64>
    ensures { result ≡ number_in range (view value.now) }
{
    let number = u64::try_from(value.as_integer()?).ok()?;
    if range.least <= number && number <= range.greatest {
        Some(number)
    } else {
        None
    }
}
