//! The word or mark that is spelled so, found by a hash of its bytes and one comparison. That no
//! two words have one hash, and no two marks, is computed in `proofs/HashFacts.antt`.
ghost use Rattle.std.specs.Prelude.{◌≡◌, ◌<◌, ◌≢◌, length, []};
ghost use Rattle.c_grammar_symbols.specs.Hashes.{hash, spelled_at};
ghost use Rattle.c_grammar_symbols.specs.Symbols.{word_spelled, mark_spelled};

use crate::symbol::{MARKS, Symbol, WORDS, spelling};

/// What stands at a hash that no word has, or no mark.
const NO_PLACE: u8 = 255;

/// Where in `WORDS` the word with each hash stands; 255 where there is none.
const WORD_PLACES: [u8; 256] = [
    4, 255, 255, 255, 255, 16, 255, 255, 43, 25, 44, 32, 255, 255, 255, 2, 255, 255, 255, 255, 255,
    255, 255, 255, 37, 255, 29, 255, 41, 255, 255, 22, 255, 255, 255, 46, 31, 255, 255, 255, 255,
    255, 255, 255, 255, 255, 255, 255, 255, 255, 255, 255, 255, 255, 255, 255, 255, 255, 255, 255,
    255, 255, 255, 255, 255, 8, 45, 255, 255, 255, 255, 255, 255, 255, 255, 255, 255, 255, 255,
    255, 255, 255, 255, 255, 255, 255, 255, 255, 255, 255, 255, 255, 255, 255, 49, 255, 255, 255,
    255, 255, 255, 12, 21, 255, 255, 48, 255, 255, 255, 255, 15, 255, 255, 40, 38, 255, 255, 255,
    255, 255, 255, 255, 255, 255, 30, 9, 255, 255, 255, 28, 50, 255, 255, 255, 255, 255, 255, 255,
    255, 255, 255, 255, 255, 255, 255, 14, 255, 27, 255, 255, 255, 255, 255, 255, 255, 35, 42, 255,
    255, 255, 255, 255, 255, 255, 255, 255, 7, 255, 1, 255, 255, 255, 255, 255, 255, 255, 0, 255,
    255, 255, 255, 255, 19, 6, 255, 255, 255, 255, 255, 255, 255, 255, 13, 255, 255, 47, 255, 255,
    255, 255, 255, 255, 255, 255, 255, 255, 17, 255, 255, 255, 255, 33, 255, 255, 255, 34, 255,
    255, 3, 23, 255, 255, 255, 255, 255, 255, 36, 10, 255, 20, 255, 255, 255, 255, 255, 255, 255,
    255, 26, 255, 255, 255, 255, 255, 255, 255, 255, 255, 255, 11, 24, 5, 255, 18, 255, 39,
];

/// Where in `MARKS` the mark with each hash stands; 255 where there is none.
const MARK_PLACES: [u8; 256] = [
    35, 255, 255, 255, 255, 255, 255, 255, 44, 255, 255, 29, 32, 255, 255, 255, 255, 255, 255, 255,
    255, 255, 255, 255, 255, 16, 255, 3, 255, 255, 13, 255, 255, 255, 255, 255, 255, 255, 39, 255,
    255, 15, 255, 255, 255, 255, 255, 255, 255, 8, 255, 255, 255, 0, 255, 255, 255, 255, 255, 255,
    255, 255, 255, 6, 255, 255, 255, 1, 255, 255, 255, 255, 255, 255, 255, 255, 255, 19, 255, 255,
    255, 27, 23, 255, 255, 255, 255, 255, 255, 255, 21, 30, 255, 255, 36, 25, 17, 255, 255, 255,
    41, 255, 22, 255, 255, 20, 255, 255, 37, 7, 24, 255, 255, 255, 255, 255, 255, 255, 255, 9, 255,
    255, 255, 26, 255, 255, 255, 255, 42, 255, 255, 255, 255, 255, 255, 255, 255, 43, 255, 255,
    255, 255, 255, 255, 255, 255, 255, 45, 255, 255, 255, 28, 255, 255, 255, 255, 255, 255, 255,
    255, 255, 255, 255, 255, 255, 255, 255, 255, 255, 255, 255, 255, 255, 255, 255, 255, 255, 255,
    255, 255, 255, 255, 255, 255, 18, 255, 255, 255, 255, 255, 255, 4, 255, 255, 255, 255, 255,
    255, 255, 255, 255, 255, 255, 255, 255, 14, 255, 255, 33, 255, 12, 11, 255, 255, 38, 255, 255,
    255, 40, 5, 255, 255, 255, 255, 255, 255, 255, 255, 255, 255, 255, 255, 255, 10, 255, 255, 255,
    255, 31, 255, 255, 255, 255, 255, 34, 255, 255, 255, 255, 255, 255, 255, 255, 255, 255, 2,
];
/// A number below 256 of the length and of the first, the middle and the last of some bytes. The
/// factors are the least by which the words differ, and the marks.
#[tactic(auto, unfolding(crate::specs::Hashes::hash))]
fn hash(bytes: &[u8]) -> usize
    requires { 0 < length bytes.now }
    ensures value { result ≡ hash bytes.now }
    ensures below { result < 256 }
{
    let length = bytes.len();
    let first = bytes[0] as usize;
    let middle = bytes[length / 2] as usize;
    let last = bytes[length - 1] as usize;
    (length % 16 * 5 + first * 6 + middle + last * 7) % 256
}

/// The symbol at this place of a table, if there is one and it is spelled so.
fn spelled_at(table: &[Symbol], place: u8, bytes: &[u8]) -> Option<Symbol>
    ensures { result ≡ spelled_at table.now place bytes.now }
{
    match table.get(place as usize) {
        Some(symbol) if spelling(*symbol) == bytes => Some(*symbol),
        _ => None,
    }
}

/// The word of the table that is spelled so. At most hashes stands none, which is all that most
/// names take.
pub(crate) fn word_spelled(bytes: &[u8]) -> Option<Symbol>
    ensures { result ≡ word_spelled bytes.now }
{
    if bytes.is_empty() {
        return None;
    }
    let place = WORD_PLACES[hash(bytes)];
    if place == NO_PLACE {
        return None;
    }
    spelled_at(&WORDS, place, bytes)
}

/// The mark of the table that is spelled so.
pub(crate) fn mark_spelled(bytes: &[u8]) -> Option<Symbol>
    ensures { result ≡ mark_spelled bytes.now }
{
    if bytes.is_empty() {
        return None;
    }
    spelled_at(&MARKS, MARK_PLACES[hash(bytes)], bytes)
}
