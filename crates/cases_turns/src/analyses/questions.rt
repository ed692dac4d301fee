//! A call of an analysis, as a row names it: the call, its words, and behind colons the elements
//! that it takes. Words are read before what owns memory.

use cases_programs::{elems_of, rule_of_word, settings_of};
use cases_reader::{RowFault, index_of_word, indices_of_words};
use cpa_iface::{MergeRule, Settings};
use cpa_model::{Elem, Path, Seq};
use std::alloc::Global;

/// Which call it is, with what it takes beside elements and a path.
#[derive(Clone, Copy)]
pub enum Call {
    /// `means`: the name, and the part on which the analysis is exact.
    Means,
    Initial,
    /// `first all LIMIT` or `first none LIMIT`
    First { settings: Settings },
    /// `transfer EDGE : ELEMENT`
    Transfer { edge: u32 },
    /// `strengthen : OWN : OTHER : ..`
    Strengthen,
    /// `merge sep : NEW : OLD`, with `join` and `widen`, too
    Merge { rule: MergeRule },
    /// `covered : ELEMENT : OTHER`
    Covered,
    /// `adjust : ELEMENT : REACHED : ..`
    Adjust,
    /// `refine EDGE ..`
    Refine,
}

/// A call with its path, which is empty where it takes none, and its elements.
#[derive(Drop)]
pub struct Question {
    pub call: Call,
    pub path: Path,
    pub elems: Vec<Elem>,
}

/// A call with the path and the elements that the words and parts of its row name.
pub fn question_of(
    alloc: Global,
    call: Call,
    words: &[&str],
    parts: &[&str],
) -> Result<Question, RowFault> {
    let path = path_of(alloc, words)?;
    let elems = elems_of(alloc, parts)?;
    Ok(Question { call, path, elems })
}

/// The path of the edges behind `refine`; none behind other words.
pub fn path_of(alloc: Global, words: &[&str]) -> Result<Path, RowFault> {
    let edges = match words {
        ["refine", edges @ ..] => indices_of_words(alloc, edges)?,
        _ => Seq::new(alloc),
    };
    Ok(Path { edges })
}

/// The call that words name, without its path and the elements behind colons.
pub fn call_of(words: &[&str]) -> Result<Call, RowFault> {
    match words {
        ["first", cells, limit] => {
            let settings = settings_of(cells, limit)?;
            Ok(Call::First { settings })
        }
        ["transfer", edge] => {
            let edge = index_of_word(edge)?;
            Ok(Call::Transfer { edge })
        }
        ["merge", rule] => {
            let rule = rule_of_word(rule)?;
            Ok(Call::Merge { rule })
        }
        ["refine", ..] => Ok(Call::Refine),
        [word] => bare_call(word),
        _ => Err(RowFault::Unreadable),
    }
}

/// A call that takes elements alone.
fn bare_call(word: &str) -> Result<Call, RowFault> {
    match word {
        "means" => Ok(Call::Means),
        "initial" => Ok(Call::Initial),
        "strengthen" => Ok(Call::Strengthen),
        "covered" => Ok(Call::Covered),
        "adjust" => Ok(Call::Adjust),
        _ => Err(RowFault::Unreadable),
    }
}
