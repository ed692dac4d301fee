//! What the solver found out of queries. A finding stays true whatever comes later, so it answers
//! its query wherever it is asked again, and any of them may be let go.

ghost use Rattle.std.specs.Prelude.{◌≡◌, IsTrue, IfSome};
ghost use Rattle.cpa_predicate.specs.Questions.{IsSettledBy, IsSettledBy-prop};

use crate::asking::Answer;
use crate::fingerprints::feed;
use cpa_query::Query;
use std::hash::{FoldHasher, Hash, Hasher};

/// A query with the answer that settles it.
#[derive(Drop)]
pub(crate) struct Finding {
    pub(crate) query: Query,
    pub(crate) answer: Answer,
    ghost is_right: { IsSettledBy query answer } by { IsSettledBy-prop query answer },
}

/// A number by which a query is found. Others may have it as well, so the query is compared.
pub(crate) fn query_fingerprint(query: &Query) -> u64 {
    let mut state = FoldHasher::default();
    query.cells.len().hash(&mut state);
    for one in &query.wanted {
        feed(&one.0, &mut state);
        one.1.hash(&mut state);
    }
    state.finish()
}

/// Whether the two are the same query.
fn same_query(query: &Query, other: &Query) -> bool
    ensures { IsTrue result → query.now ≡ other.now }
{
    query.cells == other.cells && query.wanted == other.wanted
}

impl Finding {
    /// The answer, where it is one to this query.
    pub(crate) fn answer_to(&self, query: &Query) -> Option<Answer>
        ensures { IfSome result (IsSettledBy query.now) }
    {
        if same_query(query, &self.query) {
            Some(self.answer)
        } else {
            None
        }
    }
}
