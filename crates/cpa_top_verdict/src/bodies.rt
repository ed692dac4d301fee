//! What a report tells of an answer: `body_of` of `specs/Verdicts.antt`, made of the answer's own
//! parts.
ghost use Rattle.std.specs.Prelude.{◌≡◌, IfOk};
ghost use Rattle.cpa_top_verdict.specs.Verdicts.{body_of, body_of_why, listed, listed_entry};

use cpa_engine::{Answer, Why};
use cpa_iface::Entry;
use cpa_model::Seq;
use cpa_report_print::{Body, Listed};
use std::alloc::{AllocError, Global};

/// An entry as a report lists it.
fn listed_entry(entry: Entry) -> Listed
    ensures { result ≡ listed_entry entry }
{
    let Entry { number, elems, .. } = entry;
    Listed { number, elems }
}

/// The entries as a report lists them, in their order.
fn listed(alloc: Global, entries: Vec<Entry>) -> Result<Seq<Listed>, AllocError>
    ensures { IfOk result (λ found. found ≡ listed entries.items) }
{
    let mut found = Seq::new(alloc);
    for entry in entries {
        found.push(listed_entry(entry))?;
    }
    Ok(found)
}

/// What a report tells where no execution calls the error.
fn body_of_entries(alloc: Global, entries: Seq<Entry>) -> Result<Body, AllocError>
    ensures { IfOk result (λ body. body ≡ Body.True (listed entries)) }
{
    let entries = listed(alloc, entries.into_vec())?;
    Ok(Body::True { entries })
}

/// What a report tells where the analysis gives up.
fn body_of_why(why: Why) -> Body
    ensures { result ≡ body_of_why why }
{
    match why {
        Why::Turns { journal } => Body::Turns { journal },
        Why::Rounds { path, history } => Body::Rounds { path, history },
        Why::Learnt { path, lines } => Body::Learnt { path, lines },
        Why::Gates { path, weight } => Body::Gates { path, weight },
        Why::NoNew { path, precisions } => Body::NoNew { path, precisions },
    }
}

/// What a report tells of an answer.
pub(crate) fn body_of(alloc: Global, answer: Answer) -> Result<Body, AllocError>
    ensures { IfOk result (λ body. body ≡ body_of answer) }
{
    match answer {
        Answer::True { entries } => body_of_entries(alloc, entries),
        Answer::False { inputs, steps } => Ok(Body::False { inputs, steps }),
        Answer::Unknown { why } => Ok(body_of_why(why)),
    }
}
