//! What a check of the entries of a report comes to: `finding_of` of `specs/Rechecks.antt`.
//! Proved by the checker alone.
ghost use Rattle.std.specs.Prelude.{◌≡◌};
ghost use Rattle.cpa_top_recheck.specs.Rechecks.{finding_at, finding_of};

use cpa_recheck::{Confirmation, Why};

/// Which of three a check comes to.
#[derive(Clone, Copy, PartialEq, Eq)]
pub enum Finding {
    /// The entries are a cover.
    Confirmed,
    /// A state breaks an obligation of theirs.
    Refused,
    /// What may be spent on an obligation did not settle it.
    Open,
}

/// What comes of a report: the finding, and the lines that say it.
#[derive(Drop)]
pub struct Rechecked {
    pub finding: Finding,
    pub text: Vec<u8>,
}

/// The finding where an obligation is not shown to hold.
fn finding_at(why: &Why) -> Finding
    ensures { result ≡ finding_at why.now }
{
    match why {
        Why::Refused { .. } => Finding::Refused,
        Why::Learnt { .. } | Why::Gates { .. } => Finding::Open,
    }
}

/// The finding of a check.
pub(crate) fn finding_of(checked: &Confirmation) -> Finding
    ensures { result ≡ finding_of checked.now }
{
    match checked {
        Confirmation::Confirmed { .. } => Finding::Confirmed,
        Confirmation::Stopped { why, .. } => finding_at(why),
    }
}
