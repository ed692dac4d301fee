//! From the text of a report to what comes of its entries, checked again: `specs/Rechecks.antt`.
//! What follows for the program is `specs/Findings.antt`, as a law.
#![tactic(auto)]

mod finding;
mod laws;
mod lines;
mod rechecking;

pub use cpa_report::{ReportError, ReportRule};
pub use finding::{Finding, Rechecked};
pub use laws::checks_tell;
pub use rechecking::check_text;
