//! Reports, printed and read back. The text of a report is defined in `cpa_report_print`; what a
//! text breaks that is not one is in `specs/Faults.antt`.
#![tactic(auto)]

mod fault;
mod lowering;
mod ranges;
mod reading;
mod telling;

pub use cpa_report_print::{Body, Listed, Report, Verdict, print, print_break};
pub use fault::{ReportError, ReportRule};
pub use reading::{read, read_in};
