//! Reports, and their one spelling, which is defined in `specs/Reports.antt`.
#![tactic(auto)]

mod bodies;
mod entries;
mod facts;
mod lines;
mod printing;
mod report;
mod states;
mod values;

pub use printing::{print, print_break, print_within};
pub use report::{Body, Listed, Report, Verdict, form_of};
