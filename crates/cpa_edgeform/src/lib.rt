//! Edges and elements as queries: a form, to which edges and elements are added, and what is read
//! off a model of its query. The definitions are those of `cpa_form_rules`.
#![tactic(auto)]

mod adding;
mod beginning;
mod drafting;
mod form;
mod nodes;
mod parts;
mod reading;
mod settling;
mod testing;
mod wanting;
mod weighing;
mod writing;

pub use form::EdgeForm;
pub use weighing::act_weight;
