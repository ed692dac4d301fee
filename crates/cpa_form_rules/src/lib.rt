//! Edges and elements as queries: what is to be known of runs of stores, as expressions over cells.
//! The definitions stand in specs/Forms.
#![tactic(auto)]

mod drafts;
mod laws;

pub use drafts::Draft;
pub use laws::{
    adding_goes_on, calls_add_behind, failing_is_not_holding, forms_are_runs,
    further_calls_add_behind, further_calls_read, holding_has_two_parts, steps_take_inputs,
    weights_are_sums,
};
