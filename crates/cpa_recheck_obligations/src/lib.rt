//! The obligations of a list of entries: what is to be shown for them to be a cover, one by one,
//! and what is asked of a solver about each. The definitions stand in `specs/`, the laws in `laws`.
#![tactic(auto)]

mod laws;
mod listing;
mod spots;
mod stepping;
mod table;

pub use laws::{
    added_fit, broken_is_unmet, entries_are_one, models_break, obligations_are_covers,
    obligations_are_named, runless_is_met, unmodelled_is_met,
};
pub use listing::{Obligation, obligations};
pub use spots::{Spot, joined, spot_of};
pub use stepping::behind;
pub use table::{Table, candidates, spots_of, table_of};
