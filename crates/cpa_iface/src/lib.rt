//! The interface of analyses, with its laws as clauses (`specs/Laws.antt`); what an analysis is
//! that only steps (`specs/PlainMeanings.antt`); and the analysis of locations, the smallest one
//! (`specs/Locations.antt`).
#![tactic(auto)]

mod analysis;
mod cells;
mod entries;
mod location;
mod merging;
mod numbers;
mod plain;
mod precisions;
mod rows;
mod standing;
mod unchanged;

pub use analysis::{Analysis, DEFAULT_GATES, DEFAULT_LEARNT, Part, Settings};
pub use cells::Cells;
pub use entries::{Entry, Refined, Turn};
pub use location::Location;
pub use merging::{MergeRule, Order, Pick, merge_facts};
pub use numbers::FewNumbers;
pub use plain::{Plain, Steps};
pub use precisions::{
    Precision, copy_cells, copy_precision, copy_preds, empty_precision, same_precisions,
};
pub use rows::Row;
pub use standing::covers;
pub use unchanged::{unadjusted, unrefined, unstrengthened};
