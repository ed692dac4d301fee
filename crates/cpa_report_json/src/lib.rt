//! Values that are one JSON value each, read from its tokens: what is promised is that a value
//! whose tokens come next is taken, and no more, so that who reads a text prints what was read and
//! compares. `onto` of `cpa_report_print` has the tokens, `specs/Taking.antt` the promise.
#![tactic(auto)]

mod entries;
mod facts;
mod fault;
mod laws;
mod lines;
mod lists;
mod numbers;
mod reports;
mod steps;
mod values;

pub use fault::ReadFault;
pub use laws::texts_are_read_back;
pub use lists::{FromJson, take_list, take_member};
pub use reports::take_report;
pub use steps::{close_list, close_object, open_list, open_object, take_number, take_text};
