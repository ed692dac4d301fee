//! When a row of elements covers another one (CAV 2007, section 4): every analysis of a composite
//! says so of its own elements. `specs/Covers.antt`; that it is inclusion is in `CoverLaws`.
#![tactic(auto)]

mod covering;

pub use covering::covered_by;
