//! Obligations that bounds of cells settle without a query. The
//! definitions stand in `specs/`; what is settled is met by the law `runless_is_met` of
//! `cpa_recheck_obligations`.
#![tactic(auto)]

mod behind;
mod exact;
mod saying;
mod settling;
mod standing;

pub use settling::is_settled;
