//! What an obligation weighs, found without its form from what each entry weighs: the weight of
//! `form_at` of `cpa_recheck_obligations`.
#![tactic(auto)]

mod weighing;

pub use weighing::{weigh, weights_of};
