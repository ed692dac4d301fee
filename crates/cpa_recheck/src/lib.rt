//! A reached set confirmed without the analyses that made it: each obligation of its entries is put
//! to a solver. What an answer promises stands in `specs/Checks.antt`.
#![tactic(auto)]

mod asking;
mod breaking;
mod checking;
mod rechecking;
mod stacks;
mod surveying;

pub use checking::{Budget, Keeping, Part, Why, check_run};
pub use rechecking::{Checked, Confirmation, confirm, recheck};
