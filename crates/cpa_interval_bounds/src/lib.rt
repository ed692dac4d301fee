//! Bounds of numbers, and of the values of expressions where those of the cells have bounds
//! (`specs/ExpressionBounds.antt`). The laws in `specs/Laws.antt` say what they have.
#![tactic(auto)]

mod arithmetic;
mod bounds;
mod cuts;
mod elements;
mod expressions;
mod laws;
mod table;
mod truths;

pub use arithmetic::{bin_bounds, un_bounds};
pub use bounds::{Bounds, fitted, hull_where_some};
pub use cuts::cut;
pub use elements::{Places, named, places_of};
pub use expressions::bounds_of;
pub use laws::{bounds_are_hulls, bounds_have_the_type, bounds_have_the_value, cuts_are_hulls};
pub use table::{CellBounds, KnownBounds};
pub use truths::{Truths, exchanged, may_compare, opposite, truths_of};
