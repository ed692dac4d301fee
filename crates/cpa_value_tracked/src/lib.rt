//! The cells that a precision tracks, as the analyses of values and of intervals ask for them.
#![tactic(auto)]

mod tracked;

pub use tracked::Tracked;
