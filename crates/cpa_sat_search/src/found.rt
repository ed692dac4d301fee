//! What a search finds.
//! What each outcome holds is said in `specs/Endings.antt`.

use cpa_cnf::Line;

/// The outcome of a search.
#[derive(Drop)]
pub enum Found {
    /// A value for each variable.
    Model(Vec<bool>),
    /// The lines of a refutation.
    Refuted(Vec<Line>),
    /// All lines that were allowed, without a decision.
    Spent(Vec<Line>),
}
