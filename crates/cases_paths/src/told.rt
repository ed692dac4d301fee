//! How much a row tells of what is found.

/// What is told.
#[derive(Clone, Copy)]
pub enum Told {
    /// The outcome alone.
    Outcome,
    /// The outcome, with what was found.
    All,
}
