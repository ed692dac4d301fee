//! What comes of a replay, as data.
//! Which outcome comes is `ComesTo` of `specs/Replays.antt`.

/// What comes of a replay. Where several would do, the error and the end come first, then the
/// budget, then what holds the step up.
#[derive(Clone, Copy)]
pub enum Outcome {
    /// `reach_error` is called after so many steps.
    Error { steps: u64 },
    /// `main` returned, or the program ended itself.
    Ended,
    /// No step leads on from this point: an expression traps.
    Trapped { point: u32 },
    /// At this point an input is wanted, and none is left.
    InputsShort { point: u32 },
    /// The input at this place of the list, counted from 0, is no value of the cell that it is for.
    BadInput { place: u32 },
    /// The steps of the budget are made.
    StepsSpent,
}
