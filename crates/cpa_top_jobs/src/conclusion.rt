//! What a job comes to at its end. Which conclusions a job may have is `Concludes` of
//! `specs/Ends.antt`.

use crate::Status;

/// What a job comes to, and what is to be written of it.
#[derive(Drop)]
pub struct Conclusion {
    pub status: Status,
    /// The whole text, with the line feed at its end.
    pub text: Vec<u8>,
}
