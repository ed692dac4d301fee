//! What is told as a part of a parallel phase begins. No clause speaks of it: a gate of a test sees
//! that parts run at the same time.

/// Told once by each part of a parallel phase, as the part begins.
pub trait Gate: Sync {
    /// Part `part` begins.
    fn enter(&self, part: u32);
}

/// A gate that does nothing.
pub struct NoGate;

impl Gate for NoGate {
    /// Does nothing.
    fn enter(&self, _part: u32) {}
}
