//! Why no value was read.
ghost use Rattle.std.specs.Prelude.{◌≡◌};
ghost use Rattle.cpa_report_json.specs.declared.fault.ReadFault.TheVariants.{OutOfMemory};

use std::alloc::{AllocError, AllocFailed};

/// Why no value was read.
#[derive(Clone, Copy, PartialEq, Eq, Drop)]
pub enum ReadFault {
    /// The tokens do not begin with those of such a value.
    Other,
    /// Memory ran out.
    OutOfMemory,
}

impl From<AllocError> for ReadFault {
    ghost from_gives = { λ _ fault. fault ≡ OutOfMemory };

    /// Memory ran out.
    fn from(_error: AllocError) -> ReadFault {
        ReadFault::OutOfMemory
    }
}

impl<T: Drop> From<AllocFailed<T>> for ReadFault {
    ghost from_gives = { λ _ fault. fault ≡ OutOfMemory };

    /// Memory ran out.
    fn from(_failed: AllocFailed<T>) -> ReadFault {
        ReadFault::OutOfMemory
    }
}
