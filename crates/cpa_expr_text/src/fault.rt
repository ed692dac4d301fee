//! Why no expression was read.
ghost use Rattle.std.specs.Prelude.{◌≡◌};

use std::alloc::AllocError;

/// Why no expression was read.
#[derive(Clone, Copy, PartialEq, Eq, Drop)]
pub(crate) enum ReadFault {
    /// The words do not begin with those of an expression that is low enough.
    Other,
    /// Memory ran out.
    OutOfMemory,
}

impl From<AllocError> for ReadFault {
    ghost use Rattle.cpa_expr_text.specs.declared.fault.ReadFault.TheVariants.{OutOfMemory};

    ghost from_gives = { λ _ fault. fault ≡ OutOfMemory };

    fn from(_error: AllocError) -> ReadFault {
        ReadFault::OutOfMemory
    }
}
