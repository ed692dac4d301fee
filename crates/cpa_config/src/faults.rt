//! The rules that a configuration can break, and the line that names one (`fault_line` of
//! `specs/Lines.antt`).
ghost use Rattle.std.specs.Prelude.{◌≡◌};
ghost use Rattle.cpa_config.specs.declared.faults.ConfigError.TheVariants.{OutOfMemory};

use std::alloc::{AllocError, AllocFailed};
use thiserror::Error;

/// The rules that a configuration can break. At one key the first is the one that is named.
#[derive(Clone, Copy, Debug, PartialEq, Eq)]
pub enum ConfigRule {
    /// The text is no TOML document.
    C1,
    /// There is no such key.
    C2,
    /// A value of another kind, or outside its range.
    C3,
    /// An analysis that is not handed in, or in `merge` one that is not listed.
    C4,
    /// No analysis is listed, or one twice.
    C5,
}

/// The rule that a text breaks, and the key at which it does; C1 has the empty key.
#[derive(Debug, Drop, Error)]
pub struct ConfigFault {
    pub rule: ConfigRule,
    pub key: String,
}

/// Why a text gives no configuration.
#[derive(Debug, Drop, Error)]
pub enum ConfigError {
    /// The text breaks a rule.
    #[error(transparent)]
    Fault(ConfigFault),
    /// Memory ran out. This says nothing of the text.
    #[error("out of memory")]
    OutOfMemory,
}

impl From<AllocError> for ConfigError {
    ghost from_gives = { λ _ error. error ≡ OutOfMemory };

    fn from(_error: AllocError) -> ConfigError {
        ConfigError::OutOfMemory
    }
}

impl<T: Drop> From<AllocFailed<T>> for ConfigError {
    ghost from_gives = { λ _ error. error ≡ OutOfMemory };

    fn from(_failed: AllocFailed<T>) -> ConfigError {
        ConfigError::OutOfMemory
    }
}
