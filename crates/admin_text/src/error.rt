//! Why a configuration isn't read.
ghost use Rattle.std.specs.Prelude.{◌≡◌};
ghost use Rattle.admin_text.specs.declared.error.ConfigurationError.TheVariants as errors;

use crate::refusals::Refusal;
use table_types::Memory;
use thiserror::Error;

/// Why a configuration wasn't read. What was read of it is dropped.
#[derive(Debug, Drop, Error)]
pub enum ConfigurationError {
    /// A line is refused, or one lacks.
    #[error("the configuration is refused")]
    Refused(Refusal),
    /// Memory ran out.
    #[error("memory")]
    Memory,
}

impl From<Memory> for ConfigurationError {
    ghost from_gives = { λ _ error. error ≡ errors.Memory };

    fn from(_refused: Memory) -> ConfigurationError {
        ConfigurationError::Memory
    }
}
