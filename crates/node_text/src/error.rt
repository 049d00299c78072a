//! Why a text is refused.
ghost use Rattle.std.specs.Prelude.{◌≡◌};
ghost use Rattle.node_text.specs.declared.error.LineError.TheVariants as line_errors;

use std::alloc::{AllocError, AllocFailed};
use table_types::{DefError, Memory};
use thiserror::Error;

/// Why a scene or a script wasn't read. What was read of it is dropped.
#[derive(Clone, Copy, Debug, PartialEq, Eq, Error)]
pub enum SceneError {
    /// The first line that breaks a rule or a limit has this number, from 1.
    #[error("line {0}: refused")]
    Line(usize),
    /// No line is refused, but something that the subcommand needs is missing.
    #[error("scene: refused")]
    Scene,
    /// Memory ran out.
    #[error("memory")]
    Memory,
}

/// Why a line wasn't read.
#[derive(Clone, Copy, Debug, PartialEq, Eq)]
pub enum LineError {
    /// The line breaks a rule or a limit.
    Refused,
    /// Memory ran out.
    Memory,
}

impl From<AllocError> for LineError {
    ghost from_gives = { λ _ e. e ≡ line_errors.Memory };

    fn from(_refused: AllocError) -> LineError {
        LineError::Memory
    }
}

impl<T: Drop> From<AllocFailed<T>> for LineError {
    ghost from_gives = { λ _ e. e ≡ line_errors.Memory };

    fn from(_refused: AllocFailed<T>) -> LineError {
        LineError::Memory
    }
}

impl From<Memory> for LineError {
    ghost from_gives = { λ _ e. e ≡ line_errors.Memory };

    fn from(_memory: Memory) -> LineError {
        LineError::Memory
    }
}

impl From<DefError> for LineError {
    fn from(error: DefError) -> LineError {
        match error {
            DefError::Memory => LineError::Memory,
            _ => LineError::Refused,
        }
    }
}
