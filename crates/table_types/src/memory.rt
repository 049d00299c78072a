//! The error of a call that ran out of memory.

ghost use Rattle.std.specs.Prelude.{◌≡◌};
ghost use Rattle.table_types.specs.declared.memory.Memory.{Memory};

use std::alloc::{AllocError, AllocFailed};
use thiserror::Error;

/// Memory ran out. A call that returns this error has changed nothing, unless its own documentation says otherwise.
#[derive(Clone, Copy, Debug, PartialEq, Eq, Error)]
#[error("memory")]
pub struct Memory;

impl From<AllocError> for Memory {
    fn from(_refused: AllocError) -> Memory {
        Memory
    }
}

impl<T: Drop> From<AllocFailed<T>> for Memory {
    fn from(_refused: AllocFailed<T>) -> Memory {
        Memory
    }
}
