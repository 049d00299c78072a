//! Why a line isn't read.
ghost use Rattle.std.specs.Prelude.{◌≡◌};
ghost use Rattle.admin_text.specs.declared.line_refusals.LineRefusal.TheVariants as refusals;

use crate::faults::Fault;
use std::alloc::{AllocError, AllocFailed};
use table_types::Memory;

/// Why a line isn't read.
#[derive(Clone, Copy, Debug, PartialEq, Eq)]
pub(crate) enum LineRefusal {
    /// This is wrong with it.
    Fault(Fault),
    /// Memory ran out.
    Memory,
}

impl From<Fault> for LineRefusal {
    ghost from_gives = { λ fault e. e ≡ refusals.Fault fault };

    fn from(fault: Fault) -> LineRefusal {
        LineRefusal::Fault(fault)
    }
}

impl From<Memory> for LineRefusal {
    ghost from_gives = { λ _ e. e ≡ refusals.Memory };

    fn from(_memory: Memory) -> LineRefusal {
        LineRefusal::Memory
    }
}

impl From<AllocError> for LineRefusal {
    ghost from_gives = { λ _ e. e ≡ refusals.Memory };

    fn from(_refused: AllocError) -> LineRefusal {
        LineRefusal::Memory
    }
}

impl<T: Drop> From<AllocFailed<T>> for LineRefusal {
    ghost from_gives = { λ _ e. e ≡ refusals.Memory };

    fn from(_refused: AllocFailed<T>) -> LineRefusal {
        LineRefusal::Memory
    }
}
