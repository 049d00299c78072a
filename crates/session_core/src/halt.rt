//! Why a session receives no further messages.

ghost use Rattle.std.specs.Prelude.{◌≡◌};
ghost use Rattle.session_core.specs.declared.halt.Halt.TheVariants as halts;
ghost use Rattle.session_core.specs.Courses.{halt_of};

use learner::Fault;
use table_types::Memory;

/// Why a session receives no further messages.
#[derive(Clone, Copy, Debug, PartialEq, Eq)]
pub(crate) enum Halt {
    /// The remote peer sent an error message.
    Failed,
    /// The remote peer's messages have this fault.
    Fault(Fault),
    /// Memory ran out.
    Memory,
}

impl From<Memory> for Halt {
    ghost from_gives = { λ _ halt. halt ≡ halts.Memory };

    fn from(_refused: Memory) -> Halt {
        Halt::Memory
    }
}

impl From<Fault> for Halt {
    ghost from_gives = { λ fault halt. halt ≡ halt_of fault };

    fn from(fault: Fault) -> Halt {
        match fault {
            Fault::Memory => Halt::Memory,
            Fault::Breach(_) | Fault::Closed | Fault::EmptySlot | Fault::NoNumber => {
                Halt::Fault(fault)
            }
        }
    }
}
