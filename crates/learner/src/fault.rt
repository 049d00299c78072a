//! Why a learner stops.

ghost use Rattle.std.specs.Prelude.{◌≡◌};
ghost use Rattle.learner.specs.Faults.{fault_name, as_fault};
ghost use Rattle.learner.specs.declared.fault.Fault.TheVariants.{Memory as NoMemory};

use known_state::Refusal;
use peers_msg::Breach;
use table_types::Memory;
use thiserror::Error;

/// Why a learner stops. What is wrong with the bytes is the first breach from left to right; if a name field reads an
/// empty slot and there is no number either, it is `NoNumber` (profile).
///
/// After any fault but `Memory`, every later call that takes bytes returns `Closed`. After `Memory` too, if a learner's
/// `feed` returned it.
#[derive(Clone, Copy, Debug, PartialEq, Eq, Error)]
pub enum Fault {
    /// The bytes at the front are no message.
    #[error("{0}")]
    Breach(Breach),
    /// Out of memory.
    #[error("memory")]
    Memory,
    /// There was a fault before: nothing more is read.
    #[error("nothing more is read after a fault")]
    Closed,
    /// An update reads its name from a slot that holds none.
    #[error("an update reads its server name from an empty slot")]
    EmptySlot,
    /// An incremental update comes before its table has a number.
    #[error("an incremental update comes before any number of its table")]
    NoNumber,
}

impl From<Refusal> for Fault {
    ghost from_gives = { λ refusal e. e ≡ as_fault refusal };

    fn from(refusal: Refusal) -> Fault {
        match refusal {
            Refusal::NoNumber => Fault::NoNumber,
            Refusal::EmptySlot => Fault::EmptySlot,
            Refusal::Memory => Fault::Memory,
        }
    }
}

impl From<Memory> for Fault {
    ghost from_gives = { λ _ e. e ≡ NoMemory };

    fn from(_refused: Memory) -> Fault {
        Fault::Memory
    }
}

impl Fault {
    /// Returns the fault's name, as the source writes it: `BadInteger`, `SizeLimit` and so on.
    pub fn name(self) -> &'static str
        ensures { result.now ≡ fault_name self }
    {
        match self {
            Fault::Breach(breach) => breach.name(),
            Fault::Memory => "Memory",
            Fault::Closed => "Closed",
            Fault::EmptySlot => "EmptySlot",
            Fault::NoNumber => "NoNumber",
        }
    }
}
