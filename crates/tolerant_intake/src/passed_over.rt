//! What was passed over, and how often.

ghost use Rattle.std.specs.Prelude.{◌≡◌};
ghost use Rattle.tolerant_intake.specs.Counts.{more, none_passed, counted};

/// Why something that a peer sent is passed over (profile).
#[derive(Clone, Copy, Debug, PartialEq, Eq)]
pub enum Cause {
    /// A definition outside the profile.
    Definition,
    /// A definition with a data type from 20 up.
    DataType,
    /// An update that reads its name from a slot that holds none.
    Slot,
    /// An update with a value out of its range.
    Value,
}

/// How often something of a peer was passed over, for each cause. Counts stop at 2^64 - 1.
#[derive(Clone, Copy, Debug, PartialEq, Eq)]
pub struct PassedOver {
    /// Definitions outside the profile, without those with an unknown data type.
    pub definition: u64,
    /// Updates with a value out of its range.
    pub value: u64,
    /// Updates that read an empty slot.
    pub slot: u64,
    /// Definitions with data types from 20 up.
    pub data_type: u64,
}

/// Returns one more, at most 2^64 - 1.
fn more(count: u64) -> u64
    ensures { result ≡ more count }
{
    if count == u64::MAX { count } else { count + 1 }
}

impl PassedOver {
    /// Returns the counts before anything was passed over.
    pub fn none() -> PassedOver
        ensures { result ≡ none_passed }
    {
        PassedOver {
            definition: 0,
            value: 0,
            slot: 0,
            data_type: 0,
        }
    }

    /// Returns the counts with one more of `cause`.
    pub(crate) fn counted(self, cause: Cause) -> PassedOver
        ensures { result ≡ counted cause self }
    {
        let mut counts = self;
        match cause {
            Cause::Definition => counts.definition = more(counts.definition),
            Cause::DataType => counts.data_type = more(counts.data_type),
            Cause::Slot => counts.slot = more(counts.slot),
            Cause::Value => counts.value = more(counts.value),
        }
        counts
    }
}
