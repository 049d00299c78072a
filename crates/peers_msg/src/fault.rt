//! Why bytes are not a message.

ghost use Rattle.std.specs.Prelude.{◌≡◌};
ghost use Rattle.peers_msg.specs.Breaches.{breach_name};
ghost use Rattle.peers_msg.specs.declared.fault.Fault.TheVariants as faults;

use table_types::Memory;
use thiserror::Error;

/// The first breach, from left to right, in bytes that should be a message (profile).
#[derive(Clone, Copy, Debug, PartialEq, Eq, Error)]
pub enum Breach {
    /// An encoded integer is 2^64 or more, or the data of a switch or an acknowledgement end inside a field.
    #[error("an encoded integer is too large or cut short")]
    BadInteger,
    /// The length of the data exceeds the limit for a message.
    #[error("a message has more data than a message may have")]
    SizeLimit,
    /// A definition ends inside a field, or one of its fields is out of range.
    #[error("a table's definition is malformed")]
    BadDefinition,
    /// A definition has a bit from 20 up.
    #[error("a table's definition has an unknown data type")]
    UnknownDataType,
    /// An update arrives while no table is selected, or a switch names an id without a table.
    #[error("no table is selected, or none is defined under the id")]
    NoTable,
    /// An update ends inside its number, life or key, or its key doesn't fit the table.
    #[error("an update's key is malformed or doesn't fit its table")]
    BadKey,
    /// An update ends inside its values or its name field, or one of them is out of range.
    #[error("an update's values are malformed or out of range")]
    BadValue,
    /// Bytes are left after the last field of the data.
    #[error("bytes are left after the last field of a message")]
    Trailing,
}

/// Why a decoder returns no message, or accepts no bytes (profile).
#[derive(Clone, Copy, Debug, PartialEq, Eq, Error)]
pub enum Fault {
    /// The bytes at the front are not a message.
    #[error("{0}")]
    Breach(Breach),
    /// Memory ran out.
    #[error("memory")]
    Memory,
    /// A breach occurred before: the decoder reads nothing more.
    #[error("nothing more is read after a fault")]
    Closed,
}

impl From<Memory> for Fault {
    ghost from_gives = { λ _ e. e ≡ faults.Memory };

    fn from(_refused: Memory) -> Fault {
        Fault::Memory
    }
}

impl Breach {
    /// Returns the breach's name as the source spells it: `BadInteger`, `SizeLimit` and so on.
    pub fn name(self) -> &'static str
        ensures { result.now ≡ breach_name self }
    {
        match self {
            Breach::BadInteger => "BadInteger",
            Breach::SizeLimit => "SizeLimit",
            Breach::BadDefinition => "BadDefinition",
            Breach::UnknownDataType => "UnknownDataType",
            Breach::NoTable => "NoTable",
            Breach::BadKey => "BadKey",
            Breach::BadValue => "BadValue",
            Breach::Trailing => "Trailing",
        }
    }
}
