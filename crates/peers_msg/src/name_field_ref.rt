//! The name field of an update, borrowed.

/// The name field of an update, borrowed from the bytes of the message. It is like a `NameField`, except that the name
/// is a slice of those bytes.
#[derive(Clone, Copy, Debug)]
pub enum NameFieldRef<'a> {
    /// The table stores no server name: no bytes.
    NotStored,
    /// The row has no name: a length of 0.
    NoName,
    /// The name that this slot holds.
    Held(u8),
    /// The name, which is also written to this slot.
    Written(u8, &'a [u8]),
}
