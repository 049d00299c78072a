//! How an update's name is sent.

/// How an update's name is sent, once the lesson's names are planned.
#[derive(Clone, Copy, Debug)]
pub enum PlannedName {
    /// The table stores no server name: no field.
    NotStored,
    /// The update has no name: an empty field.
    NoName,
    /// The name is read from this slot.
    Read(u8),
    /// The name is written to this slot.
    Write(u8),
}
