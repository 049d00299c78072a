//! The actions that aren't answered yet.

/// An action that isn't answered yet.
#[derive(Clone, Copy, Debug, PartialEq, Eq)]
pub(crate) enum Due {
    /// `Copy` of the table with this id.
    Copy(u64),
    /// `Teach`.
    Teach,
    /// `Ack` of the table with this id.
    Ack(u64),
}
