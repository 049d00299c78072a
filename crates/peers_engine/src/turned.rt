//! How a turn ends.

/// Whether a session goes on after a turn.
#[derive(Clone, Copy, Debug, PartialEq, Eq)]
pub enum Turned {
    /// The session goes on.
    Going,
    /// The session closed the connection, with or without an error message, and is over.
    Closed,
}
