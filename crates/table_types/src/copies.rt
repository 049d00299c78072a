//! What a table copies for a peer, and what a peer's acknowledgement settles.

/// Which rows a batch teaches.
#[derive(Clone, Copy, Debug, PartialEq, Eq)]
pub enum CopyKind {
    /// This node's own rows.
    Push,
    /// This node's own rows and learned rows.
    Resync,
    /// This node's own rows and learned rows up to the last number that the table had assigned when the session was
    /// opened.
    Standing,
}

/// How much of a batch an acknowledgement settled.
#[derive(Clone, Copy, Debug, PartialEq, Eq)]
pub enum Settled {
    /// The whole batch: nothing of it is unacknowledged.
    All,
    /// Part of the batch: the rest is still unacknowledged.
    Some,
    /// Nothing: the number isn't above the last one acknowledged.
    Older,
}
