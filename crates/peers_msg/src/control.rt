//! Messages without data.

/// Control messages: class 0 (HAProxy, doc/peers-v2.0.txt, "Control Messages").
#[derive(Clone, Copy, Debug, PartialEq, Eq)]
pub enum Control {
    /// Type 0: asks the peer to teach all its rows.
    ResyncRequest,
    /// Type 1: the sender has taught all its rows.
    ResyncFinished,
    /// Type 2: the sender has taught all its rows, but isn't itself up to date.
    ResyncPartial,
    /// Type 3: confirms the end of a resync.
    ResyncConfirmed,
    /// Type 4: shows that the sender is alive.
    Heartbeat,
}

/// Error messages: class 1 (HAProxy, doc/peers-v2.0.txt, "Error Messages").
#[derive(Clone, Copy, Debug, PartialEq, Eq)]
pub enum ErrorKind {
    /// Type 0: the peer violated the protocol.
    Protocol,
    /// Type 1: a message was too large.
    SizeLimit,
}
