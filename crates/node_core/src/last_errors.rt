//! Why the node has no session with a peer.

/// Why the node has no session with a peer, as its last attempt showed.
#[derive(Clone, Copy, Debug, PartialEq, Eq)]
pub enum LastError {
    /// The node couldn't reach the peer: its address couldn't be connected to, or the connection came to no session.
    Unreachable,
    /// The peer refused the node's hello with this status.
    Refused(u16),
    /// The node refused the peer's hello with this status.
    HelloRefused(u16),
}
