//! Versions of the peers protocol.

/// The version of the peers protocol that a session speaks, as its hello says (HAProxy, doc/peers-v2.0.txt, "Handshake").
#[derive(Clone, Copy, Debug, PartialEq, Eq)]
pub enum Version {
    /// 2.0: updates are sent without a life.
    V20,
    /// 2.1: updates are sent with a life.
    V21,
}
