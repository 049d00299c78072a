//! The states of a session.

/// The state of a session.
#[derive(Clone, Copy, Debug, PartialEq, Eq)]
pub enum State {
    /// The connection isn't established yet.
    New,
    /// The two sides exchange the hello and its status.
    Hello,
    /// Both sides send messages. This node teaches its own rows as they change.
    Ready,
    /// The remote peer requested a resync. This node teaches it every row.
    Teaching,
    /// The session is over.
    Ended,
}
