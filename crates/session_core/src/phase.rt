//! The stages of a session.

use peers_hello::Hello;
use table_types::{Items, Name, Version};

/// Which side of the handshake this node takes.
#[derive(Debug, Drop)]
pub(crate) enum Greeter {
    /// This node opened the connection: it sent its hello, which said this version, and awaits the status.
    Connects(Version),
    /// The remote peer opened the connection: this node awaits its hello.
    Accepts {
        /// This node's own name.
        own: Name,
        /// The peers that this node accepts.
        peers: Items<Name>,
    },
}

/// The stage of a session.
#[derive(Drop)]
pub(crate) enum Stage {
    /// The connection isn't established yet. The session sends this hello first.
    New(Hello),
    /// The hello or the status is incomplete. These bytes of it were received.
    Hello(Greeter, Vec<u8>),
    /// Both sides send messages.
    Open,
    /// The session is over.
    Ended,
}
