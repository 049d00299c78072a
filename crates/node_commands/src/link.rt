//! The link from this node to another.

use table_types::Name;

/// A link to another node: the names of both nodes, the port, and the number and length of the sessions.
#[derive(Debug, Drop)]
pub struct Link {
    /// The most turns that each session makes: 1 to 1,000,000.
    pub turns: u32,
    /// The number of sessions: 1 to 16 for a node that serves, and 1 for one that joins.
    pub sessions: u32,
    /// The port of 127.0.0.1 that one node listens on and the other connects to: 1 to 65,535.
    pub port: u16,
    /// The name of this node.
    pub name: Name,
    /// The name of the other node.
    pub peer: Name,
}
