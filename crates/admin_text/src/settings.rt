//! What a line of a configuration says.

use crate::peers::Peer;
use node_core::Level;
use std::net::SocketAddr;
use table_types::{Items, Name, TableDef};

/// What a line says.
#[derive(Drop)]
pub(crate) enum Setting {
    /// The name by which peers know the node.
    Node(Name),
    /// Where it takes connections of peers.
    Listen(SocketAddr),
    /// The loopback address at which it takes requests.
    Admin(SocketAddr),
    /// The path of the socket at which it takes requests.
    Socket(Items<u8>),
    /// Where it answers HTTP and nothing else.
    Metrics(SocketAddr),
    /// The name of the peers section.
    Section(Name),
    /// A peer.
    Peer(Peer),
    /// A table.
    Table(TableDef),
    /// The greatest number of rows of the table with this id. If its word for an id writes none, the table is refused.
    Size(Option<u64>, u32),
    /// That the table with this id keeps its live rows. If its word for an id writes none, the table is refused.
    Nopurge(Option<u64>),
    /// The last level of the log that is written.
    Log(Level),
    /// That the log is for systemd's journal.
    Journal,
}
