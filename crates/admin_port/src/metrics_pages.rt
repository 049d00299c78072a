//! The page of metrics: what a node counts.
ghost use Rattle.std.specs.Prelude.{◌≡◌, ◌++◌, IfOk, OnOk};
ghost use Rattle.admin_port.specs.Metrics.{metrics_page};

use crate::lag_metrics::push_lag_families;
use crate::metric_families::{push_node_families, push_refused_hellos};
use crate::peer_metrics::{PeerMetrics, push_peer_families};
use crate::process_metrics::{BuildInfo, ProcessMetrics, push_process_families};
use crate::table_metrics::{TableMetrics, push_table_families};
use std::alloc::{AllocError, Global};
use table_types::Name;

/// What a node counts.
#[derive(Debug, Drop)]
pub struct Metrics<'a> {
    /// The name of the peers section, if the configuration has one.
    pub section: &'a Option<Name>,
    /// What is counted of each table.
    pub tables: Vec<TableMetrics<'a>>,
    /// What is counted of each peer.
    pub peers: Vec<PeerMetrics<'a>>,
    /// What is counted of all peers together.
    pub node: NodeMetrics,
    /// How often each fault came.
    pub faults: Vec<FaultCount>,
    /// How often hellos were refused, by the status.
    pub refused_hellos: Vec<RefusedHellos>,
    /// What the program is built from.
    pub build: BuildInfo,
    /// What the system counts of the process.
    pub process: ProcessMetrics,
}

/// What a node counts of all peers together.
#[derive(Clone, Copy, Debug)]
pub struct NodeMetrics {
    /// Whether the node is up to date.
    pub up_to_date: bool,
    /// The peers with a session whose hello is over.
    pub active_peers: u64,
    /// The peers with a connection.
    pub connected_peers: u64,
    /// The rows learned.
    pub rows_learned: u64,
    /// The rows taught.
    pub rows_taught: u64,
    /// The bytes sent to peers.
    pub bytes_sent: u64,
    /// The bytes received from peers.
    pub bytes_received: u64,
    /// The tables that are left in the sessions that stand.
    pub tables_left: u64,
    /// What was passed over.
    pub passed_over: PassedOver,
    /// The lines of the log that were dropped.
    pub log_lines_dropped: u64,
    /// The whole seconds since the node began.
    pub uptime_seconds: u64,
}

/// How often something of a peer's was passed over.
#[derive(Clone, Copy, Debug)]
pub struct PassedOver {
    /// Definitions outside the profile.
    pub definition: u64,
    /// Updates with a value out of its range.
    pub value: u64,
    /// Updates whose name stands in an empty slot.
    pub slot: u64,
    /// Updates of tables with data types outside the profile.
    pub data_type: u64,
}

/// How often a fault came.
#[derive(Clone, Copy, Debug)]
pub struct FaultCount {
    /// The fault's name.
    pub name: &'static str,
    /// How often it came.
    pub count: u64,
}

/// How often the node refused a hello with a status.
#[derive(Clone, Copy, Debug)]
pub struct RefusedHellos {
    /// The status.
    pub status: u16,
    /// How often it was sent.
    pub count: u64,
}

/// Returns the page of metrics.
pub fn metrics_page(alloc: Global, metrics: &Metrics<'_>) -> Result<Vec<u8>, AllocError>
    ensures { IfOk result (λ page. page.items ≡ metrics_page metrics.now) }
{
    let mut page = Vec::new(alloc);
    push_table_families(alloc, &mut page, metrics.section, metrics.tables.as_slice())?;
    push_peer_families(&mut page, metrics.peers.as_slice())?;
    push_lag_families(alloc, &mut page, metrics.section, metrics.peers.as_slice())?;
    push_node_families(&mut page, &metrics.node, metrics.faults.as_slice())?;
    push_refused_hellos(alloc, &mut page, metrics.refused_hellos.as_slice())?;
    push_process_families(&mut page, metrics.build, metrics.process)?;
    Ok(page)
}
