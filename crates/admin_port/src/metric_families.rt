//! The families of metrics of a node as a whole.
ghost use Rattle.std.specs.Prelude.{◌≡◌, ◌++◌, OnOk};
ghost use Rattle.admin_port.specs.Metrics.{family_help, family_kind, family_name, family_value, fault_sample, faults_family, node_families, node_family, passed_family, passed_head, passed_sample, peer_counts, refused_hellos_family, refused_hellos_sample, row_counts};

use crate::metrics_pages::{FaultCount, NodeMetrics, PassedOver, RefusedHellos};
use crate::samples::{Label, push_head, push_sample};
use node_text::push_number;
use std::alloc::{AllocError, Global};

/// A family of one sample.
#[derive(Clone, Copy)]
enum NodeFamily {
    /// Whether the node is up to date.
    UpToDate,
    /// The peers with a session whose hello is over.
    ActivePeers,
    /// The peers with a connection.
    ConnectedPeers,
    /// The tables that are left.
    TablesLeft,
    /// The rows learned.
    RowsLearned,
    /// The rows taught.
    RowsTaught,
    /// The bytes sent.
    BytesSent,
    /// The bytes received.
    BytesReceived,
    /// The lines of the log that were dropped.
    LogLinesDropped,
    /// The time since the node began.
    Uptime,
}

impl NodeFamily {
    /// Returns the name of the family.
    fn name(self) -> &'static str
        ensures { result.now ≡ family_name self }
    {
        match self {
            NodeFamily::UpToDate => "digbaro_up_to_date",
            NodeFamily::ActivePeers => "haproxy_process_active_peers",
            NodeFamily::ConnectedPeers => "haproxy_process_connected_peers",
            NodeFamily::TablesLeft => "digbaro_tables_left",
            NodeFamily::RowsLearned => "digbaro_rows_learned_total",
            NodeFamily::RowsTaught => "digbaro_rows_taught_total",
            NodeFamily::BytesSent => "digbaro_bytes_sent_total",
            NodeFamily::BytesReceived => "digbaro_bytes_received_total",
            NodeFamily::LogLinesDropped => "digbaro_log_lines_dropped_total",
            NodeFamily::Uptime => "digbaro_uptime_seconds",
        }
    }

    /// Returns `counter` if the value only goes up, and otherwise `gauge`.
    fn kind(self) -> &'static str
        ensures { result.now ≡ family_kind self }
    {
        match self {
            NodeFamily::UpToDate => "gauge",
            NodeFamily::ActivePeers => "gauge",
            NodeFamily::ConnectedPeers => "gauge",
            NodeFamily::TablesLeft => "gauge",
            NodeFamily::RowsLearned => "counter",
            NodeFamily::RowsTaught => "counter",
            NodeFamily::BytesSent => "counter",
            NodeFamily::BytesReceived => "counter",
            NodeFamily::LogLinesDropped => "counter",
            NodeFamily::Uptime => "gauge",
        }
    }

    /// Returns what the family measures.
    fn help(self) -> &'static str
        ensures { result.now ≡ family_help self }
    {
        match self {
            NodeFamily::UpToDate => "Whether this node is up to date.",
            NodeFamily::ActivePeers => "Current number of verified active peers connections.",
            NodeFamily::ConnectedPeers =>
                "Current number of peers having passed the connection step.",
            NodeFamily::TablesLeft => "Tables that were left in the sessions that stand.",
            NodeFamily::RowsLearned => "Rows learned from peers.",
            NodeFamily::RowsTaught => "Rows taught to peers.",
            NodeFamily::BytesSent => "Bytes sent to peers.",
            NodeFamily::BytesReceived => "Bytes received from peers.",
            NodeFamily::LogLinesDropped => "Lines of the log that were dropped.",
            NodeFamily::Uptime => "Seconds since this node began.",
        }
    }

    /// Returns the value of the sample.
    fn value(self, node: &NodeMetrics) -> u64
        ensures { result ≡ family_value self node.now }
    {
        match self {
            NodeFamily::UpToDate => u64::from(node.up_to_date),
            NodeFamily::ActivePeers => node.active_peers,
            NodeFamily::ConnectedPeers => node.connected_peers,
            NodeFamily::TablesLeft => node.tables_left,
            NodeFamily::RowsLearned => node.rows_learned,
            NodeFamily::RowsTaught => node.rows_taught,
            NodeFamily::BytesSent => node.bytes_sent,
            NodeFamily::BytesReceived => node.bytes_received,
            NodeFamily::LogLinesDropped => node.log_lines_dropped,
            NodeFamily::Uptime => node.uptime_seconds,
        }
    }
}

/// Appends the families of a node as a whole.
pub(crate) fn push_node_families(
    text: &mut Vec<u8>,
    node: &NodeMetrics,
    faults: &[FaultCount],
) -> Result<(), AllocError>
    ensures { OnOk result (text.new.items ≡ text.old.items ++ node_families node.now faults.now) }
{
    push_peer_counts(text, node)?;
    push_row_counts(text, node)?;
    push_passed_over(text, node.passed_over)?;
    push_faults(text, faults)?;
    push_family(text, node, NodeFamily::LogLinesDropped)?;
    push_family(text, node, NodeFamily::Uptime)
}

/// Appends whether the node is up to date, how many peers there are, and how many tables were left.
#[tactic(auto, unfolding(crate::specs::Metrics::peer_counts))]
fn push_peer_counts(text: &mut Vec<u8>, node: &NodeMetrics) -> Result<(), AllocError>
    ensures { OnOk result (text.new.items ≡ text.old.items ++ peer_counts node.now) }
{
    push_family(text, node, NodeFamily::UpToDate)?;
    push_family(text, node, NodeFamily::ActivePeers)?;
    push_family(text, node, NodeFamily::ConnectedPeers)?;
    push_family(text, node, NodeFamily::TablesLeft)
}

/// Appends how many rows and bytes were sent and received.
#[tactic(auto, unfolding(crate::specs::Metrics::row_counts))]
fn push_row_counts(text: &mut Vec<u8>, node: &NodeMetrics) -> Result<(), AllocError>
    ensures { OnOk result (text.new.items ≡ text.old.items ++ row_counts node.now) }
{
    push_family(text, node, NodeFamily::RowsLearned)?;
    push_family(text, node, NodeFamily::RowsTaught)?;
    push_family(text, node, NodeFamily::BytesSent)?;
    push_family(text, node, NodeFamily::BytesReceived)
}

/// Appends a family of one sample.
#[tactic(auto, unfolding(crate::specs::Metrics::node_family))]
fn push_family(text: &mut Vec<u8>, node: &NodeMetrics, family: NodeFamily) -> Result<(), AllocError>
    ensures { OnOk result (text.new.items ≡ text.old.items ++ node_family family node.now) }
{
    push_head(text, family.name(), family.kind(), family.help())?;
    push_sample(text, family.name(), &[], family.value(node))
}

/// Appends how often something was passed over, and why.
#[tactic(auto, unfolding(crate::specs::Metrics::passed_family))]
fn push_passed_over(text: &mut Vec<u8>, passed: PassedOver) -> Result<(), AllocError>
    ensures { OnOk result (text.new.items ≡ text.old.items ++ passed_family passed) }
{
    push_passed_head(text)?;
    push_passed(text, "definition", passed.definition)?;
    push_passed(text, "value", passed.value)?;
    push_passed(text, "slot", passed.slot)?;
    push_passed(text, "type", passed.data_type)
}

/// Appends what stands before how often something was passed over.
#[tactic(auto, unfolding(crate::specs::Metrics::passed_head))]
fn push_passed_head(text: &mut Vec<u8>) -> Result<(), AllocError>
    ensures { OnOk result (text.new.items ≡ text.old.items ++ passed_head) }
{
    push_head(
        text,
        "digbaro_passed_over_total",
        "counter",
        "What came from peers and was passed over.",
    )
}

/// Appends how often something was passed over for one reason.
#[tactic(auto, unfolding(crate::specs::Metrics::passed_sample))]
fn push_passed(text: &mut Vec<u8>, why: &str, count: u64) -> Result<(), AllocError>
    ensures { OnOk result (text.new.items ≡ text.old.items ++ passed_sample why.now count) }
{
    let labels = [Label {
        name: "why",
        value: why.as_bytes(),
    }];
    push_sample(text, "digbaro_passed_over_total", labels.as_slice(), count)
}

/// Appends how often each fault came.
#[tactic(auto, unfolding(crate::specs::Metrics::faults_family))]
fn push_faults(text: &mut Vec<u8>, faults: &[FaultCount]) -> Result<(), AllocError>
    ensures { OnOk result (text.new.items ≡ text.old.items ++ faults_family faults.now) }
{
    push_head(
        text,
        "digbaro_faults_total",
        "counter",
        "Faults of what peers sent.",
    )?;
    for fault in faults {
        push_fault(text, fault)?;
    }
    Ok(())
}

/// Appends how often a fault came.
#[tactic(auto, unfolding(crate::specs::Metrics::fault_sample))]
fn push_fault(text: &mut Vec<u8>, fault: &FaultCount) -> Result<(), AllocError>
    ensures { OnOk result (text.new.items ≡ text.old.items ++ fault_sample fault.now) }
{
    let labels = [Label {
        name: "fault",
        value: fault.name.as_bytes(),
    }];
    push_sample(text, "digbaro_faults_total", labels.as_slice(), fault.count)
}

/// Appends how often hellos were refused with each status.
#[tactic(auto, unfolding(crate::specs::Metrics::refused_hellos_family))]
pub(crate) fn push_refused_hellos(
    alloc: Global,
    text: &mut Vec<u8>,
    refused: &[RefusedHellos],
) -> Result<(), AllocError>
    ensures { OnOk result (text.new.items ≡ text.old.items ++ refused_hellos_family refused.now) }
{
    push_head(
        text,
        "digbaro_hellos_refused_total",
        "counter",
        "Hellos that this node refused with this status.",
    )?;
    for hellos in refused {
        push_refused_status(alloc, text, *hellos)?;
    }
    Ok(())
}

/// Appends how often hellos were refused with a status.
#[tactic(auto, unfolding(crate::specs::Metrics::refused_hellos_sample))]
fn push_refused_status(
    alloc: Global,
    text: &mut Vec<u8>,
    hellos: RefusedHellos,
) -> Result<(), AllocError>
    ensures { OnOk result (text.new.items ≡ text.old.items ++ refused_hellos_sample hellos) }
{
    let mut status = Vec::new(alloc);
    push_number(&mut status, u64::from(hellos.status))?;
    let labels = [Label {
        name: "status",
        value: status.as_slice(),
    }];
    push_sample(
        text,
        "digbaro_hellos_refused_total",
        labels.as_slice(),
        hellos.count,
    )
}
