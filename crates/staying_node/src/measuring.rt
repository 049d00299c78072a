//! What is told of a node to those who ask: the reports of its peers, its health and its metrics.

use crate::lags::{pending, table_lags};
use crate::node::Node;
use crate::process::process_metrics;
use crate::slot::Slot;
use crate::status::{PeerStatus, Totals};
use crate::tables::lock;
use admin_port::{
    BuildInfo, Health, Metrics, NodeMetrics, PeerMetrics, PeerReport, PeerTableReport,
    RefusedHellos, TableMetrics, metrics_page,
};
use node_core::{KIT, VERSION};
use std::alloc::AllocError;
use std::fs::Files;
use std::sync::Wait;
use std::time::Clock;
use table_types::Name;

/// The statuses with which a node refuses hellos.
static REFUSALS: [u16; 4] = [501, 502, 503, 504];

/// Returns what the session that stands did in each table, to be reported.
fn table_reports<'a>(
    node: &'a Node,
    status: &PeerStatus,
) -> Result<Vec<PeerTableReport<'a>>, AllocError> {
    let mut reports = Vec::new(node.alloc);
    if !status.record.stands() {
        return Ok(reports);
    }
    for (index, table) in node.roster.tables().iter().enumerate() {
        if let Some(progress) = status.tables.get(index) {
            reports.push(PeerTableReport {
                table,
                taught: progress.last,
                acknowledged: progress.acknowledged.unwrap_or(0),
                received: progress.received,
                left: progress.left,
                mismatch: status.difference(index),
            })?;
        }
    }
    Ok(reports)
}

/// Returns what is reported of a peer, given its name and its place, and how many rows it lacks.
fn peer_report<'a, R: Wait + Clock>(
    rt: &R,
    node: &'a Node,
    name: &'a Name,
    slot: &Slot,
    lag: u64,
) -> Result<PeerReport<'a>, AllocError> {
    let now = node.clock.milliseconds(rt);
    let status = slot.status(rt);
    let record = status.record;
    let totals = status.totals();
    Ok(PeerReport {
        name,
        state: record.state,
        role: record.shown_role(),
        since: now.saturating_sub(record.since),
        sessions: record.sessions,
        heartbeats_sent: totals.heartbeats_sent,
        heartbeats_received: totals.heartbeats_received,
        faults: record.faults,
        last_end: record.last_end,
        version: record.version,
        last_error: record.last_error,
        lag: if record.stands() { lag } else { 0 },
        mismatched: status.mismatched(),
        unshared: status.unshared,
        undefined: status.undefined,
        tables: table_reports(node, &status)?,
    })
}

/// Returns what is reported of each peer.
pub(crate) fn peer_reports<'a, R: Wait + Clock>(
    rt: &R,
    node: &'a Node,
) -> Result<Vec<PeerReport<'a>>, AllocError> {
    let mut reports = Vec::new(node.alloc);
    for (peer, (name, slot)) in node.names.iter().zip(node.slots.iter()).enumerate() {
        let lag = pending(rt, node, peer);
        reports.push(peer_report(rt, node, name, slot, lag)?)?;
    }
    Ok(reports)
}

/// Returns what the health of the node is told by.
pub(crate) fn health<R: Wait>(rt: &R, node: &Node) -> Health {
    Health {
        up_to_date: node.catching_up.is_up_to_date(rt),
        peers: node.slots.len() as u64,
        peers_up: node.peers_up(rt),
    }
}

/// Returns what is counted of each table.
fn table_metrics<'a, R: Wait>(rt: &R, node: &'a Node) -> Result<Vec<TableMetrics<'a>>, AllocError> {
    let mut metrics = Vec::new(node.alloc);
    for table in node.roster.tables() {
        let mut settings = node.configuration.tables.iter();
        let setting = settings.find(|setting| setting.definition.id() == table.id());
        let (Some(setting), Some(locked)) = (setting, lock(rt, node, table.id())) else {
            return Ok(metrics);
        };
        let cell = locked.cell();
        metrics.push(TableMetrics {
            table,
            size: setting.most_rows(),
            used: cell.row_count() as u64,
            events: cell.events(),
            next_number: cell.next_number(),
            displaced: cell.displaced(),
        })?;
    }
    Ok(metrics)
}

/// Returns what is counted of each peer.
fn peer_metrics<'a, R: Wait + Clock>(
    rt: &R,
    node: &'a Node,
) -> Result<Vec<PeerMetrics<'a>>, AllocError> {
    let mut metrics = Vec::new(node.alloc);
    for (peer, (name, slot)) in node.names.iter().zip(node.slots.iter()).enumerate() {
        let lags = table_lags(rt, node, peer)?;
        let status = slot.status(rt);
        metrics.push(PeerMetrics {
            name,
            up: status.record.stands(),
            last_error: status.record.last_error,
            sessions: status.record.ended,
            taught: status.record.resyncs_taught,
            learned: status.record.resyncs_learned,
            mismatched: status.mismatched(),
            unshared: status.unshared,
            undefined: status.undefined,
            lags,
        })?;
    }
    Ok(metrics)
}

/// Returns what is counted of all peers together.
fn node_metrics<R: Wait + Clock>(rt: &R, node: &Node) -> NodeMetrics {
    let mut totals = Totals::none();
    let mut active = 0u64;
    let mut connected = 0u64;
    let mut left = 0u64;
    for slot in &node.slots {
        let status = slot.status(rt);
        totals = totals.plus(status.totals());
        active = active.saturating_add(u64::from(status.record.stands()));
        connected = connected.saturating_add(u64::from(status.record.is_connected()));
        let tables = status.tables.iter().filter(|table| table.left).count();
        left = left.saturating_add(tables as u64);
    }
    NodeMetrics {
        up_to_date: node.catching_up.is_up_to_date(rt),
        active_peers: active,
        connected_peers: connected,
        rows_learned: totals.learned,
        rows_taught: totals.taught,
        bytes_sent: totals.bytes_sent,
        bytes_received: totals.bytes_received,
        tables_left: left,
        passed_over: totals.passed_over,
        log_lines_dropped: node.log.dropped(),
        uptime_seconds: node.clock.milliseconds(rt) / 1_000,
    }
}

/// Returns how often hellos were refused with each status.
fn refused_hellos(node: &Node) -> Result<Vec<RefusedHellos>, AllocError> {
    let mut refused = Vec::new(node.alloc);
    for status in &REFUSALS {
        refused.push(RefusedHellos {
            status: *status,
            count: node.hellos_refused(*status),
        })?;
    }
    Ok(refused)
}

/// Returns the page of metrics.
pub(crate) fn metrics<R: Wait + Clock + Files>(rt: &R, node: &Node) -> Result<Vec<u8>, AllocError> {
    let metrics = Metrics {
        section: &node.configuration.section,
        tables: table_metrics(rt, node)?,
        peers: peer_metrics(rt, node)?,
        node: node_metrics(rt, node),
        faults: node.faults.list(rt, node.alloc)?,
        refused_hellos: refused_hellos(node)?,
        build: BuildInfo {
            version: VERSION,
            kit: KIT,
        },
        process: process_metrics(rt, node),
    };
    metrics_page(node.alloc, &metrics)
}
