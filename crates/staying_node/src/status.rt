//! What is known of a peer, for those who ask.

use admin_port::{PassedOver, PeerRole};
use node_core::{Difference, SessionEnd};
use node_rules::{Answers, PeerRecord, ShortSessions};
use session_core::Progress;
use std::alloc::{AllocError, Global};
use std::net::SocketAddr;

/// What sessions did, counted. A count that is full stays as it is.
#[derive(Clone, Copy, Debug)]
pub(crate) struct Totals {
    pub(crate) learned: u64,
    pub(crate) taught: u64,
    pub(crate) heartbeats_sent: u64,
    pub(crate) heartbeats_received: u64,
    pub(crate) bytes_sent: u64,
    pub(crate) bytes_received: u64,
    pub(crate) passed_over: PassedOver,
}

/// Returns the sums of both.
fn sums(one: PassedOver, other: PassedOver) -> PassedOver {
    PassedOver {
        definition: one.definition.saturating_add(other.definition),
        value: one.value.saturating_add(other.value),
        slot: one.slot.saturating_add(other.slot),
        data_type: one.data_type.saturating_add(other.data_type),
    }
}

impl Totals {
    /// Returns what no session did.
    pub(crate) fn none() -> Totals {
        Totals {
            learned: 0,
            taught: 0,
            heartbeats_sent: 0,
            heartbeats_received: 0,
            bytes_sent: 0,
            bytes_received: 0,
            passed_over: PassedOver {
                definition: 0,
                value: 0,
                slot: 0,
                data_type: 0,
            },
        }
    }

    /// Returns the sums of both.
    pub(crate) fn plus(self, other: Totals) -> Totals {
        Totals {
            learned: self.learned.saturating_add(other.learned),
            taught: self.taught.saturating_add(other.taught),
            heartbeats_sent: self.heartbeats_sent.saturating_add(other.heartbeats_sent),
            heartbeats_received: self
                .heartbeats_received
                .saturating_add(other.heartbeats_received),
            bytes_sent: self.bytes_sent.saturating_add(other.bytes_sent),
            bytes_received: self.bytes_received.saturating_add(other.bytes_received),
            passed_over: sums(self.passed_over, other.passed_over),
        }
    }
}

/// What is known of a peer.
#[derive(Drop)]
pub(crate) struct PeerStatus {
    /// What is known of its sessions, but for their connections, and what they did.
    pub(crate) record: PeerRecord,
    /// Which of its sessions it closed soon after they began.
    short: ShortSessions,
    /// How it answered when it was asked for all rows.
    pub(crate) answers: Answers,
    /// The far end of the connection, if there is one.
    pub(crate) far: Option<SocketAddr>,
    /// What the sessions that ended did.
    pub(crate) before: Totals,
    /// What the session that stands did.
    pub(crate) present: Totals,
    /// What the session that stands did in each table.
    pub(crate) tables: Vec<Progress>,
    /// What differs first between the node's definition of each table and the one that the peer has given on the session that stands, in
    /// ascending order of id.
    pub(crate) differences: Vec<Option<Difference>>,
    /// How many tables the peer has defined on the session that stands that this node lacks.
    pub(crate) unshared: u64,
    /// How many of the node's tables it hadn't defined on a session on which it taught all it had, and hasn't defined since.
    pub(crate) undefined: u64,
}

impl PeerStatus {
    /// Returns what is known of a peer with which there was no session.
    pub(crate) fn new(alloc: Global) -> PeerStatus {
        PeerStatus {
            record: PeerRecord::new(),
            short: ShortSessions::new(),
            answers: Answers::new(),
            far: None,
            before: Totals::none(),
            present: Totals::none(),
            tables: Vec::new(alloc),
            differences: Vec::new(alloc),
            unshared: 0,
            undefined: 0,
        }
    }

    /// Returns what differs first between the node's definition of the table with this index and the peer's, if something does.
    pub(crate) fn difference(&self, table: usize) -> Option<Difference> {
        *self.differences.get(table)?
    }

    /// Returns how many tables the peer defines otherwise.
    pub(crate) fn mismatched(&self) -> u64 {
        let mismatched = self.differences.iter().filter(|table| table.is_some());
        mismatched.count() as u64
    }

    /// Returns what all sessions did.
    pub(crate) fn totals(&self) -> Totals {
        self.before.plus(self.present)
    }

    /// Notes that a connection is there, and its far end.
    pub(crate) fn connect(&mut self, role: PeerRole, far: Option<SocketAddr>) {
        self.record.connect(role);
        self.far = far;
        self.present = Totals::none();
    }

    /// Notes what the session that stands did so far.
    pub(crate) fn note(&mut self, present: Totals, tables: &[Progress]) -> Result<(), AllocError> {
        self.present = present;
        self.tables.clear();
        self.tables.extend_from_slice(tables)
    }

    /// Notes that the session that stands, if one does, ends so, and whether none may stand. Returns how many sessions the peer has closed
    /// soon after they began, if it is to be told.
    pub(crate) fn note_short(&mut self, end: SessionEnd, given_up: bool, now: u64) -> Option<u64> {
        if !self.record.stands() {
            return None;
        }
        let lasted = now.saturating_sub(self.record.since);
        self.short.end(end, given_up, lasted)
    }

    /// Notes that the connection ended.
    pub(crate) fn end(&mut self, end: SessionEnd, now: u64) {
        self.record.end(end, now);
        self.far = None;
        self.before = self.before.plus(self.present);
        self.present = Totals::none();
        self.tables.clear();
        self.differences.clear();
        self.unshared = 0;
    }
}
