//! The families of metrics that have samples for each peer.
ghost use Rattle.std.specs.Prelude.{◌≡◌, ◌++◌, OnOk};
ghost use Rattle.admin_port.specs.PeerMetrics.{as_number, end_sample, last_error_sample, last_errors, peer_families, peers_up, resync_sample, resyncs_family, resyncs_of, role_samples, sessions_family, sessions_of, tables_families, tables_family, tables_help, tables_name, tables_sample, tables_value, up_sample};

use crate::lag_metrics::TableLag;
use crate::reports::push_last_error;
use crate::samples::{Label, push_head, push_sample};
use node_core::{LastError, SessionEnd};
use std::alloc::AllocError;
use table_types::Name;

/// What is counted of a peer.
#[derive(Debug, Drop)]
pub struct PeerMetrics<'a> {
    /// The peer's name.
    pub name: &'a Name,
    /// Whether there is a session whose hello is over.
    pub up: bool,
    /// Why there is no session, as the last attempt showed.
    pub last_error: Option<LastError>,
    /// The sessions that ended.
    pub sessions: SessionsEnded,
    /// The resyncs in which the node was the teacher.
    pub taught: ResyncsEnded,
    /// The resyncs in which the node was the learner.
    pub learned: ResyncsEnded,
    /// The number of tables that the peer defines otherwise.
    pub mismatched: u64,
    /// The number of tables that the peer has defined and the node lacks.
    pub unshared: u64,
    /// The number of the node's tables that the peer hasn't defined, though it has taught all it has.
    pub undefined: u64,
    /// What the peer lacks of each table.
    pub lags: Vec<TableLag<'a>>,
}

/// How many sessions ended, by the way of their end.
#[derive(Clone, Copy, Debug)]
pub struct SessionsEnded {
    /// As `SessionEnd::End` says.
    pub end: u64,
    /// As `SessionEnd::Silent` says.
    pub silent: u64,
    /// As `SessionEnd::Fault` says.
    pub fault: u64,
    /// As `SessionEnd::Replaced` says.
    pub replaced: u64,
    /// As `SessionEnd::Device` says.
    pub device: u64,
    /// As `SessionEnd::Error` says.
    pub error: u64,
}

/// How many resyncs ended, by the way of their end.
#[derive(Clone, Copy, Debug)]
pub struct ResyncsEnded {
    /// All rows were taught.
    pub finished: u64,
    /// Not all rows were taught.
    pub partial: u64,
    /// The session ended first.
    pub broken: u64,
}

/// A family of tables that aren't shared with a peer.
#[derive(Clone, Copy)]
enum TablesFamily {
    /// Those that the peer defines otherwise.
    Mismatched,
    /// Those that the peer has defined and the node lacks.
    Unshared,
    /// The node's that the peer hasn't defined.
    Undefined,
}

impl TablesFamily {
    /// Returns the name of the family.
    fn name(self) -> &'static str
        ensures { result.now ≡ tables_name self }
    {
        match self {
            TablesFamily::Mismatched => "digbaro_tables_mismatched",
            TablesFamily::Unshared => "digbaro_tables_unshared",
            TablesFamily::Undefined => "digbaro_tables_undefined",
        }
    }

    /// Returns what the family counts.
    fn help(self) -> &'static str
        ensures { result.now ≡ tables_help self }
    {
        match self {
            TablesFamily::Mismatched => "Tables that this peer defines otherwise than this node.",
            TablesFamily::Unshared => "Tables that this peer has defined and this node lacks.",
            TablesFamily::Undefined =>
                "Tables of this node that this peer hasn't defined, though it has taught all it has.",
        }
    }

    /// Returns how many such tables a peer has.
    fn value(self, peer: &PeerMetrics<'_>) -> u64
        ensures { result ≡ tables_value self peer.now }
    {
        match self {
            TablesFamily::Mismatched => peer.mismatched,
            TablesFamily::Unshared => peer.unshared,
            TablesFamily::Undefined => peer.undefined,
        }
    }
}

/// Appends the families that have samples for each peer.
pub(crate) fn push_peer_families(
    text: &mut Vec<u8>,
    peers: &[PeerMetrics<'_>],
) -> Result<(), AllocError>
    ensures { OnOk result (text.new.items ≡ text.old.items ++ peer_families peers.now) }
{
    push_up(text, peers)?;
    push_last_errors(text, peers)?;
    push_sessions(text, peers)?;
    push_resyncs(text, peers)?;
    push_tables_families(text, peers)
}

/// Appends whether each peer is up.
#[tactic(auto, unfolding(crate::specs::PeerMetrics::peers_up))]
fn push_up(text: &mut Vec<u8>, peers: &[PeerMetrics<'_>]) -> Result<(), AllocError>
    ensures { OnOk result (text.new.items ≡ text.old.items ++ peers_up peers.now) }
{
    push_head(
        text,
        "digbaro_peer_up",
        "gauge",
        "Whether there is a session with this peer.",
    )?;
    for peer in peers {
        push_peer_up(text, peer)?;
    }
    Ok(())
}

/// Appends whether a peer is up.
#[tactic(auto, unfolding(crate::specs::PeerMetrics::up_sample))]
fn push_peer_up(text: &mut Vec<u8>, peer: &PeerMetrics<'_>) -> Result<(), AllocError>
    ensures { OnOk result (text.new.items ≡ text.old.items ++ up_sample peer.now) }
{
    let labels = [Label {
        name: "peer",
        value: peer.name.as_slice(),
    }];
    push_sample(
        text,
        "digbaro_peer_up",
        labels.as_slice(),
        u64::from(peer.up),
    )
}

/// Appends how many sessions with each peer ended in each way.
#[tactic(auto, unfolding(crate::specs::PeerMetrics::sessions_family))]
fn push_sessions(text: &mut Vec<u8>, peers: &[PeerMetrics<'_>]) -> Result<(), AllocError>
    ensures { OnOk result (text.new.items ≡ text.old.items ++ sessions_family peers.now) }
{
    push_head(
        text,
        "digbaro_sessions_total",
        "counter",
        "Sessions with this peer that began, and ended so.",
    )?;
    for peer in peers {
        push_peer_sessions(text, peer)?;
    }
    Ok(())
}

/// Appends how many sessions with a peer ended in each way.
#[tactic(auto, unfolding(crate::specs::PeerMetrics::sessions_of))]
fn push_peer_sessions(text: &mut Vec<u8>, peer: &PeerMetrics<'_>) -> Result<(), AllocError>
    ensures { OnOk result (text.new.items ≡ text.old.items ++ sessions_of peer.now) }
{
    let ended = peer.sessions;
    push_end(text, peer.name, SessionEnd::End, ended.end)?;
    push_end(text, peer.name, SessionEnd::Silent, ended.silent)?;
    push_end(text, peer.name, SessionEnd::Fault, ended.fault)?;
    push_end(text, peer.name, SessionEnd::Replaced, ended.replaced)?;
    push_end(text, peer.name, SessionEnd::Device, ended.device)?;
    push_end(text, peer.name, SessionEnd::Error, ended.error)
}

/// Appends how many sessions with a peer ended in one way.
#[tactic(auto, unfolding(crate::specs::PeerMetrics::end_sample))]
fn push_end(text: &mut Vec<u8>, peer: &Name, end: SessionEnd, count: u64) -> Result<(), AllocError>
    ensures { OnOk result (text.new.items ≡ text.old.items ++ end_sample peer.now end count) }
{
    let labels = [
        Label {
            name: "peer",
            value: peer.as_slice(),
        },
        Label {
            name: "end",
            value: end.name().as_bytes(),
        },
    ];
    push_sample(text, "digbaro_sessions_total", labels.as_slice(), count)
}

/// Appends how many resyncs with each peer ended in each way.
#[tactic(auto, unfolding(crate::specs::PeerMetrics::resyncs_family))]
fn push_resyncs(text: &mut Vec<u8>, peers: &[PeerMetrics<'_>]) -> Result<(), AllocError>
    ensures { OnOk result (text.new.items ≡ text.old.items ++ resyncs_family peers.now) }
{
    push_head(
        text,
        "digbaro_resyncs_total",
        "counter",
        "Resyncs with this peer that ended so, by the role of this node.",
    )?;
    for peer in peers {
        push_role(text, peer.name, "teacher", peer.taught)?;
        push_role(text, peer.name, "learner", peer.learned)?;
    }
    Ok(())
}

/// Appends how many resyncs with a peer ended in each way, for one role of the node.
#[tactic(auto, unfolding(crate::specs::PeerMetrics::role_samples))]
fn push_role(
    text: &mut Vec<u8>,
    peer: &Name,
    role: &str,
    ended: ResyncsEnded,
) -> Result<(), AllocError>
    ensures { OnOk result (text.new.items ≡ text.old.items ++ role_samples peer.now role.now ended) }
{
    push_resync(text, peer, role, "finished", ended.finished)?;
    push_resync(text, peer, role, "partial", ended.partial)?;
    push_resync(text, peer, role, "broken", ended.broken)
}

/// Appends how many resyncs with a peer ended in one way.
#[tactic(auto, unfolding(crate::specs::PeerMetrics::resync_sample))]
fn push_resync(
    text: &mut Vec<u8>,
    peer: &Name,
    role: &str,
    end: &str,
    count: u64,
) -> Result<(), AllocError>
    ensures { OnOk result (text.new.items ≡ text.old.items ++ resync_sample peer.now role.now end.now count) }
{
    let labels = [
        Label {
            name: "peer",
            value: peer.as_slice(),
        },
        Label {
            name: "role",
            value: role.as_bytes(),
        },
        Label {
            name: "end",
            value: end.as_bytes(),
        },
    ];
    push_sample(text, "digbaro_resyncs_total", labels.as_slice(), count)
}

/// Appends why there is no session with each peer without one.
#[tactic(auto, unfolding(crate::specs::PeerMetrics::last_errors))]
fn push_last_errors(text: &mut Vec<u8>, peers: &[PeerMetrics<'_>]) -> Result<(), AllocError>
    ensures { OnOk result (text.new.items ≡ text.old.items ++ last_errors peers.now) }
{
    push_head(
        text,
        "digbaro_peer_last_error",
        "gauge",
        "Why there is no session with this peer.",
    )?;
    for peer in peers {
        push_peer_last_error(text, peer)?;
    }
    Ok(())
}

/// Appends why there is no session with a peer, if that is known.
#[tactic(auto, unfolding(crate::specs::PeerMetrics::last_error_sample))]
fn push_peer_last_error(text: &mut Vec<u8>, peer: &PeerMetrics<'_>) -> Result<(), AllocError>
    ensures { OnOk result (text.new.items ≡ text.old.items ++ last_error_sample peer.now) }
{
    let Some(last_error) = peer.last_error else {
        return Ok(());
    };
    let mut error = Vec::new(*text.allocator());
    push_last_error(&mut error, Some(last_error))?;
    let labels = [
        Label {
            name: "peer",
            value: peer.name.as_slice(),
        },
        Label {
            name: "error",
            value: error.as_slice(),
        },
    ];
    push_sample(text, "digbaro_peer_last_error", labels.as_slice(), 1)
}

/// Appends how many tables aren't shared with each peer, and why.
#[tactic(auto, unfolding(crate::specs::PeerMetrics::tables_families))]
fn push_tables_families(text: &mut Vec<u8>, peers: &[PeerMetrics<'_>]) -> Result<(), AllocError>
    ensures { OnOk result (text.new.items ≡ text.old.items ++ tables_families peers.now) }
{
    push_tables_family(text, peers, TablesFamily::Mismatched)?;
    push_tables_family(text, peers, TablesFamily::Unshared)?;
    push_tables_family(text, peers, TablesFamily::Undefined)
}

/// Appends a family of tables that aren't shared with each peer.
#[tactic(auto, unfolding(crate::specs::PeerMetrics::tables_family))]
fn push_tables_family(
    text: &mut Vec<u8>,
    peers: &[PeerMetrics<'_>],
    family: TablesFamily,
) -> Result<(), AllocError>
    ensures { OnOk result (text.new.items ≡ text.old.items ++ tables_family family peers.now) }
{
    push_head(text, family.name(), "gauge", family.help())?;
    for peer in peers {
        push_tables(text, peer, family)?;
    }
    Ok(())
}

/// Appends how many tables aren't shared with a peer, by one family.
#[tactic(auto, unfolding(crate::specs::PeerMetrics::tables_sample))]
fn push_tables(
    text: &mut Vec<u8>,
    peer: &PeerMetrics<'_>,
    family: TablesFamily,
) -> Result<(), AllocError>
    ensures { OnOk result (text.new.items ≡ text.old.items ++ tables_sample family peer.now) }
{
    let labels = [Label {
        name: "peer",
        value: peer.name.as_slice(),
    }];
    push_sample(text, family.name(), labels.as_slice(), family.value(peer))
}
