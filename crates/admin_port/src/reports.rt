//! What a node reports of itself and its peers.
ghost use Rattle.std.specs.Prelude.{◌≡◌, ◌++◌, OnOk, flat_map};
ghost use Rattle.node_text.specs.Numbers.{number_or_dash};
ghost use Rattle.admin_port.specs.Reports.{counts_text, difference_name, difference_text, end_and_version_text, end_text, last_error_text, left_and_mismatch_text, node_line, numbers_text, peer_line, peer_lines, present_text, role_text, state_name, table_line, troubles_text, unlike_text, version_text, yes_or_no};

use crate::lines::{push_field, push_line_end, push_words};
use crate::table_names::push_table_name;
use node_core::{Difference, LastError, SessionEnd};
use node_text::{push_number, push_word_and_number};
use std::alloc::AllocError;
use table_types::{Moment, Name, TableDef, Version};

/// How far the session with a peer is.
#[derive(Clone, Copy, Debug, PartialEq, Eq)]
pub enum PeerState {
    /// There is no session, or its hello isn't over.
    Down,
    /// The node asked for a resync, which isn't over.
    Asking,
    /// Neither end teaches the other all its rows.
    Ready,
    /// The node teaches the peer all its rows.
    Teaching,
}

/// Which end of a session connected.
#[derive(Clone, Copy, Debug, PartialEq, Eq)]
pub enum PeerRole {
    /// The node connected to the peer.
    Connect,
    /// The peer connected to the node.
    Accept,
}

/// What a node reports of a peer.
#[derive(Debug, Drop)]
pub struct PeerReport<'a> {
    /// The peer's name.
    pub name: &'a Name,
    /// How far the session is.
    pub state: PeerState,
    /// Which end connected, if there is a session.
    pub role: Option<PeerRole>,
    /// How long the session has stood, or how long ago the last one ended or the node began, in milliseconds.
    pub since: u64,
    /// The number of sessions so far.
    pub sessions: u64,
    /// The number of heartbeats sent.
    pub heartbeats_sent: u64,
    /// The number of heartbeats received.
    pub heartbeats_received: u64,
    /// The number of faults of the peer.
    pub faults: u64,
    /// Why the last session ended, if one did.
    pub last_end: Option<SessionEnd>,
    /// The version that the session speaks, if there is one.
    pub version: Option<Version>,
    /// Why there is no session, if the last attempt showed it.
    pub last_error: Option<LastError>,
    /// The number of rows that are still to be pushed or acknowledged in the session that stands.
    pub lag: u64,
    /// The number of tables that the peer defines otherwise.
    pub mismatched: u64,
    /// The number of tables that the peer has defined and the node lacks.
    pub unshared: u64,
    /// The number of the node's tables that the peer hasn't defined, though it has taught all it has.
    pub undefined: u64,
    /// What the session reports of each table, if there is a session.
    pub tables: Vec<PeerTableReport<'a>>,
}

/// What a session reports of a table.
#[derive(Debug, Drop)]
pub struct PeerTableReport<'a> {
    /// The table.
    pub table: &'a TableDef,
    /// The number that the peer was taught last.
    pub taught: u32,
    /// The number that the peer acknowledged last.
    pub acknowledged: u32,
    /// The number of the peer's that was received last.
    pub received: Option<u32>,
    /// Whether the table was left.
    pub left: bool,
    /// What differs first between the node's definition and the peer's, if something does.
    pub mismatch: Option<Difference>,
}

/// Appends the line of the node itself.
#[tactic(auto, unfolding(crate::specs::Reports::node_line))]
pub fn push_node(
    text: &mut Vec<u8>,
    name: &Name,
    moment: Moment,
    up_to_date: bool,
) -> Result<(), AllocError>
    ensures { OnOk result (text.new.items ≡ text.old.items ++ node_line name.now moment up_to_date) }
{
    push_field(text, "node ", name.as_slice())?;
    push_word_and_number(text, " moment=", moment.milliseconds())?;
    push_field(text, " up_to_date=", yes_or_no(up_to_date).as_bytes())?;
    push_line_end(text)?;
    Ok(())
}

/// Appends the line of each peer in order, each with the lines of its tables behind it.
pub fn push_peers(
    text: &mut Vec<u8>,
    section: &Option<Name>,
    peers: &[PeerReport<'_>],
) -> Result<(), AllocError>
    ensures { OnOk result (text.new.items ≡ text.old.items ++ flat_map (peer_lines section.now) peers.now) }
{
    for peer in peers {
        push_peer_lines(text, section, peer)?;
    }
    Ok(())
}

/// Appends the line of a peer and those of its tables.
#[tactic(auto, unfolding(crate::specs::Reports::peer_lines))]
fn push_peer_lines(
    text: &mut Vec<u8>,
    section: &Option<Name>,
    peer: &PeerReport<'_>,
) -> Result<(), AllocError>
    ensures { OnOk result (text.new.items ≡ text.old.items ++ peer_lines section.now peer.now) }
{
    push_peer(text, peer)?;
    for table in &peer.tables {
        push_table(text, section, peer.name, table)?;
    }
    Ok(())
}

/// Appends the line of a peer.
#[tactic(auto, unfolding(crate::specs::Reports::peer_line))]
fn push_peer(text: &mut Vec<u8>, peer: &PeerReport<'_>) -> Result<(), AllocError>
    ensures { OnOk result (text.new.items ≡ text.old.items ++ peer_line peer.now) }
{
    push_field(text, "peer ", peer.name.as_slice())?;
    push_field(text, " state=", state_name(peer.state).as_bytes())?;
    push_field(text, " role=", role_text(peer.role).as_bytes())?;
    push_counts(text, peer)?;
    push_present(text, peer)?;
    push_line_end(text)
}

/// Appends a peer's numbers.
#[tactic(auto, unfolding(crate::specs::Reports::counts_text))]
fn push_counts(text: &mut Vec<u8>, peer: &PeerReport<'_>) -> Result<(), AllocError>
    ensures { OnOk result (text.new.items ≡ text.old.items ++ counts_text peer.now) }
{
    push_word_and_number(text, " since=", peer.since)?;
    push_word_and_number(text, " sessions=", peer.sessions)?;
    push_word_and_number(text, " heartbeats_sent=", peer.heartbeats_sent)?;
    push_word_and_number(text, " heartbeats_received=", peer.heartbeats_received)?;
    push_word_and_number(text, " faults=", peer.faults)
}

/// Appends what stands behind a peer's numbers.
#[tactic(auto, unfolding(crate::specs::Reports::present_text))]
fn push_present(text: &mut Vec<u8>, peer: &PeerReport<'_>) -> Result<(), AllocError>
    ensures { OnOk result (text.new.items ≡ text.old.items ++ present_text peer.now) }
{
    push_end_and_version(text, peer)?;
    push_troubles(text, peer)
}

/// Appends why the last session with a peer ended, and the version that the present one speaks.
#[tactic(auto, unfolding(crate::specs::Reports::end_and_version_text))]
fn push_end_and_version(text: &mut Vec<u8>, peer: &PeerReport<'_>) -> Result<(), AllocError>
    ensures { OnOk result (text.new.items ≡ text.old.items ++ end_and_version_text peer.now) }
{
    push_field(text, " last_end=", end_text(peer.last_end).as_bytes())?;
    push_field(text, " version=", version_text(peer.version).as_bytes())
}

/// Appends why there is no session with a peer, what it lacks, and which tables aren't shared.
#[tactic(auto, unfolding(crate::specs::Reports::troubles_text))]
fn push_troubles(text: &mut Vec<u8>, peer: &PeerReport<'_>) -> Result<(), AllocError>
    ensures { OnOk result (text.new.items ≡ text.old.items ++ troubles_text peer.now) }
{
    push_words(text, " last_error=")?;
    push_last_error(text, peer.last_error)?;
    push_word_and_number(text, " lag=", peer.lag)?;
    push_unlike(text, peer)
}

/// Appends how many tables a peer defines otherwise, how many the node lacks, and how many of the node's the peer hasn't defined.
#[tactic(auto, unfolding(crate::specs::Reports::unlike_text))]
fn push_unlike(text: &mut Vec<u8>, peer: &PeerReport<'_>) -> Result<(), AllocError>
    ensures { OnOk result (text.new.items ≡ text.old.items ++ unlike_text peer.now) }
{
    push_word_and_number(text, " mismatched=", peer.mismatched)?;
    push_word_and_number(text, " unshared=", peer.unshared)?;
    push_word_and_number(text, " undefined=", peer.undefined)?;
    Ok(())
}

/// Appends the word for why there is no session, or `-` if no attempt showed it.
pub(crate) fn push_last_error(
    text: &mut Vec<u8>,
    error: Option<LastError>,
) -> Result<(), AllocError>
    ensures { OnOk result (text.new.items ≡ text.old.items ++ last_error_text error) }
{
    match error {
        Some(LastError::Unreachable) => push_words(text, "unreachable"),
        Some(LastError::Refused(status)) => {
            push_word_and_number(text, "refused-", u64::from(status))
        }
        Some(LastError::HelloRefused(status)) => {
            push_word_and_number(text, "hello-refused-", u64::from(status))
        }
        None => push_words(text, "-"),
    }
}

/// Appends the line of a table in the session with the peer `peer`.
#[tactic(auto, unfolding(crate::specs::Reports::table_line))]
fn push_table(
    text: &mut Vec<u8>,
    section: &Option<Name>,
    peer: &Name,
    report: &PeerTableReport<'_>,
) -> Result<(), AllocError>
    ensures { OnOk result (text.new.items ≡ text.old.items ++ table_line section.now peer.now report.now) }
{
    push_field(text, "table ", peer.as_slice())?;
    push_words(text, " ")?;
    push_table_name(text, section, report.table.name())?;
    push_numbers(text, report)?;
    push_left_and_mismatch(text, report)?;
    push_line_end(text)
}

/// Appends the numbers of a table in a session.
#[tactic(auto, unfolding(crate::specs::Reports::numbers_text))]
fn push_numbers(text: &mut Vec<u8>, report: &PeerTableReport<'_>) -> Result<(), AllocError>
    ensures { OnOk result (text.new.items ≡ text.old.items ++ numbers_text report.now) }
{
    push_word_and_number(text, " taught=", u64::from(report.taught))?;
    push_word_and_number(text, " acknowledged=", u64::from(report.acknowledged))?;
    push_words(text, " received=")?;
    push_optional_number(text, report.received)?;
    Ok(())
}

/// Appends whether a table was left, and what of it the peer defines otherwise.
#[tactic(auto, unfolding(crate::specs::Reports::left_and_mismatch_text))]
fn push_left_and_mismatch(
    text: &mut Vec<u8>,
    report: &PeerTableReport<'_>,
) -> Result<(), AllocError>
    ensures { OnOk result (text.new.items ≡ text.old.items ++ left_and_mismatch_text report.now) }
{
    push_field(text, " left=", yes_or_no(report.left).as_bytes())?;
    push_field(
        text,
        " mismatch=",
        difference_text(report.mismatch).as_bytes(),
    )
}

/// Appends a number, or `-` for none.
fn push_optional_number(text: &mut Vec<u8>, number: Option<u32>) -> Result<(), AllocError>
    ensures { OnOk result (text.new.items ≡ text.old.items ++ number_or_dash number) }
{
    match number {
        Some(number) => push_number(text, u64::from(number)),
        None => push_words(text, "-"),
    }
}

/// Returns `yes` or `no`.
fn yes_or_no(holds: bool) -> &'static str
    ensures { result.now ≡ yes_or_no holds }
{
    if holds { "yes" } else { "no" }
}

/// Returns the word for a state.
fn state_name(state: PeerState) -> &'static str
    ensures { result.now ≡ state_name state }
{
    match state {
        PeerState::Down => "down",
        PeerState::Asking => "asking",
        PeerState::Ready => "ready",
        PeerState::Teaching => "teaching",
    }
}

/// Returns the word for the end that connected, or `-` if there is no session.
fn role_text(role: Option<PeerRole>) -> &'static str
    ensures { result.now ≡ role_text role }
{
    match role {
        Some(PeerRole::Connect) => "connect",
        Some(PeerRole::Accept) => "accept",
        None => "-",
    }
}

/// Returns the word for why the last session ended, or `-` if none did.
fn end_text(end: Option<SessionEnd>) -> &'static str
    ensures { result.now ≡ end_text end }
{
    match end {
        Some(end) => end.name(),
        None => "-",
    }
}

/// Returns the number of the version that a session speaks, or `-` if there is no session.
fn version_text(version: Option<Version>) -> &'static str
    ensures { result.now ≡ version_text version }
{
    match version {
        Some(Version::V20) => "2.0",
        Some(Version::V21) => "2.1",
        None => "-",
    }
}

/// Returns the word for what differs.
fn difference_name(difference: Difference) -> &'static str
    ensures { result.now ≡ difference_name difference }
{
    match difference {
        Difference::Kind => "kind",
        Difference::Length => "length",
        Difference::Types => "types",
        Difference::Period => "period",
    }
}

/// Returns the word for what differs, or `-` if nothing does.
fn difference_text(difference: Option<Difference>) -> &'static str
    ensures { result.now ≡ difference_text difference }
{
    match difference {
        Some(difference) => difference_name(difference),
        None => "-",
    }
}
