//! The names of events, and how much each matters.
ghost use Rattle.std.specs.Prelude.{◌≡◌};
ghost use Rattle.node_log.specs.Events.{end_level, event_name, level_of, peer_event_level, peer_event_name, resync_level, stop_level};

use node_core::{Event, Level, PeerEvent, ResyncEnd, SessionEnd};

/// Returns the name of an event.
pub fn event_name(event: &Event<'_>) -> &'static str
    ensures { result.now ≡ event_name event.now }
{
    match event {
        Event::Start { .. } => "start",
        Event::Listening { .. } => "listening",
        Event::HelloRefused { .. } => "hello-refused",
        Event::OfPeer { event, .. } => peer_event_name(event),
        Event::WrongPort { .. } => "wrong-port",
        Event::UpToDate { .. } => "up-to-date",
        Event::HeldUp { .. } => "held-up",
        Event::ConfigurationWarning { .. } => "configuration-warning",
        Event::Renewed { .. } => "renewed",
        Event::NotRenewed { .. } => "not-renewed",
        Event::NotAccepted { .. } => "not-accepted",
        Event::Omitted { .. } => "omitted",
        Event::Stop => "stop",
        Event::Stopped { .. } => "stopped",
    }
}

/// Returns the name of an event of a peer.
pub fn peer_event_name(event: &PeerEvent<'_>) -> &'static str
    ensures { result.now ≡ peer_event_name event.now }
{
    match event {
        PeerEvent::Connecting => "connecting",
        PeerEvent::Unreachable { .. } | PeerEvent::NoSession { .. } => "unreachable",
        PeerEvent::Refused { .. } => "refused",
        PeerEvent::Connected { .. } => "connected",
        PeerEvent::Asked => "asked",
        PeerEvent::Unanswered { .. } => "unanswered",
        PeerEvent::ResyncEnded { .. } => "resync-ended",
        PeerEvent::Mismatch { .. } => "mismatch",
        PeerEvent::Unshared { .. } => "unshared",
        PeerEvent::Undefined { .. } => "undefined",
        PeerEvent::Left { .. } => "left",
        PeerEvent::Alike { .. } => "alike",
        PeerEvent::Unacknowledged { .. } => "unacknowledged",
        PeerEvent::PassedOver { .. } => "passed-over",
        PeerEvent::Fault { .. } => "fault",
        PeerEvent::NoHeartbeat { .. } => "no-heartbeat",
        PeerEvent::Ended { .. } => "ended",
        PeerEvent::ShortSessions { .. } => "short-sessions",
    }
}

/// Returns how much an event matters.
pub fn level_of(event: &Event<'_>) -> Level
    ensures { result ≡ level_of event.now }
{
    match event {
        Event::NotRenewed { .. } | Event::NotAccepted { .. } => Level::Error,
        Event::HelloRefused { .. }
        | Event::WrongPort { .. }
        | Event::HeldUp { .. }
        | Event::ConfigurationWarning { .. }
        | Event::Omitted { .. } => Level::Warn,
        Event::OfPeer { event, .. } => peer_event_level(event),
        Event::Stopped { cut } => stop_level(*cut),
        Event::Start { .. }
        | Event::Listening { .. }
        | Event::UpToDate { .. }
        | Event::Renewed { .. }
        | Event::Stop => Level::Info,
    }
}

/// Returns how much an event of a peer matters.
fn peer_event_level(event: &PeerEvent<'_>) -> Level
    ensures { result ≡ peer_event_level event.now }
{
    match event {
        PeerEvent::Connecting
        | PeerEvent::Connected { .. }
        | PeerEvent::Asked
        | PeerEvent::Unshared { .. }
        | PeerEvent::Undefined { .. }
        | PeerEvent::Alike { .. } => Level::Info,
        PeerEvent::ResyncEnded { end, .. } => resync_level(*end),
        PeerEvent::Ended { end, .. } => end_level(*end),
        PeerEvent::Unreachable { .. }
        | PeerEvent::NoSession { .. }
        | PeerEvent::Refused { .. }
        | PeerEvent::Unanswered { .. }
        | PeerEvent::Mismatch { .. }
        | PeerEvent::Left { .. }
        | PeerEvent::Unacknowledged { .. }
        | PeerEvent::PassedOver { .. }
        | PeerEvent::Fault { .. }
        | PeerEvent::NoHeartbeat { .. }
        | PeerEvent::ShortSessions { .. } => Level::Warn,
    }
}

/// Returns how much it matters that the node has stopped and cut `cut` sessions.
fn stop_level(cut: u64) -> Level
    ensures { result ≡ stop_level cut }
{
    if cut == 0 { Level::Info } else { Level::Warn }
}

/// Returns how much the end of a resync matters.
fn resync_level(end: ResyncEnd) -> Level
    ensures { result ≡ resync_level end }
{
    match end {
        ResyncEnd::Finished | ResyncEnd::Incomplete | ResyncEnd::Partial => Level::Info,
        ResyncEnd::Broken => Level::Warn,
    }
}

/// Returns how much the end of a session matters.
fn end_level(end: SessionEnd) -> Level
    ensures { result ≡ end_level end }
{
    match end {
        SessionEnd::End | SessionEnd::Replaced | SessionEnd::Device => Level::Info,
        SessionEnd::Silent | SessionEnd::Fault | SessionEnd::Error => Level::Warn,
    }
}
