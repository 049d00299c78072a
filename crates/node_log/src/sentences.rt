//! What the log says of events to people: what happened, to whom, and what repairs it.

use node_core::{
    Difference, Event, HelloRefusal, NoSession, Omission, PeerEvent, Port, Process, ResyncEnd,
    Sender, SessionEnd, WaitEnd, Want,
};
use node_text::cut;
use std::alloc::{AllocError, Global};
use std::str;
use table_types::is_same_name;

/// Returns a name as text.
fn text_of(name: &[u8]) -> &str {
    str::from_utf8(name).unwrap_or("?")
}

/// Returns the sentence about an event.
pub(crate) fn sentence_of(alloc: Global, event: &Event<'_>) -> Result<String, AllocError> {
    match event {
        Event::Start { .. } => String::from_str(alloc, "the node starts"),
        Event::Listening { port, .. } => String::from_str(alloc, port_sentence(*port)),
        Event::HelloRefused {
            sender,
            refusal,
            node,
            ..
        } => {
            if is_called(sender, node) {
                namesake_sentence(alloc, text_of(node))
            } else {
                hello_sentence(alloc, *refusal, text_of(node))
            }
        }
        Event::OfPeer { name, event, .. } => peer_sentence(alloc, text_of(name), event),
        Event::WrongPort { listen, .. } => {
            let listen = text_of(listen);
            format!(in alloc;
                "a peer connected here, and this isn't the port for peers: its line for this node has to have the port of \"listen {listen}\" here"
            )
        }
        Event::UpToDate { teacher } => up_to_date_sentence(alloc, *teacher),
        Event::HeldUp { milliseconds } => {
            let time = *milliseconds;
            format!(in alloc;
                "this node stood still for {time} ms: it was stopped, or its host was paused or too busy"
            )
        }
        Event::ConfigurationWarning { warning } => warning_sentence(alloc, warning),
        Event::Renewed { .. } => String::from_str(
            alloc,
            "almost all numbers of this table are used up, so its rows get new ones, and all sessions begin anew",
        ),
        Event::NotRenewed { .. } => String::from_str(
            alloc,
            "the rows of this table can't get new numbers, since a session is open in it still or memory ran out: it is tried again each minute, and if it isn't said that it has got them, start this node again",
        ),
        Event::NotAccepted { want, reason, .. } => want_sentence(alloc, *want, text_of(reason)),
        Event::Omitted { cause, count, .. } => omission_sentence(alloc, *cause, *count),
        Event::Stop => String::from_str(alloc, "the node stops"),
        Event::Stopped { cut } => stop_sentence(alloc, *cut),
    }
}

/// Returns the sentence about a node that has stopped and cut `cut` sessions.
fn stop_sentence(alloc: Global, cut: u64) -> Result<String, AllocError> {
    if cut == 0 {
        String::from_str(alloc, "the node has stopped")
    } else {
        format!(in alloc;
            "the node has stopped, and cut sessions ({cut}) that after 3 s were still at work, or whose peer hadn't acknowledged all rows: that peer may lack the last changes"
        )
    }
}

/// Returns the sentence of a warning about the configuration, without the word `warning` behind its line, which the event says.
fn warning_sentence(alloc: Global, warning: &[u8]) -> Result<String, AllocError> {
    if let Some((line, behind)) = cut(warning, b':') {
        if let Some((word, sentence)) = cut(behind, b':') {
            if is_same_name(word, b" warning".as_slice()) {
                let (line, sentence) = (text_of(line), text_of(sentence));
                return format!(in alloc; "{line}:{sentence}");
            }
        }
    }
    String::from_str(alloc, text_of(warning))
}

/// Returns the sentence about a port.
fn port_sentence(port: Port) -> &'static str {
    match port {
        Port::Peers => "peers connect here",
        Port::Admin => "requests are answered here",
        Port::Metrics => "metrics, health and readiness are read here",
    }
}

/// Returns the sentence about a port at which no connection can be accepted, for this reason.
fn want_sentence(alloc: Global, want: Want, reason: &str) -> Result<String, AllocError> {
    match want {
        Want::Descriptors => format!(in alloc;
            "nobody can connect here, since this process has as many files and connections open as it may ({reason}): let it have more (LimitNOFILE= in its unit, ulimit -n), or end some connections"
        ),
        Want::HostDescriptors => format!(in alloc;
            "nobody can connect here, since the host has as many files and connections open as it may ({reason}): let it have more (fs.file-max), or end processes that have many"
        ),
        Want::Memory => format!(in alloc;
            "nobody can connect here, since the host lacks memory for it ({reason}): give it more, or end processes that have much"
        ),
    }
}

/// Returns the sentence about a node that becomes up to date.
fn up_to_date_sentence(alloc: Global, teacher: Option<&[u8]>) -> Result<String, AllocError> {
    match teacher {
        Some(name) => {
            let name = text_of(name);
            format!(in alloc; "this node is up to date, since {name} has taught it all rows")
        }
        None => String::from_str(
            alloc,
            "this node is up to date, since no connected peer has more to teach: it may lack rows of peers that aren't connected, and of tables that a peer defines otherwise",
        ),
    }
}

/// Returns the sentence about `count` lines that were left out.
fn omission_sentence(alloc: Global, cause: Omission, count: u64) -> Result<String, AllocError> {
    match cause {
        Omission::Repeated(_) => format!(in alloc;
            "lines of this event that were left out, since at most 5 a second are written: {count}"
        ),
        Omission::Unwritten => format!(in alloc;
            "lines that were lost, since standard error didn't take them in time or memory ran out: {count}"
        ),
    }
}

/// Returns whether the sender of a hello has this name.
fn is_called(sender: &Option<Sender<'_>>, name: &[u8]) -> bool {
    match sender {
        Some(Sender::Peer(own)) | Some(Sender::Stranger(own)) => is_same_name(own, name),
        None => false,
    }
}

/// Returns the sentence about a hello that the node, which calls itself `node`, refused, and whose sender calls itself so too.
fn namesake_sentence(alloc: Global, node: &str) -> Result<String, AllocError> {
    format!(in alloc;
        "whoever connected calls itself {node}, as this node does: this node connected to itself, so a line \"peer ..\" here has this node's own address and has to have the peer's, or another node has the same line \"node {node}\" and needs another name"
    )
}

/// Returns the sentence about a hello that the node, which calls itself `node`, refused.
fn hello_sentence(alloc: Global, refusal: HelloRefusal, node: &str) -> Result<String, AllocError> {
    match refusal {
        HelloRefusal::Garbled => String::from_str(
            alloc,
            "whoever connected doesn't speak the peers protocol, or speaks it wrongly",
        ),
        HelloRefusal::Version => String::from_str(
            alloc,
            "it speaks neither version 2.0 nor 2.1 of the peers protocol",
        ),
        HelloRefusal::OtherNode => format!(in alloc;
            "it calls this node by another name than {node}: its line for this node has to be \"peer {node} ..\""
        ),
        HelloRefusal::Stranger => String::from_str(
            alloc,
            "this node has no peer of this name: add a line \"peer NAME ..\" with it here, or mend the name by which it calls itself",
        ),
        HelloRefusal::Elsewhere => String::from_str(
            alloc,
            "this address isn't one from which this peer may come, by \"from\" of its line here",
        ),
        HelloRefusal::Missing => String::from_str(
            alloc,
            "whoever connected sent nothing for 5 s: it hangs, or it is no peer, such as a health check of this port, or a proxy that waits",
        ),
        HelloRefusal::Unfinished => String::from_str(
            alloc,
            "whoever connected began to speak and sent no whole hello within 5 s: it hangs, or it doesn't speak the peers protocol",
        ),
    }
}

/// Returns the sentence about an event of the peer called `name`.
fn peer_sentence(alloc: Global, name: &str, event: &PeerEvent<'_>) -> Result<String, AllocError> {
    match event {
        PeerEvent::Connecting => format!(in alloc; "this node tries to connect to {name}"),
        PeerEvent::Unreachable { reason } => unreachable_sentence(alloc, name, reason),
        PeerEvent::NoSession { why, cause } => {
            no_session_sentence(alloc, name, *why, text_of(cause))
        }
        PeerEvent::Refused { status, node } => {
            status_sentence(alloc, *status, name, text_of(node))
        }
        PeerEvent::Connected {
            accepted,
            process,
            ..
        } => begin_sentence(alloc, name, *accepted, *process),
        PeerEvent::Asked => format!(in alloc; "this node asks {name} for all rows"),
        PeerEvent::Unanswered { why } => wait_sentence(alloc, name, *why),
        PeerEvent::ResyncEnded { taught, end, .. } => resync_sentence(alloc, name, *taught, *end),
        PeerEvent::Fault { fault } => fault_sentence(alloc, name, fault),
        PeerEvent::NoHeartbeat { .. } => format!(in alloc;
            "this node reads bytes of {name} again, after it had read not even a heartbeat for so long: {name} stalled or was busy, the network delayed its bytes, or this node itself stalled, which a line held-up tells as a rule"
        ),
        PeerEvent::Ended { end, cause, .. } => end_sentence(alloc, name, *end, text_of(cause)),
        PeerEvent::ShortSessions { node, .. } => {
            let node = text_of(node);
            format!(in alloc;
                "each session with {name} ends within seconds: it may have been restarted or reloaded several times, or keep starting; two processes may call themselves {name}, or another node may go by the name {node} there, and one of them needs another name; or this node is too slow for it"
            )
        }
        _ => table_sentence(alloc, name, event),
    }
}

/// Returns the sentence about the peer called `name` that can't be connected to for this reason, in the system's words.
fn unreachable_sentence(alloc: Global, name: &str, reason: &[u8]) -> Result<String, AllocError> {
    let why = text_of(reason);
    match reason {
        b"Connection refused" => format!(in alloc;
            "this node can't connect to {name}: {why}; it isn't running there, its own line \"peer {name} ..\" (or \"listen ..\" of a node like this one) has another port, or a firewall rejects what is sent to this port"
        ),
        b"connection timed out" | b"Connection timed out" => format!(in alloc;
            "this node can't connect to {name}: {why}; its host is down, or something on the way drops what is sent to this port"
        ),
        b"No route to host" => format!(in alloc;
            "this node can't connect to {name}: {why}; its host is down, nothing on the way leads to it, or a firewall rejects what is sent to this port"
        ),
        _ => format!(in alloc; "this node can't connect to {name}: {why}"),
    }
}

/// Returns what the peer has done that broke the protocol, by the fault's name, if it is one of those that a session knows.
fn meaning_of(fault: &[u8]) -> Option<&'static str> {
    Some(match fault {
        b"BadInteger" => "a number of a message is too large, or cut",
        b"SizeLimit" => "a message is too long, or too many tables are defined",
        b"BadDefinition" | b"UnknownDataType" =>
            "the definition of a table is cut, or out of range",
        b"NoTable" =>
            "a message is of no table that was defined, a bug at one end: report it with both versions",
        b"BadKey" => "an update is cut, or its key is none of its table",
        b"BadValue" => "the values of an update are cut, or out of range",
        b"Trailing" => "a message is longer than its fields",
        b"EmptySlot" =>
            "an update takes its server's name from where none was put, a bug at one end: report it with both versions",
        b"NoNumber" => "an update has no number, and none came before it",
        b"AckAhead" => "it has acknowledged an update that it wasn't sent",
        _ => return None,
    })
}

/// Returns the sentence about a fault of the peer called `name`.
fn fault_sentence(alloc: Global, name: &str, fault: &[u8]) -> Result<String, AllocError> {
    match meaning_of(fault) {
        Some(meaning) => format!(in alloc;
            "{name} has broken the protocol, and its session ends: {meaning}"
        ),
        None => format!(in alloc; "{name} has broken the protocol, and its session ends"),
    }
}

/// Returns the sentence about the peer called `name` that isn't waited for any longer.
fn wait_sentence(alloc: Global, name: &str, why: WaitEnd) -> Result<String, AllocError> {
    match why {
        WaitEnd::Mute => format!(in alloc;
            "this node no longer waits for {name}, which has sent neither a row nor the end of its resync for 5 s: it hangs or is busy, or this node was too slow to read"
        ),
        WaitEnd::Endless => format!(in alloc;
            "this node no longer waits for {name}, which goes on sending rows and hasn't ended its resync within ten minutes"
        ),
    }
}

/// Returns the sentence about the beginning of a session with the peer called `name`.
fn begin_sentence(
    alloc: Global,
    name: &str,
    accepted: bool,
    process: Process,
) -> Result<String, AllocError> {
    match (accepted, process) {
        (false, _) => format!(in alloc; "this node has connected to {name}, and a session begins"),
        (true, Process::Unknown) => {
            format!(in alloc; "{name} has connected to this node, and a session begins")
        }
        (true, Process::New) => format!(in alloc;
            "{name}, under another pid than before (it was started or reloaded, or is another of its processes), has connected to this node, and a session begins"
        ),
        (true, Process::Same) => format!(in alloc;
            "{name}, by its pid the same process as before, has connected to this node again, and a session begins"
        ),
    }
}

/// Returns the sentence about a table that the peer called `name` defines otherwise.
fn mismatch_sentence(
    alloc: Global,
    name: &str,
    difference: Difference,
    theirs: &str,
    ours: &str,
) -> Result<String, AllocError> {
    match difference {
        Difference::Kind | Difference::Length => format!(in alloc;
            "{name} has {theirs}, this node {ours}: neither takes a row of this table from the other; once both define it alike, a line alike says whether to start this node again"
        ),
        Difference::Types | Difference::Period => format!(in alloc;
            "{name} has {theirs}, this node {ours}: no row of this table is taken from {name}, though a HAProxy stores this node's; once both define it alike, a line alike says whether to start this node again"
        ),
    }
}

/// Returns whether a table's name on the wire is that of a table of a section of peers.
fn is_of_section(table: &[u8]) -> bool {
    matches!(table, [b'/', ..])
}

/// Returns the sentence about a table of the peer called `name`.
fn table_sentence(alloc: Global, name: &str, event: &PeerEvent<'_>) -> Result<String, AllocError> {
    match event {
        PeerEvent::Mismatch {
            difference,
            theirs,
            ours,
            ..
        } => mismatch_sentence(alloc, name, *difference, text_of(theirs), text_of(ours)),
        PeerEvent::Unshared { .. } => format!(in alloc;
            "{name} has this table, and this node lacks it, so its rows are passed over: to share it, add a line \"table ..\" with this name here"
        ),
        PeerEvent::Undefined { table } if is_of_section(table) => format!(in alloc;
            "this node has this table, and {name} hasn't defined it: its section of peers may lack it, or a proxy has it there, whose tables have no / in a name here; or {name} is a node like this one, and the table is empty there"
        ),
        PeerEvent::Undefined { .. } => format!(in alloc;
            "this node has this table, and {name} hasn't defined it: it may lack it, or its section of peers has it, whose tables have a / before their name here; or {name} is a node like this one, and the table is empty there"
        ),
        PeerEvent::Left { .. } => format!(in alloc;
            "{name} has acknowledged no row of this table within 2 s, so none is taught any longer on this connection: it may lack the table, or have it with another kind or length of keys, as a line mismatch says; if it only was slow or stalled, reload {name} or start it again, and the next session mends it"
        ),
        PeerEvent::Alike {
            under_way: true,
            ..
        } => format!(in alloc;
            "{name} now defines this table as this node does, and both share its rows from now on; this node has asked {name} for all rows: unless a line resync-ended with finished or incomplete follows, start this node again, or it may lack what {name} counted before"
        ),
        PeerEvent::Alike { .. } => format!(in alloc;
            "{name} now defines this table as this node does, and both share its rows from now on: unless this node asks {name} next, as a line asked says, start this node again, or it may lack what {name} counted before"
        ),
        PeerEvent::Unacknowledged { .. } => format!(in alloc;
            "{name} hasn't acknowledged the last rows of this table in time, and this node stops: {name} may lack them until they change again, or until {name} is stopped and started, for which a reload isn't enough"
        ),
        PeerEvent::PassedOver { further: true, .. } => format!(in alloc;
            "a table of {name} stores data types from 20 up, as gpc(4), so this node passes over its rows: give these types a table of their own there"
        ),
        _ => format!(in alloc;
            "a table of {name} has keys or a period that no table of this node can have, so its rows are passed over"
        ),
    }
}

/// Returns the sentence about a status with which the peer called `name` refused this node, which calls itself `node`.
fn status_sentence(
    alloc: Global,
    status: u16,
    name: &str,
    node: &str,
) -> Result<String, AllocError> {
    match status {
        300 => format!(in alloc; "300: {name} can't take a session now, and is tried again"),
        501 => format!(in alloc;
            "501: {name} doesn't take this node's hello as one of the protocol"
        ),
        502 => format!(in alloc;
            "502: {name} doesn't speak this version of the protocol; behind 2.1, version 2.0 is tried"
        ),
        503 => format!(in alloc;
            "503: the far side isn't named {name} there: its own name and that of the line \"peer {name} ..\" here have to be one"
        ),
        504 => format!(in alloc;
            "504: {name} doesn't know the name {node}: add \"peer {node} ..\" there"
        ),
        _ => format!(in alloc; "{status}: {name} refuses this node"),
    }
}

/// Returns the sentence about the end of a resync with the peer called `name`.
fn resync_sentence(
    alloc: Global,
    name: &str,
    taught: bool,
    end: ResyncEnd,
) -> Result<String, AllocError> {
    match (taught, end) {
        (false, ResyncEnd::Finished) => format!(in alloc; "{name} has taught this node all rows"),
        (false, ResyncEnd::Incomplete) => format!(in alloc;
            "{name} has taught this node its rows, but has no rows of some table, or doesn't define it as this node does, as a line mismatch or undefined may say: other peers, if there are any, are asked as well"
        ),
        (false, ResyncEnd::Partial) => format!(in alloc;
            "{name} has taught this node the rows that it has, but isn't up to date itself, as after its own start, or has left a table"
        ),
        (true, ResyncEnd::Finished) => format!(in alloc; "this node has taught {name} all rows"),
        (true, ResyncEnd::Incomplete | ResyncEnd::Partial) => format!(in alloc;
            "this node has taught {name} the rows that it has, but wasn't up to date itself or had left a table"
        ),
        (false, ResyncEnd::Broken) => format!(in alloc;
            "the session with {name} ended before it had taught this node all rows: until a peer has taught it all rows, this node as a rule asks {name} again on the next session, or another peer"
        ),
        (true, ResyncEnd::Broken) => format!(in alloc;
            "the session with {name} ended before this node had taught it all rows: {name} has to ask again"
        ),
    }
}

/// Returns what stands behind "ended", given what is known of the cause.
fn or_failure(cause: &str) -> &str {
    if cause.is_empty() {
        "by a failure"
    } else if is_same_name(
        cause.as_bytes(),
        b"by a failed write: Broken pipe".as_slice(),
    ) {
        "by a failed write: Broken pipe, since the peer had closed it"
    } else if is_same_name(
        cause.as_bytes(),
        b"by a failed read: Connection reset by peer".as_slice(),
    ) {
        "by a failed read: Connection reset by peer, since its process ended or something on the way cut the connection"
    } else {
        cause
    }
}

/// Returns the sentence about a connection with the peer called `name` that came to no session. `cause` stands behind "ended".
fn no_session_sentence(
    alloc: Global,
    name: &str,
    why: NoSession,
    cause: &str,
) -> Result<String, AllocError> {
    match why {
        NoSession::Closed => format!(in alloc;
            "the address of {name} takes connections, and this one was closed before {name} answered: it may be stopping, or nothing stands behind a proxy there"
        ),
        NoSession::Silent => format!(in alloc;
            "the address of {name} takes connections, and for 10 s no answer came: it hangs, or something other than a peers port of HAProxy is there"
        ),
        NoSession::Strange => format!(in alloc;
            "something other than a peers port of HAProxy answers at the address of {name}: the line \"peer {name} ..\" has to have the port that {name}'s section of peers has"
        ),
        NoSession::Device => {
            let cause = or_failure(cause);
            format!(in alloc; "before {name} answered, the connection to it ended {cause}")
        }
        NoSession::AtOnce => format!(in alloc;
            "{name} took this node's hello, and the connection ended at once: it may be stopping, or another node goes by this node's name there"
        ),
        NoSession::Lacking if cause.is_empty() => format!(in alloc;
            "this node lacks memory or a thread for a session with {name}"
        ),
        NoSession::Lacking => format!(in alloc;
            "before a session with {name} began, the connection ended {cause}"
        ),
    }
}

/// Returns the sentence about the end of a session with the peer called `name`. `cause` stands behind "ended"; of one that was closed it says
/// why this node closed it, and nothing if the peer did.
fn end_sentence(
    alloc: Global,
    name: &str,
    end: SessionEnd,
    cause: &str,
) -> Result<String, AllocError> {
    match end {
        SessionEnd::End if cause.is_empty() => format!(in alloc;
            "the far end has closed the session: {name} was stopped, killed or reloaded, which look the same here, it read nothing of this node for 5 s, or something on the way closed it"
        ),
        SessionEnd::End => format!(in alloc;
            "this node has closed the session with {name} {cause}"
        ),
        SessionEnd::Silent => format!(in alloc;
            "the session with {name} was given up, since no byte of it came for 10 s: it hangs, its host is down or stands still, or the network drops its bytes"
        ),
        SessionEnd::Fault => format!(in alloc; "the session with {name} ended for its fault"),
        SessionEnd::Replaced => format!(in alloc;
            "the session with {name} ended, since {name} has connected anew"
        ),
        SessionEnd::Device | SessionEnd::Error => {
            let cause = or_failure(cause);
            format!(in alloc; "the session with {name} ended {cause}")
        }
    }
}
