//! The keys of events and their values.
ghost use Rattle.std.specs.Prelude.{◌≡◌, ◌++◌, OnOk};
ghost use Rattle.node_log.specs.Keys.{address_field, hello_fields, keys_text, listening_fields, name_of, number_field, omission_fields, peer_field, peer_fields, port_name, process_field, resync_fields, resync_name, role_name, said_field, sender_field, session_fields, start_fields, status_of, strange_field, strange_if, teacher_or_learner, version_name, wait_name, what_name, word_field, wrong_port_fields};

use crate::values::{push_strange, push_word};
use node_core::{
    Difference, Event, HelloRefusal, Omission, PeerEvent, Port, Process, ResyncEnd, Sender, WaitEnd,
};
use node_text::push_number;
use std::alloc::AllocError;
use table_types::Version;

/// Appends a key with a space before it and `=` behind it, and a word of the program or the configuration.
fn push_field(text: &mut Vec<u8>, key: &str, word: &[u8]) -> Result<(), AllocError>
    ensures { OnOk result (text.new.items ≡ text.old.items ++ word_field key.now word.now) }
{
    text.extend_from_slice(key.as_bytes())?;
    push_word(text, word)
}

/// Appends a key as `push_field` does, and a name that the configuration doesn't have.
fn push_strange_field(text: &mut Vec<u8>, key: &str, name: &[u8]) -> Result<(), AllocError>
    ensures { OnOk result (text.new.items ≡ text.old.items ++ strange_field key.now name.now) }
{
    text.extend_from_slice(key.as_bytes())?;
    push_strange(text, name)
}

/// Appends a key and a name as `push_strange_field` does, if the name is known.
fn push_strange_if(text: &mut Vec<u8>, key: &str, name: &[u8]) -> Result<(), AllocError>
    ensures { OnOk result (text.new.items ≡ text.old.items ++ strange_if key.now name.now) }
{
    if name.is_empty() {
        return Ok(());
    }
    push_strange_field(text, key, name)
}

/// Appends a key as `push_field` does, and a number.
fn push_number_field(text: &mut Vec<u8>, key: &str, number: u64) -> Result<(), AllocError>
    ensures { OnOk result (text.new.items ≡ text.old.items ++ number_field key.now number) }
{
    text.extend_from_slice(key.as_bytes())?;
    push_number(text, number)
}

/// Appends the keys of an event with their values, each behind a space.
pub(crate) fn push_keys(text: &mut Vec<u8>, event: &Event<'_>) -> Result<(), AllocError>
    ensures { OnOk result (text.new.items ≡ text.old.items ++ keys_text event.now) }
{
    match event {
        Event::Start {
            version,
            configuration,
            node,
        } => push_start(text, version, configuration, node),
        Event::Listening { port, address } => push_listening(text, *port, address),
        Event::WrongPort {
            port,
            sender,
            address,
            ..
        } => push_wrong_port(text, *port, sender, address),
        Event::HelloRefused {
            sender,
            address,
            refusal,
            said,
            ..
        } => push_hello(text, *refusal, sender, address, said),
        Event::OfPeer {
            name,
            address,
            event,
        } => {
            push_field(text, " peer=", name)?;
            push_address(text, address)?;
            push_peer_keys(text, event)
        }
        Event::UpToDate { teacher } => push_peer(text, *teacher),
        Event::HeldUp { milliseconds } => push_number_field(text, " ms=", *milliseconds),
        Event::Renewed { table } | Event::NotRenewed { table } => {
            push_field(text, " table=", table)
        }
        Event::NotAccepted { port, .. } => push_field(text, " port=", port_name(*port).as_bytes()),
        Event::Omitted { peer, cause, count } => push_omission(text, *peer, *cause, *count),
        Event::ConfigurationWarning { .. } | Event::Stop => Ok(()),
        Event::Stopped { cut } => push_number_field(text, " cut=", *cut),
    }
}

/// Appends what the node starts with.
fn push_start(
    text: &mut Vec<u8>,
    version: &[u8],
    configuration: &[u8],
    node: &[u8],
) -> Result<(), AllocError>
    ensures { OnOk result (text.new.items ≡ text.old.items ++ start_fields version.now configuration.now node.now) }
{
    push_field(text, " version=", version)?;
    push_field(text, " config=", configuration)?;
    push_field(text, " node=", node)
}

/// Appends a port, and an address.
fn push_listening(text: &mut Vec<u8>, port: Port, address: &[u8]) -> Result<(), AllocError>
    ensures { OnOk result (text.new.items ≡ text.old.items ++ listening_fields port address.now) }
{
    push_field(text, " port=", port_name(port).as_bytes())?;
    push_address(text, address)
}

/// Appends a port, who sent a hello to it, and an address.
fn push_wrong_port(
    text: &mut Vec<u8>,
    port: Port,
    sender: &Option<Sender<'_>>,
    address: &[u8],
) -> Result<(), AllocError>
    ensures { OnOk result (text.new.items ≡ text.old.items ++ wrong_port_fields port sender.now address.now) }
{
    push_field(text, " port=", port_name(port).as_bytes())?;
    push_sender(text, sender)?;
    push_address(text, address)
}

/// Returns the word for what a port is for.
fn port_name(port: Port) -> &'static str
    ensures { result.now ≡ port_name port }
{
    match port {
        Port::Peers => "peers",
        Port::Admin => "admin",
        Port::Metrics => "metrics",
    }
}

/// Appends an address, if it is known.
fn push_address(text: &mut Vec<u8>, address: &[u8]) -> Result<(), AllocError>
    ensures { OnOk result (text.new.items ≡ text.old.items ++ address_field address.now) }
{
    if address.is_empty() {
        return Ok(());
    }
    push_field(text, " address=", address)
}

/// Appends with which status a hello was refused, and whose.
fn push_hello(
    text: &mut Vec<u8>,
    refusal: HelloRefusal,
    sender: &Option<Sender<'_>>,
    address: &[u8],
    said: &[u8],
) -> Result<(), AllocError>
    ensures { OnOk result (text.new.items ≡ text.old.items ++ hello_fields refusal sender.now address.now said.now) }
{
    push_number_field(text, " status=", u64::from(status_of(refusal)))?;
    push_sender(text, sender)?;
    push_address(text, address)?;
    push_said(text, refusal, said)
}

/// Appends what a hello that was refused for `refusal` says instead of what it should.
fn push_said(text: &mut Vec<u8>, refusal: HelloRefusal, said: &[u8]) -> Result<(), AllocError>
    ensures { OnOk result (text.new.items ≡ text.old.items ++ said_field refusal said.now) }
{
    match refusal {
        HelloRefusal::Version => push_strange_if(text, " protocol=", said),
        HelloRefusal::OtherNode => push_strange_if(text, " called=", said),
        HelloRefusal::Garbled
        | HelloRefusal::Stranger
        | HelloRefusal::Elsewhere
        | HelloRefusal::Missing
        | HelloRefusal::Unfinished => Ok(()),
    }
}

/// Returns the status that answers a hello that is refused for `refusal`.
pub fn status_of(refusal: HelloRefusal) -> u16
    ensures { result ≡ status_of refusal }
{
    match refusal {
        HelloRefusal::Garbled | HelloRefusal::Missing | HelloRefusal::Unfinished => 501,
        HelloRefusal::Version => 502,
        HelloRefusal::OtherNode => 503,
        HelloRefusal::Stranger | HelloRefusal::Elsewhere => 504,
    }
}

/// Appends the name of who sent a hello, if it is known.
fn push_sender(text: &mut Vec<u8>, sender: &Option<Sender<'_>>) -> Result<(), AllocError>
    ensures { OnOk result (text.new.items ≡ text.old.items ++ sender_field sender.now) }
{
    match sender {
        Some(Sender::Peer(name)) => push_field(text, " peer=", name),
        Some(Sender::Stranger(name)) => push_strange_field(text, " peer=", name),
        None => Ok(()),
    }
}

/// Appends a peer's name, if there is one.
fn push_peer(text: &mut Vec<u8>, peer: Option<&[u8]>) -> Result<(), AllocError>
    ensures { OnOk result (text.new.items ≡ text.old.items ++ peer_field (name_of peer.entry)) }
{
    match peer {
        Some(name) => push_field(text, " peer=", name),
        None => Ok(()),
    }
}

/// Appends what was left out.
fn push_omission(
    text: &mut Vec<u8>,
    peer: Option<&[u8]>,
    cause: Omission,
    count: u64,
) -> Result<(), AllocError>
    ensures { OnOk result (text.new.items ≡ text.old.items ++ omission_fields (name_of peer.entry) cause count) }
{
    push_peer(text, peer)?;
    if let Omission::Repeated(event) = cause {
        push_field(text, " of=", event.as_bytes())?;
    }
    push_number_field(text, " count=", count)
}

/// Appends the keys of an event of a peer.
fn push_peer_keys(text: &mut Vec<u8>, event: &PeerEvent<'_>) -> Result<(), AllocError>
    ensures { OnOk result (text.new.items ≡ text.old.items ++ peer_fields event.now) }
{
    match event {
        PeerEvent::Connecting
        | PeerEvent::Unreachable { .. }
        | PeerEvent::NoSession { .. }
        | PeerEvent::Asked => Ok(()),
        PeerEvent::Unanswered { why } => { push_field(text, " why=", wait_name(*why).as_bytes()) }
        PeerEvent::Refused { status, .. } => {
            push_number_field(text, " status=", u64::from(*status))
        }
        PeerEvent::Connected {
            accepted,
            version,
            process,
            away,
        } => {
            push_session(text, *accepted, *version, *process)?;
            push_number_field(text, " away_ms=", *away)
        }
        PeerEvent::ResyncEnded {
            taught,
            end,
            rows,
            milliseconds,
        } => push_resync(text, *taught, *end, *rows, *milliseconds),
        PeerEvent::Mismatch {
            table,
            difference,
            ..
        } => {
            push_field(text, " table=", table)?;
            push_field(text, " what=", what_name(*difference).as_bytes())
        }
        PeerEvent::Unshared { table } => push_strange_field(text, " table=", table),
        PeerEvent::PassedOver { table, .. } => push_strange_if(text, " table=", table),
        PeerEvent::Undefined { table }
        | PeerEvent::Left { table }
        | PeerEvent::Alike { table, .. }
        | PeerEvent::Unacknowledged { table } => push_field(text, " table=", table),
        PeerEvent::Fault { fault } => push_field(text, " fault=", fault),
        PeerEvent::NoHeartbeat { milliseconds } => push_number_field(text, " ms=", *milliseconds),
        PeerEvent::Ended { end, lasted, .. } => {
            push_field(text, " end=", end.name().as_bytes())?;
            push_number_field(text, " lasted_ms=", *lasted)
        }
        PeerEvent::ShortSessions { count, .. } => push_number_field(text, " count=", *count),
    }
}

/// Appends which end made the connection, the version that the session speaks, and what is known of the peer's process.
fn push_session(
    text: &mut Vec<u8>,
    accepted: bool,
    version: Version,
    process: Process,
) -> Result<(), AllocError>
    ensures { OnOk result (text.new.items ≡ text.old.items ++ session_fields accepted version process) }
{
    push_field(text, " role=", role_name(accepted).as_bytes())?;
    push_field(text, " protocol=", version_name(version).as_bytes())?;
    push_process(text, process)
}

/// Appends whether the peer is another process than before, if that is known.
fn push_process(text: &mut Vec<u8>, process: Process) -> Result<(), AllocError>
    ensures { OnOk result (text.new.items ≡ text.old.items ++ process_field process) }
{
    match process {
        Process::Unknown => Ok(()),
        Process::New => push_field(text, " process=", "new".as_bytes()),
        Process::Same => push_field(text, " process=", "same".as_bytes()),
    }
}

/// Returns the word for the node's end of a connection.
fn role_name(accepted: bool) -> &'static str
    ensures { result.now ≡ role_name accepted }
{
    if accepted { "accept" } else { "connect" }
}

/// Returns the number of a version.
fn version_name(version: Version) -> &'static str
    ensures { result.now ≡ version_name version }
{
    match version {
        Version::V20 => "2.0",
        Version::V21 => "2.1",
    }
}

/// Appends how a resync ended.
fn push_resync(
    text: &mut Vec<u8>,
    taught: bool,
    end: ResyncEnd,
    rows: u64,
    milliseconds: u64,
) -> Result<(), AllocError>
    ensures { OnOk result (text.new.items ≡ text.old.items ++ resync_fields taught end rows milliseconds) }
{
    push_field(text, " role=", teacher_or_learner(taught).as_bytes())?;
    push_field(text, " end=", resync_name(end).as_bytes())?;
    push_number_field(text, " rows=", rows)?;
    push_number_field(text, " ms=", milliseconds)
}

/// Returns the word for the node's part in a resync.
fn teacher_or_learner(taught: bool) -> &'static str
    ensures { result.now ≡ teacher_or_learner taught }
{
    if taught { "teacher" } else { "learner" }
}

/// Returns the word for the end of a resync.
fn resync_name(end: ResyncEnd) -> &'static str
    ensures { result.now ≡ resync_name end }
{
    match end {
        ResyncEnd::Finished => "finished",
        ResyncEnd::Incomplete => "incomplete",
        ResyncEnd::Partial => "partial",
        ResyncEnd::Broken => "broken",
    }
}

/// Returns the word for what differs between two definitions.
fn what_name(difference: Difference) -> &'static str
    ensures { result.now ≡ what_name difference }
{
    match difference {
        Difference::Kind => "kind",
        Difference::Length => "length",
        Difference::Types => "types",
        Difference::Period => "period",
    }
}

/// Returns the word for why a peer isn't waited for any longer.
fn wait_name(why: WaitEnd) -> &'static str
    ensures { result.now ≡ wait_name why }
{
    match why {
        WaitEnd::Mute => "mute",
        WaitEnd::Endless => "endless",
    }
}
