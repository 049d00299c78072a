//! What happens to a node, as its log says it.

use crate::accepting::Want;
use crate::asking::WaitEnd;
use crate::differences::Difference;
use crate::processes::Process;
use crate::reaching::NoSession;
use crate::session_ends::SessionEnd;
use table_types::Version;

/// What happens to a node. Names, addresses and reasons are bytes, of which no line of the log gets any that ends it.
#[derive(Clone, Copy, Debug)]
pub enum Event<'a> {
    /// The node starts.
    Start {
        /// The program's version.
        version: &'a [u8],
        /// The configuration's checksum.
        configuration: &'a [u8],
        /// The name by which the node calls itself.
        node: &'a [u8],
    },
    /// A port is open.
    Listening {
        /// What it is for.
        port: Port,
        /// Its address.
        address: &'a [u8],
    },
    /// The node refuses a hello.
    HelloRefused {
        /// Whose hello it is, if it says so.
        sender: Option<Sender<'a>>,
        /// The far side's address.
        address: &'a [u8],
        /// Why.
        refusal: HelloRefusal,
        /// The name by which the node calls itself.
        node: &'a [u8],
        /// What the hello says instead of what it should: the version, or the name by which it calls this node; empty if neither is
        /// wrong, or nothing is said.
        said: &'a [u8],
    },
    /// Something happens with a peer.
    OfPeer {
        /// The peer's name.
        name: &'a [u8],
        /// The far side's address, or the one that the configuration gives it.
        address: &'a [u8],
        /// What it is.
        event: PeerEvent<'a>,
    },
    /// A peer's hello comes to another port than that of the peers.
    WrongPort {
        /// The port to which it comes.
        port: Port,
        /// Whose hello it is, if that is known.
        sender: Option<Sender<'a>>,
        /// The far side's address.
        address: &'a [u8],
        /// The address of the port of the peers.
        listen: &'a [u8],
    },
    /// The node becomes up to date.
    UpToDate {
        /// The name of the peer that has taught it all rows, if one has.
        teacher: Option<&'a [u8]>,
    },
    /// The node itself was held up.
    HeldUp {
        /// For how long, in milliseconds.
        milliseconds: u64,
    },
    /// Something in the configuration is legal, and surely meant otherwise.
    ConfigurationWarning {
        /// The line in which `run --check` says it.
        warning: &'a [u8],
    },
    /// A table gets new numbers, for which all sessions end.
    Renewed {
        /// The table's name.
        table: &'a [u8],
    },
    /// A table can't get new numbers.
    NotRenewed {
        /// The table's name.
        table: &'a [u8],
    },
    /// Connections can't be accepted at a port.
    NotAccepted {
        /// The port.
        port: Port,
        /// What the process lacks.
        want: Want,
        /// Why, in the system's words.
        reason: &'a [u8],
    },
    /// Lines of the log were left out.
    Omitted {
        /// The name of the peer that they were about, if they were about one.
        peer: Option<&'a [u8]>,
        /// Why.
        cause: Omission,
        /// How many they were.
        count: u64,
    },
    /// The node stops.
    Stop,
    /// The node has ended all its sessions.
    Stopped {
        /// How many it cut, since they were still at work or their peers hadn't acknowledged all rows in time.
        cut: u64,
    },
}

/// Why lines of the log were left out.
#[derive(Clone, Copy, Debug, PartialEq, Eq)]
pub enum Omission {
    /// Too many came in a second that said the event with this name.
    Repeated(&'static str),
    /// The log couldn't be written in time.
    Unwritten,
}

/// What a port is for.
#[derive(Clone, Copy, Debug, PartialEq, Eq)]
pub enum Port {
    /// Peers connect to it.
    Peers,
    /// Requests come to it.
    Admin,
    /// Metrics are read at it.
    Metrics,
}

/// Who sent a hello.
#[derive(Clone, Copy, Debug)]
pub enum Sender<'a> {
    /// A peer of the configuration, by its name.
    Peer(&'a [u8]),
    /// One that calls itself by this name, which no peer of the configuration has.
    Stranger(&'a [u8]),
}

/// Why the node refuses a hello.
#[derive(Clone, Copy, Debug, PartialEq, Eq)]
pub enum HelloRefusal {
    /// It isn't a hello of the protocol.
    Garbled,
    /// It says a version of the protocol that the node doesn't speak.
    Version,
    /// It calls this node by another name.
    OtherNode,
    /// No peer of the configuration has the sender's name.
    Stranger,
    /// The peer may not come from the address from which it came.
    Elsewhere,
    /// Nothing of it came in time.
    Missing,
    /// It began, and wasn't whole in time.
    Unfinished,
}

/// What happens with a peer.
#[derive(Clone, Copy, Debug)]
pub enum PeerEvent<'a> {
    /// The node begins to try to connect to it.
    Connecting,
    /// It can't be connected to.
    Unreachable {
        /// Why, in the system's words.
        reason: &'a [u8],
    },
    /// A connection with it came to no session.
    NoSession {
        /// Why.
        why: NoSession,
        /// What is known of the cause besides, in words that stand behind "ended"; empty if nothing is.
        cause: &'a [u8],
    },
    /// It refuses the node's hello.
    Refused {
        /// The status that it answers.
        status: u16,
        /// The name by which the node calls itself.
        node: &'a [u8],
    },
    /// A session with it begins.
    Connected {
        /// Whether the peer made the connection.
        accepted: bool,
        /// The version that the session speaks.
        version: Version,
        /// What the connection says of the peer's process.
        process: Process,
        /// For how long there was no session with the peer, in milliseconds; since the node's start if there was none before.
        away: u64,
    },
    /// The node asks it for all rows.
    Asked,
    /// It was asked, and isn't waited for any longer.
    Unanswered {
        /// Why.
        why: WaitEnd,
    },
    /// A resync is over.
    ResyncEnded {
        /// Whether the node was the teacher.
        taught: bool,
        /// How it ended.
        end: ResyncEnd,
        /// The rows that were taught in it.
        rows: u64,
        /// How long it took, in milliseconds.
        milliseconds: u64,
    },
    /// It has a table differently from this node.
    Mismatch {
        /// The table's name.
        table: &'a [u8],
        /// What differs.
        difference: Difference,
        /// How the peer has it, in words.
        theirs: &'a [u8],
        /// How this node has it, in words.
        ours: &'a [u8],
    },
    /// It has a table that this node lacks.
    Unshared {
        /// The table's name, which the peer chose.
        table: &'a [u8],
    },
    /// It never defined a table of this node.
    Undefined {
        /// The table's name.
        table: &'a [u8],
    },
    /// It doesn't acknowledge rows of a table, which is left for as long as the session stands.
    Left {
        /// The table's name.
        table: &'a [u8],
    },
    /// It defines a table as this node does, after it defined it differently, or hadn't defined it.
    Alike {
        /// The table's name.
        table: &'a [u8],
        /// Whether the node has asked it for all rows on this connection, and it hasn't ended that resync.
        under_way: bool,
    },
    /// It hasn't acknowledged the last rows of a table that it was taught, and the node stops.
    Unacknowledged {
        /// The table's name.
        table: &'a [u8],
    },
    /// It has defined a table that the node can't have, whose rows are passed over.
    PassedOver {
        /// The name of the first such table by the peer's ids, which the peer chose; empty if none is left.
        table: &'a [u8],
        /// Whether it stores data types from 20 up.
        further: bool,
    },
    /// It has broken the protocol.
    Fault {
        /// The fault's name.
        fault: &'a [u8],
    },
    /// The node reads bytes of it again, after it had read none for longer than a heartbeat takes.
    NoHeartbeat {
        /// For how long it read none, in milliseconds.
        milliseconds: u64,
    },
    /// A session with it is over.
    Ended {
        /// Why.
        end: SessionEnd,
        /// For how long it stood, in milliseconds.
        lasted: u64,
        /// What is known of the cause besides, in words that stand behind "ended"; empty if nothing is.
        cause: &'a [u8],
    },
    /// Several sessions with it ended soon after they began, each by its doing as far as this node can tell.
    ShortSessions {
        /// How many.
        count: u64,
        /// The name by which the node calls itself.
        node: &'a [u8],
    },
}

/// How a resync ended.
#[derive(Clone, Copy, Debug, PartialEq, Eq)]
pub enum ResyncEnd {
    /// All rows were taught.
    Finished,
    /// All rows were taught, but for tables that the teacher defines differently from the learner, or not at all.
    Incomplete,
    /// Not all rows were taught.
    Partial,
    /// The session ended first.
    Broken,
}
