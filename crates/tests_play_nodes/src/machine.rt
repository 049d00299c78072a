//! Stories of a session, without a device and a table: the events that it receives one after another, and the actions that it asks
//! for.

mod player;

use learner::Fault;
use peers_msg::ErrorKind;
pub use player::first_failing;
use session_core::State;
use table_types::{CopyKind, Version};

/// An event.
pub enum Given {
    Opened,
    Bytes(&'static [u8]),
    End,
    Turn,
    Nothing(u64),
}

/// An action.
pub enum Asked {
    Send(&'static [u8]),
    /// A table, and the number of its update.
    Learn(u64, u32),
    Reopen(u64),
    Copy(u64, CopyKind),
    Part(ErrorKind),
    Close,
}

/// An event, the actions that it asks for, and the session's state after it.
pub type Step = (Given, &'static [Asked], State);

/// What a session says of itself after its steps. Unless told otherwise it has confirmed no resync and has no fault.
pub enum After {
    Plain,
    /// It has confirmed the end of the other's resync.
    Confirmed,
    Fault(Fault),
    /// It speaks this version.
    Speaks(Version),
    /// It is over, and refuses a turn as that.
    Over,
    /// It refuses the event as unasked, and is over.
    Unasked(Given),
}

/// Whose session it is.
pub enum Peer {
    /// That of `a`, which connects to `b`, shares `t1` with it, and isn't up to date.
    Connector,
    /// That of `b`, to which `a` connects, and which shares `t1` with it.
    Acceptor { up_to_date: bool },
}

/// A session, its steps in runs, and what it says of itself after them: it is played anew for each of these.
pub struct Story {
    /// What a test that fails calls it.
    pub name: &'static str,
    pub peer: Peer,
    pub runs: &'static [&'static [Step]],
    pub after: &'static [After],
}
