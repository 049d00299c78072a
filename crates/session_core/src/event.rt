//! The events of a session.

use known_state::Known;
use table_types::{Batch, Items, Settled};

/// What happens to a session.
#[derive(Debug, Drop)]
pub enum Event {
    /// The connection is established.
    Opened,
    /// These bytes were received.
    Bytes(Items<u8>),
    /// The remote peer sends nothing more.
    End,
    /// Reading failed.
    ReadFault,
    /// There is nothing else to do: the session may ask for a batch.
    Turn,
    /// Some time has passed: the session may ask for what is due by the clock.
    Tick,
    /// This node wants every row: the session requests a resync, if it is open.
    Ask,
    /// This node is up to date from now on.
    CaughtUp,
    /// The answer to `Copy`: this batch was copied from the table with this id. The batch isn't empty and all its
    /// updates belong to that table; the session checks neither.
    Copied(u64, Batch),
    /// The answer to `Copy`: the table with this id has nothing to teach.
    Nothing(u64),
    /// The answer to `Teach`: the lesson was written, and it leads to this known state, which must be for the session's
    /// roster.
    Written(Known),
    /// Writing failed.
    WriteFault,
    /// The answer to `Ack`: what the acknowledgement settled in the table with this id.
    Settled(u64, Settled),
    /// The answer to `Ack`: the number is above every number that the table with this id taught.
    Refused(u64),
}

// An event moves from call to call, so it stays small: a known state keeps its slots on the heap.
const _: () = prove!(size_of::<Event>() <= 64);
