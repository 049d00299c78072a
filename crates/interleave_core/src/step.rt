//! The steps of a world.

use crate::way::Way;
use table_types::{Change, CopyKind, Key, Moment, Update};

/// A step of a world. A step that can't be made changes nothing: it names a table or a session that isn't there, lacks its
/// batch or its bytes, asks for a standing resync, or a table refuses one of its events.
#[derive(Debug, Drop)]
pub enum Step {
    /// The teacher changes a row of a table.
    Track {
        /// The table's id.
        table: u64,
        /// The row's key.
        key: Key,
        /// The change.
        change: Change,
        /// When it is made.
        moment: Moment,
    },
    /// The teacher's table learns a row from a peer outside the world.
    Learn {
        /// The session with the peer.
        session: u32,
        /// The update that the peer sent.
        update: Update,
        /// When it is learned.
        moment: Moment,
    },
    /// The teacher copies a batch of a table for a session. The batch waits to be taught.
    Copy {
        /// The session.
        session: u32,
        /// The table's id.
        table: u64,
        /// Which rows are copied: those of a push or a resync.
        kind: CopyKind,
        /// The most rows that are copied, 1 to 4,096.
        limit: usize,
        /// When they are copied.
        moment: Moment,
    },
    /// The teacher teaches the oldest batch that waits: its lesson goes into the pipe to the learner.
    Teach {
        /// The session.
        session: u32,
    },
    /// The first bytes of a pipe arrive at its end.
    Deliver {
        /// The session.
        session: u32,
        /// The direction of the pipe.
        way: Way,
        /// The number of bytes.
        count: usize,
        /// When they arrive.
        moment: Moment,
    },
    /// The learner's due acknowledgements go into the pipe to the teacher.
    Ack {
        /// The session.
        session: u32,
    },
    /// The connection breaks, and a new one begins with a new learner: the teacher closes and opens the session in each table, with
    /// the same version.
    Break {
        /// The session.
        session: u32,
    },
    /// The teacher closes and opens the session in each table, so that it teaches all rows again. The step can't be made while
    /// a batch is out.
    Reopen {
        /// The session.
        session: u32,
    },
    /// A table removes the rows that aren't live.
    Purge {
        /// The table's id.
        table: u64,
        /// When it removes them.
        moment: Moment,
    },
}
