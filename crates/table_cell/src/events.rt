//! The events of a table, and its replies.

ghost use Rattle.std.specs.Prelude.{◌≡◌, IfOk};
ghost use Rattle.table_cell.specs.Parts.{reply_of};

use std::alloc::Global;
use table_types::{Batch, Change, CopyKind, Key, Memory, Moment, Row, Settled, Update, Version};

/// The reply to a change of a row.
#[derive(Debug, Drop)]
pub struct Reply {
    /// The number assigned to the row.
    pub number: u32,
    /// The row after the change.
    pub row: Row,
}

impl Reply {
    /// Returns the reply to a change that made `row`.
    pub fn of(alloc: Global, row: &Row) -> Result<Reply, Memory>
        ensures { IfOk result (λ reply. reply ≡ reply_of row.now) }
    {
        Ok(Reply {
            number: row.number(),
            row: row.copy(alloc)?,
        })
    }
}

/// An event of a table: a call that changed it, with its arguments.
#[derive(Debug, Drop)]
pub enum CellEvent {
    /// A change of a row by this node.
    Track {
        /// The seat that made it.
        seat: u32,
        /// The row's key.
        key: Key,
        /// The change.
        change: Change,
        /// When it was made.
        moment: Moment,
    },
    /// A row that a peer taught.
    Learn {
        /// The session with the peer.
        session: u32,
        /// The update that the peer sent.
        update: Update,
        /// When it was learned.
        moment: Moment,
    },
    /// A batch for a session.
    Copy {
        /// The session.
        session: u32,
        /// Which rows the batch includes.
        kind: CopyKind,
        /// The most rows that the batch may have.
        limit: usize,
        /// When they were copied.
        moment: Moment,
    },
    /// An acknowledgement.
    Ack {
        /// The session.
        session: u32,
        /// The number acknowledged.
        number: u32,
    },
    /// A session was opened.
    Open {
        /// The session.
        session: u32,
        /// The version of the protocol that it speaks.
        version: Version,
    },
    /// A session was closed.
    Close {
        /// The session.
        session: u32,
    },
    /// Rows that were no longer live were removed.
    Purge {
        /// The moment of the purge.
        moment: Moment,
    },
}

/// What a table replied to an event.
#[derive(Debug, Drop)]
pub enum CellReply {
    /// The row that was changed.
    Track(Reply),
    /// The row that was learned.
    Learn(Reply),
    /// The batch, as the history keeps it.
    Copy(Batch),
    /// What the acknowledgement settled.
    Ack(Settled),
    /// The session is open.
    Open,
    /// The session is closed.
    Close,
    /// The number of rows that were removed.
    Purge(usize),
}
