//! The steps and questions of a world's script.
ghost use Rattle.std.specs.Prelude.{◌≡◌, ◌≤◌, true, IfOk, IfSome};
ghost use Rattle.table_types.specs.Rosters.{has_id};
ghost use Rattle.node_text.specs.Worlds.{IsAnswerable, IsAnswerableLine, definitions, session_count};

use crate::calls::{learned_of, tracked_of};
use crate::copies::copy_kind_of;
use crate::error::LineError;
use crate::numbers::{moment, number, number_from_one, number32};
use crate::worlds::WorldScript;
use std::alloc::Global;
use table_types::{Change, CopyKind, Key, KeyKind, Moment, Update};

/// A line of a world's script that comes after its settings.
#[derive(Debug, Drop)]
pub enum WorldLine {
    /// A step to make.
    Step(WorldStep),
    /// A question to answer.
    Question(WorldQuestion),
}

/// A step of a world. It may name a table or a session that isn't there, and can't be made then.
#[derive(Debug, Drop)]
pub enum WorldStep {
    /// Changes the row of a key, which may be of another kind than the table's.
    Track {
        /// The table's id.
        table: u64,
        /// The row's key.
        key: Key,
        /// The change.
        change: Change,
        /// When it is made.
        moment: Moment,
    },
    /// Learns an update in a session. Its key may be of another kind than the table's, and its life any.
    Learn {
        /// The session.
        session: u32,
        /// The update.
        update: Update,
        /// When it is learned.
        moment: Moment,
    },
    /// Copies rows for a session.
    Copy {
        /// The session.
        session: u32,
        /// The table's id.
        table: u64,
        /// Which rows the batch is to have.
        kind: CopyKind,
        /// The greatest number of rows, below 2^32.
        limit: usize,
        /// When they are copied.
        moment: Moment,
    },
    /// Teaches the oldest batch of the session that waits.
    Teach(u32),
    /// Delivers bytes to the learner of a session.
    DeliverToLearner {
        /// The session.
        session: u32,
        /// The number of bytes, below 2^32.
        count: usize,
        /// When they arrive.
        moment: Moment,
    },
    /// Delivers bytes to the teacher of a session.
    DeliverToTeacher {
        /// The session.
        session: u32,
        /// The number of bytes, below 2^32.
        count: usize,
        /// When they arrive.
        moment: Moment,
    },
    /// Lets the learner of the session acknowledge what is due.
    Ack(u32),
    /// Breaks the connection of the session.
    Break(u32),
    /// Closes the session and opens it again in each table.
    Reopen(u32),
    /// Removes the rows that have ended by the moment.
    Purge {
        /// The table's id.
        table: u64,
        /// When they are removed.
        moment: Moment,
    },
}

/// A question about a world.
#[derive(Debug, Drop)]
pub enum WorldQuestion {
    /// How far the session is, and how many bytes are on their way in it.
    Session(u32),
    /// The rows of the table with this id.
    Rows(u64),
    /// The rows that the learner of a session has of a table.
    Learner {
        /// The session.
        session: u32,
        /// The table's id.
        table: u64,
    },
    /// The number of events of the table with this id, and how many more may come.
    Events(u64),
}

impl WorldScript {
    /// Reads a step or a question, from its first word and those after it.
    pub(crate) fn line_of(
        &self,
        alloc: Global,
        kind: &[u8],
        words: &[&[u8]],
    ) -> Result<WorldLine, LineError>
        ensures { IfOk result (IsAnswerableLine (session_count self.now) (definitions self.now.tables.items)) }
    {
        match kind {
            b"track" => Ok(WorldLine::Step(self.track_of(alloc, words)?)),
            b"learn" => Ok(WorldLine::Step(self.learn_of(alloc, words)?)),
            _ => match plain_step(kind, words) {
                Some(step) => Ok(WorldLine::Step(step)),
                None => {
                    let question = self.question(kind, words).ok_or(LineError::Refused)?;
                    Ok(WorldLine::Question(question))
                }
            },
        }
    }

    /// Reads a step `track TABLE MOMENT KEY` and a change, from the words after the first. The key of a table that isn't there
    /// is an integer or a string.
    fn track_of(&self, alloc: Global, words: &[&[u8]]) -> Result<WorldStep, LineError> {
        let [word, words @ ..] = words else {
            return Err(LineError::Refused);
        };
        let table = number(word, u64::MAX).ok_or(LineError::Refused)?;
        let kind = match self.table(table) {
            Some(table) => table.kind(),
            None => KeyKind::Integer,
        };
        let (moment, key, change) = tracked_of(alloc, kind, words)?;
        Ok(WorldStep::Track {
            table,
            key,
            change,
            moment,
        })
    }

    /// Reads a step `learn SESSION TABLE MOMENT NUMBER LIFE KEY VALUES.. NAME`, from the words after the first.
    fn learn_of(&self, alloc: Global, words: &[&[u8]]) -> Result<WorldStep, LineError> {
        let [session, word, words @ ..] = words else {
            return Err(LineError::Refused);
        };
        let id = number(word, u64::MAX).ok_or(LineError::Refused)?;
        let table = self.table(id).ok_or(LineError::Refused)?;
        let (moment, update) = learned_of(alloc, table, words)?;
        Ok(WorldStep::Learn {
            session: number32(session).ok_or(LineError::Refused)?,
            update,
            moment,
        })
    }

    /// Reads a question, which names only what is there: `session SESSION`, `rows TABLE`, `learner SESSION TABLE` or
    /// `events TABLE`.
    fn question(&self, kind: &[u8], words: &[&[u8]]) -> Option<WorldQuestion>
        ensures { IfSome result (IsAnswerable (session_count self.now) (definitions self.now.tables.items)) }
    {
        match kind {
            b"session" => match words {
                [session] => Some(WorldQuestion::Session(self.session_named(session)?)),
                _ => None,
            },
            b"rows" => Some(WorldQuestion::Rows(self.only_table(words)?)),
            b"learner" => match words {
                [session, table] => Some(WorldQuestion::Learner {
                    session: self.session_named(session)?,
                    table: self.table_named(table)?,
                }),
                _ => None,
            },
            b"events" => Some(WorldQuestion::Events(self.only_table(words)?)),
            _ => None,
        }
    }

    /// Reads the id of a table that is there, from the only word.
    fn only_table(&self, words: &[&[u8]]) -> Option<u64>
        ensures { IfSome result (λ id. has_id id (definitions self.now.tables.items) ≡ true) }
    {
        match words {
            [table] => self.table_named(table),
            _ => None,
        }
    }

    /// Reads the id of a table that is there.
    fn table_named(&self, word: &[u8]) -> Option<u64>
        ensures { IfSome result (λ id. has_id id (definitions self.now.tables.items) ≡ true) }
    {
        let id = number(word, u64::MAX)?;
        self.table(id)?;
        Some(id)
    }

    /// Reads a session that is there.
    fn session_named(&self, word: &[u8]) -> Option<u32>
        ensures { IfSome result (λ session. (1 ≤ session) × (session ≤ session_count self.now)) }
    {
        let session = number_from_one(word, u32::MAX)?;
        if session as usize <= self.session_count() {
            Some(session)
        } else {
            None
        }
    }
}

/// Reads a step other than `track` and `learn`, from its first word and those after it.
fn plain_step(kind: &[u8], words: &[&[u8]]) -> Option<WorldStep> {
    match kind {
        b"copy" => copy_of(words),
        b"deliver" => deliver_of(words),
        b"purge" => purge_of(words),
        _ => match words {
            [session] => session_step(kind, session),
            _ => None,
        },
    }
}

/// Reads a step `copy SESSION TABLE push LIMIT MOMENT` or `copy SESSION TABLE resync LIMIT MOMENT`, from the words after the
/// first.
fn copy_of(words: &[&[u8]]) -> Option<WorldStep> {
    let [session, table, kind, limit, word] = words else {
        return None;
    };
    Some(WorldStep::Copy {
        session: number32(session)?,
        table: number(table, u64::MAX)?,
        kind: step_kind_of(kind)?,
        limit: number32(limit)? as usize,
        moment: moment(word)?,
    })
}

/// Returns the kind of copies that `word` names. A standing resync isn't a step of a world.
fn step_kind_of(word: &[u8]) -> Option<CopyKind> {
    match copy_kind_of(word)? {
        CopyKind::Standing => None,
        kind => Some(kind),
    }
}

/// Reads a step `deliver SESSION learner COUNT MOMENT` or `deliver SESSION teacher COUNT MOMENT`, from the words after the
/// first.
fn deliver_of(words: &[&[u8]]) -> Option<WorldStep> {
    let [session, end, count, word] = words else {
        return None;
    };
    let session = number32(session)?;
    let count = number32(count)? as usize;
    let moment = moment(word)?;
    match *end {
        b"learner" => Some(WorldStep::DeliverToLearner {
            session,
            count,
            moment,
        }),
        b"teacher" => Some(WorldStep::DeliverToTeacher {
            session,
            count,
            moment,
        }),
        _ => None,
    }
}

/// Reads a step `purge TABLE MOMENT`, from the words after the first.
fn purge_of(words: &[&[u8]]) -> Option<WorldStep> {
    let [table, word] = words else {
        return None;
    };
    Some(WorldStep::Purge {
        table: number(table, u64::MAX)?,
        moment: moment(word)?,
    })
}

/// Reads a step `teach SESSION`, `ack SESSION`, `break SESSION` or `reopen SESSION`.
fn session_step(kind: &[u8], session: &[u8]) -> Option<WorldStep> {
    let session = number32(session)?;
    match kind {
        b"teach" => Some(WorldStep::Teach(session)),
        b"ack" => Some(WorldStep::Ack(session)),
        b"break" => Some(WorldStep::Break(session)),
        b"reopen" => Some(WorldStep::Reopen(session)),
        _ => None,
    }
}
