//! What a table answers without an event.

ghost use Rattle.std.specs.Prelude.{◌≡◌};
ghost use Rattle.table_shards.specs.Noting.{if_settled, if_unclosed, if_uncopied, if_unlearned, if_unopened, if_untaken};

use crate::errors::ShardError;
use table_cell::{AckError, CloseError, CopyError, LearnError, OpenError, StrangeBatch};
use table_types::{Batch, CopyKind, Moment, Settled, Version};

/// An answer to a call of a session that makes no event. None of its errors is that memory ran out.
#[derive(Clone, Copy, Debug)]
pub enum Answer {
    /// An update isn't learned.
    Unlearned {
        /// The update's number.
        number: u32,
        /// When it was to be learned.
        moment: Moment,
        /// Why it isn't.
        error: ShardError<LearnError>,
    },
    /// No batch is copied.
    Uncopied {
        /// Which rows were asked for.
        kind: CopyKind,
        /// The most rows that were asked for.
        limit: usize,
        /// When they were asked for.
        moment: Moment,
        /// Why none is.
        error: ShardError<CopyError>,
    },
    /// An acknowledgement isn't taken.
    Untaken {
        /// Its number.
        number: u32,
        /// Why it isn't.
        error: ShardError<AckError>,
    },
    /// A batch is the session's latest one.
    Latest,
    /// A batch isn't the session's latest one, or the table wasn't asked.
    Unsettled {
        /// Which of the two.
        error: ShardError<StrangeBatch>,
    },
    /// The session isn't opened.
    Unopened {
        /// With which version it was to be opened.
        version: Version,
        /// Why it isn't.
        error: ShardError<OpenError>,
    },
    /// The session isn't closed.
    Unclosed {
        /// Why it isn't.
        error: ShardError<CloseError>,
    },
}

/// An answer to a call of a session, and the number of events that the cell under the lock had then. Only the calls of
/// the module `held::noted` add one to a seat.
#[derive(Clone, Copy, Debug)]
pub struct Answered {
    /// The id of the table that was called.
    pub table: u64,
    /// The session.
    pub session: u32,
    /// The number of events that the cell had.
    pub events: u64,
    /// The answer.
    pub answer: Answer,
}

/// Returns the answer if an update isn't learned, unless memory ran out.
pub fn if_unlearned(
    learned: &Result<(), ShardError<LearnError>>,
    number: u32,
    moment: Moment,
) -> Option<Answer>
    ensures { result ≡ if_unlearned number moment learned.now }
{
    match *learned {
        Ok(()) | Err(ShardError::Memory | ShardError::Cell(LearnError::Memory)) => None,
        Err(error) => Some(Answer::Unlearned {
            number,
            moment,
            error,
        }),
    }
}

/// Returns the answer if no batch is copied, unless memory ran out.
pub fn if_uncopied(
    copied: &Result<Batch, ShardError<CopyError>>,
    kind: CopyKind,
    limit: usize,
    moment: Moment,
) -> Option<Answer>
    ensures { result ≡ if_uncopied kind limit moment copied.now }
{
    match *copied {
        Ok(_) | Err(ShardError::Memory | ShardError::Cell(CopyError::Memory)) => None,
        Err(error) => Some(Answer::Uncopied {
            kind,
            limit,
            moment,
            error,
        }),
    }
}

/// Returns the answer if an acknowledgement isn't taken, unless memory ran out.
pub fn if_untaken(settled: &Result<Settled, ShardError<AckError>>, number: u32) -> Option<Answer>
    ensures { result ≡ if_untaken number settled.now }
{
    match *settled {
        Ok(_) | Err(ShardError::Memory | ShardError::Cell(AckError::Memory)) => None,
        Err(error) => Some(Answer::Untaken { number, error }),
    }
}

/// Returns the answer to whether a batch is the session's latest one. That takes no memory.
pub fn if_settled(settled: &Result<(), ShardError<StrangeBatch>>) -> Option<Answer>
    ensures { result ≡ if_settled settled.now }
{
    match *settled {
        Ok(()) => Some(Answer::Latest),
        Err(ShardError::Memory) => None,
        Err(error) => Some(Answer::Unsettled { error }),
    }
}

/// Returns the answer if a session isn't opened, unless memory ran out.
pub fn if_unopened(opened: &Result<(), ShardError<OpenError>>, version: Version) -> Option<Answer>
    ensures { result ≡ if_unopened version opened.now }
{
    match *opened {
        Ok(()) | Err(ShardError::Memory | ShardError::Cell(OpenError::Memory)) => None,
        Err(error) => Some(Answer::Unopened { version, error }),
    }
}

/// Returns the answer if a session isn't closed, unless memory ran out.
pub fn if_unclosed(closed: &Result<(), ShardError<CloseError>>) -> Option<Answer>
    ensures { result ≡ if_unclosed closed.now }
{
    match *closed {
        Ok(()) | Err(ShardError::Memory | ShardError::Cell(CloseError::Memory)) => None,
        Err(error) => Some(Answer::Unclosed { error }),
    }
}
