//! Why a call under a table's lock, or an audit, fails.

ghost use Rattle.std.specs.Prelude.{◌≡◌};
ghost use Rattle.table_shards.specs.declared.errors.ShardError.TheVariants as errors;

use table_types::Memory;
use thiserror::Error;

/// Why a call under a table's lock fails: the first of these that applies. Nothing has changed, and there is no
/// receipt.
#[derive(Clone, Copy, Debug, PartialEq, Eq, Error)]
pub enum ShardError<E> {
    /// The cell is another table's.
    #[error("the cell is another table's")]
    NoTable,
    /// The seat has seen more events of the table than the cell has.
    #[error("the seat has seen {seen} events, and the table has {found}")]
    SeatAhead {
        /// The number of events that the seat has seen.
        seen: u64,
        /// The number of events that the cell has.
        found: u64,
    },
    /// Memory ran out, before the cell was called.
    #[error("memory")]
    Memory,
    /// The cell refused the call.
    #[error("the table refuses it")]
    Cell(E),
}

impl<E> From<Memory> for ShardError<E> {
    ghost from_gives = { λ _ e. e ≡ errors.Memory };

    fn from(_: Memory) -> ShardError<E> {
        ShardError::Memory
    }
}

/// What an audit finds wrong: the first of these that applies.
#[derive(Clone, Copy, Debug, PartialEq, Eq, Error)]
pub enum AuditError {
    /// The seats aren't those that were made with the tables, each once.
    #[error("a seat is missing")]
    MissingSeat,
    /// The receipts of a table aren't its events in the round, or the cell isn't the table's, has dropped events of the round,
    /// or had its rows numbered anew in it.
    #[error("table {table} and seat {seat} do not agree")]
    Mismatch {
        /// The least id of a table with a fault.
        table: u64,
        /// The least seat with a receipt that isn't the table's event at its place. It is 0 if there is none, and if
        /// the cell isn't the table's, has dropped events of the round, or had its rows numbered anew in it.
        seat: u32,
    },
}

/// Why another round can't begin: the first of these that applies. No table has changed.
#[derive(Clone, Copy, Debug, PartialEq, Eq, Error)]
pub enum RoundError {
    /// A batch of an open session is out.
    #[error("a batch is out")]
    BatchOut,
    /// Memory ran out.
    #[error("memory")]
    Memory,
}
