//! Why a table refuses an event, a batch isn't settled, a history doesn't begin anew, or rows don't get new numbers.

use thiserror::Error;

/// Why a change is refused. It is the first of these that applies, in this order: `WrongKey`, `NoSuchData`,
/// `MomentBack`, `HistoryFull`, `Spent`, `TableFull`, `Memory`.
#[derive(Clone, Copy, Debug, PartialEq, Eq, Error)]
pub enum TrackError {
    /// The key is new, the table is full of live rows, and it has `nopurge`.
    #[error("the table is full")]
    TableFull,
    /// The key doesn't fit the table's key type or length.
    #[error("the key is not one of this table's")]
    WrongKey,
    /// The table lacks the data type, or the change doesn't fit the type.
    #[error("the table has no such data")]
    NoSuchData,
    /// All numbers up to 2^32 - 1 are assigned.
    #[error("all numbers are spent")]
    Spent,
    /// The history has no room for another event.
    #[error("the history is full")]
    HistoryFull,
    /// The moment is before the latest one.
    #[error("the moment is before the latest one")]
    MomentBack,
    /// Memory ran out.
    #[error("memory")]
    Memory,
}

/// Why an update isn't learned: the first of these that applies, in this order.
#[derive(Clone, Copy, Debug, PartialEq, Eq, Error)]
pub enum LearnError {
    /// The session isn't open.
    #[error("the session is not open")]
    NoSession,
    /// The update is for another table, or its key, values or name don't fit this one.
    #[error("the update is not one of this table's")]
    Misfit,
    /// The moment is before the latest one.
    #[error("the moment is before the latest one")]
    MomentBack,
    /// The history has no room for another event.
    #[error("the history is full")]
    HistoryFull,
    /// All numbers up to 2^32 - 1 are assigned.
    #[error("all numbers are spent")]
    Spent,
    /// The key is new, the table is full of live rows, and it has `nopurge`.
    #[error("the table is full")]
    TableFull,
    /// Memory ran out.
    #[error("memory")]
    Memory,
}

/// Why a copy is refused. It is the first of these that applies, in this order: `NoSession`, `MomentBack`, `BatchOut`,
/// `Nothing`, `HistoryFull`, `Memory`.
#[derive(Clone, Copy, Debug, PartialEq, Eq, Error)]
pub enum CopyError {
    /// The session hasn't acknowledged all of its last batch.
    #[error("a batch is out")]
    BatchOut,
    /// There is nothing to teach.
    #[error("there is nothing to teach")]
    Nothing,
    /// The session isn't open.
    #[error("the session is not open")]
    NoSession,
    /// The history has no room for another event.
    #[error("the history is full")]
    HistoryFull,
    /// The moment is before the latest one.
    #[error("the moment is before the latest one")]
    MomentBack,
    /// Memory ran out.
    #[error("memory")]
    Memory,
}

/// Why an acknowledgement is refused. It is the first of these that applies, in this order: `NoSession`, `AckAhead`,
/// `HistoryFull`, `Memory`.
#[derive(Clone, Copy, Debug, PartialEq, Eq, Error)]
pub enum AckError {
    /// The number is above the last one taught.
    #[error("a number is acknowledged that was not taught")]
    AckAhead,
    /// The session isn't open.
    #[error("the session is not open")]
    NoSession,
    /// The history has no room for another event.
    #[error("the history is full")]
    HistoryFull,
    /// Memory ran out.
    #[error("memory")]
    Memory,
}

/// Why a session isn't opened: the first of these that applies, in this order.
#[derive(Clone, Copy, Debug, PartialEq, Eq, Error)]
pub enum OpenError {
    /// The session is open.
    #[error("the session is open")]
    AlreadyOpen,
    /// 16 sessions are open.
    #[error("16 sessions are open")]
    TooMany,
    /// The history has no room for another event.
    #[error("the history is full")]
    HistoryFull,
    /// Memory ran out.
    #[error("memory")]
    Memory,
}

/// Why a session isn't closed: the first of these that applies, in this order.
#[derive(Clone, Copy, Debug, PartialEq, Eq, Error)]
pub enum CloseError {
    /// The session isn't open.
    #[error("the session is not open")]
    NoSession,
    /// The history has no room for another event.
    #[error("the history is full")]
    HistoryFull,
    /// Memory ran out.
    #[error("memory")]
    Memory,
}

/// Why rows aren't purged: the first of these that applies, in this order.
#[derive(Clone, Copy, Debug, PartialEq, Eq, Error)]
pub enum PurgeError {
    /// The moment is before the latest one.
    #[error("the moment is before the latest one")]
    MomentBack,
    /// The history has no room for another event.
    #[error("the history is full")]
    HistoryFull,
    /// Memory ran out.
    #[error("memory")]
    Memory,
}

/// Why a history doesn't begin anew.
#[derive(Clone, Copy, Debug, PartialEq, Eq, Error)]
pub enum CheckpointError {
    /// A batch of an open session is out.
    #[error("a batch is out")]
    BatchOut,
    /// Memory ran out. A history begins anew without memory, so no call returns this.
    #[error("memory")]
    Memory,
}

/// Why the rows of a table don't get new numbers: the first of these that applies.
#[derive(Clone, Copy, Debug, PartialEq, Eq, Error)]
pub enum RenumberError {
    /// A session is open.
    #[error("a session is open")]
    SessionOpen,
    /// Memory ran out.
    #[error("memory")]
    Memory,
}

/// The batch isn't the session's latest one.
#[derive(Clone, Copy, Debug, PartialEq, Eq, Error)]
#[error("the batch is not the session's latest one")]
pub struct StrangeBatch;
