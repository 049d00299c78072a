//! A receipt of an event.

ghost use Rattle.std.specs.Prelude.{◌≡◌, ◌↔◌, IsTrue};

use std::marker::Model;
use table_cell::{CellEvent, CellReply, Entry, Reply};

/// What a seat keeps of an event that its thread made. It shares the event and the reply with the table's history. Only
/// the calls of the module `held` make receipts.
#[derive(Debug, Drop)]
pub struct Receipt {
    place: u64,
    entry: Entry,
}

impl Model for Receipt {
    ghost use Rattle.table_shards.specs.Receipts.{ReceiptState};

    ghost Value = { ReceiptState };

    ghost view = { λ a. record { place = a.place; event = a.entry.0; reply = a.entry.1 } };
}

impl Receipt {
    /// Makes the receipt of the event at `place`.
    pub(crate) fn new(place: u64, entry: Entry) -> Receipt
        ensures { result ≡ record { place = place; event = entry.0; reply = entry.1 } }
    {
        Receipt { place, entry }
    }

    /// Returns the event's place among all events of the table, from 1.
    pub fn place(&self) -> u64
        ensures { result ≡ self.now.place }
    {
        self.place
    }

    /// Returns the event.
    pub fn event(&self) -> &CellEvent
        ensures { result.now ≡ self.now.event }
    {
        self.entry.event()
    }

    /// Returns the table's reply.
    pub fn reply(&self) -> &CellReply
        ensures { result.now ≡ self.now.reply }
    {
        self.entry.reply()
    }
}

/// Returns whether both replies have the same number and row.
fn are_same_row_replies(one: &Reply, other: &Reply) -> bool
    ensures { IsTrue result ↔ (one.now ≡ other.now) }
{
    one.number == other.number && one.row.is_same(&other.row)
}

/// Returns whether both are the same event, field by field.
pub fn are_same_events(one: &CellEvent, other: &CellEvent) -> bool
    ensures { IsTrue result ↔ (one.now ≡ other.now) }
{
    match (one, other) {
        (
            CellEvent::Track {
                seat,
                key,
                change,
                moment,
            },
            CellEvent::Track {
                seat: other_seat,
                key: other_key,
                change: other_change,
                moment: other_moment,
            },
        ) => {
            *seat == *other_seat
                && key.is_same(other_key)
                && change.is_same(other_change)
                && *moment == *other_moment
        }
        (
            CellEvent::Learn {
                session,
                update,
                moment,
            },
            CellEvent::Learn {
                session: other_session,
                update: other_update,
                moment: other_moment,
            },
        ) => {
            *session == *other_session && update.is_same(other_update) && *moment == *other_moment
        }
        (
            CellEvent::Copy {
                session,
                kind,
                limit,
                moment,
            },
            CellEvent::Copy {
                session: other_session,
                kind: other_kind,
                limit: other_limit,
                moment: other_moment,
            },
        ) => {
            *session == *other_session
                && *kind == *other_kind
                && *limit == *other_limit
                && *moment == *other_moment
        }
        (
            CellEvent::Ack { session, number },
            CellEvent::Ack {
                session: other_session,
                number: other_number,
            },
        ) => *session == *other_session && *number == *other_number,
        (
            CellEvent::Open { session, version },
            CellEvent::Open {
                session: other_session,
                version: other_version,
            },
        ) => *session == *other_session && *version == *other_version,
        (CellEvent::Close { session }, CellEvent::Close { session: other }) => *session == *other,
        (CellEvent::Purge { moment }, CellEvent::Purge { moment: other }) => *moment == *other,
        _ => false,
    }
}

/// Returns whether both are the same reply, field by field.
pub fn are_same_replies(one: &CellReply, other: &CellReply) -> bool
    ensures { IsTrue result ↔ (one.now ≡ other.now) }
{
    match (one, other) {
        (CellReply::Track(one), CellReply::Track(other)) => are_same_row_replies(one, other),
        (CellReply::Learn(one), CellReply::Learn(other)) => are_same_row_replies(one, other),
        (CellReply::Copy(one), CellReply::Copy(other)) => one.is_same(other),
        (CellReply::Ack(one), CellReply::Ack(other)) => *one == *other,
        (CellReply::Open, CellReply::Open) => true,
        (CellReply::Close, CellReply::Close) => true,
        (CellReply::Purge(one), CellReply::Purge(other)) => *one == *other,
        _ => false,
    }
}
