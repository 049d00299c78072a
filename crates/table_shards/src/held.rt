//! The calls that change a table, each under the table's lock and for a seat. A call that makes an event adds a receipt
//! of it to the seat while the lock is still held. Each call takes the seat, and returns it with the result; the calls
//! of the modules `lent` and `noted` borrow it. If a call fails, nothing has changed, and there is no receipt; but a call
//! of `noted` then leaves the answer at the seat, unless memory ran out.

ghost use Rattle.std.specs.Prelude.{◌≡◌, ◌≤◌};
ghost use Rattle.table_cell.specs.Histories.{Acknowledges, BeginsAnew, Closes, Copies, Learns, Opens, Purges, Tracks};
ghost use Rattle.table_cell.specs.Renumbering.{Renumbers};
ghost use Rattle.table_cell.specs.declared.events.CellEvent.TheVariants as events;
ghost use Rattle.table_cell.specs.declared.events.CellReply.TheVariants as replies;
ghost use Rattle.table_shards.specs.Holding.{Holds, Looks, Settles, SlidesAlways, receipted};

pub mod lent;
pub mod noted;

use crate::errors::ShardError;
use crate::locked::Locked;
use crate::seat::Seat;
use std::convert::Infallible;
use table_cell::{
    AckError, CheckpointError, CloseError, CopyError, Dropped, LearnError, OpenError, PurgeError,
    RenumberError, Reply, StrangeBatch, TrackError,
};
use table_types::{Batch, Change, CopyKind, Key, Moment, Settled, Update, Version};

/// Calls `TableCell::track` for the seat, and adds a receipt.
pub fn track(
    locked: &mut Locked,
    mut seat: Seat,
    table: u64,
    key: Key,
    change: Change,
    now: Moment,
) -> (Seat, Result<Reply, ShardError<TrackError>>)
    ensures { Holds (λ c r e. Tracks c seat.number key change now r e)
        (λ reply. receipted table locked.old seat (events.Track seat.number key change now) (replies.Track reply))
        table locked.old seat result.1 locked.new result.0 }
{
    let result = lent::track_with_reply(locked, &mut seat, table, key, change, now);
    (seat, result)
}

/// Calls `TableCell::learn`, and adds a receipt.
pub fn learn(
    locked: &mut Locked,
    mut seat: Seat,
    table: u64,
    session: u32,
    update: Update,
    now: Moment,
) -> (Seat, Result<Reply, ShardError<LearnError>>)
    ensures { Holds (λ c r e. Learns c session update now r e)
        (λ reply. receipted table locked.old seat (events.Learn session update now) (replies.Learn reply))
        table locked.old seat result.1 locked.new result.0 }
{
    let result = lent::learn_with_reply(locked, &mut seat, table, session, update, now);
    (seat, result)
}

/// Calls `TableCell::copy`, and adds a receipt.
pub fn copy(
    locked: &mut Locked,
    mut seat: Seat,
    table: u64,
    session: u32,
    kind: CopyKind,
    limit: usize,
    now: Moment,
) -> (Seat, Result<Batch, ShardError<CopyError>>)
    requires { (1 ≤ limit) × (limit ≤ 4096) }
    ensures { Holds (λ c r e. Copies c session kind limit now r e)
        (λ batch. receipted table locked.old seat (events.Copy session kind limit now) (replies.Copy batch))
        table locked.old seat result.1 locked.new result.0 }
{
    let result = lent::copy(locked, &mut seat, table, session, kind, limit, now);
    (seat, result)
}

/// Calls `TableCell::ack`, and adds a receipt.
pub fn ack(
    locked: &mut Locked,
    mut seat: Seat,
    table: u64,
    session: u32,
    number: u32,
) -> (Seat, Result<Settled, ShardError<AckError>>)
    ensures { Holds (λ c r e. Acknowledges c session number r e)
        (λ settled. receipted table locked.old seat (events.Ack session number) (replies.Ack settled))
        table locked.old seat result.1 locked.new result.0 }
{
    let result = lent::ack(locked, &mut seat, table, session, number);
    (seat, result)
}

/// Calls `TableCell::settle`. Makes no event, doesn't allocate, and returns the seat as it was.
pub fn settle(
    locked: &mut Locked,
    mut seat: Seat,
    table: u64,
    session: u32,
    batch: &Batch,
) -> (Seat, Result<(), ShardError<StrangeBatch>>)
    ensures { Looks (λ c r e. Settles c session batch.now r e) table locked.old seat result.1 locked.new result.0 }
{
    let result = lent::settle(locked, &mut seat, table, session, batch);
    (seat, result)
}

/// Calls `TableCell::begin_anew`. If it drops an event of the round, an audit of the round then fails. Makes no event,
/// doesn't allocate, and returns the seat as it was.
pub fn begin_anew(
    locked: &mut Locked,
    seat: Seat,
    table: u64,
) -> (Seat, Result<Dropped, ShardError<CheckpointError>>)
    ensures { Looks (λ c r e. BeginsAnew c r e) table locked.old seat result.1 locked.new result.0 }
{
    let result = lent::begin_anew(locked, &seat, table);
    (seat, result)
}

/// Calls `TableCell::slide`. If it drops an event of the round, an audit of the round then fails. Makes no event, doesn't
/// allocate, and returns the seat as it was.
pub fn slide(
    locked: &mut Locked,
    seat: Seat,
    table: u64,
) -> (Seat, Result<Dropped, ShardError<Infallible>>)
    ensures { Looks SlidesAlways table locked.old seat result.1 locked.new result.0 }
{
    let result = lent::slide(locked, &seat, table);
    (seat, result)
}

/// Calls `TableCell::renumber`, which the table counts: an audit of the round then fails. Makes no event, and returns the
/// seat as it was.
pub fn renumber(
    locked: &mut Locked,
    seat: Seat,
    table: u64,
) -> (Seat, Result<(), ShardError<RenumberError>>)
    ensures { Looks (λ c r e. Renumbers c r e) table locked.old seat result.1 locked.new result.0 }
{
    let result = lent::renumber(locked, &seat, table);
    (seat, result)
}

/// Calls `TableCell::open_session`, and adds a receipt.
pub fn open_session(
    locked: &mut Locked,
    mut seat: Seat,
    table: u64,
    session: u32,
    version: Version,
) -> (Seat, Result<(), ShardError<OpenError>>)
    ensures { Holds (λ c r e. Opens c session version r e) (λ done. receipted table locked.old seat (events.Open session version) replies.Open)
        table locked.old seat result.1 locked.new result.0 }
{
    let result = lent::open_session(locked, &mut seat, table, session, version);
    (seat, result)
}

/// Calls `TableCell::close_session`, and adds a receipt.
pub fn close_session(
    locked: &mut Locked,
    mut seat: Seat,
    table: u64,
    session: u32,
) -> (Seat, Result<(), ShardError<CloseError>>)
    ensures { Holds (λ c r e. Closes c session r e) (λ done. receipted table locked.old seat (events.Close session) replies.Close)
        table locked.old seat result.1 locked.new result.0 }
{
    let result = lent::close_session(locked, &mut seat, table, session);
    (seat, result)
}

/// Calls `TableCell::purge`, and adds a receipt.
pub fn purge(
    locked: &mut Locked,
    mut seat: Seat,
    table: u64,
    now: Moment,
) -> (Seat, Result<usize, ShardError<PurgeError>>)
    ensures { Holds (λ c r e. Purges c now r e) (λ count. receipted table locked.old seat (events.Purge now) (replies.Purge count))
        table locked.old seat result.1 locked.new result.0 }
{
    let result = lent::purge(locked, &mut seat, table, now);
    (seat, result)
}
