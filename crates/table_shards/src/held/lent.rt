//! The calls of `held` for a seat that is lent.

ghost use Rattle.std.specs.Prelude.{◌≡◌, ◌≤◌, ◌<◌, IfErr, IfOk};
ghost use Rattle.table_cell.specs.Histories.{Acknowledges, BeginsAnew, Closes, Copies, Learns, Opens, Purges, Tracks, events_of};
ghost use Rattle.table_cell.specs.Renumbering.{Renumbers};
ghost use Rattle.table_cell.specs.declared.events.CellEvent.TheVariants as events;
ghost use Rattle.table_cell.specs.declared.events.CellReply.TheVariants as replies;
ghost use Rattle.table_shards.specs.Receipts.{seen_of, with_receipt};
ghost use Rattle.table_shards.specs.Pages.{page_states, seat_of, ArePages, HasRoomIn};
ghost use Rattle.table_shards.specs.Holding.{Allows, Holds, Leaves, Looks, MayCall, Refuses, Settles, SlidesAlways, receipted};

use crate::book::Book;
use crate::errors::ShardError;
use crate::locked::Locked;
use crate::pages::Room;
use crate::receipt::Receipt;
use crate::seat::Seat;
use std::convert::Infallible;
use table_cell::{
    AckError, CheckpointError, CloseError, CopyError, Dropped, Entry, LearnError, OpenError,
    PurgeError, RenumberError, Reply, StrangeBatch, TrackError,
};
use table_types::{Batch, Change, CopyKind, Key, Moment, Settled, Update, Version};

/// Returns why the call may not be made: the cell is another table's, or the seat has seen more events than the cell
/// has.
fn allow<E>(locked: &Locked, book: &Book, table: u64) -> Result<(), ShardError<E>>
    ensures { Allows table locked.now (seat_of book.now) result }
{
    if locked.cell.definition().id() != table {
        return Err(ShardError::NoTable);
    }
    match book.ahead(table, locked.cell.events()) {
        Some((seen, found)) => Err(ShardError::SeatAhead { seen, found }),
        None => Ok(()),
    }
}

/// Makes room for the receipt of a call, if the call may be made. The seat stays as it was.
fn begin<E>(locked: &Locked, book: &mut Book, table: u64) -> Result<Room, ShardError<E>>
    ensures begun { IfOk result (λ room. MayCall table locked.now (seat_of book.old) × HasRoomIn table book.new.pages room) }
    ensures refused { IfErr result (Refuses table locked.now (seat_of book.old)) }
    ensures stays { seat_of book.new ≡ seat_of book.old }
{
    allow(locked, book, table)?;
    Ok(book.make_room(table)?)
}

/// Adds a receipt of the event that was just made, and shares it.
fn finish(locked: &Locked, book: &mut Book, room: Room, table: u64, entry: Entry)
    requires room { HasRoomIn table book.old.pages room }
    requires pages { ArePages (page_states book.old.pages.items) }
    requires above { seen_of table (seat_of book.old) < events_of locked.now }
    ensures added { seat_of book.new ≡ with_receipt (seat_of book.old) table (record { place = events_of locked.now; event = entry.0; reply = entry.1 }) }
    ensures pages { ArePages (page_states book.new.pages.items) }
{
    book.add(room, table, Receipt::new(locked.cell.events(), entry));
}

/// Calls `TableCell::track` for the seat, and adds a receipt, which has the reply.
pub fn track(
    locked: &mut Locked,
    seat: &mut Seat,
    table: u64,
    key: Key,
    change: Change,
    now: Moment,
) -> Result<(), ShardError<TrackError>>
    ensures { Leaves (λ c r e. Tracks c seat.old.number key change now r e) (events.Track seat.old.number key change now) replies.Track
        table locked.old seat.old result locked.new seat.new }
{
    let number = seat.book.number;
    let room = begin(locked, &mut seat.book, table)?;
    let tracked = locked.cell.track_shared(number, key, change, now);
    let entry = tracked.map_err(ShardError::Cell)?;
    finish(locked, &mut seat.book, room, table, entry);
    Ok(())
}

/// Calls `TableCell::track` for the seat, adds a receipt, and returns the reply.
pub fn track_with_reply(
    locked: &mut Locked,
    seat: &mut Seat,
    table: u64,
    key: Key,
    change: Change,
    now: Moment,
) -> Result<Reply, ShardError<TrackError>>
    ensures { Holds (λ c r e. Tracks c seat.old.number key change now r e)
        (λ reply. receipted table locked.old seat.old (events.Track seat.old.number key change now) (replies.Track reply))
        table locked.old seat.old result locked.new seat.new }
{
    let number = seat.book.number;
    let room = begin(locked, &mut seat.book, table)?;
    let tracked = locked.cell.track_with_reply(number, key, change, now);
    let (reply, entry) = tracked.map_err(ShardError::Cell)?;
    finish(locked, &mut seat.book, room, table, entry);
    Ok(reply)
}

/// Calls `TableCell::learn`, and adds a receipt, which has the reply.
pub fn learn(
    locked: &mut Locked,
    seat: &mut Seat,
    table: u64,
    session: u32,
    update: Update,
    now: Moment,
) -> Result<(), ShardError<LearnError>>
    ensures { Leaves (λ c r e. Learns c session update now r e) (events.Learn session update now) replies.Learn
        table locked.old seat.old result locked.new seat.new }
{
    let room = begin(locked, &mut seat.book, table)?;
    let learned = locked.cell.learn_shared(session, update, now);
    let entry = learned.map_err(ShardError::Cell)?;
    finish(locked, &mut seat.book, room, table, entry);
    Ok(())
}

/// Calls `TableCell::learn`, adds a receipt, and returns the reply.
pub fn learn_with_reply(
    locked: &mut Locked,
    seat: &mut Seat,
    table: u64,
    session: u32,
    update: Update,
    now: Moment,
) -> Result<Reply, ShardError<LearnError>>
    ensures { Holds (λ c r e. Learns c session update now r e)
        (λ reply. receipted table locked.old seat.old (events.Learn session update now) (replies.Learn reply))
        table locked.old seat.old result locked.new seat.new }
{
    let room = begin(locked, &mut seat.book, table)?;
    let answer = locked.cell.learn_with_reply(session, update, now);
    let (learned, entry) = answer.map_err(ShardError::Cell)?;
    finish(locked, &mut seat.book, room, table, entry);
    Ok(learned)
}

/// Calls `TableCell::copy`, and adds a receipt.
pub fn copy(
    locked: &mut Locked,
    seat: &mut Seat,
    table: u64,
    session: u32,
    kind: CopyKind,
    limit: usize,
    now: Moment,
) -> Result<Batch, ShardError<CopyError>>
    requires { (1 ≤ limit) × (limit ≤ 4096) }
    ensures { Holds (λ c r e. Copies c session kind limit now r e)
        (λ batch. receipted table locked.old seat.old (events.Copy session kind limit now) (replies.Copy batch))
        table locked.old seat.old result locked.new seat.new }
{
    let room = begin(locked, &mut seat.book, table)?;
    let copied = locked.cell.copy_with_reply(session, kind, limit, now);
    let (batch, entry) = copied.map_err(ShardError::Cell)?;
    finish(locked, &mut seat.book, room, table, entry);
    Ok(batch)
}

/// Calls `TableCell::ack`, and adds a receipt.
pub fn ack(
    locked: &mut Locked,
    seat: &mut Seat,
    table: u64,
    session: u32,
    number: u32,
) -> Result<Settled, ShardError<AckError>>
    ensures { Holds (λ c r e. Acknowledges c session number r e)
        (λ settled. receipted table locked.old seat.old (events.Ack session number) (replies.Ack settled))
        table locked.old seat.old result locked.new seat.new }
{
    let room = begin(locked, &mut seat.book, table)?;
    let taken = locked.cell.ack_with_reply(session, number);
    let (settled, entry) = taken.map_err(ShardError::Cell)?;
    finish(locked, &mut seat.book, room, table, entry);
    Ok(settled)
}

/// Calls `TableCell::settle`. Makes no event, doesn't allocate, and leaves the seat as it was.
pub fn settle(
    locked: &mut Locked,
    seat: &mut Seat,
    table: u64,
    session: u32,
    batch: &Batch,
) -> Result<(), ShardError<StrangeBatch>>
    ensures { Looks (λ c r e. Settles c session batch.now r e) table locked.old seat.old result locked.new seat.new }
{
    allow(locked, &seat.book, table)?;
    locked.cell.settle(session, batch).map_err(ShardError::Cell)
}

/// Calls `TableCell::begin_anew`. Makes no event, doesn't allocate, and leaves the seat as it was.
pub fn begin_anew(
    locked: &mut Locked,
    seat: &Seat,
    table: u64,
) -> Result<Dropped, ShardError<CheckpointError>>
    ensures { Looks (λ c r e. BeginsAnew c r e) table locked.old seat.now result locked.new seat.now }
{
    allow(locked, &seat.book, table)?;
    locked.cell.begin_anew().map_err(ShardError::Cell)
}

/// Calls `TableCell::slide`. Makes no event, doesn't allocate, and leaves the seat as it was.
pub fn slide(
    locked: &mut Locked,
    seat: &Seat,
    table: u64,
) -> Result<Dropped, ShardError<Infallible>>
    ensures { Looks SlidesAlways table locked.old seat.now result locked.new seat.now }
{
    allow(locked, &seat.book, table)?;
    Ok(locked.cell.slide())
}

/// Calls `TableCell::renumber`. Makes no event, needs no memory but the cell's, and leaves the seat as it was.
pub fn renumber(
    locked: &mut Locked,
    seat: &Seat,
    table: u64,
) -> Result<(), ShardError<RenumberError>>
    ensures { Looks (λ c r e. Renumbers c r e) table locked.old seat.now result locked.new seat.now }
{
    allow(locked, &seat.book, table)?;
    locked.cell.renumber().map_err(ShardError::Cell)
}

/// Calls `TableCell::open_session`, and adds a receipt.
pub fn open_session(
    locked: &mut Locked,
    seat: &mut Seat,
    table: u64,
    session: u32,
    version: Version,
) -> Result<(), ShardError<OpenError>>
    ensures { Holds (λ c r e. Opens c session version r e) (λ done. receipted table locked.old seat.old (events.Open session version) replies.Open)
        table locked.old seat.old result locked.new seat.new }
{
    let room = begin(locked, &mut seat.book, table)?;
    let opened = locked.cell.open_shared(session, version);
    let entry = opened.map_err(ShardError::Cell)?;
    finish(locked, &mut seat.book, room, table, entry);
    Ok(())
}

/// Calls `TableCell::close_session`, and adds a receipt.
pub fn close_session(
    locked: &mut Locked,
    seat: &mut Seat,
    table: u64,
    session: u32,
) -> Result<(), ShardError<CloseError>>
    ensures { Holds (λ c r e. Closes c session r e) (λ done. receipted table locked.old seat.old (events.Close session) replies.Close)
        table locked.old seat.old result locked.new seat.new }
{
    let room = begin(locked, &mut seat.book, table)?;
    let closed = locked.cell.close_shared(session);
    let entry = closed.map_err(ShardError::Cell)?;
    finish(locked, &mut seat.book, room, table, entry);
    Ok(())
}

/// Calls `TableCell::purge`, and adds a receipt.
pub fn purge(
    locked: &mut Locked,
    seat: &mut Seat,
    table: u64,
    now: Moment,
) -> Result<usize, ShardError<PurgeError>>
    ensures { Holds (λ c r e. Purges c now r e) (λ count. receipted table locked.old seat.old (events.Purge now) (replies.Purge count))
        table locked.old seat.old result locked.new seat.new }
{
    let room = begin(locked, &mut seat.book, table)?;
    let purged = locked.cell.purge_with_reply(now);
    let (count, entry) = purged.map_err(ShardError::Cell)?;
    finish(locked, &mut seat.book, room, table, entry);
    Ok(count)
}
