//! The calls on tables that a session asks for. Each takes the table's lock for that call only. The seat keeps each
//! answer that makes no event, unless memory ran out.

ghost use Rattle.std.specs.Prelude.{◌≡◌, ◌⊎◌, ℕ, IfErr, IfOk, OnOk, Ok};
ghost use Rattle.peers_engine.specs.Calls.{CallsClose, CallsOpen, IsBarred, IsCopied, IsCopiedOn, IsLearned, IsLearnedOn, IsMissing, IsReopened, IsSettled, IsSoundTable, IsTaken, IsUncopied, IsUnlearned, IsUnopened, IsUnsettled, IsUntaken, RefusesClose, RefusesCopyOn, RefusesLearnOn, RefusesOpen, ack_end, close_end, copy_end, learn_end, moment_at, open_end, opened_with, settle_end};
ghost use Rattle.peers_engine.specs.Doing.{IsRefusal};

use crate::context::Context;
use crate::errors::EngineError;
use session_core::Event;
use std::sync::{MutexGuard, Wait};
use table_cell::{AckError, CloseError, CopyError, LearnError, OpenError, StrangeBatch};
use table_shards::held::noted;
use table_shards::{Locked, Seat, ShardError};
use table_types::{Batch, CopyKind, Moment, Settled, Update, Version};

/// The most updates that a turn copies at once. A batch may have more, but nothing is read until its lesson is written.
const MOST_COPIED: usize = 512;

/// Waits for the lock of `table` and takes it. Nothing else in this crate takes a lock, and no caller passes this one
/// on, so each is held for one call on a table.
fn lock<'a, H: Wait, G>(
    context: &Context<'a, H, G>,
    table: u64,
) -> Result<MutexGuard<'a, Locked>, EngineError>
    ensures refused { IfErr result (IsRefusal ⊥ (IsMissing context.now.shards.now table)) }
{
    match context.shards.cell(table) {
        Some(cell) => Ok(cell.lock(context.rt)),
        None => Err(EngineError::Strange),
    }
}

/// Does nothing. Each table under a lock is sound, and its history keeps its batches.
fn note_sound(locked: &Locked)
    ensures { IsSoundTable locked.now }
{
    let _events = locked.cell().events();
}

/// Returns what a turn does after the answer to a learn: it goes on if the row is learned, or if the table is full and skips it.
fn learn_end(learned: Result<(), ShardError<LearnError>>) -> Result<(), EngineError>
    ensures { result ≡ learn_end learned }
{
    match learned {
        Ok(()) | Err(ShardError::Cell(LearnError::TableFull)) => Ok(()),
        Err(ShardError::Memory | ShardError::Cell(LearnError::Memory)) => Err(EngineError::Memory),
        Err(_) => Err(EngineError::Strange),
    }
}

/// Returns what a turn does after the answer to a copy: it passes on the batch, or that there is nothing to copy.
fn copy_end(table: u64, copied: Result<Batch, ShardError<CopyError>>) -> Result<Event, EngineError>
    ensures { result ≡ copy_end table copied }
{
    match copied {
        Ok(batch) => Ok(Event::Copied(table, batch)),
        Err(ShardError::Cell(CopyError::Nothing)) => Ok(Event::Nothing(table)),
        Err(ShardError::Memory | ShardError::Cell(CopyError::Memory)) => Err(EngineError::Memory),
        Err(_) => Err(EngineError::Strange),
    }
}

/// Returns what a turn does after the answer to an acknowledgement: it passes on what was settled, or that the number wasn't taught.
fn ack_end(table: u64, settled: Result<Settled, ShardError<AckError>>) -> Result<Event, EngineError>
    ensures { result ≡ ack_end table settled }
{
    match settled {
        Ok(settled) => Ok(Event::Settled(table, settled)),
        Err(ShardError::Cell(AckError::AckAhead)) => Ok(Event::Refused(table)),
        Err(ShardError::Memory | ShardError::Cell(AckError::Memory)) => Err(EngineError::Memory),
        Err(_) => Err(EngineError::Strange),
    }
}

/// Returns what a turn does after the table said whether a batch is its latest one.
fn settle_end(settled: Result<(), ShardError<StrangeBatch>>) -> Result<(), EngineError>
    ensures { result ≡ settle_end settled }
{
    match settled {
        Ok(()) => Ok(()),
        Err(_) => Err(EngineError::Strange),
    }
}

/// Returns what a turn does after a table closed the session, or refused to.
fn close_end(closed: Result<(), ShardError<CloseError>>) -> Result<(), EngineError>
    ensures { result ≡ close_end closed }
{
    match closed {
        Ok(()) => Ok(()),
        Err(ShardError::Memory | ShardError::Cell(CloseError::Memory)) => Err(EngineError::Memory),
        Err(_) => Err(EngineError::Strange),
    }
}

/// Returns what a turn does after a table opened the session, or refused to.
fn open_end(opened: Result<(), ShardError<OpenError>>) -> Result<(), EngineError>
    ensures { result ≡ open_end opened }
{
    match opened {
        Ok(()) => Ok(()),
        Err(ShardError::Memory | ShardError::Cell(OpenError::Memory)) => Err(EngineError::Memory),
        Err(_) => Err(EngineError::Strange),
    }
}

/// Returns the moment of a call on a table: the turn's; or, for a session that `stays`, the table's latest one if that is later, so that
/// the table doesn't refuse the call for its moment.
fn moment_at<H, G>(context: &Context<H, G>, locked: &Locked, stays: bool) -> Moment
    ensures { result ≡ moment_at stays context.now.moment locked.now }
{
    let latest = locked.cell().latest();
    if stays && context.moment.milliseconds() <= latest.milliseconds() {
        latest
    } else {
        context.moment
    }
}

/// Learns an update at `now`. A full table skips it.
fn learn_at(
    locked: &mut Locked,
    number: u32,
    seat: &mut Seat,
    update: Update,
    now: Moment,
) -> Result<(), EngineError>
    ensures seat { seat.new.number ≡ seat.old.number }
    ensures learned { OnOk result (IsLearnedOn locked.old number now seat.old update seat.new) }
    ensures refused { IfErr result (IsRefusal (seat.new ≡ seat.old) (RefusesLearnOn locked.old number now seat.old update seat.new)) }
{
    note_sound(locked);
    let table = update.table;
    learn_end(noted::learn(locked, seat, table, number, update, now))
}

/// Learns an update; a full table skips it. `stays` says which moment the call has (`moment_at`).
pub(crate) fn learn<H: Wait, G>(
    context: &Context<H, G>,
    seat: &mut Seat,
    update: Update,
    stays: bool,
) -> Result<(), EngineError>
    ensures seat { seat.new.number ≡ seat.old.number }
    ensures learned { OnOk result (IsLearned stays context.now.number context.now.moment seat.old update seat.new) }
    ensures refused { IfErr result (IsRefusal (seat.new ≡ seat.old) (IsUnlearned context.now.shards.now (moment_at stays context.now.moment) context.now.number seat.old update seat.new)) }
{
    let mut guard = lock(context, update.table)?;
    let locked: &mut Locked = &mut guard;
    let now = moment_at(context, locked, stays);
    learn_at(locked, context.number, seat, update, now)
}

/// Passes on an acknowledgement.
pub fn acknowledge<H: Wait, G>(
    context: &Context<H, G>,
    seat: &mut Seat,
    table: u64,
    number: u32,
) -> Result<Event, EngineError>
    ensures seat { seat.new.number ≡ seat.old.number }
    ensures answer { IfOk result (IsTaken context.now.number seat.old table number seat.new) }
    ensures refused { IfErr result (IsRefusal (seat.new ≡ seat.old) (IsUntaken context.now.shards.now context.now.number seat.old table number seat.new)) }
{
    let mut guard = lock(context, table)?;
    let locked: &mut Locked = &mut guard;
    note_sound(locked);
    ack_end(
        table,
        noted::ack(locked, seat, table, context.number, number),
    )
}

/// Copies a batch at `now`.
fn copy_at(
    locked: &mut Locked,
    number: u32,
    seat: &mut Seat,
    table: u64,
    kind: CopyKind,
    now: Moment,
) -> Result<Event, EngineError>
    ensures seat { seat.new.number ≡ seat.old.number }
    ensures answer { IfOk result (IsCopiedOn locked.old number now seat.old table kind seat.new) }
    ensures refused { IfErr result (IsRefusal (seat.new ≡ seat.old) (RefusesCopyOn locked.old number now seat.old table kind seat.new)) }
{
    note_sound(locked);
    copy_end(
        table,
        noted::copy(locked, seat, table, number, kind, MOST_COPIED, now),
    )
}

/// Copies a batch. `stays` says which moment the call has (`moment_at`).
pub(crate) fn copy<H: Wait, G>(
    context: &Context<H, G>,
    seat: &mut Seat,
    table: u64,
    kind: CopyKind,
    stays: bool,
) -> Result<Event, EngineError>
    ensures seat { seat.new.number ≡ seat.old.number }
    ensures answer { IfOk result (IsCopied stays context.now.number context.now.moment seat.old table kind seat.new) }
    ensures refused { IfErr result (IsRefusal (seat.new ≡ seat.old) (IsUncopied context.now.shards.now (moment_at stays context.now.moment) context.now.number seat.old table kind seat.new)) }
{
    let mut guard = lock(context, table)?;
    let locked: &mut Locked = &mut guard;
    let now = moment_at(context, locked, stays);
    copy_at(locked, context.number, seat, table, kind, now)
}

/// Tests that `batch`, which is of one table, is the session's latest one.
pub fn settle<H: Wait, G>(
    context: &Context<H, G>,
    seat: &mut Seat,
    batch: &Batch,
) -> Result<(), EngineError>
    ensures seat { seat.new.number ≡ seat.old.number }
    ensures settled { OnOk result (IsSettled context.now.number seat.old batch.now seat.new) }
    ensures refused { IfErr result (IsRefusal (seat.new ≡ seat.old) (IsUnsettled context.now.shards.now context.now.number seat.old batch.now seat.new)) }
{
    let Some(first) = batch.updates().first() else {
        return Err(EngineError::Strange);
    };
    let table = first.table;
    let mut guard = lock(context, table)?;
    let locked: &mut Locked = &mut guard;
    note_sound(locked);
    settle_end(noted::settle(locked, seat, table, context.number, batch))
}

/// Closes the session in a table.
fn close<H: Wait, G>(
    context: &Context<H, G>,
    seat: &mut Seat,
    table: u64,
) -> Result<(), EngineError>
    ensures seat { seat.new.number ≡ seat.old.number }
    ensures closed { OnOk result (CallsClose context.now.number seat.old table (Ok tt) seat.new) }
    ensures refused { IfErr result (IsRefusal (seat.new ≡ seat.old) (IsBarred context.now.shards.now table seat.old seat.new (RefusesClose context.now.number seat.old table seat.new))) }
{
    let mut guard = lock(context, table)?;
    let locked: &mut Locked = &mut guard;
    note_sound(locked);
    close_end(noted::close_session(locked, seat, table, context.number))
}

/// Returns the version with which a session is opened in its tables: the one that it speaks, or 2.1 until its hello is done.
pub(crate) fn opened_with(spoken: Option<Version>) -> Version
    ensures { result ≡ opened_with spoken }
{
    spoken.unwrap_or(Version::V21)
}

/// Opens the session in a table, with this version.
fn open<H: Wait, G>(
    context: &Context<H, G>,
    seat: &mut Seat,
    table: u64,
    version: Version,
) -> Result<(), EngineError>
    ensures seat { seat.new.number ≡ seat.old.number }
    ensures opened { OnOk result (CallsOpen context.now.number version seat.old table (Ok tt) seat.new) }
    ensures refused { IfErr result (IsRefusal (seat.new ≡ seat.old) (IsBarred context.now.shards.now table seat.old seat.new (RefusesOpen context.now.number version seat.old table seat.new))) }
{
    let mut guard = lock(context, table)?;
    let locked: &mut Locked = &mut guard;
    note_sound(locked);
    open_end(noted::open_session(locked, seat, table, context.number, version))
}

/// Closes the session in a table and opens it anew, with this version.
pub(crate) fn reopen<H: Wait, G>(
    context: &Context<H, G>,
    seat: &mut Seat,
    table: u64,
    version: Version,
) -> Result<(), EngineError>
    ensures seat { seat.new.number ≡ seat.old.number }
    ensures reopened { OnOk result (IsReopened context.now.number version seat.old table seat.new) }
    ensures refused { IfErr result (IsRefusal ((seat.new ≡ seat.old) ⊎ CallsClose context.now.number seat.old table (Ok tt) seat.new) (IsUnopened context.now.shards.now context.now.number version seat.old table seat.new)) }
{
    close(context, seat, table)?;
    open(context, seat, table, version)
}
