//! The calls of `lent` that a session asks for. If a call makes no event, the seat keeps what was asked and the answer,
//! unless memory ran out, so that whoever holds the seat can tell that the table was asked.

ghost use Rattle.std.specs.Prelude.{◌≡◌, ◌≤◌};
ghost use Rattle.table_cell.specs.Histories.{Acknowledges, Closes, Copies, Learns, Opens, events_of};
ghost use Rattle.table_cell.specs.declared.events.CellEvent.TheVariants as events;
ghost use Rattle.table_cell.specs.declared.events.CellReply.TheVariants as replies;
ghost use Rattle.table_shards.specs.Holding.{Holds, Leaves, Looks, Settles, receipted};
ghost use Rattle.table_shards.specs.Noting.{Notes, if_settled, if_unclosed, if_uncopied, if_unlearned, if_unopened, if_untaken};

use crate::answers::{if_settled, if_unclosed, if_uncopied, if_unlearned, if_unopened, if_untaken};
use crate::errors::ShardError;
use crate::held::lent;
use crate::locked::Locked;
use crate::seat::Seat;
use table_cell::{AckError, CloseError, CopyError, LearnError, OpenError, StrangeBatch};
use table_types::{Batch, CopyKind, Moment, Settled, Update, Version};

/// Calls `lent::learn`, and adds the answer to the seat if the update isn't learned.
pub fn learn(
    locked: &mut Locked,
    seat: &mut Seat,
    table: u64,
    session: u32,
    update: Update,
    now: Moment,
) -> Result<(), ShardError<LearnError>>
    ensures { Notes (λ mid. Leaves (λ c r e. Learns c session update now r e) (events.Learn session update now) replies.Learn
        table locked.old seat.old result locked.new mid)
        table session (events_of locked.old) (if_unlearned update.number now result) seat.new }
{
    let events = locked.cell().events();
    let number = update.number;
    let learned = lent::learn(locked, seat, table, session, update, now);
    seat.note(table, session, events, if_unlearned(&learned, number, now));
    learned
}

/// Calls `lent::copy`, and adds the answer to the seat if no batch is copied.
pub fn copy(
    locked: &mut Locked,
    seat: &mut Seat,
    table: u64,
    session: u32,
    kind: CopyKind,
    limit: usize,
    now: Moment,
) -> Result<Batch, ShardError<CopyError>>
    requires { (1 ≤ limit) × (limit ≤ 4096) }
    ensures { Notes (λ mid. Holds (λ c r e. Copies c session kind limit now r e)
        (λ batch. receipted table locked.old seat.old (events.Copy session kind limit now) (replies.Copy batch))
        table locked.old seat.old result locked.new mid)
        table session (events_of locked.old) (if_uncopied kind limit now result) seat.new }
{
    let events = locked.cell().events();
    let copied = lent::copy(locked, seat, table, session, kind, limit, now);
    seat.note(
        table,
        session,
        events,
        if_uncopied(&copied, kind, limit, now),
    );
    copied
}

/// Calls `lent::ack`, and adds the answer to the seat if the acknowledgement isn't taken.
pub fn ack(
    locked: &mut Locked,
    seat: &mut Seat,
    table: u64,
    session: u32,
    number: u32,
) -> Result<Settled, ShardError<AckError>>
    ensures { Notes (λ mid. Holds (λ c r e. Acknowledges c session number r e)
        (λ settled. receipted table locked.old seat.old (events.Ack session number) (replies.Ack settled))
        table locked.old seat.old result locked.new mid)
        table session (events_of locked.old) (if_untaken number result) seat.new }
{
    let events = locked.cell().events();
    let settled = lent::ack(locked, seat, table, session, number);
    seat.note(table, session, events, if_untaken(&settled, number));
    settled
}

/// Calls `lent::settle`, and adds the answer to the seat. Makes no event, and doesn't allocate.
pub fn settle(
    locked: &mut Locked,
    seat: &mut Seat,
    table: u64,
    session: u32,
    batch: &Batch,
) -> Result<(), ShardError<StrangeBatch>>
    ensures { Notes (λ mid. Looks (λ c r e. Settles c session batch.now r e) table locked.old seat.old result locked.new mid)
        table session (events_of locked.old) (if_settled result) seat.new }
{
    let events = locked.cell().events();
    let settled = lent::settle(locked, seat, table, session, batch);
    seat.note(table, session, events, if_settled(&settled));
    settled
}

/// Calls `lent::open_session`, and adds the answer to the seat if the session isn't opened.
pub fn open_session(
    locked: &mut Locked,
    seat: &mut Seat,
    table: u64,
    session: u32,
    version: Version,
) -> Result<(), ShardError<OpenError>>
    ensures { Notes (λ mid. Holds (λ c r e. Opens c session version r e) (λ done. receipted table locked.old seat.old (events.Open session version) replies.Open)
        table locked.old seat.old result locked.new mid)
        table session (events_of locked.old) (if_unopened version result) seat.new }
{
    let events = locked.cell().events();
    let opened = lent::open_session(locked, seat, table, session, version);
    seat.note(table, session, events, if_unopened(&opened, version));
    opened
}

/// Calls `lent::close_session`, and adds the answer to the seat if the session isn't closed.
pub fn close_session(
    locked: &mut Locked,
    seat: &mut Seat,
    table: u64,
    session: u32,
) -> Result<(), ShardError<CloseError>>
    ensures { Notes (λ mid. Holds (λ c r e. Closes c session r e) (λ done. receipted table locked.old seat.old (events.Close session) replies.Close)
        table locked.old seat.old result locked.new mid)
        table session (events_of locked.old) (if_unclosed result) seat.new }
{
    let events = locked.cell().events();
    let closed = lent::close_session(locked, seat, table, session);
    seat.note(table, session, events, if_unclosed(&closed));
    closed
}
