//! Calls on the tables that no session asks for.

ghost use Rattle.std.specs.Prelude.{◌≡◌};
ghost use Rattle.staying_node.specs.Renewals.{Renews, is_spent};

use crate::node::Node;
use node_core::{Event, Renewal, Renewing};
use std::sync::{MutexGuard, Wait};
use std::time::Clock;
use table_cell::{CloseError, TableCell};
use table_shards::held::lent;
use table_shards::{Locked, Seat, ShardError};
use table_types::{Moment, TableDef, Version};

/// A history with this many events slides, and a seat with this many receipts of a table drops them.
pub(crate) const MANY: u64 = 256;

/// The next number of a table from which on it gets new ones.
const RENEWAL: u64 = 1 << 31;

/// Returns the later of `now` and the table's latest moment.
pub(crate) fn not_before_latest(locked: &Locked, now: Moment) -> Moment {
    let latest = locked.cell().latest();
    if latest.milliseconds() < now.milliseconds() {
        now
    } else {
        latest
    }
}

/// Waits for the lock of a table and takes it.
pub(crate) fn lock<'a, R: Wait>(
    rt: &R,
    node: &'a Node,
    table: u64,
) -> Option<MutexGuard<'a, Locked>> {
    match node.shards.cell(table) {
        Some(cell) => Some(cell.lock(rt)),
        None => None,
    }
}

/// Returns the number of events in the table's history.
fn history(cell: &TableCell) -> u64 {
    cell.events().saturating_sub(cell.dropped())
}

/// Drops the history of a table if it is long, but for the latest batch of each session. Returns whether it was long.
pub(crate) fn slide(locked: &mut Locked, seat: &Seat, table: u64) -> bool {
    let long = history(locked.cell()) >= MANY;
    if long {
        let _dropped = lent::slide(locked, seat, table);
    }
    long
}

/// Drops the receipts of a seat if there are many.
pub(crate) fn forget(seat: &mut Seat, table: u64) {
    if seat.receipts(table).len() as u64 >= MANY {
        seat.forget(table);
    }
}

/// Drops all receipts of a seat. Nobody reads them, and each keeps its event in memory.
pub(crate) fn forget_all(node: &Node, seat: &mut Seat) {
    for table in node.roster.tables() {
        seat.forget(table.id());
    }
}

/// Returns whether a table is to get new numbers.
fn is_spent(locked: &Locked) -> bool
    ensures { result ≡ is_spent locked.now }
{
    locked.cell().next_number() >= RENEWAL
}

/// Gives a table new numbers if its next one is `RENEWAL` or more. Returns whether that has still to be done, since a session is open in
/// the table or memory ran out.
#[tactic(auto, using(crate::proofs::RenewalLaws::renews, crate::proofs::RenewalLaws::waits))]
fn renumber(locked: &mut Locked, seat: &Seat, table: u64) -> bool
    ensures { Renews locked.old result locked.new }
{
    if !is_spent(locked) {
        return false;
    }
    match lent::renumber(locked, seat, table) {
        Ok(()) => false,
        Err(_) => true,
    }
}

/// Purges a table if a row of it has ended.
fn purge(locked: &mut Locked, seat: &mut Seat, table: u64, now: Moment) {
    let now = not_before_latest(locked, now);
    let Some(end) = locked.cell().next_end() else {
        return;
    };
    if end.milliseconds() <= now.milliseconds() {
        let _purged = lent::purge(locked, seat, table, now);
    }
}

/// Gives a table new numbers once most are assigned. Returns whether that has still to be done: no session may be open in the table, so
/// those are closed whose peers have no connection, since they couldn't be closed when they ended.
fn renew<R: Wait + Clock>(
    rt: &R,
    node: &Node,
    locked: &mut Locked,
    seat: &mut Seat,
    table: &TableDef,
) -> bool {
    let id = table.id();
    if !is_spent(locked) {
        return false;
    }
    if renumber(locked, seat, id) {
        for (peer, slot) in node.slots.iter().enumerate() {
            if !slot.has_session(rt) {
                let _closed = close_in(locked, seat, id, number_of(peer));
            }
        }
        return true;
    }
    node.log_event(
        rt,
        Event::Renewed {
            table: table.name(),
        },
    );
    false
}

/// Drops what is no longer needed of each table's history, and the rows that have ended if `purges`. Gives a table new numbers once most
/// are assigned, for which all sessions end, but not for long. Returns whether it is to be called again soon: a history was long, or a
/// table is about to get new numbers.
pub(crate) fn keep<R: Wait + Clock>(
    rt: &R,
    node: &Node,
    seat: &mut Seat,
    renewal: &mut Renewal,
    purges: bool,
) -> bool {
    let now = node.clock.now(rt);
    let mut long = false;
    let mut waiting = None;
    for table in node.roster.tables() {
        let id = table.id();
        if let Some(mut locked) = lock(rt, node, id) {
            long = slide(&mut locked, seat, id) || long;
            if purges {
                purge(&mut locked, seat, id, now);
            }
            if renew(rt, node, &mut locked, seat, table) {
                waiting = Some(table);
            }
        }
    }
    forget_all(node, seat);
    let pauses = is_to_pause(rt, node, renewal, waiting);
    node.set_paused(rt, pauses);
    long || pauses
}

/// Returns whether no session may stand, given a table that waits for new numbers, if one does. That it was given up is said in the log once
/// for each time in which tables wait.
fn is_to_pause<R: Wait + Clock>(
    rt: &R,
    node: &Node,
    renewal: &mut Renewal,
    waiting: Option<&TableDef>,
) -> bool {
    let was_given_up = renewal.is_given_up();
    let outcome = renewal.look(waiting.is_some(), node.clock.milliseconds(rt));
    if let Some(table) = waiting {
        if renewal.is_given_up() && !was_given_up {
            let table = table.name();
            node.log_event(rt, Event::NotRenewed { table });
        }
    }
    outcome == Renewing::Pause
}

/// Closes a session in a table. If there is no room for that in memory or in the table's history, drops what is no longer needed and tries
/// again. Returns whether the session isn't open.
fn close_in(locked: &mut Locked, seat: &mut Seat, table: u64, session: u32) -> bool {
    match lent::close_session(locked, seat, table, session) {
        Ok(()) | Err(ShardError::Cell(CloseError::NoSession)) => true,
        Err(_) => {
            seat.forget(table);
            let _dropped = lent::slide(locked, seat, table);
            lent::close_session(locked, seat, table, session).is_ok()
        }
    }
}

/// Closes a session in each table. If memory runs out, the session stays open in that table until the peer's next session begins, or until
/// the thread that keeps the tables gives the table new numbers.
pub(crate) fn close<R: Wait>(rt: &R, node: &Node, seat: &mut Seat, session: u32) {
    for table in node.roster.tables() {
        let id = table.id();
        if let Some(mut locked) = lock(rt, node, id) {
            let _closed = close_in(&mut locked, seat, id, session);
        }
    }
}

/// Closes a session in each table and opens it anew, with version 2.1, since its hello hasn't said another version yet. Returns whether
/// it is open in each.
pub(crate) fn reopen<R: Wait>(rt: &R, node: &Node, seat: &mut Seat, session: u32) -> bool {
    close(rt, node, seat, session);
    for table in node.roster.tables() {
        let id = table.id();
        let Some(mut locked) = lock(rt, node, id) else {
            return false;
        };
        if lent::open_session(&mut locked, seat, id, session, Version::V21).is_err() {
            return false;
        }
    }
    true
}

/// Returns the number of the session with a peer in the tables, by the peer's index.
pub(crate) fn number_of(peer: usize) -> u32 {
    match u32::try_from(peer) {
        Ok(index) => index.saturating_add(1),
        Err(_) => u32::MAX,
    }
}
