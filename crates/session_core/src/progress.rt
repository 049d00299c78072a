//! How far the remote peer has acknowledged what it was taught.

ghost use Rattle.std.specs.Prelude.{◌≡◌, IfOk};
ghost use Rattle.session_core.specs.Paces.{progress_of, last_number, copied_in, acknowledged_in, received_in, noted_one, noted, left_in, has_left, is_ahead, is_number, inferred, is_overdue, tables_to_leave, stores_names, may_lose_names, awaits_names};
ghost use Rattle.std.specs.List.{list_any};

use crate::action::Action;
use crate::share::Share;
use crate::times;
use crate::times::has_passed;
use std::alloc::Global;
use table_types::{Batch, Memory, TableDef};

/// What was taught of a table on this connection, and what the remote peer acknowledged of it.
#[derive(Clone, Copy, Debug)]
pub struct Progress {
    /// The table's id.
    pub table: u64,
    /// Whether the table stores the server's name.
    pub names: bool,
    /// The number of the latest batch: that of its last update, or 0.
    pub last: u32,
    /// The moment at which that batch was copied.
    pub since: u64,
    /// The greatest number of a batch.
    pub greatest: u32,
    /// The number, of those up to the greatest, that the remote peer acknowledged last while a batch of the table was out.
    pub acknowledged: Option<u32>,
    /// Whether the remote peer acknowledged a number above the greatest.
    pub ahead: bool,
    /// The number of the last update to learn, if there was one.
    pub received: Option<u32>,
    /// Whether the session left the table.
    pub left: bool,
}

/// Returns the progress in tables of which nothing is taught yet.
pub(crate) fn progress_of(
    alloc: Global,
    tables: &[TableDef],
    now: u64,
) -> Result<Vec<Progress>, Memory>
    ensures { IfOk result (λ progress. progress.items ≡ progress_of now tables.now) }
{
    let mut progress = Vec::with_capacity(alloc, tables.len())?;
    for table in tables {
        progress.push(Progress {
            table: table.id(),
            names: table.stores_name(),
            last: 0,
            since: now,
            greatest: 0,
            acknowledged: None,
            ahead: false,
            received: None,
            left: false,
        })?;
    }
    Ok(progress)
}

/// Returns the number of a batch, that of its last update.
pub(crate) fn last_number(batch: &Batch) -> u32
    ensures { result ≡ last_number batch.now }
{
    match batch.updates().last() {
        Some(update) => update.number,
        None => 0,
    }
}

/// Notes that a batch with this number was copied from `table`.
pub(crate) fn note_copy(progress: &mut [Progress], table: u64, number: u32, now: u64)
    ensures { progress.new ≡ copied_in table number now progress.old }
{
    for entry in progress.iter_mut() {
        if entry.table == table {
            entry.last = number;
            entry.since = now;
            if entry.greatest < number {
                entry.greatest = number;
            }
        }
    }
}

/// Notes that the remote peer acknowledged `number` of `table`.
fn note_ack(progress: &mut [Progress], table: u64, number: u32)
    ensures { progress.new ≡ acknowledged_in table number progress.old }
{
    for entry in progress.iter_mut() {
        if entry.table == table {
            if number <= entry.greatest {
                entry.acknowledged = Some(number);
            } else {
                entry.ahead = true;
            }
        }
    }
}

/// Notes that a row of `table` with this number is to be learned.
fn note_row(progress: &mut [Progress], table: u64, number: u32)
    ensures { progress.new ≡ received_in table number progress.old }
{
    for entry in progress.iter_mut() {
        if entry.table == table {
            entry.received = Some(number);
        }
    }
}

/// Notes an action: an acknowledgement to pass on, or a row to learn.
fn note_one(progress: &mut [Progress], action: &Action)
    ensures { progress.new ≡ noted_one action.now progress.old }
{
    match action {
        Action::Ack { table, number } => note_ack(progress, *table, *number),
        Action::Learn(update) => note_row(progress, update.table, update.number),
        Action::Send(_)
        | Action::Reopen(_)
        | Action::Copy { table: _, kind: _ }
        | Action::Teach(_)
        | Action::Part(_)
        | Action::Close => {}
    }
}

/// Notes the acknowledgements that the actions pass on, and the rows to learn.
pub(crate) fn note_actions(progress: &mut Vec<Progress>, actions: &[Action])
    ensures { progress.new.items ≡ noted actions.now progress.old.items }
{
    for action in actions {
        note_one(progress.as_mut_slice(), action);
    }
}

/// Notes that these tables are left.
pub(crate) fn note_left(progress: &mut [Progress], left: &[u64])
    ensures { progress.new ≡ left_in left.now progress.old }
{
    for entry in progress.iter_mut() {
        if left.contains(&entry.table) {
            entry.left = true;
        }
    }
}

/// Returns whether a table was left.
pub(crate) fn has_left(progress: &[Progress]) -> bool
    ensures { result ≡ has_left progress.now }
{
    for entry in progress {
        if entry.left {
            return true;
        }
    }
    false
}

/// Returns whether the remote peer acknowledged a number of `table` above every one that it was taught.
pub(crate) fn is_ahead(progress: &[Progress], table: u64) -> bool
    ensures { result ≡ is_ahead table progress.now }
{
    for entry in progress {
        if entry.table == table && entry.ahead {
            return true;
        }
    }
    false
}

/// Returns whether the remote peer acknowledged a number of some table above every one that it was taught.
pub(crate) fn any_ahead(progress: &[Progress]) -> bool
    ensures { result ≡ list_any (λ p. p.ahead) progress.now }
{
    for entry in progress {
        if entry.ahead {
            return true;
        }
    }
    false
}

/// Returns whether the remote peer acknowledged the number of the latest batch last.
fn is_repeated(entry: &Progress) -> bool
    ensures { result ≡ is_number entry.now.acknowledged entry.now.last }
{
    match entry.acknowledged {
        Some(number) => number == entry.last,
        None => false,
    }
}

/// Returns the table asked last and the number of its latest batch, if the remote peer acknowledged that number last. It
/// doesn't acknowledge a number twice in a row.
pub(crate) fn inferred(progress: &[Progress], asked: Option<u64>) -> Option<(u64, u32)>
    ensures { result ≡ inferred asked progress.now }
{
    let table = asked?;
    for entry in progress {
        if entry.table == table && is_repeated(entry) {
            return Some((table, entry.last));
        }
    }
    None
}

/// Returns whether the table is overdue: a batch of it was copied long ago and is still outstanding, and the remote peer has
/// never acknowledged the table.
fn is_overdue(progress: &[Progress], share: &Share, now: u64) -> bool
    ensures { result ≡ is_overdue now progress.now share.now }
{
    if !share.out {
        return false;
    }
    for entry in progress {
        if entry.table == share.table
            && entry.acknowledged.is_none()
            && has_passed(times::LEAVING, entry.since, now)
        {
            return true;
        }
    }
    false
}

/// Returns whether the table stores the server's name.
fn stores_names(progress: &[Progress], table: u64) -> bool
    ensures { result ≡ stores_names table progress.now }
{
    for entry in progress {
        if entry.table == table && entry.names {
            return true;
        }
    }
    false
}

/// Returns whether a batch of the table is outstanding and may write names that are lost, since the remote peer has never
/// acknowledged the table.
fn may_lose_names(progress: &[Progress], share: &Share) -> bool
    ensures { result ≡ may_lose_names progress.now share.now }
{
    if !share.out {
        return false;
    }
    for entry in progress {
        if entry.table == share.table && entry.names && entry.acknowledged.is_none() {
            return true;
        }
    }
    false
}

/// Returns whether names may be lost that an outstanding batch writes.
fn any_may_lose_names(progress: &[Progress], shares: &[Share]) -> bool
    ensures { result ≡ list_any (may_lose_names progress.now) shares.now }
{
    for share in shares {
        if may_lose_names(progress, share) {
            return true;
        }
    }
    false
}

/// Returns whether the table to ask, if there is one, awaits the acknowledgement of names that it may read.
pub(crate) fn awaits_names(progress: &[Progress], asked: Option<u64>, shares: &[Share]) -> bool
    ensures { result ≡ awaits_names asked progress.now shares.now }
{
    match asked {
        Some(table) => { stores_names(progress, table) && any_may_lose_names(progress, shares) }
        None => false,
    }
}

/// Returns the ids of the tables that are overdue.
pub(crate) fn tables_to_leave(
    alloc: Global,
    progress: &[Progress],
    shares: &[Share],
    now: u64,
) -> Result<Vec<u64>, Memory>
    ensures { IfOk result (λ tables. tables.items ≡ tables_to_leave now progress.now shares.now) }
{
    let mut tables = Vec::new(alloc);
    for share in shares {
        if is_overdue(progress, share, now) {
            tables.push(share.table)?;
        }
    }
    Ok(tables)
}
