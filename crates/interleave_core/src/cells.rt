//! The tables of a world.

ghost use Rattle.std.specs.Prelude.{◌≡◌, ◌≢◌, ◌≤◌, Err, IfNone, IfOk, IfSome, None, Ok, OnOk, map, nat_le};
ghost use Rattle.std.specs.List.{AllByRecursion, list_all, list_any};
ghost use Rattle.table_cell.specs.declared.errors.CopyError.{CopyError};
ghost use Rattle.table_cell.specs.declared.errors.CopyError.TheVariants as uncopied;
ghost use Rattle.table_cell.specs.declared.errors.LearnError.TheVariants as unlearned;
ghost use Rattle.table_cell.specs.declared.errors.PurgeError.TheVariants as unpurged;
ghost use Rattle.table_cell.specs.declared.errors.TrackError.TheVariants as untracked;
ghost use Rattle.table_cell.specs.Histories.{Copies, IsSoundCell, Learns, Purges, Tracks, room_of};
ghost use Rattle.table_cell.specs.Machine.{has_out, progress_of};
ghost use Rattle.interleave_core.specs.Moves.{Calls, InTable};
ghost use Rattle.interleave_core.specs.Parts.{IsCellAt};
ghost use Rattle.interleave_core.specs.Opened.{CanClose, CanOpen, CanReopen};
ghost use Rattle.interleave_core.specs.Worlds.{cell_at, roster_of, with_session, with_session_anew, without_session};

use std::alloc::Global;
use table_cell::{CloseError, CopyError, LearnError, OpenError, PurgeError, TableCell, TrackError};
use table_types::{Batch, Change, CopyKind, Key, Memory, Moment, Roster, Update, Version};

/// Returns the index of `table`.
pub(crate) fn index_of(cells: &[TableCell], table: u64) -> Option<usize>
    ensures found { IfSome result (IsCellAt table cells.now) }
    ensures none { IfNone result (cell_at table cells.now ≡ None) }
{
    for index in 0..cells.len() {
        if cells[index].definition().id() == table {
            return Some(index);
        }
    }
    None
}

/// Returns the roster of the tables, which have distinct ids and names.
pub(crate) fn roster_of(alloc: Global, cells: &[TableCell]) -> Result<Roster, Memory>
    ensures { IfOk result (λ roster. roster ≡ roster_of cells.now) }
{
    let mut tables = Vec::with_capacity(alloc, cells.len())?;
    for cell in cells {
        tables.push(cell.definition().copy(alloc)?)?;
    }
    match Roster::new(tables) {
        Ok(roster) => Ok(roster),
        Err(_) => Err(Memory),
    }
}

/// Changes a row of `table`, if there is such a table.
pub(crate) fn track(
    alloc: Global,
    cells: &mut Vec<TableCell>,
    table: u64,
    key: &Key,
    change: &Change,
    now: Moment,
) -> Result<(), Memory>
    ensures { OnOk result (InTable (Calls (λ c r x. Tracks c 0 key.now change.now now r x) untracked.Memory) table (cell_at table cells.old.items) cells.old.items cells.new.items) }
{
    let Some(index) = index_of(cells.as_slice(), table) else {
        return Ok(());
    };
    let key = key.copy(alloc)?;
    let change = change.copy(alloc)?;
    match cells[index].track(0, key, change, now) {
        Err(TrackError::Memory) => Err(Memory),
        _ => Ok(()),
    }
}

/// Lets the table of `update`, if there is one, learn it in `session`.
pub(crate) fn learn(
    alloc: Global,
    cells: &mut Vec<TableCell>,
    session: u32,
    update: &Update,
    now: Moment,
) -> Result<(), Memory>
    ensures { OnOk result (InTable (Calls (λ c r x. Learns c session update.now now r x) unlearned.Memory) update.now.table (cell_at update.now.table cells.old.items) cells.old.items cells.new.items) }
{
    let Some(index) = index_of(cells.as_slice(), update.table) else {
        return Ok(());
    };
    let update = update.copy(alloc)?;
    match cells[index].learn(session, update, now) {
        Err(LearnError::Memory) => Err(Memory),
        _ => Ok(()),
    }
}

/// Removes the rows of `table` that aren't live, if there is such a table.
pub(crate) fn purge(cells: &mut Vec<TableCell>, table: u64, now: Moment) -> Result<(), Memory>
    ensures { OnOk result (InTable (Calls (λ c r x. Purges c now r x) unpurged.Memory) table (cell_at table cells.old.items) cells.old.items cells.new.items) }
{
    let Some(index) = index_of(cells.as_slice(), table) else {
        return Ok(());
    };
    match cells[index].purge(now) {
        Err(PurgeError::Memory) => Err(Memory),
        _ => Ok(()),
    }
}

/// Copies a batch of the table for `session`, unless the table refuses that.
pub(crate) fn copy(
    cell: &mut TableCell,
    session: u32,
    kind: CopyKind,
    limit: usize,
    now: Moment,
) -> Result<Option<Batch>, Memory>
    requires { (1 ≤ limit) × (limit ≤ 4096) }
    ensures copied { IfOk result (λ found. IfSome found (λ batch. Copies cell.old session kind limit now (Ok batch) cell.new)) }
    ensures refused { IfOk result (λ found. IfNone found ((error : CopyError) × (error ≢ uncopied.Memory) × Copies cell.old session kind limit now (Err error) cell.new)) }
{
    match cell.copy(session, kind, limit, now) {
        Ok(batch) => Ok(Some(batch)),
        Err(CopyError::Memory) => Err(Memory),
        Err(_) => Ok(None),
    }
}

/// Returns whether a batch of `session` is out in some table.
pub(crate) fn is_any_out(cells: &[TableCell], session: u32) -> bool
    ensures { result ≡ list_any (λ c. has_out (progress_of session c.state)) cells.now }
{
    for cell in cells {
        if cell.is_out(session) {
            return true;
        }
    }
    false
}

/// Returns whether each table has room for `events` more events.
pub(crate) fn has_room_for(cells: &[TableCell], events: u64) -> bool
    ensures { result ≡ list_all (λ c. nat_le events (room_of c)) cells.now }
{
    for cell in cells {
        if cell.room() < events {
            return false;
        }
    }
    true
}

/// Asks each table for the number of its events: the clause of that call says that the table is sound. Changes nothing.
pub(crate) fn are_sound(cells: &[TableCell])
    ensures { AllByRecursion IsSoundCell cells.now }
{
    for cell in cells {
        let _events = cell.events();
    }
}

/// Opens `session` with this version in a table, unless the table refuses it.
fn open(cell: &mut TableCell, session: u32, version: Version) -> Result<(), Memory>
    ensures { OnOk result (CanOpen session cell.old → cell.new ≡ with_session session version cell.old) }
{
    match cell.open_session(session, version) {
        Err(OpenError::Memory) => Err(Memory),
        _ => Ok(()),
    }
}

/// Closes `session` in a table, unless the table refuses it.
fn close(cell: &mut TableCell, session: u32) -> Result<(), Memory>
    ensures { OnOk result (CanClose session cell.old → cell.new ≡ without_session session cell.old) }
{
    match cell.close_session(session) {
        Err(CloseError::Memory) => Err(Memory),
        _ => Ok(()),
    }
}

/// Closes `session` in a table and opens it again, unless the table refuses it.
fn reopen(cell: &mut TableCell, session: u32, version: Version) -> Result<(), Memory>
    ensures { OnOk result (CanReopen session cell.old → cell.new ≡ with_session_anew session version cell.old) }
{
    close(cell, session)?;
    open(cell, session, version)
}

/// Opens `session` with this version in each table that doesn't refuse it.
pub(crate) fn open_in_each(
    cells: &mut [TableCell],
    session: u32,
    version: Version,
) -> Result<(), Memory>
    ensures { OnOk result (AllByRecursion (CanOpen session) cells.old → cells.new ≡ map (with_session session version) cells.old) }
{
    for cell in cells.iter_mut() {
        open(cell, session, version)?;
    }
    Ok(())
}

/// Closes `session` and opens it again, in each table that doesn't refuse it.
pub(crate) fn reopen_in_each(
    cells: &mut [TableCell],
    session: u32,
    version: Version,
) -> Result<(), Memory>
    ensures { OnOk result (AllByRecursion (CanReopen session) cells.old → cells.new ≡ map (with_session_anew session version) cells.old) }
{
    for cell in cells.iter_mut() {
        reopen(cell, session, version)?;
    }
    Ok(())
}
