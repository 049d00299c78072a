//! Copying rows for a session.

ghost use Rattle.std.specs.Prelude.{◌≡◌, ◌<◌, ◌≤◌, ◌&&◌, ◌^◌, IfOk, OnErr, filter, length, map, option_map, slice_get, take, true};
ghost use Rattle.std.specs.List.{list_all};
ghost use Rattle.table_types.specs.declared.data_type.Shape.{Shape};
ghost use Rattle.table_types.specs.Changes.{cell_types};
ghost use Rattle.table_types.specs.Tables.{has_its_period, is_definition};
ghost use Rattle.table_types.specs.Updates.{value_fits};
ghost use Rattle.table_rows.specs.Rows.{is_live};
ghost use Rattle.table_cell.specs.Machine.{in_reach, is_copied, is_unacked, last_number};
ghost use Rattle.table_cell.specs.Parts.{is_in_reach};
ghost use Rattle.table_cell.specs.Soundness.{CellsFit, EntryFits, IsSound};
ghost use Rattle.table_cell.specs.Copying.{life_left, life_of, update_of, value_of, values_of};

use crate::progress::Progress;
use crate::table::Table;
use std::alloc::Global;
use table_rows::is_live;
use table_types::{
    Cell, CopyKind, DataType, Key, Memory, Moment, Row, Shape, ShortList, TableDef, Update, Value,
    Version, rotate,
};

/// Returns whether a copy of `kind` at `now`, for a session with this `bound`, includes the row.
pub(crate) fn is_chosen(kind: CopyKind, bound: u32, row: &Row, now: Moment) -> bool
    ensures { result ≡ (is_in_reach kind bound row.now && (is_copied kind row.now && is_live now row.now)) }
{
    let is_copied = match kind {
        CopyKind::Push => !row.is_learned(),
        CopyKind::Resync => true,
        CopyKind::Standing => row.number() <= bound,
    };
    is_copied && is_live(row, now)
}

/// Returns the value of a cell in an update at `now`. The age of a rate's period must fit the value.
fn value_of(cell: Cell, now: Moment) -> Value
    requires { (shape : Shape) × (value_fits shape (value_of now cell) ≡ true) }
    ensures { result ≡ value_of now cell }
{
    match cell {
        Cell::Count(count) => Value::Count(count),
        Cell::Rate {
            start,
            current,
            previous,
        } => Value::Rate {
            elapsed: now.milliseconds().saturating_sub(start) as u32,
            current,
            previous,
        },
    }
}

fn values_of(
    alloc: Global,
    types: &[(DataType, Option<u32>)],
    cells: &[Cell],
    now: Moment,
) -> Result<ShortList<Value>, Memory>
    requires cells { CellsFit now (cell_types types.now) cells.now }
    requires periods { list_all has_its_period types.now ≡ true }
    ensures { IfOk result (λ values. values ≡ values_of now types.now cells.now) }
{
    let mut rest = cells;
    let mut values = ShortList::with_capacity(alloc, cells.len())?;
    for entry in types {
        if entry.0.shape() == Shape::Name {
            continue;
        }
        let Some((cell, others)) = rest.split_first() else {
            return Ok(values);
        };
        let turned = match entry.1 {
            Some(period) => rotate(*cell, period, now),
            None => *cell,
        };
        values = values.with(alloc, value_of(turned, now))?;
        rest = others;
    }
    Ok(values)
}

/// Returns the life of an update at `now` for a session of this version: in 2.0 it has none, and in 2.1 the remaining life in
/// milliseconds, and 0 if the row never expires.
fn life_of(version: Version, row: &Row, now: Moment) -> Option<u32>
    requires short { life_left now row.now.ends < 2 ^ 32 }
    ensures { result ≡ life_of version now row.now.ends }
{
    match version {
        Version::V20 => None,
        Version::V21 => Some(match row.ends() {
            Some(end) => end.milliseconds().saturating_sub(now.milliseconds()) as u32,
            None => 0,
        }),
    }
}

/// Returns the row as an update at `now` for a session of this version.
fn update_of(
    alloc: Global,
    version: Version,
    definition: &TableDef,
    key: &Key,
    row: &Row,
    now: Moment,
) -> Result<Update, Memory>
    requires defined { is_definition definition.now ≡ true }
    requires fits { EntryFits definition.now now (key.now, row.now) }
    ensures { IfOk result (λ update. update ≡ update_of version definition.now now (key.now, row.now)) }
{
    let values = values_of(alloc, definition.types(), row.cells(), now)?;
    let name = match row.name() {
        Some(name) => Some(name.copy(alloc)?),
        None => None,
    };
    Ok(Update {
        table: definition.id(),
        number: row.number(),
        life: life_of(version, row, now),
        key: key.copy(alloc)?,
        values,
        name,
    })
}

impl Table {
    /// Returns the first row above `number`, in ascending order of number, that a copy of `kind` at `now`, for a session
    /// with this `bound`, includes. Doesn't allocate.
    pub(crate) fn first_unacked(
        &self,
        number: u32,
        bound: u32,
        kind: CopyKind,
        now: Moment,
    ) -> Option<(&Key, &Row)>
        ensures { option_map (λ e. (e.0.now, e.1.now)) result ≡ slice_get (filter (is_unacked kind number now) (in_reach kind bound self.now.rows)) 0 }
    {
        for (key, row) in self.stock.above(self.copy_start(kind, number, now)) {
            if is_chosen(kind, bound, row, now) {
                return Some((key, row));
            }
        }
        None
    }

    /// Returns the updates of the rows that a copy of `kind`, for a session with this progress, includes, in ascending order of
    /// number, at most `limit` of them. Walks these rows once. Memory can run out only if there is one.
    pub(crate) fn unacked(
        &self,
        progress: Progress,
        kind: CopyKind,
        limit: usize,
        now: Moment,
    ) -> Result<Vec<Update>, Memory>
        requires sound { IsSound self.now }
        requires later { self.now.latest ≤ now }
        requires some { 1 ≤ limit }
        ensures updates { IfOk result (λ updates. updates.items ≡ take limit (map (update_of progress.version self.now.definition now) (filter (is_unacked kind progress.acknowledged now) (in_reach kind progress.bound self.now.rows)))) }
        ensures found { OnErr result (1 ≤ length (take limit (map (update_of progress.version self.now.definition now) (filter (is_unacked kind progress.acknowledged now) (in_reach kind progress.bound self.now.rows))))) }
    {
        let Progress {
            acknowledged,
            bound,
            version,
            ..
        } = progress;
        let mut updates = Vec::new(self.alloc);
        for (key, row) in self.stock.above(self.copy_start(kind, acknowledged, now)) {
            if updates.len() >= limit {
                break;
            }
            if is_chosen(kind, bound, row, now) {
                updates.push(update_of(self.alloc, version, &self.definition, key, row, now)?)?;
            }
        }
        Ok(updates)
    }
}

/// Returns the number of the last update, or `least` if there are no updates.
pub(crate) fn last_number(updates: &[Update], least: u32) -> u32
    ensures { result ≡ last_number least updates.now }
{
    match updates.last() {
        Some(update) => update.number,
        None => least,
    }
}
