//! The row that a change makes.

ghost use Rattle.std.specs.Prelude.{◌≡◌, ◌+◌, IfOk, option_copied};
ghost use Rattle.table_types.specs.DataTypes.{shape_of};
ghost use Rattle.table_types.specs.Rows.{smaller};
ghost use Rattle.table_types.specs.Rotation.{turned};
ghost use Rattle.table_types.specs.Changes.{most, changed_count, raised, changed_rate, changed_cell, changed_cells, changed_name, begun_cell, begun_cells, cells_before, name_before, tracked};

use crate::change::Change;
use crate::data_type::{DataType, Shape};
use crate::memory::Memory;
use crate::moment::Moment;
use crate::name::Name;
use crate::rotation::rotate;
use crate::row::{Cell, Row};
use crate::short_list::ShortList;
use crate::table_def::TableDef;
use std::alloc::Global;

/// Returns the greatest count of a shape.
fn most(shape: Shape) -> u64
    ensures { result ≡ most shape }
{
    match shape {
        Shape::LongCount => u64::MAX,
        _ => u64::from(u32::MAX),
    }
}

/// Returns the sum, or `most` if the sum is greater.
fn sum_within(count: u64, more: u64, most: u64) -> u64
    ensures { result ≡ smaller (count + more) most }
{
    match count.checked_add(more) {
        Some(sum) if sum < most => sum,
        _ => most,
    }
}

fn changed_count(change: &Change, data_type: DataType, count: u64) -> u64
    ensures { result ≡ changed_count change.now data_type count }
{
    let most = most(data_type.shape());
    match change {
        Change::Add(changed, more) if changed.is_same(data_type) => sum_within(count, *more, most),
        Change::Take(changed, less) if changed.is_same(data_type) => count.saturating_sub(*less),
        Change::Put(changed, number) if changed.is_same(data_type) => {
            if *number < most { *number } else { most }
        }
        _ => count,
    }
}

fn raised(rate: Cell, more: u32) -> Cell
    ensures { result ≡ raised more rate }
{
    match rate {
        Cell::Count(_) => rate,
        Cell::Rate {
            start,
            current,
            previous,
        } => Cell::Rate {
            start,
            current: current.saturating_add(more),
            previous,
        },
    }
}

/// Returns the cell as of `moment`: rotated if it has a period.
fn turned(cell: Cell, period: Option<u32>, moment: Moment) -> Cell
    ensures { result ≡ turned moment period cell }
{
    match period {
        Some(period) => rotate(cell, period, moment),
        None => cell,
    }
}

fn changed_rate(
    change: &Change,
    entry: &(DataType, Option<u32>),
    rate: Cell,
    moment: Moment,
) -> Cell
    ensures { result ≡ changed_rate moment change.now entry.now rate }
{
    match change {
        Change::AddRate(changed, more) if changed.is_same(entry.0) => {
            raised(turned(rate, entry.1, moment), *more)
        }
        _ => rate,
    }
}

fn changed_cell(
    change: &Change,
    entry: &(DataType, Option<u32>),
    cell: Cell,
    moment: Moment,
) -> Cell
    ensures { result ≡ changed_cell moment change.now entry.now cell }
{
    match cell {
        Cell::Count(count) => Cell::Count(changed_count(change, entry.0, count)),
        Cell::Rate { .. } => changed_rate(change, entry, cell, moment),
    }
}

fn changed_cells(
    alloc: Global,
    change: &Change,
    types: &[(DataType, Option<u32>)],
    cells: &[Cell],
    moment: Moment,
) -> Result<ShortList<Cell>, Memory>
    ensures { IfOk result (λ changed. changed ≡ changed_cells moment change.now types.now cells.now) }
{
    let mut rest = cells;
    let mut changed = ShortList::with_capacity(alloc, cells.len())?;
    for entry in types {
        if entry.0.shape() == Shape::Name {
            continue;
        }
        let Some((cell, others)) = rest.split_first() else {
            return Ok(changed);
        };
        changed = changed.with(alloc, changed_cell(change, entry, *cell, moment))?;
        rest = others;
    }
    Ok(changed)
}

fn begun_cell(shape: Shape, moment: Moment) -> Cell
    ensures { result ≡ begun_cell moment shape }
{
    match shape {
        Shape::Rate => Cell::Rate {
            start: moment.milliseconds(),
            current: 0,
            previous: 0,
        },
        _ => Cell::Count(0),
    }
}

fn begun_cells(
    alloc: Global,
    types: &[(DataType, Option<u32>)],
    moment: Moment,
) -> Result<ShortList<Cell>, Memory>
    ensures { IfOk result (λ begun. begun ≡ begun_cells moment types.now) }
{
    let count = types
        .iter()
        .filter(|entry| entry.0.shape() != Shape::Name)
        .count();
    let mut begun = ShortList::with_capacity(alloc, count)?;
    for entry in types {
        let shape = entry.0.shape();
        if shape == Shape::Name {
            continue;
        }
        begun = begun.with(alloc, begun_cell(shape, moment))?;
    }
    Ok(begun)
}

fn cells_after(
    alloc: Global,
    table: &TableDef,
    live: Option<&Row>,
    change: &Change,
    moment: Moment,
) -> Result<ShortList<Cell>, Memory>
    ensures { IfOk result (λ changed. changed ≡ changed_cells moment change.now table.now.types (cells_before moment table.now (option_copied live.entry))) }
{
    let types = table.types();
    match live {
        Some(row) => changed_cells(alloc, change, types, row.cells(), moment),
        None => {
            let begun = begun_cells(alloc, types, moment)?;
            changed_cells(alloc, change, types, begun.as_slice(), moment)
        }
    }
}

fn name_before(live: Option<&Row>) -> Option<&Name>
    ensures { option_copied result ≡ name_before (option_copied live.entry) }
{
    match live {
        Some(row) => row.name(),
        None => None,
    }
}

fn name_after(alloc: Global, live: Option<&Row>, change: &Change) -> Result<Option<Name>, Memory>
    ensures { IfOk result (λ name. name ≡ changed_name change.now (name_before (option_copied live.entry))) }
{
    match change {
        Change::SetName(name) => Name::copy_of(alloc, name),
        _ => match name_before(live) {
            Some(name) => Ok(Some(name.copy(alloc)?)),
            None => Ok(None),
        },
    }
}

impl Row {
    /// Makes the row that a change produces at `moment`, with `number` as its update's number. The change applies to
    /// the row that lives at the key, `live`, or else to a new one, whose counts are 0 and whose rates begin at
    /// `moment`.
    ///
    /// The row is this node's own. It ends after the table's expire, at the greatest moment at the latest. Fails if
    /// memory runs out.
    pub fn tracked(
        alloc: Global,
        table: &TableDef,
        live: Option<&Row>,
        change: &Change,
        number: u32,
        moment: Moment,
    ) -> Result<Row, Memory>
        ensures { IfOk result (λ row. row ≡ tracked table.now moment number change.now (option_copied live.entry)) }
    {
        let cells = cells_after(alloc, table, live, change, moment)?;
        let name = name_after(alloc, live, change)?;
        let ends = Row::end(None, table.expire(), moment);
        Ok(Row::local_with(number, ends, cells, name))
    }
}
