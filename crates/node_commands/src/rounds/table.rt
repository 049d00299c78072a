//! The table of a round.

ghost use Rattle.std.specs.Prelude.{◌≡◌, ◌≤◌, ◌∷◌, [], ℕ, IfOk, IsTrue, false};
ghost use Rattle.table_types.specs.declared.row.Cell.TheVariants as cells;
ghost use Rattle.table_cell.specs.Histories.{new_cell};
ghost use Rattle.table_shards.specs.Rounds.{begun};
ghost use Rattle.node_commands.specs.Rounds.{HasCountAmong, IsCountingTable, IsRoundTable, round_table};

use std::alloc::Global;
use table_cell::TableCell;
use table_types::{Cell, DataType, DefError, Key, KeyKind, Memory, Roster, Row, TableDef};
use text_commands::Ending;

/// The id of the table.
pub(crate) const TABLE: u64 = 1;

/// The number of the table's only session.
pub(crate) const SESSION: u32 = 1;

/// The first number that the table assigns.
const FIRST: u32 = 1;

/// Returns the definition of the table: `t1`, with integer keys, gpc0, and rows that never expire.
fn definition(alloc: Global) -> Result<TableDef, Ending>
    ensures { IfOk result (λ definition. definition ≡ round_table) }
{
    let name = Vec::from_slice(alloc, b"t1")?;
    let types = Vec::from_slice(alloc, &[(DataType::Gpc0, None)])?;
    match TableDef::new(alloc, TABLE, name, KeyKind::Integer, 4, 0, types) {
        Ok(definition) => Ok(definition),
        Err(DefError::Memory) => Err(Ending::Memory),
        Err(_) => Err(Ending::Device),
    }
}

/// Returns the roster that has only this table.
pub(crate) fn roster(alloc: Global) -> Result<Roster, Ending> {
    let mut tables = Vec::new(alloc);
    tables.push(definition(alloc)?).map_err(Memory::from)?;
    Ok(Roster::new(tables)?)
}

/// Returns the table, with no rows and no open session.
pub(crate) fn new_table(alloc: Global) -> Result<TableCell, Ending>
    ensures made { IfOk result (λ cell. cell ≡ new_cell round_table 1000000 false 1) }
    ensures begun { IfOk result (λ cell. begun cell ≡ (1, 0, 0)) }
{
    let most = TableCell::MOST_ROWS;
    Ok(TableCell::new(alloc, definition(alloc)?, most, false, FIRST)?)
}

/// Returns whether the cell's table has that definition, and its history begins with the table that `new_table` makes.
pub(crate) fn is_round_table(alloc: Global, cell: &TableCell) -> Result<bool, Ending>
    ensures { IfOk result (λ is. IsTrue is → IsRoundTable cell.now) }
{
    let wanted = definition(alloc)?;
    let begins_so = cell.begins_new(TableCell::MOST_ROWS, false, FIRST);
    Ok(begins_so && cell.definition().is_same(&wanted))
}

/// Returns whether the cell's table has that definition.
fn has_definition(alloc: Global, cell: &TableCell) -> Result<bool, Ending>
    ensures { IfOk result (λ has. IsTrue has → cell.now.state.definition ≡ round_table) }
{
    let wanted = definition(alloc)?;
    Ok(cell.definition().is_same(&wanted))
}

/// Returns gpc0 of the row, or 0 if it has other data.
fn count_of(row: &Row) -> u64
    ensures { 1 ≤ result → row.now.cells ≡ cells.Count result ∷ [] }
{
    match row.cells() {
        [Cell::Count(count)] => *count,
        _ => 0,
    }
}

/// Returns gpc0 of the row of the integer key `number`, or 0 if there is no such row, or it has other data.
fn count_at(rows: &[(Key, Row)], number: u32) -> u64
    ensures { 1 ≤ result → HasCountAmong number result rows.now }
{
    for (key, row) in rows {
        if Key::Int(number).cmp(key).is_eq() {
            return count_of(row);
        }
    }
    0
}

/// Returns whether the key of each of `threads` threads counts `count`.
fn have_counted(rows: &[(Key, Row)], threads: u32, count: u64) -> bool
    requires { 1 ≤ count }
    ensures { IsTrue result → (key : ℕ) → 1 ≤ key → key ≤ threads → HasCountAmong key count rows.now }
{
    for before in 0..threads {
        if count_at(rows, before + 1) != count {
            return false;
        }
    }
    true
}

/// Returns whether the cell's table has that definition, and the key of each of `threads` threads counts `count`, if that is at
/// least 1.
#[tactic(auto, using(crate::proofs::CountLaws::counts_none))]
pub(crate) fn is_counting_table(
    alloc: Global,
    cell: &TableCell,
    threads: u32,
    count: u64,
) -> Result<bool, Ending>
    ensures { IfOk result (λ is. IsTrue is → IsCountingTable threads count cell.now) }
{
    if !has_definition(alloc, cell)? {
        return Ok(false);
    }
    if count == 0 {
        return Ok(true);
    }
    let rows = cell.rows()?;
    Ok(have_counted(rows.as_slice(), threads, count))
}
