//! The texts that `serve`, `join` and `round` print.

ghost use Rattle.std.specs.Prelude.{◌≡◌, ◌++◌, ℕ, List, IfOk, OnOk, codes, flat_map};
ghost use Rattle.std.specs.List.{repeat};
ghost use Rattle.node_text.specs.Rows.{row_line};
ghost use Rattle.node_commands.specs.Printing.{AreRowsOf, AreRowsOfAll, IsSharedText, IsText, turns_line};
ghost use Rattle.node_commands.specs.Rounds.{IsPrinted};

use node_text::push_row;
use std::alloc::{AllocError, Global};
use table_cell::TableCell;
use table_shards::{Audit, UnlockedTable};
use table_types::{Key, Memory, Row, TableDef};
use text_commands::Ending;

/// Returns the line that says how many turns were made.
fn turns_line(alloc: Global, turns: u64) -> Result<Vec<u8>, AllocError>
    ensures { IfOk result (λ line. line.items ≡ turns_line turns) }
{
    Vec::from_slice(alloc, format!(in alloc; "turns {turns}\n")?.as_bytes())
}

/// Appends a line for each of `rows`, which are rows of `table`.
fn push_rows(text: &mut Vec<u8>, table: &TableDef, rows: &[(Key, Row)]) -> Result<(), AllocError>
    ensures { OnOk result (text.new.items ≡ text.old.items ++ flat_map (row_line table.now) rows.now) }
{
    for (key, row) in rows {
        push_row(text, table, key, row)?;
    }
    Ok(())
}

/// Appends a line for each row of a table, in ascending order of the keys.
fn push_table(text: &mut Vec<u8>, cell: &TableCell) -> Result<(), Memory>
    ensures { OnOk result ((rows : List ℕ) × AreRowsOf cell.now rows × (text.new.items ≡ text.old.items ++ rows)) }
{
    let rows = cell.rows()?;
    push_rows(text, cell.definition(), rows.as_slice())?;
    Ok(())
}

/// Appends the lines of the rows of each table, in order.
fn push_tables(text: &mut Vec<u8>, tables: &[UnlockedTable]) -> Result<(), Memory>
    ensures { OnOk result ((rows : List ℕ) × AreRowsOfAll tables.now rows × (text.new.items ≡ text.old.items ++ rows)) }
{
    for table in tables {
        push_table(text, &table.cell)?;
    }
    Ok(())
}

/// Returns the text of a session: the line that says how many turns it made, then the rows of `tables` in this order, each
/// table's in ascending order of the keys.
pub(crate) fn session_text(
    alloc: Global,
    turns: u32,
    tables: &[UnlockedTable],
) -> Result<Vec<u8>, Memory>
    ensures { IfOk result (λ text. IsText turns tables.now text.items) }
{
    let mut text = turns_line(alloc, u64::from(turns))?;
    push_tables(&mut text, tables)?;
    Ok(text)
}

/// Returns the text of several sessions: the line that says how many turns they made together, the line `audit ok`, and then the
/// rows of `tables` as `session_text` has them.
pub(crate) fn shared_text(
    alloc: Global,
    turns: u64,
    tables: &[UnlockedTable],
) -> Result<Vec<u8>, Memory>
    ensures { IfOk result (λ text. IsSharedText turns tables.now text.items) }
{
    let mut text = turns_line(alloc, turns)?;
    text.extend_from_slice(b"audit ok\n")?;
    push_tables(&mut text, tables)?;
    Ok(text)
}

/// Returns the line `audit ok`, `rounds` times.
fn audit_lines(alloc: Global, rounds: u32) -> Result<Vec<u8>, AllocError>
    ensures { IfOk result (λ lines. lines.items ≡ repeat rounds (codes "audit ok\n")) }
{
    Ok("audit ok\n".repeat(alloc, rounds as usize)?.into_bytes())
}

/// Returns the text of `rounds` rounds: the line `audit ok` for each, then the rows of the last audit's only table. Returns `Device`
/// unless the audit has exactly one table.
pub(crate) fn round_text(alloc: Global, rounds: u32, audit: &Audit) -> Result<Vec<u8>, Ending>
    ensures { IfOk result (λ text. IsPrinted rounds audit.now text.items) }
{
    let [table] = audit.tables() else {
        return Err(Ending::Device);
    };
    let mut text = audit_lines(alloc, rounds)?;
    push_table(&mut text, &table.cell)?;
    Ok(text)
}
