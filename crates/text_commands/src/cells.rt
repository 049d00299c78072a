//! New tables of scripts.
ghost use Rattle.std.specs.Prelude.{◌≡◌, IfOk};
ghost use Rattle.node_text.specs.ScriptTables.{IsScriptTable};
ghost use Rattle.text_commands.specs.Running.{cell_of};

use node_text::ScriptTable;
use std::alloc::Global;
use table_cell::TableCell;
use table_types::Memory;

/// The greatest number of rows that a table stores unless the script says otherwise.
const MOST_ROWS: u32 = TableCell::MOST_ROWS as u32;

/// Returns the new table that a script describes.
pub(crate) fn cell_of(alloc: Global, table: ScriptTable) -> Result<TableCell, Memory>
    requires { IsScriptTable table }
    ensures { IfOk result (λ cell. cell ≡ cell_of table) }
{
    let ScriptTable {
        definition,
        size,
        nopurge,
        first,
    } = table;
    let size = size.unwrap_or(MOST_ROWS) as usize;
    TableCell::new(
        alloc,
        definition,
        size,
        nopurge.is_some(),
        first.unwrap_or(1),
    )
}
