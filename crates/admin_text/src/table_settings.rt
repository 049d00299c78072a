//! The tables of a configuration, with their settings.
ghost use Rattle.std.specs.Prelude.{◌≡◌, None, true};
ghost use Rattle.std.specs.Option.{unwrap_or};
ghost use Rattle.table_types.specs.Tables.{is_definition};
ghost use Rattle.admin_text.specs.TableSettings.{kept_in, with_rows};

use table_cell::TableCell;
use table_types::TableDef;

/// The greatest number of rows that a table stores.
const MOST_ROWS: u32 = TableCell::MOST_ROWS as u32;

/// A table of a configuration, and what its lines set.
#[derive(Debug, Drop)]
pub struct TableSetting {
    /// The table. Its name is the one that goes over the wire.
    pub definition: TableDef,
    /// The greatest number of rows that the table stores, if a line says so: 1 to 1,000,000.
    pub size: Option<u32>,
    /// Whether a live row stays even if the table is full, if a line says so.
    pub nopurge: Option<()>,
}

impl TableSetting {
    /// Returns a table of which no line sets anything.
    pub(crate) fn new(definition: TableDef) -> TableSetting
        ensures made { result ≡ record { definition = definition; size = None; nopurge = None } }
        ensures defined { is_definition definition ≡ true }
    {
        TableSetting {
            definition,
            size: None,
            nopurge: None,
        }
    }

    /// Returns the greatest number of rows that the table stores: 1,000,000 unless a line says otherwise.
    pub fn most_rows(&self) -> u32
        ensures { result ≡ unwrap_or self.now.size 1000000 }
    {
        self.size.unwrap_or(MOST_ROWS)
    }
}

/// Sets the greatest number of rows of the tables with this id.
pub(crate) fn set_rows(tables: &mut [TableSetting], id: u64, rows: u32)
    ensures { tables.new ≡ with_rows id rows tables.old }
{
    for table in tables.iter_mut() {
        if table.definition.id() == id {
            table.size = Some(rows);
        }
    }
}

/// Sets that the tables with this id keep their live rows.
pub(crate) fn set_nopurge(tables: &mut [TableSetting], id: u64)
    ensures { tables.new ≡ kept_in id tables.old }
{
    for table in tables.iter_mut() {
        if table.definition.id() == id {
            table.nopurge = Some(());
        }
    }
}
