//! The tables of scripts, with their settings.
ghost use Rattle.std.specs.Prelude.{◌≡◌};
ghost use Rattle.node_text.specs.ScriptTables.{IsScriptTable};

use crate::error::LineError;
use crate::limits::set_once;
use crate::numbers::number_from_one;
use table_cell::TableCell;
use table_types::TableDef;

/// A table of a script, and what its lines set.
#[derive(Debug, Drop)]
pub struct ScriptTable {
    /// The table.
    pub definition: TableDef,
    /// The greatest number of rows that the table stores, if a line says so: 1 to 1,000,000.
    pub size: Option<u32>,
    /// Whether a live row stays even if the table is full, if a line says so.
    pub nopurge: Option<()>,
    /// The number that the first update gets, if a line says so: 1 or more.
    pub first: Option<u32>,
}

impl ScriptTable {
    /// Returns a table of which no line sets anything.
    pub(crate) fn new(definition: TableDef) -> ScriptTable
        ensures table { IsScriptTable result }
        ensures definition { result.definition ≡ definition }
    {
        ScriptTable {
            definition,
            size: None,
            nopurge: None,
            first: None,
        }
    }

    /// Reads a line `size ROWS`, `nopurge` or `first NUMBER`, each at most once, from its first word and those of its value.
    pub(crate) fn read_setting(&mut self, kind: &[u8], words: &[&[u8]]) -> Result<(), LineError>
        ensures table { IsScriptTable self.old → IsScriptTable self.new }
        ensures definition { self.new.definition ≡ self.old.definition }
    {
        match (kind, words) {
            (b"size", [size]) => {
                let size = number_from_one(size, TableCell::MOST_ROWS as u32).ok_or(
                    LineError::Refused,
                )?;
                set_once(&mut self.size, size)
            }
            (b"first", [first]) => {
                let first = number_from_one(first, u32::MAX).ok_or(LineError::Refused)?;
                set_once(&mut self.first, first)
            }
            (b"nopurge", []) => set_once(&mut self.nopurge, ()),
            _ => Err(LineError::Refused),
        }
    }
}

/// Returns whether a line sets something of a table, by its first word.
pub(crate) fn is_setting(kind: &[u8]) -> bool {
    matches!(kind, b"size" | b"nopurge" | b"first")
}
