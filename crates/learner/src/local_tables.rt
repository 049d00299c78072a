//! Which of the received tables a learner keeps.

ghost use Rattle.std.specs.Prelude.{◌≡◌, option_copied};
ghost use Rattle.learner.specs.LocalTables.{local_table};

use table_types::TableDef;

/// Returns the local table for a received table: the one with the same name, kind of keys, key length, data types and
/// periods.
pub fn local_table<'a>(roster: &'a [TableDef], received: &TableDef) -> Option<&'a TableDef>
    ensures { option_copied result ≡ local_table roster.now received.now }
{
    for table in roster {
        if table.is_shape_of(received) {
            return Some(table);
        }
    }
    None
}
