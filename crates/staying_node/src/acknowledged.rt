//! Whether a peer has acknowledged what it was taught.

ghost use Rattle.std.specs.Prelude.{◌≡◌};
ghost use Rattle.std.specs.List.{list_all};
ghost use Rattle.staying_node.specs.Acknowledgements.{has_acknowledged_last, is_acknowledged};

use session_core::Progress;

/// Returns whether the peer has acknowledged the last number that it was taught of a table.
pub(crate) fn has_acknowledged_last(table: &Progress) -> bool
    ensures { result ≡ has_acknowledged_last table.now }
{
    table.last == table.acknowledged.unwrap_or(0)
}

/// Returns whether the peer has acknowledged the last number that it was taught of each table, but for tables that were left.
pub(crate) fn are_acknowledged(tables: &[Progress]) -> bool
    ensures { result ≡ list_all is_acknowledged tables.now }
{
    for table in tables {
        if !(table.left || has_acknowledged_last(table)) {
            return false;
        }
    }
    true
}
