//! Which of the tables received are a roster's own.

ghost use Rattle.std.specs.Prelude.{◌≡◌};
ghost use Rattle.peers_msg.specs.OwnTables.{is_own};

use table_types::{Roster, TableDef};

/// Returns whether a table received is the roster's own: the roster has the very same definition at its id.
pub fn is_own(roster: &Roster, received: &TableDef) -> bool
    ensures { result ≡ is_own roster.now received.now }
{
    match roster.table(received.id()) {
        Some(own) => own.is_same(received),
        None => false,
    }
}
