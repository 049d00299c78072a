//! Acknowledgements that a peer receives (HAProxy, doc/peers-v2.0.txt, "Acknowledgement Messages").

ghost use Rattle.std.specs.Prelude.{◌≡◌};
ghost use Rattle.session_core.specs.Acks.{ack_of};

use learner::Taken;
use table_types::{Roster, has_id};

/// Returns the table and the number that the message acknowledges, if it is an acknowledgement of a table of `roster`. Doesn't
/// allocate.
pub fn ack_of(taken: &Taken, roster: &Roster) -> Option<(u64, u32)>
    ensures { result ≡ ack_of roster.now taken.now }
{
    match taken {
        Taken::Acked { table, number } if has_id(roster.tables(), *table) => {
            Some((*table, *number))
        }
        _ => None,
    }
}
