//! Events that only clauses still speak of.

ghost use Rattle.std.specs.Prelude.{◌≡◌, ◌++◌, []};
ghost use Rattle.table_cell.specs.Pasts.{all_of};

use crate::entry::Entry;
use std::snapshot::Snapshot;
use table_stock::Blocks;

/// The events that a table has dropped, in the order in which they were made. Only snapshots of it are kept, which have no
/// bytes.
#[derive(Drop)]
pub(crate) enum Past {
    Nothing,
    After(Snapshot<Past>, Blocks<Entry>),
}

/// Returns the past without events.
pub(crate) fn no_past() -> Snapshot<Past>
    ensures { all_of result.value ≡ [] }
{
    Snapshot::of(&Past::Nothing)
}

/// Returns the past with these events after it, and the events. Takes constant time, and doesn't allocate.
pub(crate) fn with_events(
    before: Snapshot<Past>,
    events: Blocks<Entry>,
) -> (Snapshot<Past>, Blocks<Entry>)
    ensures past { all_of result.0.value ≡ all_of before.value ++ events.items }
    ensures events { result.1 ≡ events }
{
    let link = Past::After(before, events);
    let past = Snapshot::of(&link);
    match link {
        Past::After(_before, events) => (past, events),
        Past::Nothing => unreachable!(),
    }
}
