//! What becomes of a message at the front, found before anything changes.

use crate::loose_table::LooseTable;
use crate::passed_over::Cause;
use known_state::ResolvedUpdate;
use learner::{Advance, Taken};
use table_types::TableDef;

/// What becomes of a message at the front.
#[derive(Debug, Drop)]
pub enum Plan {
    /// The strict intake takes it.
    Takes(Taken, Advance),
    /// It is passed over, but for its number and the name that it writes; it counts if there is a cause. It has `used` bytes.
    Counts {
        update: ResolvedUpdate,
        cause: Option<Cause>,
        used: usize,
    },
    /// It is passed over, and the definition `table` stands in for it. It has `used` bytes.
    StandsIn {
        table: TableDef,
        loose: LooseTable,
        cause: Cause,
        used: usize,
    },
}
