//! The parts of stick tables: keys, data types, values, definitions, updates, rosters, batches, rows and their changes.
#![tactic(auto)]

mod batch;
mod byte_order;
mod change;
mod copies;
mod data_type;
mod items;
mod key;
mod laws;
mod memory;
mod moment;
mod name;
mod roster;
mod rotation;
mod row;
mod shapes;
mod short_list;
mod slot_ids;
mod table_def;
mod tracked;
mod update;
mod version;

pub use batch::{Batch, BatchError};
pub use change::Change;
pub use copies::{CopyKind, Settled};
pub use data_type::{DataType, Shape};
pub use items::Items;
pub use key::{Key, KeyKind};
pub use laws::{a_batch_has_no_fault, a_batch_of_one_table};
pub use memory::Memory;
pub use moment::Moment;
pub use name::{Name, is_name};
pub use roster::{Roster, RosterError, has_id, is_same_name, table_at};
pub use rotation::{read_rate, rotate};
pub use row::{Cell, Row, are_same_cells};
pub use short_list::ShortList;
pub use slot_ids::{SLOT_COUNT, is_slot};
pub use table_def::{DefError, TableDef};
pub use update::{Update, Value, are_same_updates, are_same_values};
pub use version::Version;
