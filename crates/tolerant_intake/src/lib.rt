//! The reader of what a peer sends. A strict one reads what the intake of a learner takes. A tolerant one, for a node that
//! stays beside HAProxy, passes over some messages at which that intake stops.
#![tactic(auto)]

mod laws;
mod loose_definition;
mod loose_table;
mod loose_update;
mod passed_over;
mod plan;
mod planning;
mod reader;
mod tolerance;

pub use laws::{
    agrees, always_an_answer, any_cutting, due_ids_change_nothing, more_bytes_change_nothing,
    names_arrive, one_answer, stand_ins_are_others, stand_ins_stay,
};
pub use loose_table::LooseTable;
pub use passed_over::PassedOver;
pub use reader::Reader;
