//! A checker that is independent of the planner. It decides whether a plan of which names are read is accepted, because
//! its prices prove that no other plan saves more bytes; and whether a stream teaches a batch, and its prices prove
//! that no such stream is shorter (profile).
#![tactic(auto)]

mod bound;
mod comparison;
mod last_places;
mod laws;
mod links;
mod names_held;
mod plan_check;
mod reading;
mod room;
mod search;
mod verdict;
mod verifying;

pub use laws::{accepted_is_said, one_verdict, said_of_streams, shortest_is_said};
pub use plan_check::check_plan;
pub use verdict::{Illegal, Verdict};
pub use verifying::verify;
