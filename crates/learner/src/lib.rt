//! A learner: takes the bytes of a stream in any pieces, and keeps the rows of its local tables.
#![tactic(auto)]

mod advance;
mod fault;
mod intake;
mod keeper;
mod laws;
mod learned;
mod learner;
mod local_tables;
mod table_rows;
mod taken;

pub use advance::Advance;
pub use fault::Fault;
pub use intake::Intake;
pub use laws::{
    a_learner_stays_on_its_way, a_legal_stream, a_lesson, any_calls, any_pieces,
    numbers_stay_rising, one_fault, one_outcome, others_stay, the_last_stands,
};
pub use learner::Learner;
pub use taken::{LocalUpdateRef, Taken, TakenRef};
