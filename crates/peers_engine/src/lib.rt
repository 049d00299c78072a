//! Driving a session: its turns, the actions that it asks for, the gate at which its worker stops between its steps, and
//! devices that fail after some calls. What a turn does with a batch is there for a worker without a session too. Each call
//! on a table takes the table's lock for that call only.
#![tactic(auto)]

mod answering;
mod context;
mod doing;
mod errors;
mod fused;
mod gate;
mod laws;
mod outcome;
mod reading;
mod tables;
mod turned;
mod turning;
mod worker;
mod writing;

pub use context::Context;
pub use doing::{copy_batch, plan};
pub use errors::EngineError;
pub use fused::Fused;
pub use gate::{AlwaysOpen, Gate, Stage};
pub use laws::{
    no_late_call_comes_too_early, nothing_is_due_between_turns, what_a_worker_does_happens,
    what_is_strange_was_refused, what_is_written_is_the_run,
};
pub use outcome::Outcome;
pub use peers_devices::{Counting, Faults};
pub use tables::{acknowledge, settle};
pub use turned::Turned;
pub use turning::turn;
pub use worker::Worker;
pub use writing::{
    PiecesError, WriteFault, write_lesson, write_lesson_counted, write_pieces, write_pieces_counted,
};
