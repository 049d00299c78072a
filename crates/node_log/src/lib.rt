//! The log of a node that stays: what its lines say, and which of them are said.
#![tactic(auto)]

mod events;
mod keys;
mod laws;
mod limits;
mod lines;
mod senders;
mod sentences;
mod times;
mod told;
mod values;
mod waiting;

pub use events::{event_name, level_of, peer_event_name};
pub use keys::status_of;
pub use laws::{at_most_five_a_second, lines_are_read};
pub use limits::Limit;
pub use lines::{Form, push_line};
pub use senders::{called_by, is_greeting, pid_of, said_version, sender_of};
pub use told::Told;
pub use waiting::{Fate, Lack, Waiting};
