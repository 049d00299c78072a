//! The hello with which a peer opens a session, and the status that answers it (HAProxy, doc/peers-v2.0.txt,
//! "Handshake"): lines of text, each ended by LF.
#![tactic(auto)]

mod hello;
mod laws;
mod lines;
mod status;

pub use hello::{Answer, Hello};
pub use laws::{what_follows_decides_nothing, what_is_written_is_accepted};
pub use status::{Status, read_status};
