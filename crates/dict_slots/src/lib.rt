//! The dictionary of server names of one direction of a session: 128 slots, numbered 1 to 128.
#![tactic(auto)]

mod slots;

pub use slots::Slots;
