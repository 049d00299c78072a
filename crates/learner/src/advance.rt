//! How an intake moves past a message.

use known_state::Effect;

/// What moves an intake past the message at its front.
#[derive(Debug, Drop)]
pub struct Advance {
    /// What the message does to the state.
    pub effect: Effect,
    /// The message's length in bytes.
    pub used: usize,
}
