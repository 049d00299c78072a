//! Why a session refuses an event.

ghost use Rattle.std.specs.Prelude.{◌≡◌};
ghost use Rattle.session_core.specs.declared.error.SessionError.TheVariants as errors;

use table_types::Memory;
use thiserror::Error;

/// Why a session refuses an event. The session is over afterwards, and it asks for no action.
#[derive(Clone, Copy, Debug, PartialEq, Eq, Error)]
pub enum SessionError {
    /// The session was over already.
    #[error("the session is over")]
    Ended,
    /// Memory ran out.
    #[error("memory")]
    Memory,
    /// The event answers no action, answers one out of order, or can't happen in the session's state.
    #[error("an event that nothing asked for")]
    Unasked,
}

impl From<Memory> for SessionError {
    ghost from_gives = { λ _ e. e ≡ errors.Memory };

    fn from(_refused: Memory) -> SessionError {
        SessionError::Memory
    }
}
