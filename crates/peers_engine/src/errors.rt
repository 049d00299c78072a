//! Why an action fails, or a turn ends early.

ghost use Rattle.std.specs.Prelude.{◌≡◌};
ghost use Rattle.peers_engine.specs.declared.errors.EngineError.TheVariants as errors;

use session_core::SessionError;
use thiserror::Error;

/// Why an action failed, or a turn ended early. The turn then ends its session and performs none of the remaining
/// actions.
#[derive(Clone, Copy, Debug, PartialEq, Eq, Error)]
pub enum EngineError {
    /// The session refused an event.
    #[error("{0}")]
    Session(SessionError),
    /// A read failed, and the reader counted it.
    #[error("a read failed")]
    Read,
    /// A write failed and the writer counted it, or the writer takes no more. Exactly the first `sent` bytes of what
    /// was being written went out: of a `Send`, a lesson or an error message.
    #[error("a write failed after {sent} bytes")]
    Write {
        /// The number of bytes that went out.
        sent: usize,
    },
    /// Memory ran out. Of a lesson, any part may have gone out before, but not all.
    #[error("memory")]
    Memory,
    /// A table refused a call for a reason that can't be passed on to the session; or the table doesn't exist, the seat
    /// has seen more events than the table has, or the batch isn't the session's latest one or doesn't fit its roster.
    #[error("the tables and the session do not agree")]
    Strange,
}

impl From<SessionError> for EngineError {
    ghost from_gives = { λ refused e. e ≡ errors.Session refused };

    fn from(refused: SessionError) -> EngineError {
        EngineError::Session(refused)
    }
}
