//! What a turn or a tick comes to.

ghost use Rattle.std.specs.Prelude.{◌≡◌, ◌↔◌};
ghost use Rattle.peers_engine.specs.declared.outcome.Outcome.TheVariants as outcomes;
ghost use Rattle.peers_engine.specs.declared.turned.Turned.TheVariants as turns;

use crate::turned::Turned;

/// What a turn or a tick of a session came to.
#[derive(Clone, Copy, Debug, PartialEq, Eq)]
pub enum Outcome {
    /// Something was done or read, and the session goes on.
    Worked,
    /// There was nothing to do and nothing to read, and the session goes on.
    Idled,
    /// The session closed the connection, with or without an error message, and is over.
    Closed,
}

impl Outcome {
    /// Returns whether the session goes on.
    pub fn turned(self) -> Turned
        ensures { (result ≡ turns.Closed) ↔ (self ≡ outcomes.Closed) }
    {
        match self {
            Outcome::Closed => Turned::Closed,
            Outcome::Worked | Outcome::Idled => Turned::Going,
        }
    }
}
