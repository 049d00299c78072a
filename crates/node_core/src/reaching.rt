//! What became of the attempts to have a session with a peer.

ghost use Rattle.std.specs.Prelude.{◌≡◌, ◌≢◌, ◌↔◌, IsTrue, Some, not, true};
ghost use Rattle.node_core.specs.Reaching.{untried};

/// Why a connection came to no session.
#[derive(Clone, Copy, Debug, PartialEq, Eq)]
pub enum NoSession {
    /// The far side closed it before it answered the node's hello.
    Closed,
    /// The far side sent nothing for too long.
    Silent,
    /// What the far side sent is no answer of the protocol.
    Strange,
    /// A read or a write failed before the far side answered.
    Device,
    /// It ended as soon as the peer had taken the node's hello.
    AtOnce,
    /// The node lacked memory or a thread for it.
    Lacking,
}

/// Why an attempt of the node to have a session with a peer failed.
#[derive(Clone, Copy, Debug, PartialEq, Eq)]
pub enum Failure {
    /// The peer's address couldn't be connected to. The system's number for the reason, if it gave one.
    Unreachable(Option<i32>),
    /// The peer refused the node's hello with this status.
    Refused(u16),
    /// The connection came to no session.
    NoSession(NoSession),
}

/// What became of the attempts to have a session with a peer since the last one began, as far as the log says it: each once, until it
/// changes.
#[derive(Clone, Copy, Debug)]
pub struct Reaching {
    /// Whether the node has tried to connect.
    tried: bool,
    /// Why its last attempt failed.
    failure: Option<Failure>,
    /// The status with which it last refused a hello of the peer.
    refusal: Option<u16>,
}

impl Reaching {
    /// Returns how it is before any attempt, and after a session has begun.
    pub fn new() -> Reaching
        ensures { result ≡ untried }
    {
        Reaching {
            tried: false,
            failure: None,
            refusal: None,
        }
    }

    /// Notes that the node tries to connect. Returns whether it hasn't before.
    pub fn attempt(&mut self) -> bool
        ensures first { result ≡ not self.old.tried }
        ensures tried { self.new ≡ record self.old { tried = true } }
    {
        let first = !self.tried;
        self.tried = true;
        first
    }

    /// Notes that an attempt of the node has failed. Returns whether the one before failed otherwise, if it did.
    pub fn fail(&mut self, failure: Failure) -> bool
        ensures otherwise { IsTrue result ↔ (self.old.failure ≢ Some failure) }
        ensures failed { self.new ≡ record self.old { failure = Some failure } }
    {
        let otherwise = self.failure != Some(failure);
        self.failure = Some(failure);
        otherwise
    }

    /// Notes that the node has refused a hello of the peer with this status. Returns whether it had another one the time before, if there
    /// was one.
    pub fn refuse(&mut self, status: u16) -> bool
        ensures otherwise { IsTrue result ↔ (self.old.refusal ≢ Some status) }
        ensures refused { self.new ≡ record self.old { refusal = Some status } }
    {
        let otherwise = self.refusal != Some(status);
        self.refusal = Some(status);
        otherwise
    }
}
