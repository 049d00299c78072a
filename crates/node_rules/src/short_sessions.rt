//! Sessions that end by the peer's doing soon after they began.

ghost use Rattle.std.specs.Prelude.{◌≡◌};
ghost use Rattle.node_rules.specs.ShortSessions.{count_after, is_far, none_short, told};

use node_core::SessionEnd;

/// The least time that a session lasts that isn't short, in milliseconds.
const LASTING: u64 = 10_000;

/// How many short sessions in a row make a line of the log.
const MANY: u64 = 3;

/// How many sessions with a peer ended by its doing soon after they began, since the last one that lasted.
#[derive(Clone, Copy, Debug)]
pub struct ShortSessions {
    count: u64,
}

/// Returns whether the far side closed, cut or replaced a session that ended as `end`, as far as this end can tell.
fn is_far(end: SessionEnd) -> bool
    ensures { result ≡ is_far end }
{
    match end {
        SessionEnd::End | SessionEnd::Device | SessionEnd::Replaced => true,
        SessionEnd::Silent | SessionEnd::Fault | SessionEnd::Error => false,
    }
}

impl ShortSessions {
    /// Returns the count for a peer with which there was no session.
    pub fn new() -> ShortSessions
        ensures { result ≡ none_short }
    {
        ShortSessions { count: 0 }
    }

    /// Notes that a session that lasted `lasted` milliseconds has ended as `end`; `given_up` says whether no session may stand, since a table
    /// gets new numbers or the node stops. Returns the number of short sessions in a row at the third one, and `None` at any other.
    pub fn end(&mut self, end: SessionEnd, given_up: bool, lasted: u64) -> Option<u64>
        ensures told { result ≡ told end given_up lasted self.old }
        ensures count { self.new ≡ count_after end given_up lasted self.old }
    {
        if lasted >= LASTING {
            self.count = 0;
            return None;
        }
        if given_up || !is_far(end) {
            return None;
        }
        self.count = self.count.saturating_add(1);
        if self.count == MANY { Some(MANY) } else { None }
    }
}
