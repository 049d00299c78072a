//! Whether a peer has answered when it was asked for all rows, and so whether it is asked on its next session.

ghost use Rattle.std.specs.Prelude.{◌≡◌};
ghost use Rattle.node_rules.specs.Answers.{answered, begun, is_asked_on, is_maybe_new, never_asked};

use node_core::{Process, ResyncEnd};

/// For how long a peer that starts again has no session, in milliseconds, at most.
const RESTART: u64 = 60_000;

/// How a peer has answered over its sessions.
#[derive(Clone, Copy, Debug)]
pub struct Answers {
    /// Whether it has ended a resync that it was asked for.
    ever_answered: bool,
    /// Whether it may be another process than the one that did.
    may_be_new: bool,
}

/// Returns whether a peer may be another process than before, given whether its hello says a pid, what that says of its `process`, and for how
/// long there was no session with it, in milliseconds. Without a pid it may be if it was away for `RESTART` at most, as a peer is that starts
/// again.
fn is_maybe_new(says_pid: bool, process: Process, away: u64) -> bool
    ensures { result ≡ is_maybe_new says_pid process away }
{
    if says_pid {
        !matches!(process, Process::Same)
    } else {
        away <= RESTART
    }
}

impl Answers {
    /// Returns how it is before the peer's first session.
    pub fn new() -> Answers
        ensures { result ≡ never_asked }
    {
        Answers {
            ever_answered: false,
            may_be_new: false,
        }
    }

    /// Notes that a session with the peer begins, given whether its hello says a pid, what that says of its `process`, and for how long there
    /// was no session with it, in milliseconds.
    pub fn begin(&mut self, says_pid: bool, process: Process, away: u64)
        ensures { self.new ≡ begun says_pid process away self.old }
    {
        self.may_be_new = self.may_be_new || is_maybe_new(says_pid, process, away);
    }

    /// Notes how a resync ended that the peer was asked for.
    pub fn end(&mut self, end: ResyncEnd)
        ensures { self.new ≡ answered end self.old }
    {
        if end != ResyncEnd::Broken {
            self.ever_answered = true;
            self.may_be_new = false;
        }
    }

    /// Returns whether the peer may be asked for all rows on its session as long as no peer has taught them: each by a node that isn't
    /// `up_to_date`. One that is goes on to change rows, which a resync replaces, so it asks only a peer that never answered; and if some peer
    /// has shown that it doesn't define all tables as the node does (`incomplete`), one that may have what that lacks: one that may be another
    /// process than the one that answered, and one once it has defined all tables as the node does (`alike`).
    pub fn is_asked_on(self, up_to_date: bool, incomplete: bool, alike: bool) -> bool
        ensures { result ≡ is_asked_on up_to_date incomplete alike self }
    {
        !up_to_date || !self.ever_answered || (incomplete && (self.may_be_new || alike))
    }
}
