//! When the node connects to a peer, and in which version.

ghost use Rattle.std.specs.Prelude.{◌≡◌, ◌-◌, ◌||◌, false, max, nat_le};
ghost use Rattle.node_rules.specs.Attempts.{next, next_due, spread, version_after};

use table_types::Version;

/// The least pause between the end of a session or of an attempt and the next attempt, in milliseconds. Up to twice as long, so that two
/// nodes don't keep in step.
const PAUSE: u64 = 2_000;

/// What the worker of a peer that has no session does next.
#[derive(Clone, Copy, Debug, PartialEq, Eq)]
pub enum NextStep {
    /// It takes the connection that waits for it.
    Takes,
    /// It connects to the peer.
    Connects,
    /// It waits.
    Waits,
}

/// What the worker of a peer that has no session goes by.
#[derive(Clone, Copy, Debug)]
pub struct Prospect {
    /// Whether no session may stand, since a table gets new numbers.
    pub paused: bool,
    /// Whether a connection of the peer waits.
    pub arrival: bool,
}

/// When the node connects to a peer, and in which version.
#[derive(Clone, Copy, Debug)]
pub struct Attempts {
    /// When the next attempt is due, in milliseconds since the node began.
    due: u64,
    /// Whether the peer refused version 2.1 at the last attempt.
    fell_back: bool,
}

/// Returns up to `PAUSE`, by the last digits of the clock.
fn spread(now: u64) -> u64
    ensures { result ≡ spread now }
{
    (now % PAUSE) * 7_919 % PAUSE
}

/// Returns when the next attempt is due after a session or an attempt ended at `now`: `PAUSE` later, or later if the peer is left alone
/// until then, and up to `PAUSE` after that.
fn next_due(now: u64, rests_until: u64) -> u64
    ensures { result ≡ next_due now rests_until }
{
    now.saturating_add(PAUSE)
        .max(rests_until)
        .saturating_add(spread(now))
}

impl Attempts {
    /// Returns how it is when the node begins: the first attempt is due at once.
    pub fn new() -> Attempts
        ensures { result ≡ record { due = 0; fell_back = false } }
    {
        Attempts {
            due: 0,
            fell_back: false,
        }
    }

    /// Returns whether the next attempt is due.
    pub fn is_due(&self, now: u64) -> bool
        ensures { result ≡ nat_le self.now.due now }
    {
        now >= self.due
    }

    /// Returns what the worker does next.
    pub fn next(&self, now: u64, prospect: Prospect) -> NextStep
        ensures { result ≡ next now prospect self.now }
    {
        if prospect.paused {
            NextStep::Waits
        } else if prospect.arrival {
            NextStep::Takes
        } else if self.is_due(now) {
            NextStep::Connects
        } else {
            NextStep::Waits
        }
    }

    /// Notes that an attempt begins, and returns the version that its hello says: 2.0 if the peer refused 2.1 at the attempt before.
    pub fn begin(&mut self) -> Version
        ensures version { result ≡ version_after self.old.fell_back }
        ensures begun { self.new ≡ record self.old { fell_back = false } }
    {
        let fell_back = self.fell_back;
        self.fell_back = false;
        if fell_back {
            Version::V20
        } else {
            Version::V21
        }
    }

    /// Notes that a session or an attempt ended at `now`, until when the peer is left alone, and whether it refused version 2.1.
    pub fn end(&mut self, now: u64, rests_until: u64, fell_back: bool)
        ensures { self.new ≡ record { due = next_due now rests_until; fell_back = fell_back || self.old.fell_back } }
    {
        self.due = next_due(now, rests_until);
        self.fell_back = fell_back || self.fell_back;
    }

    /// Returns how long it is until the next attempt is due, 1 ms at least.
    pub fn rest(&self, now: u64) -> u64
        ensures { result ≡ max 1 (self.now.due - now) }
    {
        self.due.saturating_sub(now).max(1)
    }
}
