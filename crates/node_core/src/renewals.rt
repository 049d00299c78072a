//! For how long sessions end so that a table may get new numbers.

ghost use Rattle.std.specs.Prelude.{◌≡◌, None, false};
ghost use Rattle.node_core.specs.Renewals.{given_up_after, outcome, rest_after, since_after};

/// For how long no session stands at most, in milliseconds.
const MOST_PAUSE: u64 = 5_000;

/// For how long sessions then stand before it is tried again, in milliseconds.
const REST: u64 = 60_000;

/// What becomes of the sessions while a table waits for new numbers.
#[derive(Clone, Copy, Debug, PartialEq, Eq)]
pub enum Renewing {
    /// They stand.
    Stand,
    /// They end, and none begins.
    Pause,
    /// They stand again, though a table still waits.
    GiveUp,
}

/// For how long sessions end so that a table may get new numbers, which it can't get while one is open in it.
#[derive(Clone, Copy, Debug)]
pub struct Renewal {
    /// Since when no session may stand, if none may, in milliseconds since the node began.
    since: Option<u64>,
    /// Until when sessions stand, if it was given up, in milliseconds since the node began.
    rest: u64,
    /// Whether it was given up since a table waits.
    given_up: bool,
}

impl Renewal {
    /// Returns how it is while no table waits for new numbers.
    pub fn new() -> Renewal
        ensures since { result.since ≡ None }
        ensures rest { result.rest ≡ 0 }
        ensures given_up { result.given_up ≡ false }
    {
        Renewal {
            since: None,
            rest: 0,
            given_up: false,
        }
    }

    /// Notes whether a table waits for new numbers at `now`, and returns what becomes of the sessions: they end for at most 5 s. If
    /// the table waits even then, they stand for a minute.
    pub fn look(&mut self, waits: bool, now: u64) -> Renewing
        ensures outcome { result ≡ outcome self.old.since self.old.rest waits now }
        ensures since { self.new.since ≡ since_after self.old.since self.old.rest waits now }
        ensures rest { self.new.rest ≡ rest_after self.old.since self.old.rest waits now }
        ensures given_up { self.new.given_up ≡ given_up_after self.old.since self.old.given_up waits now }
    {
        if !waits {
            self.since = None;
            self.given_up = false;
            return Renewing::Stand;
        }
        match self.since {
            Some(since) if now.saturating_sub(since) < MOST_PAUSE => Renewing::Pause,
            Some(_) => {
                self.since = None;
                self.rest = now.saturating_add(REST);
                self.given_up = true;
                Renewing::GiveUp
            }
            None if now < self.rest => Renewing::Stand,
            None => {
                self.since = Some(now);
                Renewing::Pause
            }
        }
    }

    /// Returns whether it was given up since a table waits.
    pub fn is_given_up(&self) -> bool
        ensures { result ≡ self.now.given_up }
    {
        self.given_up
    }
}
