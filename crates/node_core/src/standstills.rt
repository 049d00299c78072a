//! Whether the node itself was held up, by when it looks at the clock.

ghost use Rattle.std.specs.Prelude.{◌≡◌};
ghost use Rattle.node_core.specs.Standstills.{held_up};

/// How long after the one before a look at the clock may come, in milliseconds.
const LATEST: u64 = 2_000;

/// When the node last looked at the clock, in milliseconds since it began.
#[derive(Clone, Copy, Debug)]
pub struct LastLook {
    at: u64,
}

impl LastLook {
    /// Returns that it looks now for the first time.
    pub fn new(now: u64) -> LastLook
        ensures { result.at ≡ now }
    {
        LastLook { at: now }
    }

    /// Notes that it looks again, and returns for how many milliseconds it was held up, if it was: if it looks later than `LATEST` after
    /// the look before.
    pub fn look(&mut self, now: u64) -> Option<u64>
        ensures held_up { result ≡ held_up self.old.at now }
        ensures looked { self.new.at ≡ now }
    {
        let time = now.saturating_sub(self.at);
        self.at = now;
        if time > LATEST { Some(time) } else { None }
    }
}
