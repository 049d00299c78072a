//! How often the log says the same.
ghost use Rattle.std.specs.Prelude.{◌≡◌, None, if◌then◌else◌};
ghost use Rattle.node_log.specs.Limits.{has_room, left_out, owes, reported, said_at, unsaid};

/// For how long a line counts, in milliseconds.
const SECOND: u64 = 1_000;

/// The lines of one cause about one peer. A line is said unless five were in the second before it; then it is left out. The number of
/// those that were left out is said a second after the first of them.
#[derive(Clone, Copy, Debug)]
pub struct Limit {
    /// When the last five lines were said, the latest first, in milliseconds since the node began.
    said: [Option<u64>; 5],
    /// How many were left out since their number was last said.
    omitted: u64,
    /// When the first of these came.
    since: Option<u64>,
}

impl Limit {
    /// Returns the limit before any line.
    pub fn new() -> Limit
        ensures { result ≡ unsaid }
    {
        Limit {
            said: [None; 5],
            omitted: 0,
            since: None,
        }
    }

    /// Returns whether fewer than five lines were said in the second before `now`.
    pub(crate) fn has_room(&self, now: u64) -> bool
        ensures { result ≡ has_room now self.now }
    {
        match self.said[4] {
            Some(fifth) => now.saturating_sub(fifth) >= SECOND,
            None => true,
        }
    }

    /// Notes that a line comes now. Returns whether it is said.
    pub fn says(&mut self, now: u64) -> bool
        ensures says { result ≡ has_room now self.old }
        ensures noted { self.new ≡ (if has_room now self.old then said_at now self.old else left_out now self.old) }
    {
        let says = self.has_room(now);
        if says {
            self.said = [
                Some(now),
                self.said[0],
                self.said[1],
                self.said[2],
                self.said[3],
            ];
        } else {
            self.omitted = self.omitted.saturating_add(1);
            self.since = match self.since {
                Some(since) => Some(since),
                None => Some(now),
            };
        }
        says
    }

    /// Returns how many lines were left out since their number was last said.
    pub fn omitted(&self) -> u64
        ensures { result ≡ self.now.omitted }
    {
        self.omitted
    }

    /// Returns whether the number of lines left out is to be said: the first of them came a second ago.
    pub fn owes(&self, now: u64) -> bool
        ensures { result ≡ owes now self.now.since }
    {
        match self.since {
            Some(since) => now.saturating_sub(since) >= SECOND,
            None => false,
        }
    }

    /// Notes that the number of lines left out is said, and returns it.
    pub fn report(&mut self) -> u64
        ensures count { result ≡ self.old.omitted }
        ensures reported { self.new ≡ reported self.old }
    {
        let omitted = self.omitted;
        self.omitted = 0;
        self.since = None;
        omitted
    }
}
