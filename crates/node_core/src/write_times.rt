//! How long the writes of a turn may take.

ghost use Rattle.std.specs.Prelude.{◌≡◌, None, Some};
ghost use Rattle.node_core.specs.WriteTimes.{first_write, time_left};

/// How long the writes of a turn may take in all, in milliseconds.
pub const WRITE_TIME: u64 = 10_000;

/// The time that the writes of a turn have.
#[derive(Clone, Copy, Debug)]
pub struct WriteTime {
    /// When the first write of the turn began, if one has, in milliseconds since the node began.
    begun: Option<u64>,
}

impl WriteTime {
    /// Returns the time of a turn that begins.
    pub fn new() -> WriteTime
        ensures { result.begun ≡ None }
    {
        WriteTime { begun: None }
    }

    /// Notes that a write begins now, and returns how long it may take, in milliseconds.
    pub fn left(&mut self, now: u64) -> u64
        ensures left { result ≡ time_left self.old.begun now }
        ensures begun { self.new.begun ≡ Some (first_write self.old.begun now) }
    {
        let begun = match self.begun {
            Some(begun) => begun,
            None => now,
        };
        self.begun = Some(begun);
        WRITE_TIME.saturating_sub(now.saturating_sub(begun))
    }
}
