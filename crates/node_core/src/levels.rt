//! Levels of the log.

ghost use Rattle.std.specs.Prelude.{◌≡◌};
ghost use Rattle.node_core.specs.Levels.{covers, rank};

/// How much a line of the log matters, in falling order.
#[derive(Clone, Copy, Debug, PartialEq, Eq)]
pub enum Level {
    /// The node can't do what it is there for.
    Error,
    /// Something is wrong that somebody has to mend.
    Warn,
    /// Something changed, as it should.
    Info,
    /// What helps to find an error.
    Debug,
}

impl Level {
    /// Returns the number of levels that matter more.
    fn rank(self) -> u8
        ensures { result ≡ rank self }
    {
        match self {
            Level::Error => 0,
            Level::Warn => 1,
            Level::Info => 2,
            Level::Debug => 3,
        }
    }

    /// Returns whether a line of `level` is written if this is the level that the configuration names.
    pub fn covers(self, level: Level) -> bool
        ensures { result ≡ covers self level }
    {
        level.rank() <= self.rank()
    }
}
