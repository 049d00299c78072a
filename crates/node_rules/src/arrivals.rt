//! Which of two connections of a peer stands.

ghost use Rattle.std.specs.Prelude.{◌≡◌, max};
ghost use Rattle.node_rules.specs.Arrivals.{found, is_taken, more, offered};

/// How often a door looks whether a connection is over whose peer has another one, `LOOK` apart, before it takes the place of that.
const LOOKS: u64 = 6;

/// How long a door looks at a connection at a time, in milliseconds.
pub const LOOK: u64 = 50;

/// The connections that come to the worker of a peer. One that is accepted later has a greater number.
#[derive(Clone, Copy, Debug)]
pub struct Arrivals {
    /// The greatest number of those that came.
    latest: u64,
}

impl Arrivals {
    /// Returns how it is before any came.
    pub fn new() -> Arrivals
        ensures { result.latest ≡ 0 }
    {
        Arrivals { latest: 0 }
    }

    /// Returns whether the connection with this number comes at once, and notes that it does: if the worker has no other one, and none
    /// came that was accepted after it. The worker has one if a session stands, or a connection waits for it.
    pub fn offer(&mut self, number: u64, has_other: bool) -> bool
        ensures taken { result ≡ is_taken number has_other self.old.latest }
        ensures latest { self.new.latest ≡ offered number has_other self.old.latest }
    {
        if has_other || number < self.latest {
            return false;
        }
        self.latest = number;
        true
    }

    /// Notes that the connection with this number takes the place of the one that the worker has.
    pub fn arrive(&mut self, number: u64)
        ensures { self.new.latest ≡ max self.old.latest number }
    {
        self.latest = self.latest.max(number);
    }
}

/// What a door does with a connection whose peer has another one, or had one that was accepted later.
#[derive(Clone, Copy, Debug, PartialEq, Eq)]
pub enum Kept {
    /// It keeps it, and offers it again.
    Stays,
    /// It drops it, since the peer has.
    IsOver,
    /// It hands it over in the place of the other one.
    TakesOver,
}

/// How long a door keeps a connection whose peer has another one, or had one that was accepted later: it may be the one that the peer
/// drops.
#[derive(Clone, Copy, Debug)]
pub struct Stay {
    /// How often the door has found that it isn't over.
    looks: u64,
}

impl Stay {
    /// Returns how it is when the door begins to keep it.
    pub fn new() -> Stay
        ensures { result.looks ≡ 0 }
    {
        Stay { looks: 0 }
    }

    /// Notes whether the door finds after another `LOOK` that the connection is over, and returns what becomes of it.
    pub fn look(&mut self, is_over: bool) -> Kept
        ensures kept { result ≡ found is_over self.old.looks }
        ensures looks { self.new.looks ≡ more self.old.looks }
    {
        self.looks = self.looks.saturating_add(1);
        if is_over {
            Kept::IsOver
        } else if self.looks < LOOKS {
            Kept::Stays
        } else {
            Kept::TakesOver
        }
    }
}
