//! When a session ends for what happens outside it.

ghost use Rattle.std.specs.Prelude.{◌≡◌, ◌==◌, is_none, is_some, nat_le};
ghost use Rattle.node_rules.specs.Endings.{another_look, begun, closing_of, has_time, interruption, is_young, looked, sees_stop, started, turned, waits_from, waits_on};

use node_core::SessionEnd;

/// From when a session begins to when its turns push rows, in milliseconds, as the session's machine has it.
const PUSHES: u64 = 300;

/// What happens outside a session that may end it.
#[derive(Clone, Copy, Debug)]
pub struct Outside {
    /// Whether another connection of the peer waits.
    pub replaced: bool,
    /// Whether no session may stand, since a table gets new numbers.
    pub paused: bool,
    /// Whether the node stops.
    pub stops: bool,
}

/// When a session ends for what happens outside it.
///
/// When the node stops, a session ends once its peer has been taught every change that the node has answered. The node answers a
/// change only if it didn't stop yet when the row was in the table already. So the row was there before this machine saw that the
/// node stops. Only turns that came after that count as idle, and each of them looked at its table, under the table's lock; so one
/// of them would have found the row.
#[derive(Clone, Copy, Debug)]
pub struct Ending {
    /// When the session's hello was over, if it is, in milliseconds since the node began.
    begun: Option<u64>,
    /// Whether it was seen that the node stops.
    stopping: bool,
    /// The turns in a row in which there was nothing to do, since the last rest, and since it was seen that the node stops.
    idle: usize,
}

impl Ending {
    /// Returns how it is with a session whose hello isn't over.
    pub fn new() -> Ending
        ensures { result ≡ started }
    {
        Ending {
            begun: None,
            stopping: false,
            idle: 0,
        }
    }

    /// Notes that the session's hello is over at `now`. Returns whether it wasn't before.
    pub fn begin(&mut self, now: u64) -> bool
        ensures first { result ≡ is_none self.old.begun }
        ensures begun { self.new ≡ begun now self.old }
    {
        let first = self.begun.is_none();
        if first {
            self.begun = Some(now);
        }
        first
    }

    /// Returns whether the session's hello is over.
    pub fn has_begun(&self) -> bool
        ensures { result ≡ is_some self.now.begun }
    {
        self.begun.is_some()
    }

    /// Notes a turn, and whether there was nothing to do in it.
    pub fn turn(&mut self, idled: bool)
        ensures { self.new ≡ turned idled self.old }
    {
        self.idle = if idled {
            self.idle.saturating_add(1)
        } else {
            0
        };
    }

    /// Returns whether there was something to do in the last turn, or the session has rested since.
    pub fn is_at_work(&self) -> bool
        ensures { result ≡ (self.now.idle == 0) }
    {
        self.idle == 0
    }

    /// Returns whether there was nothing to do in as many turns in a row as there are tables, so that the session may rest.
    pub fn may_rest(&self, tables: usize) -> bool
        ensures { result ≡ nat_le tables self.now.idle }
    {
        self.idle >= tables
    }

    /// Notes that the session rests.
    pub fn rest(&mut self)
        ensures { self.new ≡ record self.old { idle = 0 } }
    {
        self.idle = 0;
    }

    /// Returns whether the session's hello was over less than `PUSHES` ago, so that its turns don't push rows yet.
    fn is_young(&self, now: u64) -> bool
        ensures { result ≡ is_young now self.now.begun }
    {
        match self.begun {
            Some(begun) => now.saturating_sub(begun) < PUSHES,
            None => false,
        }
    }

    /// Notes that the node stops, if it does and the session's turns push rows. Returns whether that is so.
    fn see_stop(&mut self, now: u64, stops: bool) -> bool
        ensures sees { result ≡ sees_stop now stops self.old }
        ensures looked { self.new ≡ looked now stops self.old }
    {
        if !stops || self.is_young(now) {
            return false;
        }
        if !self.stopping {
            self.stopping = true;
            self.idle = 0;
        }
        true
    }

    /// Returns why the session is to end at `now`, if it is: the peer has connected again, a table gets new numbers, or the node stops and
    /// nothing is left to teach. It has `tables` tables, and `acknowledged` says whether the peer has acknowledged the last number that it
    /// was taught of each table that wasn't left.
    pub fn look(
        &mut self,
        now: u64,
        outside: Outside,
        tables: usize,
        acknowledged: bool,
    ) -> Option<SessionEnd>
        ensures end { result ≡ interruption now outside tables acknowledged self.old }
        ensures looked { self.new ≡ looked now outside.stops self.old }
    {
        let sees_stop = self.see_stop(now, outside.stops);
        if outside.replaced {
            Some(SessionEnd::Replaced)
        } else if outside.paused || (sees_stop && self.may_rest(tables) && acknowledged) {
            Some(SessionEnd::End)
        } else {
            None
        }
    }
}

/// How long a node that stops waits at most for the sessions that stand, before it shuts them down, in milliseconds.
const LONGEST: u64 = 3_000;

/// How often it looks at most whether one stands, `ENDING` apart.
const LOOKS: u64 = 300;

/// How long it waits between two looks, in milliseconds.
pub const ENDING: u64 = 10;

/// How long a node that stops waits for its sessions.
#[derive(Clone, Copy, Debug)]
pub struct LastWait {
    /// When it began to wait, in milliseconds since it began.
    since: u64,
    /// How often it has looked.
    looks: u64,
}

impl LastWait {
    /// Returns how it is when the node stops, at `now`.
    pub fn new(now: u64) -> LastWait
        ensures { result ≡ waits_from now }
    {
        LastWait {
            since: now,
            looks: 0,
        }
    }

    /// Returns whether the node has waited for less than `LONGEST` at `now`, and looked less than `LOOKS` times.
    fn has_time(&self, now: u64) -> bool
        ensures { result ≡ has_time now self.now }
    {
        now.saturating_sub(self.since) < LONGEST && self.looks < LOOKS
    }

    /// Notes whether a session stands at another look, at `now`, and returns whether the node waits on for those that do.
    pub fn look(&mut self, stands: bool, now: u64) -> bool
        ensures waits { result ≡ waits_on stands now self.old }
        ensures looks { self.new ≡ another_look self.old }
    {
        let waits = stands && self.has_time(now);
        self.looks = self.looks.saturating_add(1);
        waits
    }
}

/// Why a node closes a session itself.
#[derive(Clone, Copy, Debug, PartialEq, Eq)]
pub enum Closing {
    /// It stops, and the peer has acknowledged all that it was taught, but for tables that were left.
    Taught,
    /// It stops, and waits for its sessions no longer.
    Cut,
    /// A table gets new numbers.
    Renewal,
}

/// Returns why the node closes a session itself, if it does, given why that is to end for what happens outside it, whether no session may
/// stand, since a table gets new numbers, and whether the node stops and waits for its sessions no longer.
pub fn closing_of(interruption: Option<SessionEnd>, paused: bool, cut: bool) -> Option<Closing>
    ensures { result ≡ closing_of interruption paused cut }
{
    match interruption {
        Some(SessionEnd::End) if paused => Some(Closing::Renewal),
        Some(SessionEnd::End) => Some(Closing::Taught),
        Some(_) => None,
        None if cut => Some(Closing::Cut),
        None => None,
    }
}
