//! When a peer has defined all tables that it will.

ghost use Rattle.std.specs.Prelude.{◌≡◌, None, false};
ghost use Rattle.node_core.specs.Defining.{are_all_defined, begun, ended, first_or, is_long_ago};

use crate::events::ResyncEnd;

/// From the first definition of a peer, or from when it has taught all rows without any, to when it has defined all tables that it will, in
/// milliseconds.
const DEFINING: u64 = 10_000;

/// How far a peer is with defining its tables on a connection.
#[derive(Clone, Copy, Debug)]
pub struct Defining {
    /// When the first definition was noted, if one was, in milliseconds since the node began.
    first: Option<u64>,
    /// Whether the peer has taught a resync to its end.
    has_taught: bool,
    /// When it first ended one as finished, if it has, in milliseconds since the node began.
    finished: Option<u64>,
}

/// Returns whether something was `DEFINING` ago, if it was at all.
fn is_long_ago(time: Option<u64>, now: u64) -> bool
    ensures { result ≡ is_long_ago now time }
{
    match time {
        Some(time) => now.saturating_sub(time) >= DEFINING,
        None => false,
    }
}

/// Returns `first`, or `now` if there is none.
fn first_or(now: u64, first: Option<u64>) -> u64
    ensures { result ≡ first_or now first }
{
    match first {
        Some(first) => first,
        None => now,
    }
}

impl Defining {
    /// Returns how far a peer is on a connection that begins.
    pub fn new() -> Defining
        ensures { result ≡ record { first = None; has_taught = false; finished = None } }
    {
        Defining {
            first: None,
            has_taught: false,
            finished: None,
        }
    }

    /// Notes that the peer has defined a table.
    pub fn define(&mut self, now: u64)
        ensures { self.new ≡ record self.old { first = Some (first_or now self.old.first) } }
    {
        self.first = Some(first_or(now, self.first));
    }

    /// Notes that a resync has ended that the peer taught.
    pub fn end_resync(&mut self, now: u64, end: ResyncEnd)
        ensures { self.new ≡ ended now end self.old }
    {
        match end {
            ResyncEnd::Finished | ResyncEnd::Incomplete => {
                self.has_taught = true;
                self.finished = Some(first_or(now, self.finished));
            }
            ResyncEnd::Partial => self.has_taught = true,
            ResyncEnd::Broken => {}
        }
    }

    /// Returns from when on the peer defines its tables: from its first definition, or, if it has taught all rows without any, from then.
    fn begun(&self) -> Option<u64>
        ensures { result ≡ begun self.now }
    {
        match self.first {
            Some(first) => Some(first),
            None => self.finished,
        }
    }

    /// Returns whether the peer has defined all tables that it will: it has taught a resync to its end, and defined its first table
    /// `DEFINING` ago, or has taught all rows then and defined none. Without a resync it defines a table only with the first row that it
    /// pushes.
    pub fn are_all_defined(&self, now: u64) -> bool
        ensures { result ≡ are_all_defined now self.now }
    {
        self.has_taught && is_long_ago(self.begun(), now)
    }
}
