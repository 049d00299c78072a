//! The resyncs of a session, as its log and its metrics tell them.

ghost use Rattle.std.specs.Prelude.{◌≡◌, None, is_some};
ghost use Rattle.node_rules.specs.Resyncs.{asked, begun_at, broken, counts_as, end_of, lacks_tables, learned_in, looked, nothing_asked, nothing_taught, over, resync_end, rows_before};

use node_core::ResyncEnd;

/// A resync that is over.
#[derive(Clone, Copy, Debug)]
pub struct Resync {
    /// How many rows were taught in it.
    pub rows: u64,
    /// How long it took, in milliseconds.
    pub milliseconds: u64,
}

/// Returns how a resync ends in which the node is the teacher, given whether it is up to date and whether it has left a table.
pub fn resync_end(up_to_date: bool, has_left: bool) -> ResyncEnd
    ensures { result ≡ resync_end up_to_date has_left }
{
    if up_to_date && !has_left {
        ResyncEnd::Finished
    } else {
        ResyncEnd::Partial
    }
}

/// Returns whether a peer can't teach the rows of some table, given how many tables it has defined on its session, and whether all tables of
/// this node are among them, each defined as the node does. HAProxy defines all its tables in a resync, so it lacks each one that it doesn't define;
/// a peer that defines none, as a node does that has no rows, lacks nothing.
pub fn lacks_tables(defined: usize, alike: bool) -> bool
    ensures { result ≡ lacks_tables defined alike }
{
    defined > 0 && !alike
}

/// Returns what the end of a resync counts as in which the node was the learner, given whether the peer `lacks` tables: `end`, unless the peer
/// says that it has taught all rows, and can't have taught those of some table.
pub fn counts_as(end: ResyncEnd, lacks: bool) -> ResyncEnd
    ensures { result ≡ counts_as lacks end }
{
    match end {
        ResyncEnd::Finished if lacks => ResyncEnd::Incomplete,
        _ => end,
    }
}

/// The resyncs of a session in which the node is the teacher, as far as looks at it tell.
#[derive(Clone, Copy, Debug)]
pub struct Teaching {
    /// Whether one was under way at the last look.
    under_way: bool,
    /// How many rows were taught by then.
    taught: u64,
    /// How many resyncs had ended by then.
    ended: u64,
    /// How many rows were taught before the one that is under way.
    before: u64,
    /// When that began, in milliseconds since the node did.
    since: u64,
}

impl Teaching {
    /// Returns how it is when the session begins.
    pub fn new() -> Teaching
        ensures { result ≡ nothing_taught }
    {
        Teaching {
            under_way: false,
            taught: 0,
            ended: 0,
            before: 0,
            since: 0,
        }
    }

    /// Returns whether a resync was under way at the last look.
    pub fn is_under_way(&self) -> bool
        ensures { result ≡ self.now.under_way }
    {
        self.under_way
    }

    /// Returns how many rows were taught before the resync that is under way now, or has begun since the last look.
    fn rows_before(&self) -> u64
        ensures { result ≡ rows_before self.now }
    {
        if self.under_way {
            self.before
        } else {
            self.taught
        }
    }

    /// Returns when it began, as far as looks tell.
    fn begun_at(&self, now: u64) -> u64
        ensures { result ≡ begun_at now self.now }
    {
        if self.under_way { self.since } else { now }
    }

    /// Notes at a look how many rows were taught and how many resyncs have ended so far, and whether one is under way. Returns the one
    /// that has ended since the last look, if one has; it may have begun since, too.
    pub fn look(&mut self, now: u64, taught: u64, ended: u64, under_way: bool) -> Option<Resync>
        ensures over { result ≡ over now taught ended self.old }
        ensures looked { self.new ≡ looked now taught ended under_way self.old }
    {
        let before = self.rows_before();
        let since = self.begun_at(now);
        let is_over = ended > self.ended;
        *self = Teaching {
            under_way,
            taught,
            ended,
            before: if is_over { taught } else { before },
            since: if is_over { now } else { since },
        };
        if is_over {
            Some(Resync {
                rows: taught.saturating_sub(before),
                milliseconds: now.saturating_sub(since),
            })
        } else {
            None
        }
    }

    /// Returns the resync that was under way at the last look, if one was: the session has ended, by which this many rows were taught.
    pub fn broken(&self, now: u64, taught: u64) -> Option<Resync>
        ensures { result ≡ broken now taught self.now }
    {
        if !self.under_way {
            return None;
        }
        Some(Resync {
            rows: taught.saturating_sub(self.before),
            milliseconds: now.saturating_sub(self.since),
        })
    }
}

/// How many resyncs the peer has ended.
#[derive(Clone, Copy, Debug)]
pub struct ResyncsHeard {
    /// As finished.
    pub finished: u64,
    /// As partial.
    pub partial: u64,
}

/// The resync of a session in which the node is the learner.
#[derive(Clone, Copy, Debug)]
pub struct Learning {
    /// How many the peer had ended when it was last asked, if it hasn't answered.
    asked: Option<ResyncsHeard>,
    /// How many rows were learned before it was asked.
    before: u64,
    /// When it was first asked, in milliseconds since the node began.
    since: u64,
}

impl Learning {
    /// Returns how it is when the session begins.
    pub fn new() -> Learning
        ensures { result ≡ nothing_asked }
    {
        Learning {
            asked: None,
            before: 0,
            since: 0,
        }
    }

    /// Returns whether the peer was asked and hasn't answered.
    pub fn is_under_way(&self) -> bool
        ensures { result ≡ is_some self.now.asked }
    {
        self.asked.is_some()
    }

    /// Notes that the node asks the peer at `now`, when it has learned `learned` rows and `heard` counts the ends of resyncs that the
    /// peer has sent. A peer that was asked before, and hasn't answered, goes on with the same resync.
    pub fn ask(&mut self, now: u64, learned: u64, heard: ResyncsHeard)
        ensures { self.new ≡ asked now learned heard self.old }
    {
        if self.asked.is_none() {
            self.before = learned;
            self.since = now;
        }
        self.asked = Some(heard);
    }

    /// Returns how the resync has ended that the peer was asked for, if it has, given how many it has ended so far.
    pub fn end_of(&self, heard: ResyncsHeard) -> Option<ResyncEnd>
        ensures { result ≡ end_of heard self.now.asked }
    {
        match self.asked {
            Some(asked) if heard.finished > asked.finished => Some(ResyncEnd::Finished),
            Some(asked) if heard.partial > asked.partial => Some(ResyncEnd::Partial),
            _ => None,
        }
    }

    /// Notes that the resync is over, by when this many rows were learned, and returns it.
    pub fn end(&mut self, now: u64, learned: u64) -> Resync
        ensures resync { result ≡ learned_in now learned self.old }
        ensures ended { self.new ≡ record self.old { asked = None } }
    {
        self.asked = None;
        Resync {
            rows: learned.saturating_sub(self.before),
            milliseconds: now.saturating_sub(self.since),
        }
    }
}
