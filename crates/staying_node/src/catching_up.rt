//! Whom the node asks for all rows, for the threads that it concerns.

use node_core::{Asking, ResyncEnd, WaitEnd};
use std::alloc::{AllocError, Global};
use std::sync::{Mutex, Wait};

/// What has changed by the time that has passed.
#[derive(Clone, Copy, Debug)]
pub(crate) struct Passed {
    /// The index of the peer that is no longer waited for, and why.
    pub(crate) unanswered: Option<(usize, WaitEnd)>,
    /// Whether the node has just become up to date, since nobody has more to teach.
    pub(crate) settled: bool,
}

/// Whether a peer may be asked for all rows on its session.
#[derive(Clone, Copy, Debug, PartialEq, Eq)]
pub(crate) enum Offer {
    /// Not yet.
    Waits,
    /// Yes.
    Open,
    /// No longer: it has answered, and the node is up to date.
    Over,
}

/// How a node catches up: the machine that decides it, under a lock.
#[derive(Drop)]
pub(crate) struct CatchingUp {
    asking: Mutex<Asking>,
}

impl CatchingUp {
    /// Returns how a node with `peers` peers begins.
    pub(crate) fn new(alloc: Global, peers: usize) -> Result<CatchingUp, AllocError> {
        let asking = Asking::new(alloc, peers)?;
        Ok(CatchingUp {
            asking: Mutex::new(asking),
        })
    }

    /// Returns whether the node is up to date.
    pub(crate) fn is_up_to_date<R: Wait>(&self, rt: &R) -> bool {
        let asking = self.asking.lock(rt);
        asking.is_up_to_date()
    }

    /// Returns whether a peer has taught the node all rows, so that no peer is asked from now on.
    pub(crate) fn is_taught<R: Wait>(&self, rt: &R) -> bool {
        let asking = self.asking.lock(rt);
        asking.is_taught()
    }

    /// Returns whether a peer that was asked has shown that it doesn't define all tables as this node does.
    pub(crate) fn is_incomplete<R: Wait>(&self, rt: &R) -> bool {
        let asking = self.asking.lock(rt);
        asking.is_incomplete()
    }

    /// Notes that a session with the peer with this index begins.
    pub(crate) fn begin<R: Wait>(&self, rt: &R, peer: usize) {
        let mut asking = self.asking.lock(rt);
        asking.begin(peer);
    }

    /// Notes that the session with the peer with this index is over.
    pub(crate) fn end<R: Wait>(&self, rt: &R, peer: usize) {
        let mut asking = self.asking.lock(rt);
        asking.end(peer);
    }

    /// Returns whether the peer with this index is to be asked now, and notes that it is.
    pub(crate) fn asks<R: Wait>(&self, rt: &R, peer: usize, now: u64) -> bool {
        let mut asking = self.asking.lock(rt);
        asking.ask(peer, now)
    }

    /// Notes that the peer with this index has brought a row.
    pub(crate) fn hear<R: Wait>(&self, rt: &R, peer: usize, now: u64) {
        let mut asking = self.asking.lock(rt);
        asking.hear(peer, now);
    }

    /// Notes how the resync has ended for which the peer with this index was asked, and whether the peer `lacks` tables. Returns whether the
    /// node becomes up to date by that.
    pub(crate) fn end_resync<R: Wait>(
        &self,
        rt: &R,
        peer: usize,
        end: ResyncEnd,
        lacks: bool,
    ) -> bool {
        let mut asking = self.asking.lock(rt);
        match end {
            ResyncEnd::Finished => return asking.finish(peer),
            ResyncEnd::Incomplete => asking.finish_incompletely(peer),
            ResyncEnd::Partial => asking.finish_partly(peer, lacks),
            ResyncEnd::Broken => {}
        }
        false
    }

    /// Notes that the node was held up until `now`.
    pub(crate) fn wait_anew<R: Wait>(&self, rt: &R, now: u64) {
        let mut asking = self.asking.lock(rt);
        asking.wait_anew(now);
    }

    /// Notes the time, and returns what has changed by it.
    pub(crate) fn pass<R: Wait>(&self, rt: &R, now: u64) -> Passed {
        let mut asking = self.asking.lock(rt);
        Passed {
            unanswered: asking.lapse(now),
            settled: asking.settle(now),
        }
    }
}
