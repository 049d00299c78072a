//! The node's clock.

use std::io;
use std::time::{Clock, Duration, Instant, SystemTime, UNIX_EPOCH};
use table_types::Moment;

/// The clock of a node. A moment is 2^32 plus the milliseconds since the node began, by a clock that is never set back.
#[derive(Clone, Copy, Debug)]
pub(crate) struct NodeClock {
    start: Instant,
    /// When the node began, in milliseconds since 1970, by the system's clock.
    began: Option<u64>,
}

/// Returns the time by the system's clock, in milliseconds since 1970.
fn since_1970<C: Clock>(rt: &C) -> Option<u64> {
    let now = SystemTime::now(rt).ok()?;
    let elapsed = now.duration_since(UNIX_EPOCH).ok()?;
    u64::try_from(elapsed.as_millis()).ok()
}

impl NodeClock {
    /// Returns a clock that begins now.
    pub(crate) fn new<C: Clock>(rt: &C) -> io::Result<NodeClock> {
        Ok(NodeClock {
            start: Instant::now(rt)?,
            began: since_1970(rt),
        })
    }

    /// Returns when the node began, in milliseconds since 1970, by what the system's clock said then.
    pub(crate) fn began(&self) -> Option<u64> {
        self.began
    }

    /// Returns the milliseconds since the node began, or 0 if the clock can't be read.
    pub(crate) fn milliseconds<C: Clock>(&self, rt: &C) -> u64 {
        match self.start.elapsed(rt) {
            Ok(elapsed) => u64::try_from(elapsed.as_millis()).unwrap_or(u64::MAX),
            Err(_) => 0,
        }
    }

    /// Returns the moment.
    pub(crate) fn now<C: Clock>(&self, rt: &C) -> Moment {
        let milliseconds = self.milliseconds(rt).saturating_add(1 << 32);
        match Moment::new(milliseconds) {
            Some(moment) => moment,
            None => Moment::least(),
        }
    }
}

/// Returns the duration of `count` milliseconds.
pub(crate) fn milliseconds(count: u64) -> Duration {
    Duration::from_millis(count)
}
