//! Bells, which wake a thread that waits for something to do.

use std::sync::{Condvar, CondvarTimeouts, Mutex, Wait};
use std::time::{Clock, Duration};

/// A bell counts how often it rang, so that a thread that looked around after it had read the count misses no ring.
#[derive(Drop)]
pub(crate) struct Bell {
    rings: Mutex<u64>,
    waiting: Condvar,
}

impl Bell {
    /// Returns a bell that never rang.
    pub(crate) fn new() -> Bell {
        Bell {
            rings: Mutex::new(0),
            waiting: Condvar::new(),
        }
    }

    /// Rings, and wakes all who wait.
    pub(crate) fn ring<R: Wait>(&self, rt: &R) {
        let mut rings = self.rings.lock(rt);
        *rings = rings.wrapping_add(1);
        drop(rings);
        self.waiting.notify_all();
    }

    /// Returns how often the bell rang.
    pub(crate) fn rings<R: Wait>(&self, rt: &R) -> u64 {
        let rings = self.rings.lock(rt);
        *rings
    }

    /// Waits until the bell rings, for at most `time`. Returns at once if it has rung since the count was `seen`.
    pub(crate) fn wait<R: Wait + Clock>(&self, rt: &R, seen: u64, time: Duration) {
        let rings = self.rings.lock(rt);
        if *rings == seen {
            let (rings, _) = self.waiting.wait_timeout(rt, rings, time);
            drop(rings);
        }
    }
}
