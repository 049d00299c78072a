//! How often each fault came.

use admin_port::FaultCount;
use std::alloc::{AllocError, Global};
use std::sync::{Mutex, Wait};

/// How often each fault came, by its name. A count that is full stays as it is.
#[derive(Drop)]
pub(crate) struct FaultCounts {
    counts: Mutex<Vec<FaultCount>>,
}

impl FaultCounts {
    /// Returns the counts before any fault.
    pub(crate) fn new(alloc: Global) -> FaultCounts {
        FaultCounts {
            counts: Mutex::new(Vec::new(alloc)),
        }
    }

    /// Counts a fault. One that wasn't there before isn't counted if memory runs out.
    pub(crate) fn count<R: Wait>(&self, rt: &R, name: &'static str) {
        let mut counts = self.counts.lock(rt);
        for entry in counts.iter_mut() {
            if entry.name == name {
                entry.count = entry.count.saturating_add(1);
                return;
            }
        }
        let _counted = counts.push(FaultCount { name, count: 1 });
    }

    /// Returns the counts.
    pub(crate) fn list<R: Wait>(
        &self,
        rt: &R,
        alloc: Global,
    ) -> Result<Vec<FaultCount>, AllocError> {
        let counts = self.counts.lock(rt);
        let mut list = Vec::new(alloc);
        list.extend_from_slice(counts.as_slice())?;
        Ok(list)
    }
}
