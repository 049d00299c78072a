//! The page of metrics that is kept for those who ask next.

use crate::measuring::metrics;
use crate::node::Node;
use admin_port::{Extent, push_metrics};
use node_core::is_kept;
use std::alloc::AllocError;
use std::fs::Files;
use std::sync::{Mutex, Wait};
use std::time::Clock;

/// A page of metrics.
#[derive(Drop)]
struct Made {
    /// When it was begun, in milliseconds since the node began.
    at: u64,
    text: Vec<u8>,
}

/// The page of metrics that is kept, so that those who ask for it again and again have it made once a second at most. While one thread makes
/// it, the others wait for it.
#[derive(Drop)]
pub(crate) struct KeptPage {
    made: Mutex<Option<Made>>,
}

impl KeptPage {
    /// Returns that none is kept yet.
    pub(crate) fn new() -> KeptPage {
        KeptPage {
            made: Mutex::new(None),
        }
    }

    /// Appends the answer to a request for the page, which is made anew unless it is kept still.
    pub(crate) fn push<R: Wait + Clock + Files>(
        &self,
        rt: &R,
        node: &Node,
        text: &mut Vec<u8>,
        extent: Extent,
    ) -> Result<(), AllocError> {
        let mut made = self.made.lock(rt);
        let now = node.clock.milliseconds(rt);
        if let Some(made) = &*made {
            if is_kept(made.at, now) {
                return push_metrics(text, extent, made.text.as_slice());
            }
        }
        let page = metrics(rt, node)?;
        push_metrics(text, extent, page.as_slice())?;
        *made = Some(Made {
            at: now,
            text: page,
        });
        Ok(())
    }
}
