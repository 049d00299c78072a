//! What the log says of a port at which no connection can be accepted.

use crate::devices::reason_text;
use crate::node::Node;
use node_core::{Accepting, Event, Port};
use std::io::Error;
use std::sync::Wait;
use std::time::Clock;

/// Notes that a connection couldn't be accepted at a port, and says it in the log if the process lacks what it takes and that is news.
pub(crate) fn tell_of_lack<R: Wait + Clock>(
    rt: &R,
    node: &Node,
    port: Port,
    accepting: &mut Accepting,
    error: &Error,
) {
    let Some(code) = error.raw_os_error() else {
        return;
    };
    let Ok(code) = u32::try_from(code) else {
        return;
    };
    let Some(want) = accepting.fail(code) else {
        return;
    };
    let reason = reason_text(node.alloc, error).unwrap_or(String::new(node.alloc));
    let reason = reason.as_bytes();
    node.log_event(rt, Event::NotAccepted { port, want, reason });
}
