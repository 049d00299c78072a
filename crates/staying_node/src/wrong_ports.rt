//! Peers that speak to a port that isn't theirs.

use crate::doors::sender_named;
use crate::node::{Node, address_text, host_text};
use crate::streams::Stream;
use node_core::{Event, Port};
use node_log::{Form, Told, is_greeting, pid_of, push_line, sender_of};
use std::alloc::Global;
use std::sync::{Mutex, Wait};
use std::time::Clock;

/// The lines about such peers that the log has.
#[derive(Drop)]
pub(crate) struct WrongPorts {
    told: Mutex<Told>,
}

/// Returns the name by which the sender of a hello calls itself, if the hello begins with these bytes and they have the whole name.
fn sender_in(hello: &[u8]) -> &[u8] {
    if is_greeting(hello) && pid_of(hello).is_some() {
        sender_of(hello)
    } else {
        &[]
    }
}

/// Returns the line about a peer on `host` that calls itself `name` and speaks to a port, by which it is known again, or a part of it if
/// memory runs out.
fn line_of<'x>(node: &'x Node, port: Port, name: &'x [u8], host: &'x str) -> Vec<u8> {
    let event = Event::WrongPort {
        port,
        sender: sender_named(node, name),
        address: host.as_bytes(),
        listen: &[],
    };
    let mut line = Vec::new(node.alloc);
    let _whole = push_line(node.alloc, &mut line, Form::Journal, &event);
    line
}

impl WrongPorts {
    /// Returns what was told at first: nothing.
    pub(crate) fn new(alloc: Global) -> WrongPorts {
        WrongPorts {
            told: Mutex::new(Told::new(alloc)),
        }
    }

    /// Says in the log that a peer speaks to a port over this connection, once for each port, host and name. `piece` is what came last, in
    /// which a hello most often comes whole.
    pub(crate) fn tell<R: Wait + Clock>(
        &self,
        rt: &R,
        node: &Node,
        port: Port,
        stream: &Stream,
        piece: &[u8],
    ) {
        let far = stream.far();
        let name = sender_in(piece);
        let host = host_text(node.alloc, far);
        let line = line_of(&*node, port, &*name, host.as_str());
        let address = address_text(node.alloc, far);
        let listen = address_text(node.alloc, Some(node.configuration.listen));
        let event = Event::WrongPort {
            port,
            sender: sender_named(node, &*name),
            address: address.as_bytes(),
            listen: listen.as_bytes(),
        };
        let mut told = self.told.lock(rt);
        if told.is_news(line.as_slice()) && node.log.add(rt, None, &event) {
            let _noted = told.note(node.alloc, line.as_slice());
        }
    }
}
