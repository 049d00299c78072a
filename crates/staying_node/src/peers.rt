//! The worker of a peer: it connects, takes connections of the peer, and holds its sessions.

use crate::clock::milliseconds;
use crate::devices::reason_text;
use crate::node::{Node, REST};
use crate::sessions::{Connection, Place, hold};
use crate::slot::Arrival;
use admin_port::PeerRole;
use node_core::{Failure, PeerEvent, WRITE_TIME};
use node_rules::{Attempts, NextStep, Prospect};
use std::io;
use std::net::{Net, SocketAddr, TcpListener, TcpStream};
use std::sync::Wait;
use std::thread::Threads;
use std::time::Clock;
use table_shards::Seat;
use table_types::Version;

/// How long an attempt to connect takes at most, in milliseconds.
const ATTEMPT: u64 = 2_000;

/// Has a connection send at once what is written, and give up a write after `WRITE_TIME`.
pub(crate) fn prepared(stream: TcpStream) -> io::Result<TcpStream> {
    stream.set_nodelay(true)?;
    stream.set_read_timeout(None)?;
    stream.set_write_timeout(Some(milliseconds(WRITE_TIME)))?;
    Ok(stream)
}

/// Connects to a peer.
fn connected<N: Net<Listener = TcpListener, Stream = TcpStream>>(
    rt: &N,
    address: &SocketAddr,
) -> io::Result<TcpStream> {
    let stream = TcpStream::connect_timeout(rt, address, milliseconds(ATTEMPT))?;
    prepared(stream)
}

/// Makes the connection of an arrival.
fn connection_of(arrival: Arrival) -> Option<Connection> {
    let Arrival { stream, bytes, .. } = arrival;
    let Ok(stream) = prepared(stream) else {
        return None;
    };
    Some(Connection {
        stream,
        role: PeerRole::Accept,
        version: Version::V21,
        bytes,
    })
}

/// Returns a connection to work with, if there is one: one that waits, or one that this node makes now.
fn next_connection<N: Net<Listener = TcpListener, Stream = TcpStream> + Wait + Clock>(
    place: &Place<'_, N>,
    attempts: &mut Attempts,
    now: u64,
) -> Option<Connection> {
    let node = place.node;
    let prospect = Prospect {
        paused: node.is_paused(),
        arrival: place.slot.has_arrival(place.rt),
    };
    match attempts.next(now, prospect) {
        NextStep::Takes => connection_of(place.slot.take_arrival(place.rt)?),
        NextStep::Connects => {
            let address = node.configuration.peers.get(place.peer)?.address?;
            let version = attempts.begin();
            Some(Connection {
                stream: attempt(place, &address)?,
                role: PeerRole::Connect,
                version,
                bytes: Vec::new(node.alloc),
            })
        }
        NextStep::Waits => None,
    }
}

/// Connects to a peer if it can be reached. The log says so if that is news.
fn attempt<N: Net<Listener = TcpListener, Stream = TcpStream> + Wait + Clock>(
    place: &Place<'_, N>,
    address: &SocketAddr,
) -> Option<TcpStream> {
    let (rt, node, slot) = (place.rt, place.node, place.slot);
    if slot.status(rt).record.attempt() {
        node.log_peer_event(rt, place.peer, PeerEvent::Connecting);
    }
    match connected(rt, address) {
        Ok(stream) => Some(stream),
        Err(error) => {
            let failure = Failure::Unreachable(error.raw_os_error());
            if slot.status(rt).record.fail(failure) {
                let reason = reason_text(node.alloc, &error).unwrap_or(String::new(node.alloc));
                let reason = reason.as_bytes();
                node.log_peer_event(rt, place.peer, PeerEvent::Unreachable { reason });
            }
            None
        }
    }
}

/// Holds sessions at a peer's place, one after another, until the node stops.
fn keep_sessions<
    N: Net<Listener = TcpListener, Stream = TcpStream> + Threads + Wait + Clock + Sync,
>(place: &Place<'_, N>, mut seat: Seat) {
    let (rt, node, slot) = (place.rt, place.node, place.slot);
    let mut attempts = Attempts::new();
    for _ in rt.forever() {
        let seen = slot.bell.rings(rt);
        if node.stops() {
            return;
        }
        let now = node.clock.milliseconds(rt);
        let was_due = attempts.is_due(now);
        match next_connection(place, &mut attempts, now) {
            Some(connection) => {
                let (returned, fell_back) = hold(place, seat, connection);
                seat = returned;
                end_attempt(place, &mut attempts, fell_back);
            }
            None => {
                if was_due {
                    end_attempt(place, &mut attempts, false);
                }
                let time = attempts.rest(now).min(REST);
                slot.bell.wait(rt, seen, milliseconds(time));
            }
        }
    }
}

/// Notes that a session or an attempt has ended, and whether the peer refused version 2.1 in it.
fn end_attempt<N: Wait + Clock>(place: &Place<'_, N>, attempts: &mut Attempts, fell_back: bool) {
    let now = place.node.clock.milliseconds(place.rt);
    let rests_until = place.slot.status(place.rt).record.rests_until();
    attempts.end(now, rests_until, fell_back);
}

/// Keeps a session with a peer for as long as the node runs, from when its threads have started.
pub(crate) fn keep_peer<
    N: Net<Listener = TcpListener, Stream = TcpStream> + Threads + Wait + Clock + Sync,
>(rt: &N, node: &Node, peer: usize, seat: Seat) {
    let Some(slot) = node.slots.get(peer) else {
        return;
    };
    if !node.wait_to_connect(rt) {
        return;
    }
    let place = Place {
        rt,
        node,
        slot,
        peer,
    };
    keep_sessions(&place, seat);
}
