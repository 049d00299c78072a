//! The place of a peer in the node.

use crate::bell::Bell;
use crate::definitions::SaidOfTables;
use crate::status::PeerStatus;
use node_rules::Arrivals;
use std::alloc::Global;
use std::mem;
use std::net::{Shutdown, SocketAddr, TcpStream};
use std::sync::{Arc, Mutex, MutexGuard, Wait};

/// A connection that a door accepted.
#[derive(Drop)]
pub(crate) struct Arrival {
    /// Its number. One that is accepted later has a greater number.
    pub(crate) number: u64,
    /// The connection.
    pub(crate) stream: TcpStream,
    /// The address of its far end, which the system no longer tells once that has reset the connection.
    pub(crate) far: SocketAddr,
    /// The bytes that were read from it: its hello, and what came with it.
    pub(crate) bytes: Vec<u8>,
}

/// The connections that come to the worker of a peer: those whose hello named the peer and this node.
#[derive(Drop)]
struct Coming {
    /// The one that waits for the worker.
    waiting: Option<Arrival>,
    arrivals: Arrivals,
}

/// The place of a peer: what wakes its worker, a connection that waits for it, and what is known of it.
#[derive(Drop)]
pub(crate) struct Slot {
    /// What wakes the peer's worker.
    pub(crate) bell: Bell,
    coming: Mutex<Coming>,
    /// The connection of the session that stands.
    present: Mutex<Option<Arc<TcpStream>>>,
    status: Mutex<PeerStatus>,
    said_of_tables: Mutex<SaidOfTables>,
}

impl Slot {
    /// Returns the place of a peer with which there was no session.
    pub(crate) fn new(alloc: Global) -> Slot {
        Slot {
            bell: Bell::new(),
            coming: Mutex::new(Coming {
                waiting: None,
                arrivals: Arrivals::new(),
            }),
            present: Mutex::new(None),
            status: Mutex::new(PeerStatus::new(alloc)),
            said_of_tables: Mutex::new(SaidOfTables::new(alloc)),
        }
    }

    /// Has a connection wait for the worker if none waits, no session stands, and none came that was accepted after it. Otherwise gives
    /// it back.
    pub(crate) fn offer<R: Wait>(&self, rt: &R, arrival: Arrival) -> Option<Arrival> {
        let mut coming = self.coming.lock(rt);
        let has_other = coming.waiting.is_some() || self.has_session(rt);
        if !coming.arrivals.offer(arrival.number, has_other) {
            return Some(arrival);
        }
        coming.waiting = Some(arrival);
        drop(coming);
        self.bell.ring(rt);
        None
    }

    /// Has a connection wait for the worker, in the place of one that waits already. Shuts down the connection of the session that
    /// stands, so that its worker doesn't wait for it. The worker can only afterwards take the one that waits now, so this never shuts
    /// that one down.
    pub(crate) fn arrive<R: Wait>(&self, rt: &R, arrival: Arrival) {
        let mut coming = self.coming.lock(rt);
        self.shut(rt);
        coming.arrivals.arrive(arrival.number);
        let former = mem::replace(&mut coming.waiting, Some(arrival));
        drop(coming);
        drop(former);
        self.bell.ring(rt);
    }

    /// Returns whether a connection waits.
    pub(crate) fn has_arrival<R: Wait>(&self, rt: &R) -> bool {
        let coming = self.coming.lock(rt);
        coming.waiting.is_some()
    }

    /// Takes the connection that waits, if there is one.
    pub(crate) fn take_arrival<R: Wait>(&self, rt: &R) -> Option<Arrival> {
        let mut coming = self.coming.lock(rt);
        mem::replace(&mut coming.waiting, None)
    }

    /// Notes the connection of the session that stands, or that none does.
    pub(crate) fn set_present<R: Wait>(&self, rt: &R, stream: Option<Arc<TcpStream>>) {
        let mut present = self.present.lock(rt);
        let former = mem::replace(&mut *present, stream);
        drop(present);
        drop(former);
    }

    /// Returns whether a session stands, or its hello isn't over.
    pub(crate) fn has_session<R: Wait>(&self, rt: &R) -> bool {
        let present = self.present.lock(rt);
        present.is_some()
    }

    /// Shuts down the connection of the session that stands, so that nothing waits for it.
    pub(crate) fn shut<R: Wait>(&self, rt: &R) {
        let present = self.present.lock(rt);
        if let Some(stream) = &*present {
            let _shut = stream.shutdown(Shutdown::Both);
        }
    }

    /// Waits for the lock of what is known of the peer, and takes it.
    pub(crate) fn status<'a, R: Wait>(&'a self, rt: &R) -> MutexGuard<'a, PeerStatus> {
        self.status.lock(rt)
    }

    /// Waits for the lock of what the log has said of the peer's tables, and takes it.
    pub(crate) fn said_of_tables<'a, R: Wait>(&'a self, rt: &R) -> MutexGuard<'a, SaidOfTables> {
        self.said_of_tables.lock(rt)
    }
}
