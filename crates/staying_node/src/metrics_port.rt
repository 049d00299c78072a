//! The port of metrics, which answers HTTP and changes nothing: its connections, and the threads that answer them.

use crate::accepting::tell_of_lack;
use crate::clock::milliseconds;
use crate::devices::{is_pause, read_piece};
use crate::kept_page::KeptPage;
use crate::node::Node;
use crate::reading::Reading;
use crate::streams::{Listener, Stream};
use crate::viewing::Viewer;
use admin_port::{is_idle_too_long, push_too_many_clients};
use node_core::{Accepting, Port};
use node_rules::{Room, room_for_visit};
use std::alloc::{AllocError, Global};
use std::fs::Files;
use std::io::{ErrorKind, Write};
use std::net::Shutdown;
use std::sync::{Condvar, Mutex, Wait};
use std::time::Clock;
use std::{io, mem, thread};

/// How many threads answer.
pub(crate) const VIEWERS: usize = 4;

/// How many connections there are at most.
const MOST_VISITS: usize = 32;

/// How long a thread waits for what a client sends before it turns to another one, in milliseconds.
const TURN: u64 = 50;

/// How long a write waits before the thread looks whether it takes too long, in milliseconds.
const LOOK: u64 = 200;

/// How long an answer may take to be written, in milliseconds.
const WRITE_TIME: u64 = 3_000;

/// How long a connection waits behind its answer for the client to close it, in milliseconds.
const LINGER: u64 = 1_000;

/// How long the port waits for what a client says that is too many, in milliseconds.
const GREETING: u64 = 50;

/// How long the port waits after a connection couldn't be accepted, in milliseconds.
const PAUSE: u64 = 20;

/// The size of one read.
const PIECE: usize = 4_096;

/// A connection, and how far it has come.
#[derive(Drop)]
struct Visit {
    stream: Stream,
    reading: Reading,
    /// When it began, in milliseconds since the node did.
    begun: u64,
    /// Whether a thread found that nothing had come.
    waits: bool,
    /// When it was answered, if it was, in milliseconds since the node began.
    answered: Option<u64>,
}

impl Visit {
    /// Returns the visit of a connection that begins now.
    fn new(alloc: Global, stream: Stream, begun: u64) -> io::Result<Visit> {
        stream.limit_reads(TURN)?;
        stream.limit_writes(LOOK)?;
        Ok(Visit {
            stream,
            reading: Reading::new(alloc),
            begun,
            waits: false,
            answered: None,
        })
    }

    /// Returns since when the visit has been idle, if a thread found that nothing had come.
    fn idle(&self) -> Option<u64> {
        if self.waits { Some(self.begun) } else { None }
    }

    /// Returns whether the visit is over at `now`, though the client hasn't ended it.
    fn is_over(&self, now: u64) -> bool {
        match self.answered {
            Some(answered) => now.saturating_sub(answered) >= LINGER,
            None => is_idle_too_long(self.begun, now),
        }
    }

    /// Reads what has come, answers it if it is a whole request, and discards it if one was answered. Returns whether the visit
    /// goes on, judged when the read begins, so the node first answers what came while it stood still.
    fn turn<R: Wait + Clock + Files>(&mut self, rt: &R, viewer: &Viewer<'_>) -> io::Result<bool> {
        let now = viewer.node().clock.milliseconds(rt);
        let mut piece = [0u8; PIECE];
        let mut from = &self.stream;
        match read_piece(&mut from, &mut piece) {
            Ok(0) => return Ok(false),
            Ok(count) if self.answered.is_none() => {
                self.waits = false;
                self.answer(rt, viewer, &piece[..count.min(PIECE)])?;
            }
            Ok(_) => {}
            Err(error) if is_pause(error.kind()) => self.waits = true,
            Err(error) => return Err(error),
        }
        Ok(!viewer.node().stops() && !self.is_over(now))
    }

    /// Answers the request that goes on with `piece` if it ends there. Behind the answer no more is written.
    fn answer<R: Wait + Clock + Files>(
        &mut self,
        rt: &R,
        viewer: &Viewer<'_>,
        piece: &[u8],
    ) -> io::Result<()> {
        let node = viewer.node();
        let mut reply = Reply {
            rt,
            node,
            stream: &self.stream,
            until: node.clock.milliseconds(rt).saturating_add(WRITE_TIME),
        };
        if !viewer.answer(rt, &mut self.reading, piece, &mut reply)? {
            if self.reading.greeted {
                node.wrong_ports
                    .tell(rt, node, Port::Metrics, &self.stream, piece);
            }
            self.answered = Some(node.clock.milliseconds(rt));
            self.stream.shutdown(Shutdown::Write)?;
        }
        Ok(())
    }
}

/// A connection on which an answer is written, until a time by the node's clock or until the node stops.
#[derive(Drop)]
struct Reply<'a, R> {
    rt: &'a R,
    node: &'a Node,
    stream: &'a Stream,
    until: u64,
}

impl<'a, R: Wait + Clock> Write for Reply<'a, R> {
    fn write(&mut self, bytes: &[u8]) -> io::Result<usize> {
        for _ in self.rt.forever() {
            if self.node.stops() || self.node.clock.milliseconds(self.rt) >= self.until {
                return Err(ErrorKind::TimedOut.into());
            }
            let mut to = self.stream;
            match to.write(bytes) {
                Err(error) if is_pause(error.kind()) => {}
                written => return written,
            }
        }
        unreachable!()
    }

    fn flush(&mut self) -> io::Result<()> {
        Ok(())
    }
}

/// The visits: those that wait for a thread, and how many threads have.
#[derive(Drop)]
struct Queue {
    /// The next one to be taken is the last.
    waiting: Vec<Visit>,
    taken: usize,
}

impl Queue {
    /// Makes room for another visit, for which the one goes that has been idle longest of those that wait for a thread if there are too
    /// many. Returns whether there is room.
    fn make_room(&mut self) -> bool {
        let mut idle = [None; MOST_VISITS];
        for (since, visit) in idle.iter_mut().zip(self.waiting.iter()) {
            *since = visit.idle();
        }
        let count = self.waiting.len().saturating_add(self.taken);
        match room_for_visit(count, MOST_VISITS, &idle) {
            Room::Free => true,
            Room::InPlaceOf(leaving) if leaving < self.waiting.len() => {
                drop(self.waiting.remove(leaving));
                true
            }
            Room::InPlaceOf(_) | Room::Full => false,
        }
    }
}

/// The visits of the port, for its threads.
#[derive(Drop)]
struct Visits {
    queue: Mutex<Queue>,
    arrived: Condvar,
}

impl Visits {
    /// Returns the visits before any connection.
    fn new(alloc: Global) -> Result<Visits, AllocError> {
        Ok(Visits {
            queue: Mutex::new(Queue {
                waiting: Vec::with_capacity(alloc, MOST_VISITS)?,
                taken: 0,
            }),
            arrived: Condvar::new(),
        })
    }

    /// Has a visit wait, as the next one to be taken. Hands it back if there is no room.
    fn add<R: Wait>(&self, rt: &R, visit: Visit) -> Option<Visit> {
        let mut queue = self.queue.lock(rt);
        if !queue.make_room() {
            return Some(visit);
        }
        let added = queue.waiting.push(visit);
        drop(queue);
        self.arrived.notify_one();
        match added {
            Ok(()) => None,
            Err(refused) => Some(refused.value),
        }
    }

    /// Waits for a visit, and takes it. Returns `None` once the node stops.
    fn take<R: Wait>(&self, rt: &R, node: &Node) -> Option<Visit> {
        let mut queue = self.queue.lock(rt);
        for _ in rt.forever() {
            if node.stops() {
                return None;
            }
            if let Some(visit) = queue.waiting.pop() {
                queue.taken = queue.taken.saturating_add(1);
                return Some(visit);
            }
            queue = self.arrived.wait(rt, queue);
        }
        unreachable!()
    }

    /// Has a visit that was taken wait again, behind all others.
    fn put_back<R: Wait>(&self, rt: &R, visit: Visit) {
        let mut queue = self.queue.lock(rt);
        queue.taken = queue.taken.saturating_sub(1);
        let _waits = queue.waiting.insert(0, visit);
        drop(queue);
        self.arrived.notify_one();
    }

    /// Notes that a visit that was taken is over.
    fn leave<R: Wait>(&self, rt: &R) {
        let mut queue = self.queue.lock(rt);
        queue.taken = queue.taken.saturating_sub(1);
    }

    /// Wakes all threads, and ends the visits that wait.
    fn end<R: Wait>(&self, rt: &R, alloc: Global) {
        let mut queue = self.queue.lock(rt);
        let waiting = mem::replace(&mut queue.waiting, Vec::new(alloc));
        drop(queue);
        drop(waiting);
        self.arrived.notify_all();
    }
}

/// The port of metrics.
#[derive(Drop)]
pub(crate) struct MetricsPort {
    listener: Listener,
    visits: Visits,
    page: KeptPage,
}

impl MetricsPort {
    /// Returns the port at which clients connect by `listener`.
    pub(crate) fn new(alloc: Global, listener: Listener) -> Result<MetricsPort, AllocError> {
        Ok(MetricsPort {
            listener,
            visits: Visits::new(alloc)?,
            page: KeptPage::new(),
        })
    }

    /// Ends the threads of a node that stops.
    pub(crate) fn end<R: Wait>(&self, rt: &R, alloc: Global) {
        self.visits.end(rt, alloc);
    }
}

/// Tells a client that there are too many. It has `GREETING` to send its request.
fn say_too_many(alloc: Global, stream: &Stream) -> io::Result<()> {
    stream.limit_reads(GREETING)?;
    let mut piece = [0u8; PIECE];
    let mut from = stream;
    let _request = read_piece(&mut from, &mut piece);
    let mut text = Vec::new(alloc);
    push_too_many_clients(&mut text)?;
    let mut to = stream;
    to.write_all(text.as_slice())?;
    stream.shutdown(Shutdown::Write)
}

/// Has a connection wait for a thread, or says that it is too many.
fn admit<R: Wait + Clock>(rt: &R, node: &Node, visits: &Visits, stream: Stream) -> io::Result<()> {
    let now = node.clock.milliseconds(rt);
    match visits.add(rt, Visit::new(node.alloc, stream, now)?) {
        Some(visit) => say_too_many(node.alloc, &visit.stream),
        None => Ok(()),
    }
}

/// Accepts connections for as long as the node runs.
pub(crate) fn accept_visits<R: Wait + Clock>(rt: &R, node: &Node, port: &MetricsPort) {
    let mut accepting = Accepting::new();
    for _ in rt.forever() {
        let accepted = port.listener.accept();
        if node.stops() {
            return;
        }
        match accepted {
            Ok(stream) => {
                accepting.accept();
                let _admitted = admit(rt, node, &port.visits, stream);
            }
            Err(error) if is_pause(error.kind()) => {}
            Err(error) => {
                tell_of_lack(rt, node, Port::Metrics, &mut accepting, &error);
                thread::sleep(rt, milliseconds(PAUSE));
            }
        }
    }
}

/// Answers requests from when the threads of the node have started, for as long as it runs: turns to one client after another, and
/// again to those that have sent no whole request.
pub(crate) fn serve_visits<R: Wait + Clock + Files>(rt: &R, node: &Node, port: &MetricsPort) {
    if !node.wait_to_connect(rt) {
        return;
    }
    let viewer = Viewer::keeping(node, &port.page);
    for _ in rt.forever() {
        let Some(mut visit) = port.visits.take(rt, node) else {
            return;
        };
        match visit.turn(rt, &viewer) {
            Ok(true) => port.visits.put_back(rt, visit),
            Ok(false) | Err(_) => {
                drop(visit);
                port.visits.leave(rt);
            }
        }
    }
}
