//! The admin port: its connections, and the threads that answer them.

use crate::accepting::tell_of_lack;
use crate::clock::milliseconds;
use crate::devices::{is_pause, read_piece};
use crate::node::{MOST_REQUESTERS, Node};
use crate::reading::{After, Reading};
use crate::requests::Requester;
use crate::sockets::SocketFile;
use crate::streams::{Listener, Stream};
use admin_port::{is_idle_too_long, push_too_many};
use node_core::{Accepting, Port};
use node_rules::{Room, room_for_client};
use std::alloc::{AllocError, Global};
use std::fs::Files;
use std::io::{ErrorKind, Write};
use std::net::Shutdown;
use std::sync::{Arc, Condvar, Mutex, Wait};
use std::time::Clock;
use std::{io, thread};
use table_shards::Seat;

/// How long a read waits before the thread looks whether the node stops, in milliseconds.
const LOOK: u64 = 200;

/// How long a write waits for the client to read, in milliseconds.
const WRITE_TIMEOUT: u64 = 4_000;

/// How long a write of the last answers of a connection waits before the node stops, in milliseconds.
const LAST_WRITE: u64 = 500;

/// How many such writes there are at most.
const LAST_WRITES: u32 = 2;

/// How long a connection waits behind its last answer for the client to close it, in milliseconds.
const LINGER: u64 = 1_000;

/// The size of one read.
const PIECE: usize = 16_384;

/// How long a port waits for what a client says that is too many, in milliseconds.
const GREETING: u64 = 100;

/// How long a port waits after a connection couldn't be accepted, or before it looks again whether there is room, in milliseconds.
const PAUSE: u64 = 20;

/// How often it looks whether there is room for another connection, before the client is told that it is too many.
const LOOKS: u32 = 6;

/// How many places there are: as many as connections, and as many again for those that were shut down.
const PLACES: u32 = 2 * MOST_REQUESTERS;

/// The place of a connection.
#[derive(Drop)]
enum Place {
    /// There is none.
    Free,
    /// It waits for a thread.
    Waits(Arc<Stream>),
    /// It is served by a thread.
    Served(Arc<Stream>),
    /// It was shut down, and its thread hasn't left it yet.
    Shut,
}

impl Place {
    /// Returns whether a connection waits or is served there.
    fn is_taken(&self) -> bool {
        matches!(self, Place::Waits(_) | Place::Served(_))
    }

    /// Closes the connection that waits there, or shuts down the one that is served.
    fn close(&mut self) {
        match self {
            Place::Waits(_) => *self = Place::Free,
            Place::Served(stream) => {
                let _shut = stream.shutdown(Shutdown::Both);
                *self = Place::Shut;
            }
            Place::Free | Place::Shut => {}
        }
    }
}

/// The clients' connections.
#[derive(Drop)]
struct Connections {
    places: Vec<Place>,
    /// For each place since when the connection there has been idle, in milliseconds since the node began; `None` while a request of it is
    /// being answered, until a thread serves it, and if there is none.
    idle: Vec<Option<u64>>,
    /// For each place since when requests of the connection there have been answered, in milliseconds since the node began; `None` while
    /// there is none to be answered.
    answering: Vec<Option<u64>>,
}

impl Connections {
    /// Returns how many there are.
    fn count(&self) -> usize {
        self.places.iter().filter(|place| place.is_taken()).count()
    }

    /// Closes one for another that comes at `now`, if there are too many and one goes. Returns whether there is room.
    fn make_room(&mut self, now: u64) -> bool {
        let room = room_for_client(
            self.count(),
            MOST_REQUESTERS as usize,
            self.idle.as_slice(),
            self.answering.as_slice(),
            now,
        );
        match room {
            Room::Free => true,
            Room::InPlaceOf(leaving) => {
                self.set(leaving, None, None);
                if let Some(place) = self.places.get_mut(leaving) {
                    place.close();
                }
                true
            }
            Room::Full => false,
        }
    }

    /// Notes since when the connection at a place has been idle, or since when requests of it have been answered.
    fn set(&mut self, place: usize, idle: Option<u64>, answering: Option<u64>) {
        if let Some(since) = self.idle.get_mut(place) {
            *since = idle;
        }
        if let Some(since) = self.answering.get_mut(place) {
            *since = answering;
        }
    }

    /// Returns whether the connection at a place is served still.
    fn is_served(&self, place: usize) -> bool {
        matches!(self.places.get(place), Some(Place::Served(_)))
    }

    /// Has a connection wait for a thread, for which another one goes that makes room if there are too many. Returns whether there is room
    /// for it.
    fn add(&mut self, stream: Arc<Stream>, now: u64) -> bool {
        if !self.make_room(now) {
            return false;
        }
        for place in &mut self.places {
            if matches!(place, Place::Free) {
                *place = Place::Waits(stream);
                return true;
            }
        }
        false
    }

    /// Takes one that waits, with its place, to be served from `now` on.
    fn take(&mut self, now: u64) -> Option<(usize, Arc<Stream>)> {
        let waiting = self
            .places
            .iter()
            .position(|place| matches!(place, Place::Waits(_)))?;
        let place = self.places.get_mut(waiting)?;
        let stream = match place {
            Place::Waits(stream) => Arc::try_clone(stream).ok()?,
            _ => return None,
        };
        *place = Place::Served(Arc::try_clone(&stream).ok()?);
        self.set(waiting, Some(now), None);
        Some((waiting, stream))
    }
}

/// The clients of the admin port.
#[derive(Drop)]
struct Clients {
    connections: Mutex<Connections>,
    arrived: Condvar,
}

impl Clients {
    /// Returns the clients before any connection.
    fn new(alloc: Global) -> Result<Clients, AllocError> {
        let mut places = Vec::new(alloc);
        let mut idle = Vec::new(alloc);
        let mut answering = Vec::new(alloc);
        for _ in 0..PLACES {
            places.push(Place::Free)?;
            idle.push(None)?;
            answering.push(None)?;
        }
        Ok(Clients {
            connections: Mutex::new(Connections {
                places,
                idle,
                answering,
            }),
            arrived: Condvar::new(),
        })
    }

    /// Has a connection wait for a thread. Returns whether there is room for it at `now`.
    fn add<R: Wait>(&self, rt: &R, stream: Arc<Stream>, now: u64) -> bool {
        let mut connections = self.connections.lock(rt);
        let added = connections.add(stream, now);
        drop(connections);
        self.arrived.notify_one();
        added
    }

    /// Waits for a connection, and takes it with its place. Returns `None` once the node stops.
    fn take<R: Wait + Clock>(&self, rt: &R, node: &Node) -> Option<(usize, Arc<Stream>)> {
        let mut connections = self.connections.lock(rt);
        for _ in rt.forever() {
            if node.stops() {
                return None;
            }
            if let Some(taken) = connections.take(node.clock.milliseconds(rt)) {
                return Some(taken);
            }
            connections = self.arrived.wait(rt, connections);
        }
        unreachable!()
    }

    /// Notes that what came on the connection at this place is being answered from `now` on. Returns whether it is served still.
    fn begin<R: Wait>(&self, rt: &R, place: usize, now: u64) -> bool {
        let mut connections = self.connections.lock(rt);
        let is_served = connections.is_served(place);
        connections.set(place, None, if is_served { Some(now) } else { None });
        is_served
    }

    /// Notes since when the connection at this place has been idle.
    fn rest<R: Wait>(&self, rt: &R, place: usize, since: u64) {
        let mut connections = self.connections.lock(rt);
        if connections.is_served(place) {
            connections.set(place, Some(since), None);
        }
    }

    /// Notes that the connection at this place is no longer served.
    fn leave<R: Wait>(&self, rt: &R, place: usize) {
        let mut connections = self.connections.lock(rt);
        connections.set(place, None, None);
        if let Some(place) = connections.places.get_mut(place) {
            *place = Place::Free;
        }
    }

    /// Wakes all threads that wait for a connection, and closes those that there are.
    fn end<R: Wait>(&self, rt: &R) {
        let mut connections = self.connections.lock(rt);
        for place in &mut connections.places {
            place.close();
        }
        drop(connections);
        self.arrived.notify_all();
    }
}

/// The admin port: where clients connect, over TCP, at a file, or both.
#[derive(Drop)]
pub(crate) struct AdminPort {
    clients: Clients,
    tcp: Option<Listener>,
    /// The socket at a file, and the file.
    socket: Option<(Listener, SocketFile)>,
}

impl AdminPort {
    /// Returns the port at which nobody connects yet.
    pub(crate) fn new(alloc: Global) -> Result<AdminPort, AllocError> {
        Ok(AdminPort {
            clients: Clients::new(alloc)?,
            tcp: None,
            socket: None,
        })
    }

    /// Has clients connect over TCP.
    pub(crate) fn set_tcp(&mut self, listener: Listener) {
        self.tcp = Some(listener);
    }

    /// Has clients connect at a file.
    pub(crate) fn set_socket(&mut self, listener: Listener, file: SocketFile) {
        self.socket = Some((listener, file));
    }

    /// Returns where clients connect over TCP.
    pub(crate) fn tcp(&self) -> Option<&Listener> {
        self.tcp.as_ref()
    }

    /// Returns where clients connect at a file.
    pub(crate) fn socket(&self) -> Option<&Listener> {
        match &self.socket {
            Some((listener, _)) => Some(listener),
            None => None,
        }
    }

    /// Ends the threads of a node that stops, by shutting down each client's connection.
    pub(crate) fn end<R: Wait>(&self, rt: &R) {
        self.clients.end(rt);
    }

    /// Removes the file at which clients connected.
    pub(crate) fn remove_file<N: Files>(&self, rt: &N) {
        if let Some((_, file)) = &self.socket {
            file.remove(rt);
        }
    }
}

/// Tells a client that there are too many, in the form in which it speaks. It has `GREETING` to say something.
pub(crate) fn say_too_many(alloc: Global, stream: &Stream) -> io::Result<()> {
    stream.limit_reads(GREETING)?;
    stream.limit_writes(GREETING)?;
    let mut piece = [0u8; PIECE];
    let mut from = stream;
    let count = match read_piece(&mut from, &mut piece) {
        Ok(count) => count.min(PIECE),
        Err(error) if is_pause(error.kind()) => 0,
        Err(error) => return Err(error),
    };
    let mut text = Vec::new(alloc);
    push_too_many(&mut text, &piece[..count])?;
    let mut to = stream;
    to.write_all(text.as_slice())?;
    stream.shutdown(Shutdown::Write)
}

/// Has a node stop if that is all that a client asks for on a connection. So it obeys even if no memory is left to read requests.
fn obey_stop<R: Wait>(rt: &R, node: &Node, stream: &Stream, sent: &[u8]) -> io::Result<()> {
    if sent != b"stop\n".as_slice() {
        return Ok(());
    }
    let mut to = stream;
    let answered = to.write_all(b"ok\n");
    node.stop(rt);
    answered
}

/// Writes the last answers of a connection on which a client asks the node to stop, and has it stop. A client that doesn't read them holds
/// it up for `LAST_WRITES` times `LAST_WRITE` at most.
fn stop_behind<R: Wait>(rt: &R, node: &Node, stream: &Stream, answers: &[u8]) {
    let mut left = answers;
    if stream.limit_writes(LAST_WRITE).is_ok() {
        for _ in 0..LAST_WRITES {
            let mut to = stream;
            let Ok(count) = to.write(left) else {
                break;
            };
            left = &left[count.min(left.len())..];
            if left.is_empty() {
                break;
            }
        }
    }
    node.stop(rt);
}

/// Reads what a client sends for which no memory is left, and obeys it if it is `stop`. It has `GREETING` to say that.
fn serve_without_memory<R: Wait>(rt: &R, node: &Node, stream: &Stream) -> io::Result<()> {
    stream.limit_reads(GREETING)?;
    stream.limit_writes(GREETING)?;
    let mut piece = [0u8; PIECE];
    let mut from = stream;
    let count = read_piece(&mut from, &mut piece)?;
    obey_stop(rt, node, stream, &piece[..count.min(PIECE)])
}

/// Has the connection of a client wait for a thread once there is room for it, or says that it is too many.
fn admit<R: Wait + Clock>(
    rt: &R,
    node: &Node,
    clients: &Clients,
    stream: Stream,
) -> io::Result<()> {
    let stream = match Arc::new(node.alloc, stream) {
        Ok(stream) => stream,
        Err(refused) => return serve_without_memory(rt, node, &refused.value),
    };
    for _ in 0..LOOKS {
        let now = node.clock.milliseconds(rt);
        if clients.add(rt, Arc::try_clone(&stream)?, now) {
            return Ok(());
        }
        thread::sleep(rt, milliseconds(PAUSE));
    }
    say_too_many(node.alloc, &*stream)
}

/// Accepts the connections of clients at `listener` for as long as the node runs.
pub(crate) fn accept_clients<R: Wait + Clock>(
    rt: &R,
    node: &Node,
    port: &AdminPort,
    listener: &Listener,
) {
    let mut accepting = Accepting::new();
    for _ in rt.forever() {
        let accepted = listener.accept();
        if node.stops() {
            return;
        }
        match accepted {
            Ok(stream) => {
                accepting.accept();
                let _admitted = admit(rt, node, &port.clients, stream);
            }
            Err(error) if is_pause(error.kind()) => {}
            Err(error) => {
                tell_of_lack(rt, node, Port::Admin, &mut accepting, &error);
                thread::sleep(rt, milliseconds(PAUSE));
            }
        }
    }
}

/// Ends a connection behind its last answer. What the client sends further is read and discarded until the client closes the
/// connection, but for `LINGER` at most: if bytes were left unread, the system would reset the connection, and the client might never
/// see the answer.
fn linger<R: Wait + Clock>(
    rt: &R,
    node: &Node,
    stream: &Stream,
    piece: &mut [u8],
) -> io::Result<()> {
    stream.shutdown(Shutdown::Write)?;
    let begun = node.clock.milliseconds(rt);
    for _ in rt.forever() {
        let now = node.clock.milliseconds(rt);
        if node.stops() || now.saturating_sub(begun) >= LINGER {
            return Ok(());
        }
        let mut from = stream;
        match read_piece(&mut from, piece) {
            Ok(0) => return Ok(()),
            Ok(_) => {}
            Err(error) if is_pause(error.kind()) => {}
            Err(error) => return Err(error),
        }
    }
    unreachable!()
}

/// Reads a piece of what a client sends, if one comes within `LOOK`. Returns its size, 0 for none, or `None` if no more comes.
fn read_more(node: &Node, stream: &Stream, piece: &mut [u8; PIECE]) -> io::Result<Option<usize>> {
    let mut from = stream;
    match read_piece(&mut from, piece) {
        Ok(0) => Ok(None),
        Ok(count) => Ok(Some(count)),
        Err(error) if is_pause(error.kind()) && !node.stops() => Ok(Some(0)),
        Err(error) => Err(error),
    }
}

/// Answers the requests that a client sends with `piece`. Returns whether the connection goes on. `begins` says whether it is the first piece.
fn answer<R: Wait + Clock + Files>(
    rt: &R,
    requester: &mut Requester<'_>,
    reading: &mut Reading,
    stream: &Stream,
    piece: &[u8],
    begins: bool,
) -> io::Result<bool> {
    let mut to = stream;
    let node = requester.node();
    match requester.answer(rt, reading, piece, &mut to) {
        Ok(After::Stops) => {
            stop_behind(rt, node, stream, reading.answers.as_slice());
            Ok(false)
        }
        Ok(after) => Ok(after == After::GoesOn),
        Err(error) if begins && error.kind() == ErrorKind::OutOfMemory => {
            obey_stop(rt, node, stream, piece)?;
            Err(error)
        }
        Err(error) => Err(error),
    }
}

/// Reads requests from the connection at a place and writes their answers until it ends, it has been idle for too long, another takes its
/// place, the node stops, or a line ends it. How long it has been idle is judged when a read begins, so the node first answers what came
/// while it stood still.
fn serve<R: Wait + Clock + Files>(
    rt: &R,
    clients: &Clients,
    place: usize,
    requester: &mut Requester<'_>,
    stream: &Stream,
) -> io::Result<()> {
    stream.limit_reads(LOOK)?;
    stream.limit_writes(WRITE_TIMEOUT)?;
    let node = requester.node();
    let mut reading = Reading::new(node.alloc);
    let mut piece = [0u8; PIECE];
    let mut begins = true;
    let mut since = node.clock.milliseconds(rt);
    for _ in rt.forever() {
        let now = node.clock.milliseconds(rt);
        let Some(count) = read_more(node, stream, &mut piece)? else {
            return Ok(());
        };
        if count > 0 {
            if !clients.begin(rt, place, node.clock.milliseconds(rt)) {
                return Ok(());
            }
            let read = &piece[..count.min(PIECE)];
            let goes_on = answer(rt, requester, &mut reading, stream, read, begins)?;
            begins = false;
            if reading.take_answered() || !goes_on {
                since = node.clock.milliseconds(rt);
            }
            clients.rest(rt, place, since);
            if reading.greeted {
                node.wrong_ports.tell(rt, node, Port::Admin, stream, read);
            }
            if !goes_on {
                return linger(rt, node, stream, &mut piece);
            }
        }
        if is_idle_too_long(since, now) {
            return Ok(());
        }
    }
    unreachable!()
}

/// Answers requests from when the threads of the node have started, for as long as it runs, one client after another.
pub(crate) fn serve_clients<R: Wait + Clock + Files>(
    rt: &R,
    node: &Node,
    port: &AdminPort,
    seat: Seat,
) {
    if !node.wait_to_connect(rt) {
        return;
    }
    let mut requester = Requester::new(node, seat);
    for _ in rt.forever() {
        let Some((place, stream)) = port.clients.take(rt, node) else {
            return;
        };
        let _served = serve(rt, &port.clients, place, &mut requester, &*stream);
        requester.tell_peers(rt);
        port.clients.leave(rt, place);
    }
}
