//! The doors, at which peers connect.

use crate::accepting::tell_of_lack;
use crate::clock::milliseconds;
use crate::devices::{is_pause, read_piece};
use crate::node::{Node, address_text, host_text};
use crate::slot::{Arrival, Slot};
use node_core::{Accepting, Event, HelloRefusal, Port, Sender, is_longest};
use node_log::{Form, Told, called_by, push_line, said_version, sender_of, status_of};
use node_rules::{Kept, LOOK, SaidPart, Stay, hello_refusal, late_refusal, names_sender, said_in};
use node_text::push_number;
use peers_hello::{Answer, Hello};
use std::alloc::Global;
use std::io::Write;
use std::net::{SocketAddr, TcpListener, TcpStream};
use std::os::fd::OwnedFd;
use std::sync::atomic::{AtomicU64, Ordering};
use std::sync::{Mutex, Wait};
use std::time::Clock;
use std::{io, thread};
use table_types::{Memory, Name};

/// The doors of a node, each a thread.
pub(crate) const DOORS: usize = 4;

/// How long a door waits for a hello, in milliseconds.
const HELLO: u64 = 5_000;

/// How long a door waits for a connection before it looks around, in milliseconds.
const ACCEPT: u64 = 100;

/// The doors of a node. One free door at a time waits for the next connection. While none is free, the one whose connection
/// has been silent longest closes it if another connection comes.
#[derive(Drop)]
pub(crate) struct Doors {
    /// Since when the connection of each door has been silent, in milliseconds since the node began; `None` for a door that is free.
    silent: Mutex<Vec<Option<u64>>>,
    /// Whoever has this lock waits for the next connection.
    turn: Mutex<()>,
    /// How many connections were accepted.
    accepted: AtomicU64,
    /// Whether connections can be accepted, as far as the log says it.
    accepting: Mutex<Accepting>,
    /// The lines about hellos of strangers that the log has.
    told: Mutex<Told>,
}

impl Doors {
    /// Returns doors that are all free.
    pub(crate) fn new(alloc: Global) -> Result<Doors, Memory> {
        let mut silent = Vec::new(alloc);
        for _ in 0..DOORS {
            silent.push(None)?;
        }
        Ok(Doors {
            silent: Mutex::new(silent),
            turn: Mutex::new(()),
            accepted: AtomicU64::new(0),
            accepting: Mutex::new(Accepting::new()),
            told: Mutex::new(Told::new(alloc)),
        })
    }

    /// Notes since when the connection of a door has been silent, or that the door is free.
    fn set<R: Wait>(&self, rt: &R, door: usize, since: Option<u64>) {
        let mut silent = self.silent.lock(rt);
        if let Some(place) = silent.get_mut(door) {
            *place = since;
        }
    }

    /// Returns whether the connection of a door is the first to be closed.
    fn is_first<R: Wait>(&self, rt: &R, door: usize) -> bool {
        let silent = self.silent.lock(rt);
        is_longest(silent.as_slice(), door)
    }
}

/// What a door found on its connection.
#[derive(Drop)]
enum Found {
    /// The hello of the peer with this name.
    Peer(Name),
    /// Another connection, for which the door closes its own.
    Other(Arrival),
    /// Nothing to hand over: the hello was refused, as one that isn't whole in time is, or the connection ended.
    Nothing,
}

/// Returns the index of the peer with this name.
fn peer_with(node: &Node, name: &[u8]) -> Option<usize> {
    node.names.iter().position(|peer| peer.as_slice() == name)
}

/// Returns the place of the peer with this name.
fn slot_of<'a>(node: &'a Node, name: &Name) -> Option<&'a Slot> {
    node.slots.get(peer_with(node, name.as_slice())?)
}

/// Returns whether the peer with this index may come from an address.
fn may_come(node: &Node, peer: usize, address: SocketAddr) -> bool {
    match node.configuration.peers.get(peer) {
        Some(peer) => peer.may_come_from(Some(address.ip())),
        None => false,
    }
}

/// Returns whether it is news that a hello of the peer with this index was refused with this status, and notes that it was.
fn is_news_of<R: Wait>(rt: &R, node: &Node, peer: usize, status: u16) -> bool {
    match node.slots.get(peer) {
        Some(slot) => slot.status(rt).record.refuse(status),
        None => false,
    }
}

/// Returns what a hello that is refused for this reason says instead of what it should, if that is known.
fn said_by(refusal: HelloRefusal, hello: &[u8]) -> &[u8] {
    match said_in(refusal) {
        SaidPart::Version => said_version(hello),
        SaidPart::CalledNode => called_by(hello),
        SaidPart::Nothing => &[],
    }
}

/// Returns who calls itself `name` in a hello, which is empty if it says no name.
pub(crate) fn sender_named<'a>(node: &Node, name: &'a [u8]) -> Option<Sender<'a>> {
    if name.is_empty() {
        None
    } else if peer_with(node, name).is_some() {
        Some(Sender::Peer(name))
    } else {
        Some(Sender::Stranger(name))
    }
}

/// Returns the event of a hello that was refused, whose sender calls itself `name`, which is empty if it says no name, which said this
/// instead of what it should, and which came from this address.
fn hello_event<'a>(
    node: &'a Node,
    name: &'a [u8],
    said: &'a [u8],
    refusal: HelloRefusal,
    address: &'a str,
) -> Event<'a> {
    Event::HelloRefused {
        sender: sender_named(node, name),
        address: address.as_bytes(),
        refusal,
        node: node.configuration.node.as_slice(),
        said,
    }
}

/// Returns what is told of a refused hello of a stranger who calls itself `name` and comes from `host`, or a part of it if memory runs out.
fn line_of_stranger<'x>(
    node: &'x Node,
    refusal: HelloRefusal,
    name: &'x [u8],
    host: &'x str,
) -> Vec<u8> {
    let event = hello_event(node, name, &[], refusal, host);
    let mut line = Vec::new(node.alloc);
    let _whole = push_line(node.alloc, &mut line, Form::Journal, &event);
    line
}

/// Says in the log that a hello from `address` is refused. Returns whether the line isn't left out.
fn tell_of_refusal<'x, R: Wait + Clock>(
    rt: &R,
    node: &'x Node,
    refusal: HelloRefusal,
    name: &'x [u8],
    said: &'x [u8],
    peer: Option<usize>,
    address: &'x str,
) -> bool {
    let event = hello_event(node, name, said, refusal, address);
    node.log.add(rt, peer, &event)
}

/// Says in the log that a hello from `far` is refused, whose sender calls itself `name`, which is empty if it says no name, and which said
/// this instead of what it should, if that is news.
fn log_refusal<R: Wait + Clock>(
    rt: &R,
    node: &Node,
    doors: &Doors,
    far: SocketAddr,
    refusal: HelloRefusal,
    name: &[u8],
    said: &[u8],
) {
    let far = Some(far);
    let text = address_text(node.alloc, far);
    let address = text.as_str();
    if let Some(peer) = peer_with(node, name) {
        if is_news_of(rt, node, peer, status_of(refusal)) {
            let _said = tell_of_refusal(rt, &*node, refusal, &*name, &*said, Some(peer), address);
        }
        return;
    }
    let host = host_text(node.alloc, far);
    let line = line_of_stranger(&*node, refusal, &*name, host.as_str());
    let mut told = doors.told.lock(rt);
    if told.is_news(line.as_slice())
        && tell_of_refusal(rt, &*node, refusal, &*name, &*said, None, address)
    {
        let _noted = told.note(node.alloc, line.as_slice());
    }
}

/// Writes a status line.
fn refuse(alloc: Global, stream: &TcpStream, code: u16) -> io::Result<()> {
    let mut line = Vec::new(alloc);
    push_number(&mut line, u64::from(code))?;
    line.push(b'\n')?;
    let mut to = stream;
    to.write_all(line.as_slice())
}

/// What a read of a hello came to.
#[derive(Clone, Copy, Debug, PartialEq, Eq)]
enum More {
    /// Bytes came.
    Came,
    /// None came yet.
    Waits,
    /// None will come.
    Over,
}

/// Reads more of a hello, if it comes within `LOOK`.
fn read_more(stream: &TcpStream, bytes: &mut Vec<u8>) -> More {
    let mut piece = [0u8; 512];
    let mut from = stream;
    match read_piece(&mut from, &mut piece) {
        Ok(0) => More::Over,
        Ok(count) if bytes.extend_from_slice(&piece[..count.min(512)]).is_ok() => More::Came,
        Ok(_) => More::Over,
        Err(error) if is_pause(error.kind()) => More::Waits,
        Err(_) => More::Over,
    }
}

/// Watches a connection for `LOOK`, and returns whether its peer has dropped it, which isn't seen behind bytes that are unread.
fn is_over<R: Wait + Clock>(rt: &R, stream: &TcpStream) -> bool {
    let mut byte = [0u8; 1];
    match stream.peek(&mut byte) {
        Ok(0) => true,
        Ok(_) => {
            thread::sleep(rt, milliseconds(LOOK));
            false
        }
        Err(error) => !is_pause(error.kind()),
    }
}

/// Has each door that accepts a connection wait for at most `ACCEPT`. The system counts that as the timeout of a read of the
/// listening socket, which another handle of the socket can set.
pub(crate) fn limit_accepts(listener: &TcpListener) -> io::Result<()> {
    let socket = TcpStream::from(OwnedFd::from(listener.try_clone()?));
    socket.set_read_timeout(Some(milliseconds(ACCEPT)))
}

/// Prepares a connection for its hello.
fn greeted(stream: TcpStream) -> io::Result<TcpStream> {
    stream.set_read_timeout(Some(milliseconds(LOOK)))?;
    stream.set_write_timeout(Some(milliseconds(HELLO)))?;
    Ok(stream)
}

/// A door at work.
#[derive(Drop)]
struct Door<'a, R> {
    rt: &'a R,
    node: &'a Node,
    listener: &'a TcpListener,
    doors: &'a Doors,
    index: usize,
}

impl<'a, R: Wait + Clock> Door<'a, R> {
    /// Waits for a connection, for at most `ACCEPT`, and returns it.
    fn accept(&self) -> Option<Arrival> {
        match self.listener.accept() {
            Ok((stream, far)) => {
                self.doors.accepting.lock(self.rt).accept();
                let number = self.doors.accepted.fetch_add(1, Ordering::SeqCst);
                Some(Arrival {
                    number,
                    stream: greeted(stream).ok()?,
                    far,
                    bytes: Vec::new(self.node.alloc),
                })
            }
            Err(error) => {
                if !is_pause(error.kind()) {
                    self.tell_of_lack(&error);
                    thread::sleep(self.rt, milliseconds(ACCEPT));
                }
                None
            }
        }
    }

    /// Notes that a connection couldn't be accepted, which the log says if it is news.
    fn tell_of_lack(&self, error: &io::Error) {
        let mut accepting = self.doors.accepting.lock(self.rt);
        tell_of_lack(self.rt, self.node, Port::Peers, &mut accepting, error);
    }

    /// Waits for the next connection. Returns `None` once the node stops.
    fn next(&self) -> Option<Arrival> {
        let rt = self.rt;
        let _turn = self.doors.turn.lock(rt);
        for _ in rt.forever() {
            if self.node.stops() {
                return None;
            }
            if let Some(arrival) = self.accept() {
                return Some(arrival);
            }
        }
        unreachable!()
    }

    /// Returns what the bytes of a hello come to, or `None` if it isn't whole. One that is refused gets its code.
    fn answer(&self, arrival: &Arrival) -> Option<Found> {
        let node = self.node;
        let own = &node.configuration.node;
        let bytes = arrival.bytes.as_slice();
        let Ok(answer) = Hello::read(node.alloc, bytes, own, node.names.as_slice()) else {
            return Some(Found::Nothing);
        };
        match answer {
            Answer::Accepted(name, _, _) => Some(self.admit(arrival, name)),
            Answer::Refused(status, _) => {
                self.refuse_hello(arrival, status);
                Some(Found::Nothing)
            }
            Answer::More => None,
        }
    }

    /// Returns what the hello of the peer with this name comes to: it is refused if the peer may not come from where it came.
    fn admit(&self, arrival: &Arrival, name: Name) -> Found {
        let comes = self.may_come(arrival, &name);
        match hello_refusal(None, comes) {
            None => Found::Peer(name),
            Some(refusal) => {
                let said = said_by(refusal, arrival.bytes.as_slice());
                self.turn_away(arrival, refusal, name.as_slice(), said);
                Found::Nothing
            }
        }
    }

    /// Refuses a hello that the protocol refuses with this status.
    fn refuse_hello(&self, arrival: &Arrival, status: u16) {
        if let Some(refusal) = hello_refusal(Some(status), false) {
            let bytes = arrival.bytes.as_slice();
            let sender = if names_sender(refusal) {
                sender_of(bytes)
            } else {
                &[]
            };
            self.turn_away(arrival, refusal, sender, said_by(refusal, bytes));
        }
    }

    /// Returns whether a connection comes from where the peer with this name may come.
    fn may_come(&self, arrival: &Arrival, name: &Name) -> bool {
        match peer_with(self.node, name.as_slice()) {
            Some(peer) => may_come(self.node, peer, arrival.far),
            None => false,
        }
    }

    /// Refuses a hello, whose sender calls itself `name`, which is empty if it says no name, and which said this instead of what it should,
    /// and says it in the log if that is news.
    fn turn_away(&self, arrival: &Arrival, refusal: HelloRefusal, name: &[u8], said: &[u8]) {
        let node = self.node;
        let status = status_of(refusal);
        node.count_refused(status);
        log_refusal(self.rt, node, self.doors, arrival.far, refusal, name, said);
        let _refused = refuse(node.alloc, &arrival.stream, status);
    }

    /// Returns why the door goes on with no more of a hello that began at `begun`, if it doesn't at `now`: the node stops, the hello takes
    /// too long and is refused, or another connection comes and this one has been silent longest.
    fn leaves(&self, arrival: &Arrival, begun: u64, now: u64) -> Option<Found> {
        if self.node.stops() {
            return Some(Found::Nothing);
        }
        if now.saturating_sub(begun) >= HELLO {
            let refusal = late_refusal(!arrival.bytes.is_empty());
            self.turn_away(arrival, refusal, &[], &[]);
            return Some(Found::Nothing);
        }
        if !self.doors.is_first(self.rt, self.index) {
            return None;
        }
        let other = self.accept()?;
        Some(Found::Other(other))
    }

    /// Reads a hello until it is whole. How long it takes is judged by when a read begins, so what came while the node stood still is
    /// taken first.
    fn hello(&self, arrival: &mut Arrival) -> Found {
        let rt = self.rt;
        let begun = self.node.clock.milliseconds(rt);
        self.doors.set(rt, self.index, Some(begun));
        for _ in rt.forever() {
            let now = self.node.clock.milliseconds(rt);
            match read_more(&arrival.stream, &mut arrival.bytes) {
                More::Came => {
                    let came = self.node.clock.milliseconds(rt);
                    self.doors.set(rt, self.index, Some(came));
                    if let Some(found) = self.answer(&*arrival) {
                        return found;
                    }
                }
                More::Waits => {}
                More::Over => return Found::Nothing,
            }
            if let Some(found) = self.leaves(&*arrival, begun, now) {
                return found;
            }
        }
        unreachable!()
    }

    /// Hands a connection to the worker of its peer, at once if the worker has no other one. If it has, or had one that was accepted
    /// after this one, this may be the one that the peer drops, so the door keeps it for a while.
    fn hand_over(&self, name: &Name, mut arrival: Arrival) {
        let Some(slot) = slot_of(self.node, name) else {
            return;
        };
        let mut stay = Stay::new();
        for _ in self.rt.forever() {
            match slot.offer(self.rt, arrival) {
                None => return,
                Some(kept) => arrival = kept,
            }
            match stay.look(is_over(self.rt, &arrival.stream)) {
                Kept::Stays => {}
                Kept::IsOver => return,
                Kept::TakesOver => {
                    slot.arrive(self.rt, arrival);
                    return;
                }
            }
        }
        unreachable!()
    }

    /// Takes a connection. Returns another one, for which it closes the first.
    fn take(&self, mut arrival: Arrival) -> Option<Arrival> {
        match self.hello(&mut arrival) {
            Found::Peer(name) => {
                self.hand_over(&name, arrival);
                None
            }
            Found::Other(other) => Some(other),
            Found::Nothing => None,
        }
    }

    /// Takes connections for as long as the node runs, from when its threads have started.
    fn keep(&self) {
        if !self.node.wait_to_connect(self.rt) {
            return;
        }
        let mut next = None;
        for _ in self.rt.forever() {
            let arrival = match next {
                Some(arrival) => arrival,
                None => match self.next() {
                    Some(arrival) => arrival,
                    None => return,
                },
            };
            next = self.take(arrival);
            self.doors.set(self.rt, self.index, None);
        }
    }
}

/// Takes connections of peers at a door for as long as the node runs.
pub(crate) fn keep_door<R: Wait + Clock>(
    rt: &R,
    node: &Node,
    listener: &TcpListener,
    doors: &Doors,
    index: usize,
) {
    let door = Door {
        rt,
        node,
        listener,
        doors,
        index,
    };
    door.keep();
}
