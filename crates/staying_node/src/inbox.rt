//! What arrived on a connection and wasn't read yet.

ghost use Rattle.std.specs.Prelude.{◌≡◌, IfOk};
ghost use Rattle.std.specs.Io.{ReadsAtMost};

use crate::bell::Bell;
use crate::clock::NodeClock;
use std::alloc::Global;
use std::io::{ErrorKind, Read};
use std::net::TcpStream;
use std::sync::{Condvar, Mutex, Wait};
use std::time::Clock;
use std::{io, mem};

/// The most bytes that an inbox holds. The thread that reads the connection waits until there is room.
const MOST_BYTES: usize = 1 << 20;

/// The size of one read.
const PIECE: usize = 16_384;

/// The bytes that arrived, and how the connection stands.
#[derive(Drop)]
struct Arrivals {
    bytes: Vec<u8>,
    /// How many of the bytes were read.
    taken: usize,
    /// The bytes that arrived since the connection began.
    total: u64,
    /// The longest that the reading thread waited for bytes since this was last taken, in milliseconds.
    longest_wait: u64,
    /// Whether the remote peer sends nothing more.
    over: bool,
    /// Whether a read of the connection failed.
    failed: bool,
    /// The system's number for why it did, if it gave one.
    code: Option<i32>,
    /// Whether nobody reads the inbox any more.
    closed: bool,
}

/// What arrived on a connection, from the thread that reads it to the one that works with it.
#[derive(Drop)]
pub(crate) struct Inbox {
    arrivals: Mutex<Arrivals>,
    room: Condvar,
}

impl Inbox {
    /// Returns an inbox in which `bytes` have arrived.
    pub(crate) fn new(bytes: Vec<u8>) -> Inbox {
        let total = bytes.len() as u64;
        Inbox {
            arrivals: Mutex::new(Arrivals {
                bytes,
                taken: 0,
                total,
                longest_wait: 0,
                over: false,
                failed: false,
                code: None,
                closed: false,
            }),
            room: Condvar::new(),
        }
    }

    /// Adds bytes that came after a wait of `waited` milliseconds, once there is room. Returns whether the reading goes on.
    fn add<R: Wait>(&self, rt: &R, piece: &[u8], waited: u64) -> bool {
        let mut arrivals = self.arrivals.lock(rt);
        arrivals.longest_wait = arrivals.longest_wait.max(waited);
        for _ in rt.forever() {
            if arrivals.closed {
                return false;
            }
            if arrivals.bytes.len() < MOST_BYTES {
                break;
            }
            arrivals = self.room.wait(rt, arrivals);
        }
        if arrivals.bytes.extend_from_slice(piece).is_err() {
            arrivals.failed = true;
            return false;
        }
        arrivals.total = arrivals.total.saturating_add(piece.len() as u64);
        true
    }

    /// Notes that nothing more arrives.
    fn end<R: Wait>(&self, rt: &R) {
        let mut arrivals = self.arrivals.lock(rt);
        arrivals.over = true;
    }

    /// Notes that nothing more arrives, since a read failed, for which the system gave this number.
    fn fail<R: Wait>(&self, rt: &R, code: Option<i32>) {
        let mut arrivals = self.arrivals.lock(rt);
        arrivals.over = true;
        arrivals.failed = true;
        arrivals.code = code;
    }

    /// Returns the system's number for why a read failed, if one did and it gave one.
    pub(crate) fn code<R: Wait>(&self, rt: &R) -> Option<i32> {
        let arrivals = self.arrivals.lock(rt);
        arrivals.code
    }

    /// Closes the inbox, so that the thread that reads the connection ends.
    pub(crate) fn close<R: Wait>(&self, rt: &R) {
        let mut arrivals = self.arrivals.lock(rt);
        arrivals.closed = true;
        drop(arrivals);
        self.room.notify_all();
    }

    /// Returns how many bytes arrived.
    pub(crate) fn total<R: Wait>(&self, rt: &R) -> u64 {
        let arrivals = self.arrivals.lock(rt);
        arrivals.total
    }

    /// Takes the longest that the reading thread waited for bytes since this was last taken, in milliseconds.
    pub(crate) fn take_longest_wait<R: Wait>(&self, rt: &R) -> u64 {
        let mut arrivals = self.arrivals.lock(rt);
        mem::replace(&mut arrivals.longest_wait, 0)
    }

    /// Takes bytes that arrived, as a read does. `WouldBlock` if there are none yet.
    pub(crate) fn take<R: Wait>(&self, rt: &R, buffer: &mut [u8]) -> io::Result<usize>
        ensures { ReadsAtMost result buffer.new }
    {
        let mut arrivals = self.arrivals.lock(rt);
        let taken = arrivals.taken.min(arrivals.bytes.len());
        let unread = &arrivals.bytes[taken..];
        let count = unread.len().min(buffer.len());
        if count == 0 {
            return nothing(&arrivals);
        }
        buffer[..count].copy_from_slice(&unread[..count]);
        arrivals.taken = taken + count;
        if arrivals.taken == arrivals.bytes.len() {
            arrivals.bytes.clear();
            arrivals.taken = 0;
            drop(arrivals);
            self.room.notify_all();
        }
        Ok(count)
    }
}

/// Returns what a read gives if no bytes are left.
fn nothing(arrivals: &Arrivals) -> io::Result<usize>
    ensures { IfOk result (λ count. count ≡ 0) }
{
    if arrivals.failed {
        Err(ErrorKind::ConnectionReset.into())
    } else if arrivals.over {
        Ok(0)
    } else {
        Err(ErrorKind::WouldBlock.into())
    }
}

/// Reads a connection into an inbox until it ends or nobody reads the inbox any more, and rings the bell at each arrival.
pub(crate) fn receive<R: Wait + Clock>(
    rt: &R,
    clock: NodeClock,
    stream: &TcpStream,
    inbox: &Inbox,
    bell: &Bell,
) {
    let mut piece = [0u8; PIECE];
    for _ in rt.forever() {
        let mut from = stream;
        let begun = clock.milliseconds(rt);
        let read = from.read(&mut piece);
        let waited = clock.milliseconds(rt).saturating_sub(begun);
        let goes_on = match read {
            Ok(0) => {
                inbox.end(rt);
                false
            }
            Ok(count) => inbox.add(rt, &piece[..count.min(PIECE)], waited),
            Err(error) if error.kind() == ErrorKind::Interrupted => true,
            Err(error) => {
                inbox.fail(rt, error.raw_os_error());
                false
            }
        };
        bell.ring(rt);
        if !goes_on {
            return;
        }
    }
}
