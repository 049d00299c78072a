//! Writing on a connection.

ghost use Rattle.std.specs.Io.{WritesAtMost};

use crate::clock::{NodeClock, milliseconds};
use crate::devices::is_pause;
use node_core::{WRITE_TIME, WriteTime};
use peers_devices::Faults;
use std::io;
use std::io::{ErrorKind, Write};
use std::net::TcpStream;
use std::time::Clock;

/// A connection that is written on. A write for which the remote peer reads too slowly fails, and is counted: those of one turn have
/// `WRITE_TIME` in all.
#[derive(Drop)]
pub(crate) struct Outbox<'a, R> {
    rt: &'a R,
    clock: NodeClock,
    stream: &'a TcpStream,
    failures: u64,
    /// The system's number for why the last write that failed did, unless the remote peer reads too slowly.
    pub(crate) code: Option<i32>,
    /// The time that the writes of the turn have.
    time: WriteTime,
    /// How long the system has a write wait, in milliseconds.
    waits: u64,
    /// When the last write began, in milliseconds since the node did; 0 before any.
    pub(crate) begun: u64,
    /// How long all writes took, in milliseconds.
    pub(crate) taken: u64,
}

impl<'a, R> Outbox<'a, R> {
    /// Returns a writer on `stream`.
    pub(crate) fn new(rt: &'a R, clock: NodeClock, stream: &'a TcpStream) -> Outbox<'a, R> {
        Outbox {
            rt,
            clock,
            stream,
            failures: 0,
            code: None,
            time: WriteTime::new(),
            waits: WRITE_TIME,
            begun: 0,
            taken: 0,
        }
    }
}

impl<'a, R: Clock> Outbox<'a, R> {
    /// Begins a turn, a tick or a request, the writes of which have their time anew.
    pub(crate) fn begin_turn(&mut self) {
        self.time = WriteTime::new();
    }

    /// Has the system have a write wait for so long.
    fn wait_for(&mut self, time: u64) -> io::Result<()> {
        if time != self.waits {
            self.stream.set_write_timeout(Some(milliseconds(time)))?;
            self.waits = time;
        }
        Ok(())
    }

    /// Writes bytes, for as long as the writes of the turn have left. The system returns how many it took once it has waited for that
    /// long, and fails only if it took none; no time is left then for the next write.
    fn attempt(&mut self, bytes: &[u8]) -> io::Result<usize>
        ensures { WritesAtMost result bytes.now }
    {
        let now = self.clock.milliseconds(self.rt);
        let left = self.time.left(now);
        if left == 0 {
            return Err(ErrorKind::TimedOut.into());
        }
        self.wait_for(left)?;
        self.begun = now;
        let mut to = self.stream;
        let written = to.write(bytes);
        let time = self.clock.milliseconds(self.rt).saturating_sub(now);
        self.taken = self.taken.saturating_add(time);
        written
    }
}

impl<'a, R> Faults for Outbox<'a, R> {
    ghost failed = { λ p. p.failures };

    fn failures(&self) -> u64 {
        self.failures
    }
}

impl<'a, R: Clock> Write for Outbox<'a, R> {
    fn write(&mut self, bytes: &[u8]) -> io::Result<usize> {
        let written = self.attempt(bytes);
        match &written {
            Err(error) if error.kind() != ErrorKind::Interrupted => {
                self.failures = self.failures.saturating_add(1);
                self.code = if is_pause(error.kind()) {
                    None
                } else {
                    error.raw_os_error()
                };
            }
            _ => {}
        }
        written
    }

    fn flush(&mut self) -> io::Result<()> {
        Ok(())
    }
}
