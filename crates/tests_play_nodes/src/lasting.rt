//! A reader that lasts for a session.

use crate::waiting::Waiting;
use peers_devices::Faults;
use peers_engine::Fused;
use std::io;
use std::io::Read;

/// A reader to which bytes come from turn to turn, and which fails at one of its calls and at each after it. It counts these failures. A
/// call before them that finds nothing fails too, but isn't counted, since more may come.
#[derive(Drop)]
pub(crate) struct Lasting {
    waiting: Waiting<Fused<&'static [u8]>>,
    /// The number of calls before the one that fails.
    left: usize,
    failures: u64,
    pub(crate) calls: usize,
}

impl Lasting {
    /// Makes a reader that fails after this number of calls. Nothing has come.
    pub(crate) fn new(left: usize) -> Lasting {
        Lasting {
            waiting: Waiting::new(b""),
            left,
            failures: 0,
            calls: 0,
        }
    }

    /// Lets bytes come, after those that the reader gave.
    pub(crate) fn comes(&mut self, bytes: &'static [u8]) {
        self.waiting = Waiting::new(bytes);
    }
}

impl Faults for Lasting {
    ghost failed = { λ l. l.failures };

    fn failures(&self) -> u64 {
        self.failures
    }
}

impl Read for Lasting {
    fn read(&mut self, buf: &mut [u8]) -> io::Result<usize> {
        self.calls = self.calls.saturating_add(1);
        if self.left == 0 {
            self.failures = self.failures.saturating_add(1);
            return Err(io::ErrorKind::Other.into());
        }
        self.left -= 1;
        self.waiting.read(buf)
    }
}
