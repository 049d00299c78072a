//! The bytes of a connection, as the session reads them.

use crate::inbox::Inbox;
use peers_devices::Faults;
use std::io;
use std::io::{ErrorKind, Read};
use std::sync::Wait;

/// How many of the first bytes are kept: as many as the longest line of a status has, and more.
const HEAD: usize = 16;

/// A reader of what the remote peer sent. A read fails with `WouldBlock`, which isn't counted, if there is nothing to read yet.
#[derive(Drop)]
pub(crate) struct Intake<'a, R> {
    rt: &'a R,
    inbox: &'a Inbox,
    failures: u64,
    /// The bytes that were taken from the inbox.
    pub(crate) total: u64,
    /// Whether the end of the input was read.
    pub(crate) ended: bool,
    /// The first bytes of the input, as far as they were read: those of a status.
    first: [u8; HEAD],
    /// How many they are.
    count: usize,
}

impl<'a, R> Intake<'a, R> {
    /// Returns a reader of `inbox`.
    pub(crate) fn new(rt: &'a R, inbox: &'a Inbox) -> Intake<'a, R> {
        Intake {
            rt,
            inbox,
            failures: 0,
            total: 0,
            ended: false,
            first: [0; HEAD],
            count: 0,
        }
    }

    /// Returns the first bytes of the input, as far as they were read.
    pub(crate) fn head(&self) -> &[u8] {
        &self.first[..self.count.min(HEAD)]
    }

    /// Keeps the first bytes of the input.
    fn keep(&mut self, bytes: &[u8]) {
        for byte in bytes {
            let Some(place) = self.first.get_mut(self.count) else {
                return;
            };
            *place = *byte;
            self.count += 1;
        }
    }

    /// Notes what a read came to.
    fn note(&mut self, read: &io::Result<usize>) {
        match read {
            Ok(0) => self.ended = true,
            Ok(count) => self.total = self.total.saturating_add(*count as u64),
            Err(error) if error.kind() == ErrorKind::WouldBlock => {}
            Err(_) => self.failures = self.failures.saturating_add(1),
        }
    }
}

impl<'a, R: Wait> Intake<'a, R> {
    /// Returns the system's number for why a read of the connection failed, if one did and it gave one.
    pub(crate) fn code(&self) -> Option<i32> {
        self.inbox.code(self.rt)
    }

    /// Takes the longest that the reading thread waited for bytes since this was last taken, in milliseconds.
    pub(crate) fn take_longest_wait(&self) -> u64 {
        self.inbox.take_longest_wait(self.rt)
    }

    /// Returns how many bytes arrived on the connection.
    pub(crate) fn arrived(&self) -> u64 {
        self.inbox.total(self.rt)
    }
}

impl<'a, R> Faults for Intake<'a, R> {
    ghost failed = { λ p. p.failures };

    fn failures(&self) -> u64 {
        self.failures
    }
}

impl<'a, R: Wait> Read for Intake<'a, R> {
    fn read(&mut self, buffer: &mut [u8]) -> io::Result<usize> {
        let read = self.inbox.take(self.rt, buffer);
        self.note(&read);
        if let Ok(count) = read {
            self.keep(&buffer[..count.min(buffer.len())]);
        }
        read
    }
}
