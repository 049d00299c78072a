//! A reader to which more may come.

use peers_devices::Faults;
use peers_engine::Fused;
use std::io;
use std::io::Read;

/// A reader that doesn't count its failed reads, since more may come.
#[derive(Drop)]
pub(crate) struct Waiting<R> {
    inner: R,
}

impl<'a> Waiting<Fused<&'a [u8]>> {
    /// Makes a reader of bytes that have come: the first read finds all of them, and one that finds none fails.
    pub(crate) fn new(bytes: &'a [u8]) -> Waiting<Fused<&'a [u8]>> {
        let reads = if bytes.is_empty() { 0 } else { 1 };
        Waiting {
            inner: Fused::new(bytes, reads),
        }
    }
}

impl<R> Faults for Waiting<R> {
    ghost failed = { λ _. 0 };

    fn failures(&self) -> u64 {
        0
    }
}

impl<R: Read> Read for Waiting<R> {
    ghost remaining = { λ w. R.remaining w.inner };

    fn read(&mut self, buf: &mut [u8]) -> io::Result<usize> {
        self.inner.read(buf)
    }
}
