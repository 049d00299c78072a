//! A writer that takes whole writes.

use std::io;
use std::io::Write;

/// A writer that takes all bytes of each write, and counts its writes and their bytes.
#[derive(Debug, Drop)]
pub(crate) struct Whole {
    pub(crate) writes: u32,
    pub(crate) bytes: usize,
}

impl Whole {
    pub(crate) fn new() -> Whole {
        Whole {
            writes: 0,
            bytes: 0,
        }
    }
}

impl Write for Whole {
    fn write(&mut self, buf: &[u8]) -> io::Result<usize> {
        self.writes = self.writes.saturating_add(1);
        self.bytes = self.bytes.saturating_add(buf.len());
        Ok(buf.len())
    }

    fn flush(&mut self) -> io::Result<()> {
        Ok(())
    }
}
