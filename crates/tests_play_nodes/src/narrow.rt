//! Devices that give or take a byte a call.

use peers_devices::Faults;
use std::io;
use std::io::{Read, Write};

/// What a device does after its bytes.
#[derive(Clone, Copy, Debug, PartialEq, Eq)]
pub enum Then {
    /// Each further call fails.
    Fails,
    /// Each further call gives or takes nothing.
    Stops,
}

/// A device that gives or takes one byte a call, `left` times. If it `stutters`, each second call fails, and doesn't count as one
/// of these.
#[derive(Debug, Drop)]
pub(crate) struct Narrow {
    left: u32,
    then: Then,
    stutters: bool,
    pub(crate) calls: u32,
}

impl Narrow {
    pub(crate) fn new(left: u32, then: Then) -> Narrow {
        Narrow {
            left,
            then,
            stutters: false,
            calls: 0,
        }
    }

    fn call(&mut self, room: usize) -> io::Result<usize> {
        self.calls = self.calls.saturating_add(1);
        if self.stutters && self.calls % 2 == 0 {
            return Err(io::ErrorKind::Interrupted.into());
        }
        if self.left > 0 {
            self.left -= 1;
            return Ok(room.min(1));
        }
        match self.then {
            Then::Fails => Err(io::ErrorKind::Other.into()),
            Then::Stops => Ok(0),
        }
    }
}

impl Read for Narrow {
    fn read(&mut self, buf: &mut [u8]) -> io::Result<usize> {
        let read = self.call(buf.len())?;
        Ok(read.min(buf.len()))
    }
}

impl Write for Narrow {
    fn write(&mut self, buf: &[u8]) -> io::Result<usize> {
        let written = self.call(buf.len())?;
        Ok(written.min(buf.len()))
    }

    fn flush(&mut self) -> io::Result<()> {
        let _ = self.call(0)?;
        Ok(())
    }
}

/// A device that stutters, and doesn't count its failed calls.
#[derive(Debug, Drop)]
pub(crate) struct Uncounted {
    pub(crate) device: Narrow,
}

impl Uncounted {
    pub(crate) fn new(left: u32, then: Then) -> Uncounted {
        let mut device = Narrow::new(left, then);
        device.stutters = true;
        Uncounted { device }
    }
}

impl Faults for Uncounted {
    ghost failed = { λ _. 0 };

    fn failures(&self) -> u64 {
        0
    }
}

impl Read for Uncounted {
    fn read(&mut self, buf: &mut [u8]) -> io::Result<usize> {
        let read = self.device.read(buf)?;
        Ok(read.min(buf.len()))
    }
}

impl Write for Uncounted {
    fn write(&mut self, buf: &[u8]) -> io::Result<usize> {
        let written = self.device.write(buf)?;
        Ok(written.min(buf.len()))
    }

    fn flush(&mut self) -> io::Result<()> {
        Ok(())
    }
}
