//! The checksum of what is read.

use peers_devices::Faults;
use sha2::{Digest, Sha256};
use std::alloc::{AllocError, Global};
use std::io;
use std::io::Read;

/// A reader of what `input` has, which sums it up.
#[derive(Drop)]
pub(crate) struct Summed<'a, I> {
    input: &'a mut I,
    sum: Sha256,
}

impl<'a, I> Summed<'a, I> {
    /// Returns a reader of what `input` has.
    pub(crate) fn new(input: &'a mut I) -> Summed<'a, I> {
        Summed {
            input,
            sum: Sha256::new(),
        }
    }

    /// Returns the SHA-256 checksum of what was read, as `sha256sum` prints it.
    pub(crate) fn checksum(self, alloc: Global) -> Result<String, AllocError> {
        let Summed { sum, .. } = self;
        hex::encode(alloc, sum.finalize())
    }
}

impl<'a, I: Faults> Faults for Summed<'a, I> {
    ghost failed = { λ s. I.failed s.input.now };

    fn failures(&self) -> u64 {
        self.input.failures()
    }
}

impl<'a, I: Read> Read for Summed<'a, I> {
    fn read(&mut self, buffer: &mut [u8]) -> io::Result<usize> {
        let read = self.input.read(buffer);
        if let Ok(count) = read {
            self.sum.update(&buffer[..count.min(buffer.len())]);
        }
        read
    }
}
