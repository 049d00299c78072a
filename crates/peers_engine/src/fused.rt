//! Devices that fail after some calls.

ghost use Rattle.std.specs.Prelude.{◌≡◌, ◌+◌, IfOk, OnErr, OnOk};
ghost use Rattle.std.specs.Io.{ReadsAtMost, WritesAtMost};
ghost use Rattle.std.specs.Io.KnownBytes.{Keeps, ReadConsumes, WriteAppends};

use std::io;
use std::io::{Read, Write};

/// A device, for tests, that passes on a number of reads, or of written bytes, and then fails each call.
#[derive(Debug, Drop)]
pub struct Fused<T> {
    inner: T,
    left: usize,
}

impl<T> Fused<T> {
    /// Returns a device that passes on `left` reads, or `left` written bytes.
    pub fn new(inner: T, left: usize) -> Fused<T>
        ensures inner { result.inner ≡ inner }
        ensures left { result.left ≡ left }
    {
        Fused { inner, left }
    }

    /// Returns the device itself.
    pub fn into_inner(self) -> T
        ensures { result ≡ self.inner }
    {
        let Fused { inner, .. } = self;
        inner
    }
}

impl<T: Read> Read for Fused<T> {
    ghost remaining = { λ f. T.remaining f.inner };

    fn read(&mut self, buf: &mut [u8]) -> io::Result<usize>
        ensures bound { ReadsAtMost result buf.new }
        ensures bytes { ReadConsumes (T.remaining self.old.inner) (T.remaining self.new.inner) result buf.new }
        ensures passed { OnOk result (self.new.left + 1 ≡ self.old.left) }
        ensures fails { self.old.left ≡ 0 → OnOk result ⊥ }
        ensures stays { OnErr result (self.new.left ≡ self.old.left) }
    {
        if self.left == 0 {
            return Err(io::ErrorKind::Other.into());
        }
        let count = self.inner.read(buf)?;
        self.left -= 1;
        Ok(count)
    }
}

impl<T: Write> Write for Fused<T> {
    ghost contents = { λ f. T.contents f.inner };

    fn write(&mut self, buf: &[u8]) -> io::Result<usize>
        ensures bound { WritesAtMost result buf.now }
        ensures bytes { WriteAppends (T.contents self.old.inner) (T.contents self.new.inner) result buf.now }
        ensures passed { IfOk result (λ count. self.new.left + count ≡ self.old.left) }
        ensures fails { self.old.left ≡ 0 → OnOk result ⊥ }
        ensures stays { OnErr result (self.new.left ≡ self.old.left) }
    {
        if self.left == 0 {
            return Err(io::ErrorKind::Other.into());
        }
        let count = self.inner.write(&buf[..buf.len().min(self.left)])?;
        self.left -= count;
        Ok(count)
    }

    fn flush(&mut self) -> io::Result<()>
        ensures bytes { Keeps (T.contents self.old.inner) (T.contents self.new.inner) }
        ensures passed { self.new.left ≡ self.old.left }
        ensures fails { self.old.left ≡ 0 → OnOk result ⊥ }
    {
        if self.left == 0 {
            return Err(io::ErrorKind::Other.into());
        }
        self.inner.flush()
    }
}
