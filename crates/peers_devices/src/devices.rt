//! Readers and writers that count their failed calls.
ghost use Rattle.std.specs.Prelude.{◌≡◌, ◌↔◌, ℕ, ◌≤◌, IsTrue};
ghost use Rattle.std.specs.Io.{ReadsAtMost, WritesAtMost};
ghost use Rattle.std.specs.Io.KnownBytes.{Keeps, ReadConsumes, WriteAppends};
ghost use Rattle.peers_devices.specs.Failures.{IsCounted, Rose};

use std::io;
use std::io::{Read, Write};

/// A device that counts its failed calls. A call counts as failed if the count after it is above the one before it, or
/// is 2^64 - 1, the greatest.
pub trait Faults {
    /// The number of calls that have failed.
    ghost failed: { Self → ℕ };

    /// Returns the number of calls that have failed. It stays at 2^64 - 1 once it gets there.
    fn failures(&self) -> u64
        ensures { result ≡ failed self.now };
}

/// A reader or a writer with a count of its failed calls, which are those that returned an `Err`. It reads and writes
/// as `inner` does.
#[derive(Debug, Drop)]
pub struct Counting<T> {
    inner: T,
    failures: u64,
}

impl<T> Counting<T> {
    /// Starts to count the failed calls of a device, at 0.
    pub fn new(inner: T) -> Self
        ensures inner { result.inner ≡ inner }
        ensures failures { result.failures ≡ 0 }
    {
        Counting { inner, failures: 0 }
    }

    /// Returns the device itself and drops the count.
    pub fn into_inner(self) -> T
        ensures { result ≡ self.inner }
    {
        let Counting { inner, failures: _ } = self;
        inner
    }
}

impl<T> Faults for Counting<T> {
    ghost failed = { λ c. c.failures };

    fn failures(&self) -> u64 {
        self.failures
    }
}

impl<T: Read> Read for Counting<T> {
    ghost remaining = { λ c. T.remaining c.inner };

    fn read(&mut self, buf: &mut [u8]) -> io::Result<usize>
        ensures bound { ReadsAtMost result buf.new }
        ensures bytes { ReadConsumes (T.remaining self.old.inner) (T.remaining self.new.inner) result buf.new }
        ensures counted { IsCounted result self.old.failures self.new.failures }
        ensures never_fewer { self.old.failures ≤ self.new.failures }
    {
        let result = self.inner.read(buf);
        self.failures = counted(self.failures, &result);
        result
    }
}

impl<T: Write> Write for Counting<T> {
    ghost contents = { λ c. T.contents c.inner };

    fn write(&mut self, buf: &[u8]) -> io::Result<usize>
        ensures bound { WritesAtMost result buf.now }
        ensures bytes { WriteAppends (T.contents self.old.inner) (T.contents self.new.inner) result buf.now }
        ensures counted { IsCounted result self.old.failures self.new.failures }
        ensures never_fewer { self.old.failures ≤ self.new.failures }
    {
        let result = self.inner.write(buf);
        self.failures = counted(self.failures, &result);
        result
    }

    fn flush(&mut self) -> io::Result<()>
        ensures bytes { Keeps (T.contents self.old.inner) (T.contents self.new.inner) }
        ensures counted { IsCounted result self.old.failures self.new.failures }
        ensures never_fewer { self.old.failures ≤ self.new.failures }
    {
        let result = self.inner.flush();
        self.failures = counted(self.failures, &result);
        result
    }
}

/// Returns the count after a call.
fn counted<A>(failures: u64, gave: &io::Result<A>) -> u64
    ensures counted { IsCounted gave.now failures result }
    ensures never_fewer { failures ≤ result }
{
    if gave.is_err() {
        failures.saturating_add(1)
    } else {
        failures
    }
}

/// Returns whether a device's count of failed calls rose from `before` to `after`. The greatest count can't rise, so it
/// counts as risen.
pub fn rose(before: u64, after: u64) -> bool
    ensures { IsTrue result ↔ Rose before after }
{
    before < after || after == u64::MAX
}
