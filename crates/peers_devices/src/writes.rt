//! What the writes to a device come to.
ghost use Rattle.std.specs.Prelude.{◌≡◌, Err};
ghost use Rattle.peers_devices.specs.Failures.{Rose};
ghost use Rattle.peers_devices.specs.Writing.{CountsIf, CountsOne, IsOneWrite, RoseBy, no_writes, took_none, written};

use crate::devices::{Faults, rose};
use std::io::Write;
use std::marker::Model;

/// What writes to a device came to so far. The device itself counts those that fail. Only a write that is made is counted here. A count
/// stays at 2^64 - 1 once it gets there.
#[derive(Clone, Copy, Debug, PartialEq, Eq)]
pub struct Writes {
    taken: u64,
    idle: u64,
    retried: u64,
}

impl Model for Writes {
    ghost use Rattle.peers_devices.specs.Writing.{WriteCounts};

    ghost Value = { WriteCounts };

    ghost view = { λ w. record { taken = w.taken; idle = w.idle; retried = w.retried } };

    ghost inverse = { λ w. record { taken = w.taken; idle = w.idle; retried = w.retried } };
}

impl Writes {
    /// Returns what no write came to.
    pub fn none() -> Writes
        ensures { result ≡ no_writes }
    {
        Writes {
            taken: 0,
            idle: 0,
            retried: 0,
        }
    }

    /// Returns how many bytes the writes took.
    pub fn taken(&self) -> u64
        ensures { result ≡ self.now.taken }
    {
        self.taken
    }

    /// Returns how many writes took none of their bytes and didn't fail.
    pub fn idle(&self) -> u64
        ensures { result ≡ self.now.idle }
    {
        self.idle
    }

    /// Returns how many writes failed and weren't counted by the device, such as interrupted ones.
    pub fn retried(&self) -> u64
        ensures { result ≡ self.now.retried }
    {
        self.retried
    }
}

/// Why a write took nothing.
#[derive(Clone, Copy, Debug, PartialEq, Eq)]
pub(crate) enum Unwritten {
    /// It failed, and the device counted it.
    Failed,
    /// It failed, and the device didn't count it, so it may be tried again.
    Uncounted,
}

/// Returns the sum of both counts, or 2^64 - 1 if the sum is greater.
fn raised(count: u64, more: usize) -> u64
    ensures { RoseBy more count result }
{
    count.saturating_add(more as u64)
}

/// Returns a count with one more, which stays at 2^64 - 1 once it gets there.
fn one_more(count: u64) -> u64
    ensures { CountsOne count result }
{
    count.saturating_add(1)
}

/// Returns the count of idle writes after one of these bytes that took `taken` of them.
fn idle_after(idle: u64, taken: usize, bytes: &[u8]) -> u64
    ensures { CountsIf (took_none taken bytes.now) idle result }
{
    if taken == 0 && !bytes.is_empty() {
        one_more(idle)
    } else {
        idle
    }
}

/// Writes some of the bytes, from the first on, and returns how many. The device counts the failure if its count of failed calls rose
/// above `earlier`.
pub(crate) fn write_once<W: Write + Faults>(
    output: &mut W,
    writes: &mut Writes,
    earlier: u64,
    bytes: &[u8],
) -> Result<usize, Unwritten>
    ensures once { IsOneWrite (written (W.contents output.old) writes.old) bytes.now result (written (W.contents output.new) writes.new) }
    ensures failed { result ≡ Err Unwritten.Failed → Rose earlier (W.failed output.new) }
{
    match output.write(bytes) {
        Ok(count) => {
            writes.taken = raised(writes.taken, count);
            writes.idle = idle_after(writes.idle, count, bytes);
            Ok(count)
        }
        Err(_) if rose(earlier, output.failures()) => Err(Unwritten::Failed),
        Err(_) => {
            writes.retried = one_more(writes.retried);
            Err(Unwritten::Uncounted)
        }
    }
}
