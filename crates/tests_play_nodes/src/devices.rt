//! Devices that give or take a byte a call, and then fail, stop or go on for ever.

use crate::narrow::{Narrow, Then, Uncounted};
use peers_devices::{Counting, Faults, ReadError, WriteError, read_to_end, write_all};
use std::alloc::Global;
use std::io::Read;
use text_commands::{Ending, lesson};

/// A reader or a writer: the number of bytes that it gives or takes, one a call, and what it does after them.
pub enum Device {
    /// It counts its failed calls.
    Counted(u32, Then),
    /// It doesn't, and each second call fails as well.
    Uncounted(u32, Then),
}

/// A device that is read to its end, the number of bytes that are read, or why they aren't, and the number of calls.
pub type Reading = (Device, Result<usize, ReadError>, u32);

fn reads<D: Read + Faults>(
    alloc: Global,
    device: &mut D,
    expected: Result<usize, ReadError>,
) -> bool {
    match (read_to_end(alloc, device), expected) {
        (Ok(bytes), Ok(length)) => bytes.len() == length,
        (Err(found), Err(error)) => found == error,
        _ => false,
    }
}

fn is_read(alloc: Global, (device, expected, calls): &Reading) -> bool {
    match device {
        Device::Counted(bytes, then) => {
            let mut narrow = Counting::new(Narrow::new(*bytes, *then));
            reads(alloc, &mut narrow, *expected) && narrow.into_inner().calls == *calls
        }
        Device::Uncounted(bytes, then) => {
            let mut uncounted = Uncounted::new(*bytes, *then);
            reads(alloc, &mut uncounted, *expected) && uncounted.device.calls == *calls
        }
    }
}

/// Reads each device to its end. Returns the index of the first that fails.
pub fn first_misread(alloc: Global, readings: &[Reading]) -> Option<usize> {
    for (place, reading) in readings.iter().enumerate() {
        if !is_read(alloc, reading) {
            return Some(place);
        }
    }
    None
}

/// A device to which `abc` is written, what the call returns, and the number of calls of the device.
pub type Writing = (Device, Result<(), WriteError>, u32);

fn is_written((device, expected, calls): &Writing) -> bool {
    match device {
        Device::Counted(bytes, then) => {
            let mut narrow = Counting::new(Narrow::new(*bytes, *then));
            write_all(&mut narrow, b"abc") == *expected && narrow.into_inner().calls == *calls
        }
        Device::Uncounted(bytes, then) => {
            let mut uncounted = Uncounted::new(*bytes, *then);
            write_all(&mut uncounted, b"abc") == *expected && uncounted.device.calls == *calls
        }
    }
}

/// Writes to each device. Returns the index of the first that fails.
pub fn first_miswritten(writings: &[Writing]) -> Option<usize> {
    for (place, writing) in writings.iter().enumerate() {
        if !is_written(writing) {
            return Some(place);
        }
    }
    None
}

/// Returns whether the lesson of `scene` ends with `Device` and says so if the output takes `bytes` bytes and then fails or stops:
/// the output is called once more, and not again.
pub fn breaks_off(alloc: Global, scene: &str, bytes: u32, then: Then) -> bool {
    let mut output = Counting::new(Narrow::new(bytes, then));
    let mut errors = Counting::new(Vec::new(alloc));
    let ending = lesson(
        alloc,
        &mut Counting::new(scene.as_bytes()),
        &mut output,
        &mut errors,
    );
    ending == Ending::Device
        && errors.into_inner().as_slice() == b"device\n".as_slice()
        && output.into_inner().calls == bytes.saturating_add(1)
}
