//! The configuration, as it is read.

use crate::devices::reason_text;
use peers_devices::{Counting, Faults, ReadError, read_to_end, write_all};
use std::alloc::{AllocError, Global};
use std::io;
use std::io::{Error, Read, Write};
use text_commands::{Ending, check_configuration};

/// A reader of what `input` has, which keeps why a read failed.
#[derive(Drop)]
struct Tried<'a, I> {
    input: &'a mut I,
    /// The system's number for why the last read failed, if it did.
    failure: Option<i32>,
}

/// Returns the system's number for why a read failed, if it did.
fn failure_of(read: &io::Result<usize>) -> Option<i32> {
    match read {
        Ok(_) => None,
        Err(error) => error.raw_os_error(),
    }
}

impl<'a, I: Faults> Faults for Tried<'a, I> {
    ghost failed = { λ t. I.failed t.input.now };

    fn failures(&self) -> u64 {
        self.input.failures()
    }
}

impl<'a, I: Read> Read for Tried<'a, I> {
    fn read(&mut self, buffer: &mut [u8]) -> io::Result<usize> {
        let read = self.input.read(buffer);
        self.failure = failure_of(&read);
        read
    }
}

/// Returns the line that says that the configuration can't be read, for the reason for which the system gave this number.
fn failure_line(alloc: Global, code: i32) -> Result<String, AllocError> {
    let error = Error::from_raw_os_error(code);
    let reason = reason_text(alloc, &error)?;
    format!(in alloc; "configuration: {reason}\n")
}

/// Writes why the configuration can't be read, and returns how the subcommand ends.
fn unread<E: Write + Faults>(
    alloc: Global,
    error: ReadError,
    failure: Option<i32>,
    errors: &mut E,
) -> Ending {
    match (error, failure) {
        (ReadError::Failed, Some(code)) => match failure_line(alloc, code) {
            Ok(line) => {
                let _written = write_all(errors, line.as_bytes());
                Ending::Device
            }
            Err(_) => Ending::Memory.said(alloc, errors),
        },
        _ => Ending::from(error).said(alloc, errors),
    }
}

/// Returns what `input` has. If it can't be read, writes why to `errors`, and returns how the subcommand ends.
pub(crate) fn read_text<I: Read + Faults, E: Write + Faults>(
    alloc: Global,
    input: &mut I,
    errors: &mut E,
) -> Result<Vec<u8>, Ending> {
    let mut tried = Tried {
        input,
        failure: None,
    };
    match read_to_end(alloc, &mut tried) {
        Ok(text) => Ok(text),
        Err(error) => Err(unread(alloc, error, tried.failure, errors)),
    }
}

/// Reads a configuration from `input`, and ends as `check_configuration` does with what was read. If `input` can't be read, writes why to
/// `errors`, and ends with `Device`.
pub fn check_input<I: Read + Faults, E: Write + Faults>(
    alloc: Global,
    input: &mut I,
    errors: &mut E,
) -> Ending {
    match read_text(alloc, input, errors) {
        Ok(text) => {
            let mut given = Counting::new(text.as_slice());
            check_configuration(alloc, &mut given, errors)
        }
        Err(ending) => ending,
    }
}
