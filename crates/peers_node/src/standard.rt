//! The standard descriptors.

use std::alloc::Global;
use std::fs::File;
use std::os::fd::AsRawFd;
use std::os::unix::fs::FileTypeExt;
use std::{fs, io};

/// The descriptor of standard input.
const INPUT: i32 = 0;

/// How many descriptors are standard ones: those of input, output and errors.
const STANDARD: i32 = 3;

/// Where the system shows what standard error is.
const ERRORS: &str = "/proc/self/fd/2";

/// Opens the null device, which gets the lowest descriptor that is free. In the place of standard input it can't be read, and in that of
/// standard output or standard error it can't be written on, so each fails as if it were closed.
fn null(rt: &HostRuntime) -> io::Result<File> {
    let file = File::create(rt, "/dev/null")?;
    if file.as_raw_fd() == INPUT {
        return Ok(file);
    }
    drop(file);
    File::open(rt, "/dev/null")
}

/// Opens the null device in the place of each standard descriptor that is closed, and holds it: a port or a connection would get its
/// number otherwise, and with it what is written to standard output or standard error.
pub(crate) fn held(rt: &HostRuntime, alloc: Global) -> Vec<File> {
    let mut held = Vec::new(alloc);
    for _ in 0..STANDARD {
        let Ok(file) = null(rt) else {
            return held;
        };
        if file.as_raw_fd() >= STANDARD || held.push(file).is_err() {
            return held;
        }
    }
    held
}

/// Opens the end at which standard error is read, if it is a pipe that this process may read. While that is held the pipe has a reader: the
/// system ends a process that writes to one without. If nobody else reads, the pipe fills, and takes nothing more.
pub(crate) fn reader_of_errors(rt: &HostRuntime) -> Option<File> {
    let found = fs::metadata(rt, ERRORS).ok()?;
    if !found.file_type().is_fifo() {
        return None;
    }
    File::open(rt, ERRORS).ok()
}
