//! What the system says of the process.

use crate::node::Node;
use admin_port::{ProcessMetrics, ProcessStat, open_descriptors, read_process_stat};
use std::alloc::Global;
use std::fs::{File, Files};
use std::io;
use std::io::Read;
use std::net::TcpListener;
use std::os::fd::OwnedFd;
use std::sync::{Mutex, Wait};

/// The file that says for how long the process worked, and how much memory it has.
const STAT: &str = "/proc/self/stat";

/// The folder with an entry for each file descriptor that is open.
const DESCRIPTORS: &str = "/proc/self/fd";

/// How many bytes of a folder's names are read at once.
const PIECE: usize = 4_096;

/// Two file descriptors of one socket. The second is closed while what the system says of the process is read, so that this can be
/// opened also while the process has as many as it may.
#[derive(Drop)]
struct Kept {
    first: OwnedFd,
    second: Option<OwnedFd>,
}

/// A file descriptor that is kept from the start for reading what the system says of the process.
#[derive(Drop)]
pub(crate) struct Spare {
    kept: Mutex<Option<Kept>>,
}

impl Spare {
    /// Returns that none is kept yet.
    pub(crate) fn new() -> Spare {
        Spare {
            kept: Mutex::new(None),
        }
    }

    /// Keeps one from now on: another one of this listener.
    pub(crate) fn keep<R: Wait>(&self, rt: &R, listener: &TcpListener) -> io::Result<()> {
        let first = OwnedFd::from(listener.try_clone()?);
        let second = Some(first.try_clone()?);
        let mut kept = self.kept.lock(rt);
        *kept = Some(Kept { first, second });
        Ok(())
    }
}

/// Reads for how long the process worked, and how much memory it has.
fn stat<R: Files>(rt: &R, alloc: Global) -> io::Result<Option<ProcessStat>> {
    let mut text = Vec::new(alloc);
    File::open(rt, STAT)?.read_to_end(&mut text)?;
    Ok(read_process_stat(alloc, text.as_slice()).ok())
}

/// Counts the file descriptors that are open, but for that of the folder that says it.
fn descriptors<R: Files + Wait>(rt: &R, alloc: Global) -> io::Result<u64> {
    let mut folder = rt.open_dir(DESCRIPTORS)?;
    let mut names = Vec::new(alloc);
    let mut piece = [0u8; PIECE];
    for _ in rt.forever() {
        let count = folder.read(&mut piece)?;
        if count == 0 {
            return Ok(open_descriptors(names.as_slice()));
        }
        names.extend_from_slice(&piece[..count.min(PIECE)])?;
    }
    unreachable!()
}

/// Returns what the system says of the process, as far as it can be read. The descriptor that is closed meanwhile counts as open.
pub(crate) fn process_metrics<R: Files + Wait>(rt: &R, node: &Node) -> ProcessMetrics {
    let mut kept = node.spare.kept.lock(rt);
    let mut closed = 0u64;
    if let Some(both) = &mut *kept {
        closed = u64::from(both.second.is_some());
        both.second = None;
    }
    let stat = stat(rt, node.alloc).ok().flatten();
    let open = descriptors(rt, node.alloc).ok();
    if let Some(both) = &mut *kept {
        both.second = both.first.try_clone().ok();
    }
    drop(kept);
    ProcessMetrics {
        resident_memory_bytes: stat.map(|stat| stat.resident_memory_bytes),
        open_fds: open.map(|open| open.saturating_add(closed)),
        start_time: node.clock.began(),
        cpu_time: stat.map(|stat| stat.cpu_time),
    }
}
