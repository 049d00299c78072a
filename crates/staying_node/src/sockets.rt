//! The file at which a node takes requests.

use std::alloc::{Allocator, Global};
use std::fs::{Files, Metadata, OpenOptions, Permissions};
use std::io::{Error, ErrorKind};
use std::net::{Net, SocketAddr};
use std::os::fd::{BorrowedFd, OwnedFd};
use std::os::unix::fs::{FileTypeExt, MetadataExt, PermissionsExt};
use std::os::unix::net::{self, UnixListener, UnixStream};
use std::{fs, io};

/// Who may open the file: its owner, and nobody else.
const MODE: u32 = 0o600;

/// The system, as it binds a socket to a file: the file gets `MODE` before the socket takes connections.
#[derive(Drop)]
struct Private<'a, N> {
    rt: &'a N,
    path: &'a str,
}

impl<'a, N: Net> Net for Private<'a, N> {
    type Stream = N::Stream;

    type Listener = N::Listener;

    fn bind(&self, address: SocketAddr) -> io::Result<N::Listener> {
        self.rt.bind(address)
    }

    fn connect(&self, address: SocketAddr) -> io::Result<N::Stream> {
        self.rt.connect(address)
    }

    fn unix_socket(&self) -> io::Result<OwnedFd> {
        self.rt.unix_socket()
    }
}

impl<'a, N: Files> Files for Private<'a, N> {
    type File = N::File;

    type Dir = N::Dir;

    fn open_file(&self, how: &OpenOptions, path: &str) -> io::Result<N::File> {
        self.rt.open_file(how, path)
    }

    fn open_dir(&self, path: &str) -> io::Result<N::Dir> {
        self.rt.open_dir(path)
    }

    fn metadata(&self, path: &str) -> io::Result<Metadata> {
        self.rt.metadata(path)
    }

    fn symlink_metadata(&self, path: &str) -> io::Result<Metadata> {
        self.rt.symlink_metadata(path)
    }

    fn copy(&self, from: &str, to: &str) -> io::Result<u64> {
        self.rt.copy(from, to)
    }

    fn rename(&self, from: &str, to: &str) -> io::Result<()> {
        self.rt.rename(from, to)
    }

    fn remove_file(&self, path: &str) -> io::Result<()> {
        self.rt.remove_file(path)
    }

    fn create_dir(&self, path: &str) -> io::Result<()> {
        self.rt.create_dir(path)
    }

    fn remove_dir(&self, path: &str) -> io::Result<()> {
        self.rt.remove_dir(path)
    }

    fn remove_dir_all<B: Allocator>(&self, alloc: B, path: &str) -> io::Result<()> {
        self.rt.remove_dir_all(alloc, path)
    }

    fn bind_unix(&self, socket: BorrowedFd<'_>, address: &net::SocketAddr) -> io::Result<()> {
        self.rt.bind_unix(socket, address)?;
        let limited = fs::set_permissions(self.rt, self.path, Permissions::from_mode(MODE));
        if limited.is_err() {
            let _removed = fs::remove_file(self.rt, self.path);
        }
        limited
    }
}

/// The file of a socket, which is there for as long as the node runs.
#[derive(Drop)]
pub(crate) struct SocketFile {
    path: String,
    /// Where the system keeps the file: its device and its number there, by which it is known from another one of that path.
    device: u64,
    number: u64,
}

impl SocketFile {
    /// Opens a socket at a path, and returns it with its file, which only its owner can open. The file of a socket that nobody listens
    /// on is replaced; any other file at the path stays.
    pub(crate) fn open<N: Net + Files>(
        rt: &N,
        alloc: Global,
        path: &str,
    ) -> io::Result<(UnixListener, SocketFile)> {
        let copy = String::from_str(alloc, path)?;
        let listener = open_at(rt, path)?;
        let found = fs::symlink_metadata(rt, path)?;
        let file = SocketFile {
            path: copy,
            device: found.dev(),
            number: found.ino(),
        };
        Ok((listener, file))
    }

    /// Removes the file, unless another one has its path now.
    pub(crate) fn remove<N: Files>(&self, rt: &N) {
        let path = self.path.as_str();
        match fs::symlink_metadata(rt, path) {
            Ok(found) if found.dev() == self.device && found.ino() == self.number => {
                let _removed = fs::remove_file(rt, path);
            }
            _ => {}
        }
    }
}

/// Opens a socket at a path.
fn open_at<N: Net + Files>(rt: &N, path: &str) -> io::Result<UnixListener> {
    let system = Private { rt, path };
    match UnixListener::bind(&system, path) {
        Err(error) if error.kind() == ErrorKind::AddrInUse => {
            if !is_stale(rt, path)? {
                return Err(error);
            }
            fs::remove_file(rt, path)?;
            UnixListener::bind(&system, path)
        }
        opened => opened,
    }
}

/// Returns whether the file at a path is that of a socket on which nobody listens. Fails if it isn't that of a socket, or if a connection to
/// it fails otherwise than by a refusal. Waits as long as whoever listens there takes no connection, if many wait for that already.
fn is_stale<N: Net + Files>(rt: &N, path: &str) -> io::Result<bool> {
    let found = fs::symlink_metadata(rt, path)?;
    if !found.file_type().is_socket() {
        let message = "another file is there, which isn't a socket";
        return Err(Error::new(ErrorKind::AlreadyExists, message));
    }
    match UnixStream::connect(rt, path) {
        Err(error) if error.kind() == ErrorKind::ConnectionRefused => Ok(true),
        Err(error) => Err(error),
        Ok(_) => Ok(false),
    }
}
