//! The sockets at which clients connect, and their connections: over TCP, or at a file of the system.

ghost use Rattle.std.specs.Io.{ReadsAtMost, WritesAtMost};

use crate::clock::milliseconds;
use std::io;
use std::io::{Read, Write};
use std::net::{Shutdown, SocketAddr, TcpListener, TcpStream};
use std::os::fd::OwnedFd;
use std::os::unix::net::{UnixListener, UnixStream};

/// How long a thread that accepts a connection waits before it looks whether the node stops, in milliseconds.
const ACCEPT: u64 = 250;

/// A connection of a client.
#[derive(Drop)]
pub(crate) enum Stream {
    /// Over TCP, and the address of the far end, which the system no longer tells once that has reset the connection.
    Tcp(TcpStream, SocketAddr),
    /// At a file of the system.
    Unix(UnixStream),
}

impl Stream {
    /// Has a read wait for at most `time`, in milliseconds.
    pub(crate) fn limit_reads(&self, time: u64) -> io::Result<()> {
        match self {
            Stream::Tcp(stream, _) => stream.set_read_timeout(Some(milliseconds(time))),
            Stream::Unix(stream) => stream.set_read_timeout(Some(milliseconds(time))),
        }
    }

    /// Has a write wait for at most `time`, in milliseconds.
    pub(crate) fn limit_writes(&self, time: u64) -> io::Result<()> {
        match self {
            Stream::Tcp(stream, _) => stream.set_write_timeout(Some(milliseconds(time))),
            Stream::Unix(stream) => stream.set_write_timeout(Some(milliseconds(time))),
        }
    }

    /// Returns the address of the far end, if it has one.
    pub(crate) fn far(&self) -> Option<SocketAddr> {
        match self {
            Stream::Tcp(_, far) => Some(*far),
            Stream::Unix(_) => None,
        }
    }

    /// Ends the reads or the writes of the connection, or both.
    pub(crate) fn shutdown(&self, how: Shutdown) -> io::Result<()> {
        match self {
            Stream::Tcp(stream, _) => stream.shutdown(how),
            Stream::Unix(stream) => stream.shutdown(how),
        }
    }

    /// Reads some bytes.
    fn receive(&self, buffer: &mut [u8]) -> io::Result<usize>
        ensures { ReadsAtMost result buffer.new }
    {
        match self {
            Stream::Tcp(stream, _) => {
                let mut from = stream;
                from.read(buffer)
            }
            Stream::Unix(stream) => {
                let mut from = stream;
                from.read(buffer)
            }
        }
    }

    /// Writes some of the bytes.
    fn send(&self, bytes: &[u8]) -> io::Result<usize>
        ensures { WritesAtMost result bytes.now }
    {
        match self {
            Stream::Tcp(stream, _) => {
                let mut to = stream;
                to.write(bytes)
            }
            Stream::Unix(stream) => {
                let mut to = stream;
                to.write(bytes)
            }
        }
    }
}

impl Read for &Stream {
    fn read(&mut self, buffer: &mut [u8]) -> io::Result<usize> {
        self.receive(buffer)
    }
}

impl Write for &Stream {
    fn write(&mut self, bytes: &[u8]) -> io::Result<usize> {
        self.send(bytes)
    }

    fn flush(&mut self) -> io::Result<()> {
        Ok(())
    }
}

/// A socket at which clients connect.
#[derive(Drop)]
pub(crate) enum Listener {
    /// Over TCP.
    Tcp(TcpListener),
    /// At a file of the system.
    Unix(UnixListener),
}

impl Listener {
    /// Has an `accept` wait for at most `ACCEPT`. The system counts that as the timeout of a read of the listening socket, which
    /// another handle of the socket can set.
    pub(crate) fn limit_accepts(&self) -> io::Result<()> {
        let handle = match self {
            Listener::Tcp(listener) => OwnedFd::from(listener.try_clone()?),
            Listener::Unix(listener) => OwnedFd::from(listener.try_clone()?),
        };
        TcpStream::from(handle).set_read_timeout(Some(milliseconds(ACCEPT)))
    }

    /// Waits for a connection, and returns it. Fails with `WouldBlock` if none comes in time.
    pub(crate) fn accept(&self) -> io::Result<Stream> {
        match self {
            Listener::Tcp(listener) => {
                let (stream, far) = listener.accept()?;
                stream.set_nodelay(true)?;
                Ok(Stream::Tcp(stream, far))
            }
            Listener::Unix(listener) => {
                let (stream, _) = listener.accept()?;
                Ok(Stream::Unix(stream))
            }
        }
    }
}
