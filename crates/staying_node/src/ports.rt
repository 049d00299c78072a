//! The ports of a node, and why it can't start without one.

use crate::admin::AdminPort;
use crate::devices::reason_text;
use crate::doors::{Doors, limit_accepts};
use crate::metrics_port::MetricsPort;
use crate::node::{Node, address_text};
use crate::sockets::SocketFile;
use crate::streams::Listener;
use admin_text::Configuration;
use node_core::{Event, Need, Port, push_lacking};
use peers_devices::{Faults, write_all};
use std::alloc::{AllocError, Global};
use std::fs::Files;
use std::io;
use std::io::{Error, ErrorKind, Write};
use std::net::{Net, SocketAddr, TcpListener, TcpStream};
use std::sync::Wait;
use std::time::Clock;
use table_types::Memory;
use text_commands::Ending;

/// Why a thread can't be started, since the system says only that it can't.
const NO_THREAD: &str = "Resource temporarily unavailable";

/// Why a node can't start.
#[derive(Drop)]
pub(crate) enum StartError {
    /// Memory ran out.
    Memory,
    /// Something of the system can't be had. The line says what, and why.
    Lacks(Vec<u8>),
}

impl From<AllocError> for StartError {
    fn from(_refused: AllocError) -> StartError {
        StartError::Memory
    }
}

impl From<Memory> for StartError {
    fn from(_refused: Memory) -> StartError {
        StartError::Memory
    }
}

impl StartError {
    /// Returns that something of the system can't be had at `place`, as `error` says.
    pub(crate) fn lacks(alloc: Global, need: Need, place: &str, error: &Error) -> StartError {
        match reason_text(alloc, error) {
            Ok(reason) => StartError::lacking(alloc, need, place, reason.as_str()),
            Err(_) => StartError::Memory,
        }
    }

    /// Returns that a thread can't be started.
    pub(crate) fn no_thread(alloc: Global) -> StartError {
        StartError::lacking(alloc, Need::Threads, "", NO_THREAD)
    }

    /// Returns that something of the system can't be had at `place`, for this reason.
    fn lacking(alloc: Global, need: Need, place: &str, reason: &str) -> StartError {
        let mut line = Vec::new(alloc);
        match push_lacking(&mut line, need, place.as_bytes(), reason.as_bytes()) {
            Ok(()) => StartError::Lacks(line),
            Err(_) => StartError::Memory,
        }
    }

    /// Writes to `errors` why the node doesn't start, and returns how it ends.
    pub(crate) fn said<E: Write + Faults>(&self, alloc: Global, errors: &mut E) -> Ending {
        match self {
            StartError::Memory => Ending::Memory.said(alloc, errors),
            StartError::Lacks(line) => {
                let _written = write_all(errors, line.as_slice());
                Ending::Device
            }
        }
    }
}

/// The ports of a node.
#[derive(Drop)]
pub(crate) struct Ports {
    /// Where peers connect.
    pub(crate) peers: TcpListener,
    pub(crate) doors: Doors,
    /// Where requests come, if they may.
    pub(crate) admin: Option<AdminPort>,
    /// Where metrics are read, if they may be.
    pub(crate) metrics: Option<MetricsPort>,
}

impl Ports {
    /// Opens the ports of a configuration.
    pub(crate) fn open<N: Net<Listener = TcpListener, Stream = TcpStream> + Files>(
        rt: &N,
        alloc: Global,
        configuration: &Configuration,
    ) -> Result<Ports, StartError> {
        let doors = Doors::new(alloc)?;
        let peers = peers_at(rt, alloc, configuration.listen)?;
        let metrics = match configuration.metrics {
            Some(address) => {
                let listener = listener_at(rt, alloc, Need::Metrics, address)?;
                Some(MetricsPort::new(alloc, listener)?)
            }
            None => None,
        };
        let admin = admin_of(rt, alloc, configuration)?;
        Ok(Ports {
            peers,
            doors,
            admin,
            metrics,
        })
    }

    /// Ends the threads that answer clients of a node that stops.
    pub(crate) fn end<R: Wait>(&self, rt: &R, alloc: Global) {
        if let Some(port) = &self.admin {
            port.end(rt);
        }
        if let Some(port) = &self.metrics {
            port.end(rt, alloc);
        }
    }

    /// Removes the file at which clients connected.
    pub(crate) fn remove_file<N: Files>(&self, rt: &N) {
        if let Some(port) = &self.admin {
            port.remove_file(rt);
        }
    }
}

/// Opens where requests come, if they may. A file is made last, once nothing else can fail.
fn admin_of<N: Net<Listener = TcpListener, Stream = TcpStream> + Files>(
    rt: &N,
    alloc: Global,
    configuration: &Configuration,
) -> Result<Option<AdminPort>, StartError> {
    let mut port = AdminPort::new(alloc)?;
    if let Some(address) = configuration.admin {
        port.set_tcp(listener_at(rt, alloc, Need::Admin, address)?);
    }
    if let Some(path) = &configuration.admin_socket {
        let (listener, file) = socket_at(rt, alloc, path.as_slice())?;
        port.set_socket(listener, file);
    }
    if configuration.admin.is_none() && configuration.admin_socket.is_none() {
        return Ok(None);
    }
    Ok(Some(port))
}

/// Opens the port of the peers.
fn peers_at<N: Net<Listener = TcpListener, Stream = TcpStream>>(
    rt: &N,
    alloc: Global,
    address: SocketAddr,
) -> Result<TcpListener, StartError> {
    let opened = match TcpListener::bind(rt, address) {
        Ok(listener) => limit_accepts(&listener).map(|()| listener),
        Err(error) => Err(error),
    };
    at_address(alloc, Need::Listen, address, opened)
}

/// Opens a port at which clients connect.
fn listener_at<N: Net<Listener = TcpListener, Stream = TcpStream>>(
    rt: &N,
    alloc: Global,
    need: Need,
    address: SocketAddr,
) -> Result<Listener, StartError> {
    let opened = match TcpListener::bind(rt, address) {
        Ok(listener) => limited(Listener::Tcp(listener)),
        Err(error) => Err(error),
    };
    at_address(alloc, need, address, opened)
}

/// Returns what was opened at an address, or that it can't be had.
fn at_address<T>(
    alloc: Global,
    need: Need,
    address: SocketAddr,
    opened: io::Result<T>,
) -> Result<T, StartError> {
    match opened {
        Ok(opened) => Ok(opened),
        Err(error) => {
            let place = format!(in alloc; "{address}")?;
            Err(StartError::lacks(alloc, need, place.as_str(), &error))
        }
    }
}

/// Has a thread that accepts a connection look now and then whether the node stops.
fn limited(listener: Listener) -> io::Result<Listener> {
    listener.limit_accepts()?;
    Ok(listener)
}

/// Opens a socket for requests at the file with this path.
fn socket_at<N: Net + Files>(
    rt: &N,
    alloc: Global,
    path: &[u8],
) -> Result<(Listener, SocketFile), StartError> {
    let Ok(path) = str::from_utf8(path) else {
        let error = Error::new(ErrorKind::InvalidInput, "the path isn't text");
        return Err(StartError::lacks(alloc, Need::Admin, "unix:", &error));
    };
    match open_socket(rt, alloc, path) {
        Ok(opened) => Ok(opened),
        Err(error) => {
            let place = format!(in alloc; "unix:{path}")?;
            Err(StartError::lacks(alloc, Need::Admin, place.as_str(), &error))
        }
    }
}

/// Opens a socket at the file with this path.
fn open_socket<N: Net + Files>(
    rt: &N,
    alloc: Global,
    path: &str,
) -> io::Result<(Listener, SocketFile)> {
    let (listener, file) = SocketFile::open(rt, alloc, path)?;
    match limited(Listener::Unix(listener)) {
        Ok(listener) => Ok((listener, file)),
        Err(error) => {
            file.remove(rt);
            Err(error)
        }
    }
}

/// Adds a line about each port that is open to the log.
pub(crate) fn log_ports<R: Wait + Clock>(rt: &R, node: &Node) {
    let configuration = &node.configuration;
    log_port(rt, node, Port::Peers, configuration.listen);
    if let Some(address) = configuration.admin {
        log_port(rt, node, Port::Admin, address);
    }
    if let Some(path) = &configuration.admin_socket {
        let place = match str::from_utf8(path.as_slice()) {
            Ok(path) => format!(in node.alloc; "unix:{path}"),
            Err(_) => return,
        };
        if let Ok(place) = place {
            let address = place.as_bytes();
            let port = Port::Admin;
            node.log_event(rt, Event::Listening { port, address });
        }
    }
    if let Some(address) = configuration.metrics {
        log_port(rt, node, Port::Metrics, address);
    }
}

/// Adds a line about a port that is open to the log.
fn log_port<R: Wait + Clock>(rt: &R, node: &Node, port: Port, address: SocketAddr) {
    let address = address_text(node.alloc, Some(address));
    let address = address.as_bytes();
    node.log_event(rt, Event::Listening { port, address });
}
