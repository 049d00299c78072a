//! The subcommand `run`.

use crate::admin::{AdminPort, accept_clients, serve_clients};
use crate::clock::{NodeClock, milliseconds};
use crate::doors::{DOORS, keep_door};
use crate::input::read_text;
use crate::log::Log;
use crate::marked::{Marked, says_journal};
use crate::metrics_port::{MetricsPort, VIEWERS, accept_visits, serve_visits};
use crate::node::{Node, Seats};
use crate::numbering::look_at_numbers;
use crate::peers::keep_peer;
use crate::ports::{Ports, StartError, log_ports};
use crate::streams::Listener;
use crate::summed::Summed;
use crate::tables::keep;
use admin_text::{Configuration, Warnings};
use node_core::{Event, LastLook, Need, PeerEvent, Renewal, VERSION};
use node_text::cut;
use peers_devices::{Counting, Faults};
use std::alloc::Global;
use std::fs::Files;
use std::io::{Read, Write};
use std::net::{Net, TcpListener, TcpStream};
use std::sync::{Arc, Wait};
use std::thread;
use std::thread::{JoinHandle, Scope, Threads};
use std::time::Clock;
use table_shards::Seat;
use text_commands::{Ending, configuration_of};

/// How soon the node's tables are looked after again while there is much to do, in milliseconds.
const KEEPING: u64 = 50;

/// How soon they are otherwise, in milliseconds.
const IDLING: u64 = 200;

/// How often rows that have ended are purged, in milliseconds.
const PURGING: u64 = 1_000;

/// How soon all who may ask a peer are woken again until the node is up to date, in milliseconds: with `IDLING` behind it each second.
const ASKING: u64 = 800;

/// Has the node no longer wait for a peer that doesn't answer, and has it be up to date if nobody has more to teach.
fn pass<N: Wait + Clock>(rt: &N, node: &Node, now: u64) {
    let passed = node.catching_up.pass(rt, now);
    if let Some((peer, why)) = passed.unanswered {
        node.log_peer_event(rt, peer, PeerEvent::Unanswered { why });
    }
    if passed.settled || passed.unanswered.is_some() {
        node.tell_of_catching_up(rt);
    }
    if passed.settled {
        node.log_up_to_date(rt, None);
    }
}

/// Wakes the workers of all peers once the time `due` has come, unless the node is up to date, so that a peer that is to be asked by now is.
/// Sets the next time.
fn wake_askers<N: Wait>(rt: &N, node: &Node, due: &mut u64, now: u64) {
    if now >= *due && !node.catching_up.is_up_to_date(rt) {
        *due = now.saturating_add(ASKING);
        node.ring_all(rt);
    }
}

/// Notes whether the node was held up since the last look, which the log says. Whoever is waited for has its time anew then.
fn look_at_clock<N: Wait + Clock>(rt: &N, node: &Node, last: &mut LastLook, now: u64) {
    if let Some(milliseconds) = last.look(now) {
        node.catching_up.wait_anew(rt, now);
        node.log_event(rt, Event::HeldUp { milliseconds });
    }
}

/// Looks after the tables until the node stops.
fn keep_tables<N: Wait + Clock>(rt: &N, node: &Node, mut seat: Seat) {
    let mut purge = 0;
    let mut asking = 0;
    let mut renewal = Renewal::new();
    let mut last = LastLook::new(node.clock.milliseconds(rt));
    for _ in rt.forever() {
        let seen = node.changed.rings(rt);
        if node.stops() {
            return;
        }
        let now = node.clock.milliseconds(rt);
        look_at_clock(rt, node, &mut last, now);
        let purges = now >= purge;
        if purges {
            purge = now.saturating_add(PURGING);
        }
        let soon = keep(rt, node, &mut seat, &mut renewal, purges);
        look_at_numbers(rt, node);
        pass(rt, node, now);
        wake_askers(rt, node, &mut asking, now);
        let time = if soon { KEEPING } else { IDLING };
        // (the node's own work isn't a standstill)
        last = LastLook::new(node.clock.milliseconds(rt));
        node.changed.wait(rt, seen, milliseconds(time));
    }
}

/// Starts the thread that writes the log to `errors`. It isn't one of those that are joined whatever happens, since a write may wait for
/// ever for whoever reads standard error; if it does, it ends with the process.
fn start_log<
    N: Threads + Wait + Clock + Copy + Send + 'static,
    L: Write + Faults + Send + Drop + 'static,
>(rt: &N, node: &Node, errors: L) -> Option<JoinHandle<()>> {
    let log = Arc::try_clone(&node.log).ok()?;
    let own = *rt;
    let started = thread::spawn(rt, move || write_log(&own, &log, errors));
    started.ok()
}

/// Writes the log until no more lines come.
fn write_log<N: Wait + Clock, L: Write + Faults + Drop>(rt: &N, log: &Log, errors: L) {
    let mut errors = errors;
    log.keep(rt, &mut errors);
}

/// Has no more lines come to the log, and joins the thread that writes it, unless that waits for whoever reads standard error.
fn end_log<N: Threads + Wait + Clock>(rt: &N, node: &Node, writer: JoinHandle<()>) {
    if node.log.close(rt) {
        writer.join(rt);
    }
}

/// What the log says of a configuration when its node starts.
#[derive(Clone, Copy)]
struct StartNotes<'a> {
    checksum: &'a [u8],
    warnings: &'a Warnings,
}

/// Adds the lines of a start to the log: the program's version, the configuration's checksum, what in it is surely meant otherwise, the
/// ports, and whether the node is up to date at once, as without peers.
fn log_start<N: Wait + Clock>(rt: &N, node: &Node, notes: StartNotes<'_>) {
    node.log_event(
        rt,
        Event::Start {
            version: VERSION.as_bytes(),
            configuration: notes.checksum,
            node: node.configuration.node.as_slice(),
        },
    );
    log_warnings(rt, node, notes.warnings);
    log_ports(rt, node);
    if node.catching_up.is_up_to_date(rt) {
        node.log_up_to_date(rt, None);
    }
}

/// Adds a line to the log for each warning of the configuration.
fn log_warnings<N: Wait + Clock>(rt: &N, node: &Node, warnings: &Warnings) {
    let mut said = warnings.said.as_slice();
    for _ in 0..said.len() {
        let Some((warning, more)) = cut(said, b'\n') else {
            return;
        };
        node.log_event(rt, Event::ConfigurationWarning { warning });
        said = more;
    }
}

/// Starts the threads of the admin port. Returns whether all could be started.
fn start_admin<
    's,
    E: 's,
    N: Net<Listener = TcpListener, Stream = TcpStream> + Files + Threads + Wait + Clock + Sync,
>(
    rt: &'s N,
    scope: &'s Scope<'s, E>,
    node: &'s Node,
    port: &'s AdminPort,
    requesters: Vec<Seat>,
) -> bool
where
    N::File: Send + Sync,
    N::Dir: Send + Sync,
{
    for seat in requesters {
        let started = scope.spawn(move || serve_clients(rt, node, port, seat));
        if started.is_err() {
            return false;
        }
    }
    start_accepting(rt, scope, node, port, port.tcp())
        && start_accepting(rt, scope, node, port, port.socket())
}

/// Starts the thread that accepts the connections of clients at a listener, if there is one. Returns whether it could be started.
fn start_accepting<
    's,
    E: 's,
    N: Net<Listener = TcpListener, Stream = TcpStream> + Threads + Wait + Clock + Sync,
>(
    rt: &'s N,
    scope: &'s Scope<'s, E>,
    node: &'s Node,
    port: &'s AdminPort,
    listener: Option<&'s Listener>,
) -> bool {
    match listener {
        Some(listener) => scope
            .spawn(move || accept_clients(rt, node, port, listener))
            .is_ok(),
        None => true,
    }
}

/// Starts the threads of the port of metrics. Returns whether all could be started.
fn start_metrics<
    's,
    E: 's,
    N: Net<Listener = TcpListener, Stream = TcpStream> + Files + Threads + Wait + Clock + Sync,
>(rt: &'s N, scope: &'s Scope<'s, E>, node: &'s Node, port: &'s MetricsPort) -> bool
where
    N::File: Send + Sync,
    N::Dir: Send + Sync,
{
    for _ in 0..VIEWERS {
        let started = scope.spawn(move || serve_visits(rt, node, port));
        if started.is_err() {
            return false;
        }
    }
    scope.spawn(move || accept_visits(rt, node, port)).is_ok()
}

/// Starts the threads that keep sessions: those of the peers, and the doors. Returns whether all could be started.
fn start_peers<
    's,
    E: 's,
    N: Net<Listener = TcpListener, Stream = TcpStream> + Threads + Wait + Clock + Sync,
>(rt: &'s N, scope: &'s Scope<'s, E>, node: &'s Node, ports: &'s Ports, peers: Vec<Seat>) -> bool {
    for (peer, seat) in peers.into_iter().enumerate() {
        let started = scope.spawn(move || keep_peer(rt, node, peer, seat));
        if started.is_err() {
            return false;
        }
    }
    for index in 0..DOORS {
        let started = scope.spawn(move || keep_door(rt, node, &ports.peers, &ports.doors, index));
        if started.is_err() {
            return false;
        }
    }
    true
}

/// Starts the threads of a node. Returns whether all could be started. Those that keep sessions or answer clients wait until the node starts.
fn start_all<
    's,
    E: 's,
    N: Net<Listener = TcpListener, Stream = TcpStream> + Files + Threads + Wait + Clock + Sync,
>(rt: &'s N, scope: &'s Scope<'s, E>, node: &'s Node, ports: &'s Ports, seats: Seats) -> bool
where
    N::File: Send + Sync,
    N::Dir: Send + Sync,
{
    let Seats {
        keeper,
        peers,
        requesters,
    } = seats;
    let keeps = scope.spawn(move || keep_tables(rt, node, keeper)).is_ok();
    let serves = match &ports.admin {
        Some(port) => keeps && start_admin(rt, scope, node, port, requesters),
        None => keeps,
    };
    let shows = match &ports.metrics {
        Some(port) => serves && start_metrics(rt, scope, node, port),
        None => serves,
    };
    shows && start_peers(rt, scope, node, ports, peers)
}

/// Runs the threads of a node until it stops, of whose configuration the log says this. Returns how many sessions it cut, or `None` if not
/// all threads could be started.
fn run_in<
    's,
    X: 's,
    N: Net<Listener = TcpListener, Stream = TcpStream> + Files + Threads + Wait + Clock + Sync,
>(
    rt: &'s N,
    scope: &'s Scope<'s, X>,
    node: &'s Node,
    ports: &'s Ports,
    seats: Seats,
    notes: StartNotes<'_>,
) -> Option<u64>
where
    N::File: Send + Sync,
    N::Dir: Send + Sync,
{
    let starts = start_all(rt, scope, node, ports, seats);
    if starts {
        log_start(rt, node, notes);
        node.start(rt);
        node.wait_to_stop(rt);
        node.log_event(rt, Event::Stop);
    }
    node.stop(rt);
    ports.end(rt, node.alloc);
    let cut = node.end_sessions(rt);
    if starts { Some(cut) } else { None }
}

/// Makes the node of a configuration, and opens its ports.
fn begun<
    N: Net<Listener = TcpListener, Stream = TcpStream>
        + Files
        + Threads
        + Wait
        + Clock
        + Copy
        + Send
        + 'static,
>(
    rt: &N,
    alloc: Global,
    configuration: Configuration,
    pid: u32,
) -> Result<(Node, Seats, Ports), StartError> {
    let clock = match NodeClock::new(rt) {
        Ok(clock) => clock,
        Err(error) => return Err(StartError::lacks(alloc, Need::Clock, "", &error)),
    };
    let (node, seats) = Node::new(alloc, clock, configuration, pid)?;
    let ports = Ports::open(rt, alloc, &node.configuration)?;
    Ok((node, seats, ports))
}

/// Runs the node of a configuration until it stops, and writes its log to `log`, which says this of the configuration.
fn run_node<
    N: Net<Listener = TcpListener, Stream = TcpStream>
        + Files
        + Threads
        + Wait
        + Clock
        + Sync
        + Copy
        + Send
        + 'static,
    L: Write + Faults + Send + Drop + 'static,
>(
    rt: &N,
    alloc: Global,
    configuration: Configuration,
    pid: u32,
    notes: StartNotes<'_>,
    log: L,
) -> Result<(), StartError>
where
    N::File: Send + Sync,
    N::Dir: Send + Sync,
{
    let (node, seats, ports) = begun(rt, alloc, configuration, pid)?;
    let _kept = node.spare.keep(rt, &ports.peers);
    let Some(writer) = start_log(rt, &node, log) else {
        ports.remove_file(rt);
        return Err(StartError::no_thread(alloc));
    };
    let ended = thread::scope(thread::scope_env(), rt, |scope| {
        run_in(rt, scope, &node, &ports, seats, notes)
    });
    ports.remove_file(rt);
    if let Some(cut) = ended {
        node.log_event(rt, Event::Stopped { cut });
    }
    end_log(rt, &node, writer);
    match ended {
        Some(_) => Ok(()),
        None => Err(StartError::no_thread(alloc)),
    }
}

/// Reads a configuration from `input`, and runs its node, in the process with the number `pid`, until a request stops it. Writes why it
/// can't be run to `errors`, and its log to `log`; a log that can't be written, or only slowly, holds nothing up.
///
/// If a line of the configuration is `log journal`, each line to `errors` begins with the number of an error for systemd's journal.
///
/// Ends with `Device` if `input` can't be read, a port can't be opened or a thread can't be started; `errors` then has a line that says
/// which, and why. It opens all ports and starts all threads but the readers of connections before it connects to a peer, or takes a
/// connection of one.
pub fn run<
    N: Net<Listener = TcpListener, Stream = TcpStream>
        + Files
        + Threads
        + Wait
        + Clock
        + Sync
        + Copy
        + Send
        + 'static,
    I: Read + Faults,
    E: Write + Faults,
    L: Write + Faults + Send + Drop + 'static,
>(rt: &N, alloc: Global, pid: u32, input: &mut I, errors: &mut E, log: L) -> Ending
where
    N::File: Send + Sync,
    N::Dir: Send + Sync,
{
    let text = match read_text(alloc, input, errors) {
        Ok(text) => text,
        Err(ending) => return ending,
    };
    let mut errors = Marked::new(errors, says_journal(text.as_slice()));
    let mut given = Counting::new(text.as_slice());
    let mut input = Summed::new(&mut given);
    let (configuration, warnings) = match configuration_of(alloc, &mut input, &mut errors) {
        Ok(read) => read,
        Err(ending) => return ending,
    };
    let Ok(checksum) = input.checksum(alloc) else {
        return Ending::Memory.said(alloc, &mut errors);
    };
    let notes = StartNotes {
        checksum: checksum.as_bytes(),
        warnings: &warnings,
    };
    match run_node(rt, alloc, configuration, pid, notes, log) {
        Ok(()) => Ending::Done,
        Err(error) => error.said(alloc, &mut errors),
    }
}
