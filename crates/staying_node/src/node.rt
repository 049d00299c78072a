//! What the threads of a node share.

use crate::bell::Bell;
use crate::catching_up::CatchingUp;
use crate::clock::{NodeClock, milliseconds};
use crate::fault_counts::FaultCounts;
use crate::lags::Lags;
use crate::log::Log;
use crate::numbering::Numbering;
use crate::process::Spare;
use crate::slot::Slot;
use crate::wrong_ports::WrongPorts;
use admin_text::Configuration;
use node_core::{ALONE, Event, PeerEvent};
use node_rules::{ENDING, LastWait};
use std::alloc::Global;
use std::net::SocketAddr;
use std::sync::atomic::{AtomicBool, AtomicU64, Ordering};
use std::sync::{Arc, Wait};
use std::thread;
use std::time::Clock;
use table_cell::TableCell;
use table_shards::{Seat, Shards};
use table_types::{Memory, Name, Roster};

/// How many threads answer requests.
pub(crate) const MOST_REQUESTERS: u32 = 32;

/// How long a thread that waits for a bell waits at most, in milliseconds.
pub(crate) const REST: u64 = 5_000;

/// What the threads of a node tell one another, each once but for the last.
#[derive(Drop)]
struct Flags {
    /// Whether all threads of the node have started.
    started: AtomicBool,
    stopped: AtomicBool,
    /// Whether requests to track keys no longer wait.
    tracks: AtomicBool,
    /// Whether all sessions are to end, and none to begin, since a table gets new numbers.
    paused: AtomicBool,
    /// Whether the node stops, and waits no longer for the sessions that stand.
    cut: AtomicBool,
}

impl Flags {
    /// Returns the flags of a node that has just been made.
    fn new() -> Flags {
        Flags {
            started: AtomicBool::new(false),
            stopped: AtomicBool::new(false),
            tracks: AtomicBool::new(false),
            paused: AtomicBool::new(false),
            cut: AtomicBool::new(false),
        }
    }
}

/// What the threads of a node share.
#[derive(Drop)]
pub(crate) struct Node {
    pub(crate) alloc: Global,
    pub(crate) clock: NodeClock,
    pub(crate) configuration: Configuration,
    /// The number of the process, which its hellos say.
    pub(crate) pid: u32,
    /// The tables, in ascending order of id.
    pub(crate) roster: Roster,
    /// The names of the peers, in the configuration's order.
    pub(crate) names: Vec<Name>,
    pub(crate) shards: Shards,
    /// The place of each peer, in the configuration's order.
    pub(crate) slots: Vec<Slot>,
    pub(crate) catching_up: CatchingUp,
    /// The log, which the thread that writes it shares.
    pub(crate) log: Arc<Log, Global>,
    pub(crate) wrong_ports: WrongPorts,
    /// How many hellos were refused with each status from 501 on.
    refused: [AtomicU64; 4],
    pub(crate) faults: FaultCounts,
    pub(crate) numbering: Numbering,
    pub(crate) lags: Lags,
    pub(crate) spare: Spare,
    /// Rings when all threads of the node have started, when the node is up to date, and when it stops.
    pub(crate) changed: Bell,
    flags: Flags,
}

/// The seats of a node: one for the thread that keeps the tables, one for each peer, and one for each thread that answers requests.
#[derive(Drop)]
pub(crate) struct Seats {
    pub(crate) keeper: Seat,
    pub(crate) peers: Vec<Seat>,
    pub(crate) requesters: Vec<Seat>,
}

/// Returns the tables of the configuration, in ascending order of id.
fn roster_of(alloc: Global, configuration: &Configuration) -> Result<Roster, Memory> {
    let mut definitions = Vec::new(alloc);
    for table in &configuration.tables {
        definitions.push(table.definition.copy(alloc)?)?;
    }
    definitions.sort_unstable_by_key(|definition| definition.id());
    match Roster::new(definitions) {
        Ok(roster) => Ok(roster),
        Err(_) => Err(Memory),
    }
}

/// Returns the names of the peers, in the configuration's order.
fn names_of(alloc: Global, configuration: &Configuration) -> Result<Vec<Name>, Memory> {
    let mut names = Vec::new(alloc);
    for peer in &configuration.peers {
        names.push(peer.name.copy(alloc)?)?;
    }
    Ok(names)
}

/// Returns the tables, without rows, each with its settings.
fn cells_of(alloc: Global, configuration: &Configuration) -> Result<Vec<TableCell>, Memory> {
    let mut cells = Vec::new(alloc);
    for table in &configuration.tables {
        let definition = table.definition.copy(alloc)?;
        let size = (table.most_rows() as usize)
            .max(1)
            .min(TableCell::MOST_ROWS);
        let nopurge = table.nopurge.is_some();
        cells.push(TableCell::new(alloc, definition, size, nopurge, 1)?)?;
    }
    Ok(cells)
}

/// Gives out the seats.
fn seats_of(alloc: Global, seats: Vec<Seat>, peers: usize) -> Result<Seats, Memory> {
    let mut keeper = None;
    let mut of_peers = Vec::new(alloc);
    let mut requesters = Vec::new(alloc);
    for (index, seat) in seats.into_iter().enumerate() {
        if index == 0 {
            keeper = Some(seat);
        } else if index <= peers {
            of_peers.push(seat)?;
        } else {
            requesters.push(seat)?;
        }
    }
    match keeper {
        Some(keeper) => Ok(Seats {
            keeper,
            peers: of_peers,
            requesters,
        }),
        None => Err(Memory),
    }
}

/// Returns an address as text, or nothing if it isn't known or memory runs out.
pub(crate) fn address_text(alloc: Global, address: Option<SocketAddr>) -> String {
    match address {
        Some(address) => format!(in alloc; "{address}").unwrap_or(String::new(alloc)),
        None => String::new(alloc),
    }
}

/// Returns the host of an address as text, or nothing if it isn't known or memory runs out.
pub(crate) fn host_text(alloc: Global, address: Option<SocketAddr>) -> String {
    let Some(address) = address else {
        return String::new(alloc);
    };
    let host = address.ip();
    format!(in alloc; "{host}").unwrap_or(String::new(alloc))
}

/// Returns a place for each peer.
fn slots_of(alloc: Global, peers: usize) -> Result<Vec<Slot>, Memory> {
    let mut slots = Vec::with_capacity(alloc, peers)?;
    for _ in 0..peers {
        slots.push(Slot::new(alloc))?;
    }
    Ok(slots)
}

impl Node {
    /// Returns the node of a configuration and its seats, in the process with this number.
    pub(crate) fn new(
        alloc: Global,
        clock: NodeClock,
        configuration: Configuration,
        pid: u32,
    ) -> Result<(Node, Seats), Memory> {
        let peers = configuration.peers.len();
        let roster = roster_of(alloc, &configuration)?;
        let names = names_of(alloc, &configuration)?;
        let cells = cells_of(alloc, &configuration)?;
        let seats = match u32::try_from(peers) {
            Ok(peers) => peers.saturating_add(1 + MOST_REQUESTERS),
            Err(_) => return Err(Memory),
        };
        let (shards, seats) = Shards::new(alloc, cells, seats)?;
        let seats = seats_of(alloc, seats, peers)?;
        let log = Log::new(
            alloc,
            configuration.log,
            clock,
            names_of(alloc, &configuration)?,
        );
        let log = Arc::new(alloc, log).map_err(|_| Memory)?;
        let tables = roster.tables().len();
        let node = Node {
            alloc,
            clock,
            configuration,
            pid,
            roster,
            names,
            shards,
            slots: slots_of(alloc, peers)?,
            catching_up: CatchingUp::new(alloc, peers)?,
            log,
            wrong_ports: WrongPorts::new(alloc),
            refused: [
                AtomicU64::new(0),
                AtomicU64::new(0),
                AtomicU64::new(0),
                AtomicU64::new(0),
            ],
            faults: FaultCounts::new(alloc),
            numbering: Numbering::new(alloc, tables)?,
            lags: Lags::new(alloc),
            spare: Spare::new(),
            changed: Bell::new(),
            flags: Flags::new(),
        };
        Ok((node, seats))
    }

    /// Lets connections begin, since all threads of the node have started.
    pub(crate) fn start<R: Wait>(&self, rt: &R) {
        self.flags.started.store(true, Ordering::SeqCst);
        self.changed.ring(rt);
    }

    /// Waits until connections may begin: until all threads of the node have started. Returns `false` if the node stops, as it does
    /// if one can't be started.
    pub(crate) fn wait_to_connect<R: Wait + Clock>(&self, rt: &R) -> bool {
        for _ in rt.forever() {
            let seen = self.changed.rings(rt);
            if self.stops() {
                return false;
            }
            if self.flags.started.load(Ordering::SeqCst) {
                return true;
            }
            self.changed.wait(rt, seen, milliseconds(REST));
        }
        unreachable!()
    }

    /// Returns whether the node stops.
    pub(crate) fn stops(&self) -> bool {
        self.flags.stopped.load(Ordering::SeqCst)
    }

    /// Stops the node: wakes all its threads, which then end. A session ends once its peer has acknowledged what the node had to
    /// teach.
    pub(crate) fn stop<R: Wait>(&self, rt: &R) {
        self.flags.stopped.store(true, Ordering::SeqCst);
        self.changed.ring(rt);
        self.ring_all(rt);
    }

    /// Waits until the node stops.
    pub(crate) fn wait_to_stop<R: Wait + Clock>(&self, rt: &R) {
        for _ in rt.forever() {
            let seen = self.changed.rings(rt);
            if self.stops() {
                return;
            }
            self.changed.wait(rt, seen, milliseconds(REST));
        }
    }

    /// Waits for the sessions that stand, as long as a node that stops does.
    fn wait_for_sessions<R: Wait + Clock>(&self, rt: &R) {
        let mut wait = LastWait::new(self.clock.milliseconds(rt));
        for _ in rt.forever() {
            let stands = self.slots.iter().any(|slot| slot.has_session(rt));
            if !wait.look(stands, self.clock.milliseconds(rt)) {
                return;
            }
            thread::sleep(rt, milliseconds(ENDING));
        }
    }

    /// Returns how many peers have a session.
    pub(crate) fn peers_up<R: Wait>(&self, rt: &R) -> u64 {
        let mut count = 0u64;
        for slot in &self.slots {
            let is_up = slot.status(rt).record.stands();
            count = count.saturating_add(u64::from(is_up));
        }
        count
    }

    /// Waits for the sessions that stand, and then shuts down the connections of those that still do, and returns how many sessions these
    /// are. One that begins later finds that the node stops.
    pub(crate) fn end_sessions<R: Wait + Clock>(&self, rt: &R) -> u64 {
        self.wait_for_sessions(rt);
        let cut = self.peers_up(rt);
        self.flags.cut.store(true, Ordering::SeqCst);
        self.shut_all(rt);
        cut
    }

    /// Returns whether the node stops, and waits no longer for the sessions that stand.
    pub(crate) fn has_cut(&self) -> bool {
        self.flags.cut.load(Ordering::SeqCst)
    }

    /// Returns whether no session may stand, since a table gets new numbers.
    pub(crate) fn is_paused(&self) -> bool {
        self.flags.paused.load(Ordering::SeqCst)
    }

    /// Has all sessions end and none begin, or lets sessions stand again.
    pub(crate) fn set_paused<R: Wait>(&self, rt: &R, paused: bool) {
        if self.flags.paused.swap(paused, Ordering::SeqCst) == paused {
            return;
        }
        self.ring_all(rt);
        if paused {
            self.shut_all(rt);
        }
    }

    /// Shuts down the connection of each session that stands.
    fn shut_all<R: Wait>(&self, rt: &R) {
        for slot in &self.slots {
            slot.shut(rt);
        }
    }

    /// Wakes all whom it concerns whether the node is up to date, and which peer is waited for.
    pub(crate) fn tell_of_catching_up<R: Wait>(&self, rt: &R) {
        self.changed.ring(rt);
        self.ring_all(rt);
    }

    /// Adds a line about what happens to the node to the log.
    pub(crate) fn log_event<R: Wait + Clock>(&self, rt: &R, event: Event<'_>) {
        self.log.add(rt, None, &event);
    }

    /// Adds a line to the log that says that the node becomes up to date, by the peer with this index if one has taught it all rows.
    pub(crate) fn log_up_to_date<R: Wait + Clock>(&self, rt: &R, teacher: Option<usize>) {
        let name = match teacher {
            Some(peer) => self.names.get(peer),
            None => None,
        };
        let teacher = name.map(|name| name.as_slice());
        self.log_event(rt, Event::UpToDate { teacher });
    }

    /// Adds a line about what happens with the peer with this index to the log.
    pub(crate) fn log_peer_event<R: Wait + Clock>(
        &self,
        rt: &R,
        peer: usize,
        event: PeerEvent<'_>,
    ) {
        let far = match self.slots.get(peer) {
            Some(slot) => slot.status(rt).far,
            None => None,
        };
        self.log_peer_event_at(rt, peer, far, event);
    }

    /// Adds a line about what happens with the peer with this index to the log, or happened on a connection whose far end this is.
    pub(crate) fn log_peer_event_at<R: Wait + Clock>(
        &self,
        rt: &R,
        peer: usize,
        far: Option<SocketAddr>,
        event: PeerEvent<'_>,
    ) {
        let Some(configured) = self.configuration.peers.get(peer) else {
            return;
        };
        let address = address_text(self.alloc, far.or(configured.address));
        let event = Event::OfPeer {
            name: configured.name.as_slice(),
            address: address.as_bytes(),
            event,
        };
        self.log.add(rt, Some(peer), &event);
    }

    /// Counts a hello that was refused with this status.
    pub(crate) fn count_refused(&self, status: u16) {
        if let Some(count) = self.refused.get(usize::from(status).wrapping_sub(501)) {
            count.fetch_add(1, Ordering::SeqCst);
        }
    }

    /// Returns how many hellos were refused with this status.
    pub(crate) fn hellos_refused(&self, status: u16) -> u64 {
        match self.refused.get(usize::from(status).wrapping_sub(501)) {
            Some(count) => count.load(Ordering::SeqCst),
            None => 0,
        }
    }

    /// Rings the bell of each peer.
    pub(crate) fn ring_all<R: Wait>(&self, rt: &R) {
        for slot in &self.slots {
            slot.bell.ring(rt);
        }
    }

    /// Returns whether requests to track keys no longer wait.
    pub(crate) fn tracks(&self) -> bool {
        self.flags.tracks.load(Ordering::SeqCst)
    }

    /// Waits until keys may be tracked: until the node is up to date, or has waited for that long enough, or stops.
    pub(crate) fn wait_to_track<R: Wait + Clock>(&self, rt: &R) {
        for _ in rt.forever() {
            let seen = self.changed.rings(rt);
            let now = self.clock.milliseconds(rt);
            if now >= ALONE || self.catching_up.is_up_to_date(rt) {
                self.flags.tracks.store(true, Ordering::SeqCst);
                return;
            }
            if self.stops() {
                return;
            }
            self.changed
                .wait(rt, seen, milliseconds(ALONE.saturating_sub(now).max(1)));
        }
    }
}
