//! A session with a peer, from its connection to its end.

use crate::acknowledged::{are_acknowledged, has_acknowledged_last};
use crate::brought::brought_on;
use crate::catching_up::Offer;
use crate::clock::milliseconds;
use crate::definitions::{Comparison, are_alike, first_passed_over};
use crate::ends::{
    FailureCodes, cause_of, cause_text, closing_cause, end_of_closed, end_of_error, has_done_all,
};
use crate::inbox::{Inbox, receive};
use crate::intake::Intake;
use crate::node::Node;
use crate::outbox::Outbox;
use crate::slot::Slot;
use crate::status::Totals;
use crate::tables::{close, forget, forget_all, number_of, reopen};
use admin_port::{PassedOver, PeerRole};
use node_core::{
    Brought, Busy, Failure, NoSession, PeerEvent, ResyncEnd, SessionEnd, Ticks, Traffic,
};
use node_log::pid_of;
use node_rules::{
    Closing, EndNews, EndedConnection, Ending, Learning, Outside, Resync, ResyncsHeard, Teaching,
    closing_of, counts_as, lacks_tables, missed_heartbeat, resync_end,
};
use peers_devices::Writes;
use peers_engine::{AlwaysOpen, EngineError, Outcome, Worker};
use peers_hello::{Hello, Status, read_status};
use session_core::{Controls, Event, Session, State};
use std::alloc::AllocError;
use std::net::{Shutdown, SocketAddr, TcpStream};
use std::sync::{Arc, Wait};
use std::thread;
use std::thread::{Scope, Threads};
use std::time::Clock;
use table_shards::Seat;
use table_types::{Memory, Moment, Name, Version, table_at};

/// A peer's place in a node that runs.
#[derive(Drop)]
pub(crate) struct Place<'a, N> {
    pub(crate) rt: &'a N,
    pub(crate) node: &'a Node,
    pub(crate) slot: &'a Slot,
    /// The index of the peer.
    pub(crate) peer: usize,
}

/// A connection, and which end made it.
#[derive(Drop)]
pub(crate) struct Connection {
    pub(crate) stream: TcpStream,
    pub(crate) role: PeerRole,
    /// The version that the node says in its hello, if it is the end that made the connection.
    pub(crate) version: Version,
    /// The bytes that were read from it.
    pub(crate) bytes: Vec<u8>,
}

/// Returns the status that the first bytes of a connection say, if they are one.
fn status_in(head: &[u8]) -> Option<u16> {
    match read_status(head) {
        Status::Code(code, _) => Some(code),
        Status::Other(_) | Status::More => None,
    }
}

/// Returns how many resyncs the peer has ended, given the control messages that it has sent.
fn heard_in(controls: Controls) -> ResyncsHeard {
    ResyncsHeard {
        finished: controls.finished,
        partial: controls.partial,
    }
}

/// Makes the session of a connection with a peer.
fn session_of(
    node: &Node,
    peer: &Name,
    role: PeerRole,
    version: Version,
    up_to_date: bool,
) -> Result<Session, Memory> {
    let alloc = node.alloc;
    let own = node.configuration.node.copy(alloc)?;
    let roster = node.roster.copy(alloc)?;
    match role {
        PeerRole::Connect => {
            let hello = Hello {
                remote: peer.copy(alloc)?,
                local: own,
                pid: node.pid,
                relative: 1,
                version,
            };
            Session::connect(alloc, hello, roster, up_to_date)
        }
        PeerRole::Accept => {
            let mut peers = Vec::new(alloc);
            peers.push(peer.copy(alloc)?)?;
            Session::accept(alloc, own, peers, roster, up_to_date)
        }
    }
}

/// Makes the session of a connection, which stays from now on. Returns `None` if memory runs out.
fn standing_of<N: Wait + Clock>(
    place: &Place<'_, N>,
    role: PeerRole,
    version: Version,
) -> Option<Session> {
    let node = place.node;
    let peer = node.configuration.peers.get(place.peer)?;
    let up_to_date = node.catching_up.is_up_to_date(place.rt);
    let session = session_of(node, &peer.name, role, version, up_to_date).ok()?;
    session.stay(node.clock.now(place.rt)).ok()
}

/// The work with a session that stands.
#[derive(Drop)]
struct Work<'a, N> {
    rt: &'a N,
    node: &'a Node,
    /// The index of the peer.
    peer: usize,
    slot: &'a Slot,
    from: Intake<'a, N>,
    to: Outbox<'a, N>,
    /// What the writes to it came to.
    writes: Writes,
    worker: Worker,
    role: PeerRole,
    /// The pid that the peer's hello said, if it sent one.
    pid: Option<u64>,
    /// Whether the session knows that the node is up to date.
    up_to_date: bool,
    /// Whether a peer had taught the node all rows by the last look.
    is_taught: bool,
    /// Whether the peer may be asked for all rows.
    offer: Offer,
    /// Whether it was asked on this session.
    has_asked: bool,
    /// Whether the peer had defined all tables as the node does by the last tick.
    is_alike: bool,
    ending: Ending,
    learning: Learning,
    teaching: Teaching,
    /// What the peer had brought at the last look.
    brought: Brought,
    ticks: Ticks,
    /// When the worker last looked whether a tick comes, in milliseconds since the node began, and how long the writes had taken by then.
    tick_look: (u64, u64),
    /// The tables that the session has left, as far as the log says so.
    left: Vec<u64>,
    /// Whether the log says that a table was passed over.
    passes_over: bool,
    /// Why this node closes the session itself, if it does.
    closing: Option<Closing>,
    /// The error that ended the session, if one did.
    error: Option<EngineError>,
    comparison: Comparison,
}

impl<'a, N: Wait + Clock> Work<'a, N> {
    /// Returns the work with a session that has just been connected, at a peer's place.
    fn new(
        place: Place<'a, N>,
        role: PeerRole,
        pid: Option<u64>,
        from: Intake<'a, N>,
        to: Outbox<'a, N>,
        worker: Worker,
    ) -> Work<'a, N> {
        let Place {
            rt,
            node,
            slot,
            peer,
        } = place;
        Work {
            rt,
            node,
            peer,
            slot,
            from,
            to,
            writes: Writes::none(),
            worker,
            role,
            pid,
            up_to_date: false,
            is_taught: false,
            offer: Offer::Waits,
            has_asked: false,
            is_alike: false,
            ending: Ending::new(),
            learning: Learning::new(),
            teaching: Teaching::new(),
            brought: Brought::nothing(),
            ticks: Ticks::new(node.clock.milliseconds(rt)),
            tick_look: (0, 0),
            left: Vec::new(node.alloc),
            passes_over: false,
            closing: None,
            error: None,
            comparison: Comparison::new(),
        }
    }

    /// Works until the session ends, and returns why it did.
    fn work(&mut self) -> SessionEnd {
        let rt = self.rt;
        let tables = self.node.roster.tables().len();
        let mut seen = 0;
        if let Some(end) = self.catch_up(self.node.clock.now(rt)) {
            return self.last_end(end);
        }
        for _ in rt.forever() {
            if self.ending.is_at_work() {
                seen = self.slot.bell.rings(rt);
            }
            if let Some(end) = self.step() {
                return self.last_end(end);
            }
            if let Some(end) = self.interruption() {
                return end;
            }
            if self.ending.may_rest(tables) {
                self.ending.rest();
                forget_all(self.node, &mut self.worker.seat);
                self.report();
                let now = self.node.clock.milliseconds(rt);
                let time = self.ticks.rest(now);
                self.slot.bell.wait(rt, seen, milliseconds(time));
            }
        }
        unreachable!()
    }

    /// Returns why the session is to end now for what happens outside it, if it is.
    fn interruption(&mut self) -> Option<SessionEnd> {
        let outside = Outside {
            replaced: self.slot.has_arrival(self.rt),
            paused: self.node.is_paused(),
            stops: self.node.stops(),
        };
        let now = self.node.clock.milliseconds(self.rt);
        let tables = self.worker.session.progress();
        let count = tables.len();
        let acknowledged = outside.stops && are_acknowledged(tables);
        let end = self.ending.look(now, outside, count, acknowledged);
        self.closing = closing_of(end, outside.paused, self.node.has_cut());
        match self.closing {
            Some(_) => Some(SessionEnd::End),
            None => end,
        }
    }

    /// Returns why a session that is over ended, given what a turn or a tick of it came to: as that says, unless it was to end anyway.
    fn last_end(&mut self, end: SessionEnd) -> SessionEnd {
        self.interruption().unwrap_or(end)
    }

    /// Notes the error that ends the session, and returns why that is over.
    fn fail(&mut self, error: EngineError) -> SessionEnd {
        self.error = Some(error);
        end_of_error(error)
    }

    /// Notes what went over the connection, and how long the writes took since the last look whether a tick comes.
    fn note_traffic(&mut self) {
        let controls = self.worker.session.controls();
        let traffic = Traffic {
            sent: self.writes.taken(),
            received: self.from.total,
            heartbeats: self
                .worker
                .session
                .counts()
                .heartbeats
                .wrapping_add(controls.heartbeats),
            sent_at: self.to.begun,
        };
        let (since, taken) = self.tick_look;
        let busy = Busy {
            since,
            writing: self.to.taken.saturating_sub(taken),
        };
        let now = self.node.clock.milliseconds(self.rt);
        self.ticks.note(now, busy, traffic);
    }

    /// Takes a tick if one is due, and a turn. Returns why the session ended, if it did.
    fn step(&mut self) -> Option<SessionEnd> {
        let begun = self.node.clock.milliseconds(self.rt);
        self.tick_look = (begun, self.to.taken);
        if self.ticks.is_tick(begun, self.from.arrived()) {
            if let Some(end) = self.take_tick() {
                return Some(end);
            }
        }
        let now = self.node.clock.now(self.rt);
        self.to.begin_turn();
        let turned = self.worker.turn(
            self.rt,
            self.node.alloc,
            &mut self.from,
            &mut self.to,
            &mut self.writes,
            &AlwaysOpen,
            &self.node.shards,
            now,
        );
        self.note_traffic();
        self.ending.turn(matches!(&turned, Ok(Outcome::Idled)));
        match turned {
            Ok(Outcome::Worked | Outcome::Idled) => self.look(now),
            Ok(Outcome::Closed) => Some(self.closed()),
            Err(error) => Some(self.fail(error)),
        }
    }

    /// Gives the session an event of the node's own, and performs what it asks for.
    fn take(&mut self, event: Event, now: Moment) -> Result<Outcome, EngineError> {
        self.to.begin_turn();
        self.worker.take(
            self.rt,
            self.node.alloc,
            &mut self.to,
            &mut self.writes,
            &self.node.shards,
            event,
            now,
        )
    }

    /// Takes a tick, and does what else is to be done now and then. Returns why the session ended, if it did.
    fn take_tick(&mut self) -> Option<SessionEnd> {
        let now = self.node.clock.now(self.rt);
        let ticked = self.take(Event::Tick, now);
        self.look_at_left();
        self.look_at_passed_over();
        self.compare_definitions();
        self.report();
        for table in self.node.roster.tables() {
            forget(&mut self.worker.seat, table.id());
        }
        match ticked {
            Ok(Outcome::Worked | Outcome::Idled) => None,
            Ok(Outcome::Closed) => Some(SessionEnd::Silent),
            Err(error) => Some(self.fail(error)),
        }
    }

    /// Notes how the session went on, and asks for a resync if it is this peer's turn. Returns why the session ended, if it did.
    fn look(&mut self, now: Moment) -> Option<SessionEnd> {
        match self.worker.session.state() {
            State::New | State::Hello | State::Ended => return None,
            State::Ready | State::Teaching => {
                let had_begun = self.ending.has_begun();
                self.begin();
                self.look_at_heartbeats(had_begun);
            }
        }
        self.look_at_teaching();
        self.look_at_rows();
        self.look_at_asking();
        if let Some(end) = self.catch_up(now) {
            return Some(end);
        }
        if !self.ask_if_next() {
            return None;
        }
        self.begin_asking();
        let end = self.tell(Event::Ask, now);
        self.note_traffic();
        end
    }

    /// Gives the session an event of the node's own. Returns why the session ended, if it did.
    fn tell(&mut self, event: Event, now: Moment) -> Option<SessionEnd> {
        match self.take(event, now) {
            Ok(_) => None,
            Err(error) => Some(self.fail(error)),
        }
    }

    /// Has the session's resyncs end as finished once the node is up to date. One that is under way still ends as partial, since it
    /// doesn't teach what the node has learned since it began. Returns why the session ended, if it did.
    fn catch_up(&mut self, now: Moment) -> Option<SessionEnd> {
        if self.up_to_date
            || self.teaching.is_under_way()
            || !self.node.catching_up.is_up_to_date(self.rt)
        {
            return None;
        }
        self.up_to_date = true;
        self.tell(Event::CaughtUp, now)
    }

    /// Notes that the session's hello is over.
    fn begin(&mut self) {
        let now = self.node.clock.milliseconds(self.rt);
        if !self.ending.begin(now) {
            return;
        }
        let version = self.worker.session.version();
        let mut status = self.slot.status(self.rt);
        let away = now.saturating_sub(status.record.since);
        let process = status.record.begin(now, version, self.pid);
        status.answers.begin(self.pid.is_some(), process, away);
        drop(status);
        self.log(PeerEvent::Connected {
            accepted: self.role == PeerRole::Accept,
            version: version.unwrap_or(Version::V21),
            process,
            away,
        });
    }

    /// Adds a line about the peer to the log.
    fn log(&self, event: PeerEvent<'_>) {
        self.node.log_peer_event(self.rt, self.peer, event);
    }

    /// Notes the state that the session is in.
    fn set_state(&mut self) {
        let mut status = self.slot.status(self.rt);
        let (asking, teaching) = (self.learning.is_under_way(), self.teaching.is_under_way());
        status.record.go_on(asking, teaching);
    }

    /// Notes whether the session has begun or ended a resync as the teacher since the last look. It may have done both.
    fn look_at_teaching(&mut self) {
        let counts = self.worker.session.counts();
        let was_teaching = self.teaching.is_under_way();
        let teaching = self.worker.session.state() == State::Teaching;
        let now = self.node.clock.milliseconds(self.rt);
        let (taught, ended) = (counts.taught, counts.resyncs);
        if let Some(resync) = self.teaching.look(now, taught, ended, teaching) {
            let tables = self.worker.session.progress();
            let has_left = tables.iter().any(|table| table.left);
            self.end_teaching(resync_end(self.up_to_date, has_left), resync);
        }
        if teaching != was_teaching {
            self.set_state();
        }
    }

    /// Adds a line to the log if bytes came again after none had come for too long, of a session that had begun.
    fn look_at_heartbeats(&self, begun: bool) {
        let longest_wait = self.from.take_longest_wait();
        if let Some(milliseconds) = missed_heartbeat(begun, longest_wait) {
            self.log(PeerEvent::NoHeartbeat { milliseconds });
        }
    }

    /// Adds a line to the log for each table that the session has left, unless the node stops. Those for which the log has no room come at a
    /// later tick.
    fn look_at_left(&mut self) {
        if self.node.stops() {
            return;
        }
        for index in 0..self.worker.session.progress().len() {
            let Some(progress) = self.worker.session.progress().get(index) else {
                return;
            };
            let table = progress.table;
            if progress.left && !self.left.contains(&table) && self.log_left(table) {
                let _noted = self.left.push(table);
            }
        }
    }

    /// Adds a line to the log about a table that the session has left, unless the log has no room for it. Returns whether it has.
    fn log_left(&self, table: u64) -> bool {
        let Some(definition) = table_at(self.node.roster.tables(), table) else {
            return true;
        };
        let table = definition.name();
        let event = PeerEvent::Left { table };
        let has_room = self.node.log.has_room(self.rt, self.peer, &event);
        if has_room {
            self.log(event);
        }
        has_room
    }

    /// Notes how a resync ended in which the node was the teacher.
    fn end_teaching(&mut self, end: ResyncEnd, resync: Resync) {
        let mut status = self.slot.status(self.rt);
        status.record.end_teaching(end);
        drop(status);
        self.log(PeerEvent::ResyncEnded {
            taught: true,
            end,
            rows: resync.rows,
            milliseconds: resync.milliseconds,
        });
    }

    /// Returns whether the peer is to be asked for all rows now, and notes that it was asked if so.
    fn ask_if_next(&mut self) -> bool {
        if self.is_taught {
            return false;
        }
        self.is_taught = self.node.catching_up.is_taught(self.rt);
        if self.is_taught || !self.is_offered() {
            return false;
        }
        let now = self.node.clock.milliseconds(self.rt);
        self.node.catching_up.asks(self.rt, self.peer, now)
    }

    /// Returns whether the peer may be asked on this session, and notes since when, or that it may no longer.
    fn is_offered(&mut self) -> bool {
        match self.offer {
            Offer::Waits if self.may_have_more() => {
                self.offer = Offer::Open;
                self.node.catching_up.begin(self.rt, self.peer);
            }
            Offer::Open if self.has_answered() => {
                self.offer = Offer::Over;
                self.node.catching_up.end(self.rt, self.peer);
            }
            _ => {}
        }
        self.offer == Offer::Open
    }

    /// Returns whether the peer may have rows that the node lacks.
    fn may_have_more(&self) -> bool {
        let up_to_date = self.node.catching_up.is_up_to_date(self.rt);
        let incomplete = self.node.catching_up.is_incomplete(self.rt);
        let status = self.slot.status(self.rt);
        let answers = status.answers;
        drop(status);
        answers.is_asked_on(up_to_date, incomplete, self.is_alike)
    }

    /// Returns whether the peer was asked on this session and has answered, at a node that is up to date.
    fn has_answered(&self) -> bool {
        self.up_to_date && self.has_asked && !self.learning.is_under_way()
    }

    /// Notes that the peer has brought something, if it has since the last look.
    fn look_at_rows(&mut self) {
        let before = self.brought;
        self.brought = brought_on(&self.worker.session, self.from.total);
        if self.learning.is_under_way() && self.brought.is_more_than(before) {
            let now = self.node.clock.milliseconds(self.rt);
            self.node.catching_up.hear(self.rt, self.peer, now);
        }
    }

    /// Notes that the session is asked for a resync. One that was asked for before, and hasn't ended, goes on as the same one.
    fn begin_asking(&mut self) {
        let now = self.node.clock.milliseconds(self.rt);
        let learned = self.worker.session.counts().learned;
        let heard = heard_in(self.worker.session.controls());
        self.learning.ask(now, learned, heard);
        self.has_asked = true;
        self.set_state();
        self.log(PeerEvent::Asked);
    }

    /// Compares what the peer has defined with this node's tables.
    fn compare_definitions(&mut self) {
        let place = Place {
            rt: self.rt,
            node: self.node,
            slot: self.slot,
            peer: self.peer,
        };
        if let Some(reader) = self.worker.session.reader() {
            let under_way = self.learning.is_under_way();
            self.comparison.look(&place, reader, under_way);
            if self.offer == Offer::Waits {
                self.is_alike = are_alike(self.node.roster.tables(), reader);
            }
        }
    }

    /// Returns whether the peer can't teach the rows of some table. Of a session that is over it isn't known which tables the peer had
    /// defined, so it is taken to lack some.
    fn lacks_tables(&self) -> bool {
        match self.worker.session.reader() {
            Some(reader) => {
                let alike = are_alike(self.node.roster.tables(), reader);
                lacks_tables(reader.received().count(), alike)
            }
            None => true,
        }
    }

    /// Notes how a resync ended in which the node was the learner.
    fn end_learning(&mut self, end: ResyncEnd) {
        let now = self.node.clock.milliseconds(self.rt);
        let resync = self.learning.end(now, self.worker.session.counts().learned);
        self.comparison.end_resync(now, end);
        let mut status = self.slot.status(self.rt);
        status.record.end_learning(end);
        status.answers.end(end);
        drop(status);
        self.log(PeerEvent::ResyncEnded {
            taught: false,
            end,
            rows: resync.rows,
            milliseconds: resync.milliseconds,
        });
    }

    /// Notes whether the resync that the session was asked for is over.
    fn look_at_asking(&mut self) {
        let heard = heard_in(self.worker.session.controls());
        let Some(end) = self.learning.end_of(heard) else {
            return;
        };
        // the rows of a table that the peer has just come to define alike are among those of this resync
        self.compare_definitions();
        let lacks = self.lacks_tables();
        let end = counts_as(end, lacks);
        self.end_learning(end);
        let done = self
            .node
            .catching_up
            .end_resync(self.rt, self.peer, end, lacks);
        self.node.tell_of_catching_up(self.rt);
        self.set_state();
        if done {
            self.node.log_up_to_date(self.rt, Some(self.peer));
        }
    }

    /// Returns what the session did so far.
    fn totals(&self) -> Totals {
        Totals {
            learned: self.worker.session.counts().learned,
            taught: self.worker.session.counts().taught,
            heartbeats_sent: self.worker.session.counts().heartbeats,
            heartbeats_received: self.worker.session.controls().heartbeats,
            bytes_sent: self.writes.taken(),
            bytes_received: self.from.arrived(),
            passed_over: self.passed_over(),
        }
    }

    /// Returns what was passed over so far.
    fn passed_over(&self) -> PassedOver {
        let counts = self.worker.session.passed_over();
        PassedOver {
            definition: counts.definition,
            value: counts.value,
            slot: counts.slot,
            data_type: counts.data_type,
        }
    }

    /// Adds a line to the log if a table was passed over, once for the session.
    fn look_at_passed_over(&mut self) {
        let counts = self.worker.session.passed_over();
        if self.passes_over || (counts.definition == 0 && counts.data_type == 0) {
            return;
        }
        self.passes_over = true;
        self.log_passed_over(counts.data_type > 0);
    }

    /// Adds a line to the log about the first table that was passed over, or, if it isn't known which that is, about what was.
    fn log_passed_over(&self, further: bool) {
        let found = match self.worker.session.reader() {
            Some(reader) => first_passed_over(reader),
            None => None,
        };
        match found {
            Some((table, further)) => self.log(PeerEvent::PassedOver { table, further }),
            None => self.log(PeerEvent::PassedOver {
                table: &[],
                further,
            }),
        }
    }

    /// Notes what the session did so far, for those who ask.
    fn report(&mut self) {
        let totals = self.totals();
        let mut status = self.slot.status(self.rt);
        let _noted = status.note(totals, self.worker.session.progress());
    }

    /// Returns the name of the remote peer's fault that ended the session, if one did.
    fn fault(&self) -> Option<&'static str> {
        match self.worker.session.fault() {
            Some(fault) => Some(fault.name()),
            None if self.worker.session.is_ahead() => Some("AckAhead"),
            None => None,
        }
    }

    /// Returns why a session is over that no error ended. What else came in its last turn is noted before the fault.
    fn closed(&mut self) -> SessionEnd {
        self.look_at_last_turn();
        let fault = self.fault();
        if let Some(fault) = fault {
            self.node.faults.count(self.rt, fault);
            self.log(PeerEvent::Fault {
                fault: fault.as_bytes(),
            });
        }
        end_of_closed(fault.is_some(), self.from.ended)
    }

    /// Notes what the turn in which the session ended came to: a hello of the peer that was over, and the end of the resync that the session
    /// was asked for, unless an error came before all was done.
    fn look_at_last_turn(&mut self) {
        self.look_at_heartbeats(self.ending.has_begun());
        if self.role == PeerRole::Accept && self.worker.session.version().is_some() {
            self.begin();
        }
        if has_done_all(self.error) {
            self.look_at_asking();
        }
    }

    /// Notes that the session is over, and that a resync under way is broken, unless it ended in the last turn.
    fn end(&mut self, end: SessionEnd) {
        self.look_at_last_turn();
        let now = self.node.clock.milliseconds(self.rt);
        let taught = self.worker.session.counts().taught;
        if let Some(resync) = self.teaching.broken(now, taught) {
            self.end_teaching(ResyncEnd::Broken, resync);
        }
        if self.ending.has_begun() {
            self.node.catching_up.end(self.rt, self.peer);
            self.node.tell_of_catching_up(self.rt);
        }
        if self.learning.is_under_way() {
            self.end_learning(ResyncEnd::Broken);
        }
        self.report();
        let now = self.node.clock.milliseconds(self.rt);
        let mut status = self.slot.status(self.rt);
        let far = status.far;
        let lasted = now.saturating_sub(status.record.since);
        let short = status.note_short(end, self.is_given_up(), now);
        status.end(end, now);
        drop(status);
        self.log_unacknowledged(far);
        self.log_end(end, lasted, far);
        if let Some(count) = short {
            let node = self.node.configuration.node.as_slice();
            self.log_event_at(far, PeerEvent::ShortSessions { count, node });
        }
    }

    /// Adds a line to the log for each table whose last rows the peer hasn't acknowledged, if the node stops.
    fn log_unacknowledged(&self, far: Option<SocketAddr>) {
        if !self.node.stops() {
            return;
        }
        for progress in self.worker.session.progress() {
            if has_acknowledged_last(progress) {
                continue;
            }
            if let Some(table) = table_at(self.node.roster.tables(), progress.table) {
                let table = table.name();
                self.log_event_at(far, PeerEvent::Unacknowledged { table });
            }
        }
    }

    /// Returns whether no session may stand: a table gets new numbers, or the node stops.
    fn is_given_up(&self) -> bool {
        self.node.stops() || self.node.is_paused()
    }

    /// Adds a line to the log about the end of the connection with this far end, whose session, if there was one, lasted for `lasted`
    /// milliseconds, unless it is news of nothing: an attempt failed as the one before, or was given up.
    fn log_end(&self, end: SessionEnd, lasted: u64, far: Option<SocketAddr>) {
        let failure = self.failure(end);
        let connection = EndedConnection {
            begun: self.ending.has_begun(),
            connects: self.role == PeerRole::Connect,
            lacking: false,
            end,
            status: status_in(self.from.head()),
            given_up: self.is_given_up(),
        };
        let cause = match end {
            SessionEnd::End => closing_cause(self.closing),
            _ => failure.as_str(),
        };
        let cause = cause.as_bytes();
        match connection.news() {
            EndNews::Session => self.log_event_at(far, PeerEvent::Ended { end, lasted, cause }),
            EndNews::Refusal(status) => self.log_refusal(far, status),
            EndNews::NoSession => self.log_no_session(end, far, cause),
            EndNews::Nothing => {}
        }
    }

    /// Adds a line about the peer to the log, at a connection with this far end.
    fn log_event_at(&self, far: Option<SocketAddr>, event: PeerEvent<'_>) {
        self.node.log_peer_event_at(self.rt, self.peer, far, event);
    }

    /// Returns what failed if the session ended as `end`, in words that stand behind "ended", or nothing if memory runs out.
    fn failure(&self, end: SessionEnd) -> String {
        let alloc = self.node.alloc;
        let codes = FailureCodes {
            read: self.from.code(),
            write: self.to.code,
        };
        cause_text(alloc, end, self.error, codes).unwrap_or(String::new(alloc))
    }

    /// Notes why an attempt of this node failed. Returns whether the one before failed otherwise, if it did.
    fn is_news(&self, failure: Failure) -> bool {
        let mut status = self.slot.status(self.rt);
        status.record.fail(failure)
    }

    /// Notes that the peer refused this node's hello, and adds a line to the log if that is news.
    fn log_refusal(&self, far: Option<SocketAddr>, status: u16) {
        if self.is_news(Failure::Refused(status)) {
            let node = self.node.configuration.node.as_slice();
            self.log_event_at(far, PeerEvent::Refused { status, node });
        }
    }

    /// Notes why an attempt of this node that ended as `end` came to no session, and adds a line to the log if that is news.
    fn log_no_session(&self, end: SessionEnd, far: Option<SocketAddr>, cause: &[u8]) {
        let why = cause_of(end, self.from.head());
        if self.is_news(Failure::NoSession(why)) {
            self.log_event_at(far, PeerEvent::NoSession { why, cause });
        }
    }
}

/// Holds a session over a connection until it ends. Gives the seat back, and returns whether the session fell back: whether the peer
/// refused version 2.1, which the node's hello said. While the session stands, its worker owns the seat.
///
/// It notes the connection before it looks whether sessions are to end. So a thread that ends all sessions finds the connection noted and
/// shuts it down; or it had begun before, and this function sees that and begins no session.
pub(crate) fn hold<N: Threads + Wait + Clock + Sync>(
    place: &Place<'_, N>,
    mut seat: Seat,
    connection: Connection,
) -> (Seat, bool) {
    let node = place.node;
    let number = number_of(place.peer);
    let mut fell_back = false;
    let Connection {
        stream,
        role,
        version,
        bytes,
    } = connection;
    let Ok(stream) = noted(place, stream) else {
        give_up(place, role);
        return (seat, false);
    };
    if node.stops() || node.is_paused() {
        place.slot.set_present(place.rt, None);
        return (seat, false);
    }
    let session = if reopen(place.rt, node, &mut seat, number) {
        standing_of(place, role, version)
    } else {
        None
    };
    match session {
        Some(session) => {
            let worker = Worker {
                session,
                seat,
                number,
            };
            let worker = hold_over(place, worker, &*stream, role, bytes);
            fell_back = worker.session.fell_back();
            seat = worker.seat;
        }
        None => give_up(place, role),
    }
    close(place.rt, node, &mut seat, number);
    place.slot.set_present(place.rt, None);
    (seat, fell_back)
}

/// Notes that the session over a connection couldn't begin, for want of memory or of a thread, and adds a line to the log if that is news.
fn give_up<N: Wait + Clock>(place: &Place<'_, N>, role: PeerRole) {
    let (rt, node) = (place.rt, place.node);
    let now = node.clock.milliseconds(rt);
    let connection = EndedConnection {
        begun: false,
        connects: role == PeerRole::Connect,
        lacking: true,
        end: SessionEnd::Error,
        status: None,
        given_up: node.stops() || node.is_paused(),
    };
    let mut status = place.slot.status(rt);
    status.end(connection.end, now);
    let why = NoSession::Lacking;
    let is_news = matches!(connection.news(), EndNews::NoSession)
        && status.record.fail(Failure::NoSession(why));
    drop(status);
    if is_news {
        let cause = &[];
        node.log_peer_event(rt, place.peer, PeerEvent::NoSession { why, cause });
    }
}

/// Notes the connection of a session that is about to begin.
fn noted<N: Wait>(place: &Place<'_, N>, stream: TcpStream) -> Result<Arc<TcpStream>, AllocError> {
    let stream = Arc::new(place.node.alloc, stream)?;
    place
        .slot
        .set_present(place.rt, Some(Arc::try_clone(&stream)?));
    Ok(stream)
}

/// Holds a session that is open in each table over a connection. Gives its worker back.
fn hold_over<N: Threads + Wait + Clock + Sync>(
    place: &Place<'_, N>,
    worker: Worker,
    stream: &TcpStream,
    role: PeerRole,
    bytes: Vec<u8>,
) -> Worker {
    let (rt, node, slot) = (place.rt, place.node, place.slot);
    let pid = pid_of(bytes.as_slice());
    let inbox = Inbox::new(bytes);
    let mut status = slot.status(rt);
    status.connect(role, stream.peer_addr().ok());
    drop(status);
    let from = Intake::new(&*rt, &inbox);
    let to = Outbox::new(&*rt, node.clock, stream);
    let here = Place {
        rt: &*rt,
        node: &*node,
        slot: &*slot,
        peer: place.peer,
    };
    let mut work = Work::new(here, role, pid, from, to, worker);
    work_and_read(rt, &mut work, stream, &inbox, slot);
    let Work { worker, .. } = work;
    worker
}

/// Works with a session while a thread reads its connection.
fn work_and_read<'a, N: Threads + Wait + Clock + Sync>(
    rt: &N,
    work: &mut Work<'a, N>,
    stream: &TcpStream,
    inbox: &Inbox,
    slot: &Slot,
) {
    thread::scope(thread::scope_env(), rt, |scope| {
        work_in(rt, scope, work, stream, inbox, slot)
    })
}

/// Starts the thread that reads a connection, works with its session, and has the thread end with it.
fn work_in<'s, 'a, E: 's, N: Threads + Wait + Clock + Sync>(
    rt: &'s N,
    scope: &'s Scope<'s, E>,
    work: &mut Work<'a, N>,
    stream: &'s TcpStream,
    inbox: &'s Inbox,
    slot: &'s Slot,
) {
    let clock = work.node.clock;
    match scope.spawn(move || receive(rt, clock, stream, inbox, &slot.bell)) {
        Ok(reader) => {
            let end = work.work();
            work.end(end);
            inbox.close(rt);
            let _shut = stream.shutdown(Shutdown::Both);
            reader.join(rt);
        }
        Err(_) => {
            let place = Place {
                rt: &*rt,
                node: &*work.node,
                slot: &*slot,
                peer: work.peer,
            };
            give_up(&place, work.role);
        }
    }
}
