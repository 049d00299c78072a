//! The node's log: its threads add lines to it, and a thread of its own writes them.

use crate::bell::Bell;
use crate::clock::{NodeClock, milliseconds};
use admin_text::LogSetting;
use node_core::{Event, Omission, PeerEvent};
use node_log::{Fate, Form, Waiting, level_of, peer_event_name, push_line};
use peers_devices::{Faults, WriteError, write_all};
use std::alloc::Global;
use std::io::Write;
use std::sync::atomic::{AtomicBool, AtomicU64, Ordering};
use std::sync::{Mutex, Wait};
use std::time::{Clock, SystemTime, UNIX_EPOCH};
use table_types::Name;

/// How often the thread that writes the log looks whether it is to be said how many lines were left out or dropped, in milliseconds.
const LOOK: u64 = 1_000;

/// How long a node that has stopped waits for the last lines to be written, in milliseconds.
const LAST: u64 = 500;

/// The log of a node.
#[derive(Drop)]
pub(crate) struct Log {
    alloc: Global,
    setting: LogSetting,
    clock: NodeClock,
    /// The names of the peers, in the configuration's order.
    names: Vec<Name>,
    waiting: Mutex<Waiting>,
    /// Rings at each line, and when no more come.
    lines: Bell,
    /// Rings once all lines are written and no more come.
    end: Bell,
    /// Whether no more lines come.
    closed: AtomicBool,
    /// Whether all lines are written and no more come.
    ended: AtomicBool,
    /// How many lines were dropped, since too many waited or they couldn't be written.
    dropped: AtomicU64,
}

/// Returns the milliseconds since 1970 by the system's clock, or 0 if it can't be read.
fn wall_clock<C: Clock>(rt: &C) -> u64 {
    let Ok(now) = SystemTime::now(rt) else {
        return 0;
    };
    match now.duration_since(UNIX_EPOCH) {
        Ok(since) => u64::try_from(since.as_millis()).unwrap_or(u64::MAX),
        Err(_) => 0,
    }
}

/// Writes lines. Returns what can't be written of them. `cut` says whether the line before was written in part; these begin behind its
/// end all the same.
fn write<'t, E: Write + Faults>(errors: &mut E, text: &'t [u8], cut: &mut bool) -> &'t [u8] {
    if text.is_empty() {
        return text;
    }
    if *cut && write_all(errors, b"\n").is_err() {
        return text;
    }
    *cut = false;
    let sent = match write_all(errors, text) {
        Ok(()) => text.len(),
        Err(WriteError::Failed { sent } | WriteError::Stuck { sent }) => sent.min(text.len()),
    };
    let (written, rest) = text.split_at(sent);
    *cut = written.last().is_some_and(|byte| *byte != b'\n');
    rest
}

impl Log {
    /// Returns an empty log.
    pub(crate) fn new(
        alloc: Global,
        setting: LogSetting,
        clock: NodeClock,
        names: Vec<Name>,
    ) -> Log {
        Log {
            alloc,
            setting,
            clock,
            names,
            waiting: Mutex::new(Waiting::new(alloc)),
            lines: Bell::new(),
            end: Bell::new(),
            closed: AtomicBool::new(false),
            ended: AtomicBool::new(false),
            dropped: AtomicU64::new(0),
        }
    }

    /// Returns how a line begins that is added now.
    fn form<C: Clock>(&self, rt: &C) -> Form {
        if self.setting.journal {
            Form::Journal
        } else {
            Form::Dated(wall_clock(rt))
        }
    }

    /// Returns whether the line of an event about the peer with this index isn't left out if it comes now.
    pub(crate) fn has_room<R: Wait + Clock>(
        &self,
        rt: &R,
        peer: usize,
        event: &PeerEvent<'_>,
    ) -> bool {
        let waiting = self.waiting.lock(rt);
        let now = self.clock.milliseconds(rt);
        waiting.has_room(now, peer_event_name(event), Some(peer))
    }

    /// Adds the line of an event about the peer with this index, or about none, if lines of its level are written. Returns whether the
    /// line isn't left out. One that is dropped isn't left out: nothing is gained by a further try.
    pub(crate) fn add<R: Wait + Clock>(
        &self,
        rt: &R,
        peer: Option<usize>,
        event: &Event<'_>,
    ) -> bool {
        if !self.setting.level.covers(level_of(event)) {
            return true;
        }
        let mut waiting = self.waiting.lock(rt);
        let now = self.clock.milliseconds(rt);
        let fate = waiting.add(now, self.form(rt), peer, event);
        drop(waiting);
        match fate {
            Fate::Waits => self.lines.ring(rt),
            Fate::LeftOut => {}
            Fate::Full | Fate::Lost => self.count_dropped(1),
        }
        fate != Fate::LeftOut
    }

    /// Counts lines that were dropped.
    fn count_dropped(&self, count: u64) {
        self.dropped.fetch_add(count, Ordering::SeqCst);
    }

    /// Returns how many lines were dropped.
    pub(crate) fn dropped(&self) -> u64 {
        self.dropped.load(Ordering::SeqCst)
    }

    /// Takes the lines that wait, behind which stand the numbers of those that were left out: of all if these are the last. Returns with
    /// them how many were dropped, as far as that wasn't said.
    fn take<R: Wait + Clock>(&self, rt: &R, last: bool) -> (Vec<u8>, u64) {
        let mut waiting = self.waiting.lock(rt);
        let now = self.clock.milliseconds(rt);
        let _told = waiting.add_omitted(now, self.form(rt), self.names.as_slice(), last);
        (waiting.take(), waiting.unwritten())
    }

    /// Counts the lines in `text`, which couldn't be written, as dropped.
    fn drop_lines<R: Wait>(&self, rt: &R, text: &[u8]) {
        let count = text.iter().filter(|byte| **byte == b'\n').count() as u64;
        self.count_dropped(count);
        let mut waiting = self.waiting.lock(rt);
        waiting.note_unwritten(count);
    }

    /// Writes how many lines were dropped. If that can't be written, it stays to be said.
    fn write_unwritten<R: Wait + Clock, E: Write + Faults>(
        &self,
        rt: &R,
        errors: &mut E,
        count: u64,
        cut: &mut bool,
    ) {
        let event = Event::Omitted {
            peer: None,
            cause: Omission::Unwritten,
            count,
        };
        let mut line = Vec::new(self.alloc);
        if push_line(self.alloc, &mut line, self.form(rt), &event).is_err() {
            return;
        }
        if write(errors, line.as_slice(), cut).is_empty() {
            let mut waiting = self.waiting.lock(rt);
            waiting.forget_unwritten(count);
        }
    }

    /// Writes the lines until no more come, each at once.
    pub(crate) fn keep<R: Wait + Clock, E: Write + Faults>(&self, rt: &R, errors: &mut E) {
        let mut cut = false;
        for _ in rt.forever() {
            let seen = self.lines.rings(rt);
            let last = self.closed.load(Ordering::SeqCst);
            let (text, unwritten) = self.take(rt, last);
            let rest = write(errors, text.as_slice(), &mut cut);
            self.drop_lines(rt, rest);
            if unwritten > 0 {
                self.write_unwritten(rt, errors, unwritten, &mut cut);
            }
            if last {
                self.ended.store(true, Ordering::SeqCst);
                self.end.ring(rt);
                return;
            }
            self.lines.wait(rt, seen, milliseconds(LOOK));
        }
    }

    /// Has no more lines come, and waits until all are written, for `LAST` at most. Returns whether they are.
    pub(crate) fn close<R: Wait + Clock>(&self, rt: &R) -> bool {
        self.closed.store(true, Ordering::SeqCst);
        self.lines.ring(rt);
        let until = self.clock.milliseconds(rt).saturating_add(LAST);
        for _ in rt.forever() {
            let seen = self.end.rings(rt);
            let now = self.clock.milliseconds(rt);
            let ended = self.ended.load(Ordering::SeqCst);
            if ended || now >= until {
                return ended;
            }
            self.end
                .wait(rt, seen, milliseconds(until.saturating_sub(now)));
        }
        unreachable!()
    }
}
