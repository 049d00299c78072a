//! The times of a session that stays.

ghost use Rattle.std.specs.Prelude.{◌≡◌, ◌||◌, ◌&&◌, Some, true, false, not, IfOk};
ghost use Rattle.session_core.specs.Shares.{any_out};
ghost use Rattle.session_core.specs.Paces.{pace_at, renewed, is_rested, has_passed, push_time, left_in, awaits_names};
ghost use Rattle.session_core.specs.Courses.{table_to_ask};
ghost use Rattle.session_core.specs.Standing.{any_left, task_at};

use crate::course::Course;
use crate::progress::{Progress, awaits_names, note_left, progress_of};
use crate::share::any_out;
use crate::times;
use crate::times::has_passed;
use std::alloc::Global;
use std::marker::Model;
use table_types::{Memory, Roster};

/// What a turn of an open session does.
#[derive(Clone, Copy, Debug, PartialEq, Eq)]
pub(crate) enum Task {
    /// Begins a resync.
    Begin,
    /// Asks a table for a batch, if one may be copied.
    Copy,
    /// Does nothing.
    Rest,
}

/// The times of a session that stays, each a moment in milliseconds, and its progress. Until something happens, each is the
/// moment at which the session began to stay.
#[derive(Drop)]
pub(crate) struct Pace {
    /// When this node last sent bytes.
    pub(crate) sent: u64,
    /// When this node last received bytes.
    pub(crate) heard: u64,
    /// When the session opened.
    pub(crate) opened: u64,
    /// When this node last began a resync.
    pub(crate) reopened: Option<u64>,
    /// The progress in each table, in roster order.
    pub(crate) progress: Vec<Progress>,
}

/// Returns whether there are tables that are left.
pub(crate) fn any_left(left: &[u64]) -> bool
    ensures { result ≡ any_left left.now }
{
    !left.is_empty()
}

impl Model for Pace {
    ghost use Rattle.session_core.specs.Paces.{Pace};

    ghost Value = { Pace };

    ghost view = { λ p. record { sent = p.sent; heard = p.heard; opened = p.opened; reopened = p.reopened; progress = p.progress.items } };
}

impl Pace {
    /// Returns the pace of a session that begins to stay.
    pub(crate) fn new(alloc: Global, roster: &Roster, now: u64) -> Result<Pace, Memory>
        ensures { IfOk result (λ pace. pace ≡ pace_at now roster.now) }
    {
        Ok(Pace {
            sent: now,
            heard: now,
            opened: now,
            reopened: None,
            progress: progress_of(alloc, roster.tables(), now)?,
        })
    }

    /// Notes what an event did: whether bytes were sent, whether some were received, and whether the session was open.
    pub(crate) fn note(&mut self, sends: bool, hears: bool, is_open: bool, now: u64)
        ensures { self.new ≡ record self.old { sent = renewed sends now self.old.sent; heard = renewed hears now self.old.heard; opened = renewed (not is_open) now self.old.opened } }
    {
        if sends {
            self.sent = now;
        }
        if hears {
            self.heard = now;
        }
        if !is_open {
            self.opened = now;
        }
    }

    /// Notes that these tables are left.
    pub(crate) fn leave(&mut self, tables: &[u64])
        ensures { self.new ≡ record self.old { progress = left_in tables.now self.old.progress } }
    {
        note_left(self.progress.as_mut_slice(), tables);
    }

    /// Returns whether the last resync, if there was one, began long enough ago.
    fn is_rested(&self, now: u64) -> bool
        ensures { result ≡ is_rested self.now.reopened now }
    {
        match self.reopened {
            Some(reopened) => has_passed(times::RESYNC, reopened, now),
            None => true,
        }
    }

    /// Returns whether the next table may be asked for a batch.
    fn may_copy(&self, course: &Course, now: u64) -> bool
        ensures { result ≡ ((course.now.teaching || has_passed push_time self.now.opened now) && not (awaits_names (table_to_ask course.now) self.now.progress course.now.shares)) }
    {
        (course.teaching || has_passed(times::PUSH, self.opened, now))
            && !awaits_names(
                self.progress.as_slice(),
                course.table_to_ask(),
                course.shares.as_slice(),
            )
    }

    /// Returns what a turn does.
    pub(crate) fn task(&self, course: &Course, now: u64) -> Task
        ensures { result ≡ task_at now self.now course.now }
    {
        if course.waits && self.is_rested(now) {
            if any_out(course.shares.as_slice()) {
                Task::Rest
            } else {
                Task::Begin
            }
        } else if self.may_copy(course, now) {
            Task::Copy
        } else {
            Task::Rest
        }
    }
}
