//! The course of an open session.

ghost use Rattle.std.specs.Prelude.{◌≡◌, ◌++◌, Some, None, Ok, true, false, IfOk, IfErr, IsOk, OnOk, OnErr, length};
ghost use Rattle.session_core.specs.declared.error.SessionError.TheVariants as errors;
ghost use Rattle.session_core.specs.Shares.{out_set, quiet_set, unquieted};
ghost use Rattle.session_core.specs.Actions.{reopens};
ghost use Rattle.session_core.specs.Courses.{course_begun, caught_up, is_held, kind_of, staying, teaching_anew, table_to_ask, is_due, none_due, Answered, finished, state_of_course};
ghost use Rattle.session_core.specs.Sessions.{first_word, opening};

use crate::action::{Action, push};
use crate::due::Due;
use crate::error::SessionError;
use crate::share::{Share, any_out, next_table, set_out, set_quiet, shares_of, unquiet};
use crate::state::State;
use peers_msg::Control;
use std::alloc::Global;
use std::collections::VecDeque;
use std::marker::Model;
use table_types::{CopyKind, Memory, Roster, Version};
use tolerant_intake::Reader;

/// The course of a session: what it received from the remote peer, and the state of its teaching.
#[derive(Drop)]
pub(crate) struct Course {
    /// Whether the session stays for as long as its connection does.
    pub(crate) stays: bool,
    /// What reads the remote peer's messages: a tolerant one, if the session stays.
    pub(crate) reader: Reader,
    /// Whether this node is up to date itself.
    pub(crate) up_to_date: bool,
    /// The tables, in roster order.
    pub(crate) shares: Vec<Share>,
    /// The id of the table that was last asked for a batch.
    pub(crate) asked: Option<u64>,
    /// Whether the remote peer is being taught every row.
    pub(crate) teaching: bool,
    /// Whether a resync request of the remote peer is deferred.
    pub(crate) waits: bool,
    /// The actions not answered yet, in the order in which their answers are due.
    pub(crate) due: VecDeque<Due>,
}

impl Model for Course {
    ghost use Rattle.session_core.specs.Courses.{Course};

    ghost Value = { Course };

    ghost view = { λ c. record { stays = c.stays; intake = c.reader.intake; tolerance = c.reader.tolerance; up_to_date = c.up_to_date; shares = c.shares.items; asked = c.asked; teaching = c.teaching; waits = c.waits; due = c.due.items } };
}

/// Appends a `Reopen` for each of the tables.
fn push_reopens(actions: &mut Vec<Action>, shares: &[Share]) -> Result<(), Memory>
    ensures { OnOk result (actions.new.items ≡ actions.old.items ++ reopens shares.now) }
{
    for share in shares {
        push(actions, Action::Reopen(share.table))?;
    }
    Ok(())
}

/// Returns whether `first` is the first answer due.
pub(crate) fn is_due(due: &VecDeque<Due>, first: Due) -> bool
    ensures { result ≡ is_due first due.now.items }
{
    match due.front() {
        Some(due) => *due == first,
        None => false,
    }
}

impl Course {
    /// Returns the course of a new session.
    pub(crate) fn new(alloc: Global, roster: Roster, up_to_date: bool) -> Result<Course, Memory>
        ensures { IfOk result (λ course. course ≡ course_begun roster up_to_date) }
    {
        let shares = shares_of(alloc, roster.tables())?;
        Ok(Course {
            stays: false,
            reader: Reader::new(alloc, roster),
            up_to_date,
            shares,
            asked: None,
            teaching: false,
            waits: false,
            due: VecDeque::new(alloc),
        })
    }

    /// Returns the course of the session as one that stays from now on. Doesn't allocate.
    pub(crate) fn stay(self) -> Course
        ensures { result ≡ staying self }
    {
        Course {
            stays: true,
            reader: self.reader.tolerate(),
            ..self
        }
    }

    /// Makes resyncs end as finished from now on.
    pub(crate) fn catch_up(&mut self)
        ensures { self.new ≡ caught_up self.old }
    {
        self.up_to_date = true;
    }

    /// Returns whether a resync request is deferred: while a batch is outstanding, and always if the session stays.
    pub(crate) fn is_held(&self) -> bool
        ensures { result ≡ is_held self.now.stays self.now.shares }
    {
        self.stays || any_out(self.shares.as_slice())
    }

    /// Returns whether no answer is due.
    pub(crate) fn none_due(&self) -> bool
        ensures { result ≡ none_due self.now.due }
    {
        self.due.is_empty()
    }

    /// Removes the first answer due, which must be `first`. Otherwise refuses with `Unasked` and changes nothing.
    pub(crate) fn answer(&mut self, first: Due) -> Result<(), SessionError>
        ensures answered { OnOk result (Answered self.old first self.new) }
        ensures asked { OnOk result (is_due first self.old.due ≡ true) }
        ensures unasked { OnErr result (is_due first self.old.due ≡ false) }
        ensures error { IfErr result (λ e. e ≡ errors.Unasked) }
    {
        if !is_due(&self.due, first) {
            return Err(SessionError::Unasked);
        }
        self.due.pop_front();
        Ok(())
    }

    /// Returns the table that a turn asks for a batch. There is none while a resync request is deferred, unless the session stays.
    pub(crate) fn table_to_ask(&self) -> Option<u64>
        ensures { result ≡ table_to_ask self.now }
    {
        if self.waits && !self.stays {
            return None;
        }
        next_table(self.shares.as_slice(), self.asked, self.teaching)
    }

    /// Returns the kind of the copy that a turn asks for.
    pub(crate) fn kind(&self) -> CopyKind
        ensures { result ≡ kind_of self.now.stays self.now.teaching }
    {
        match (self.stays, self.teaching) {
            (_, false) => CopyKind::Push,
            (false, true) => CopyKind::Resync,
            (true, true) => CopyKind::Standing,
        }
    }

    /// Returns the first message of a session that connects.
    pub(crate) fn first_word(&self) -> Control
        ensures { result ≡ first_word self.now.stays }
    {
        if self.stays {
            Control::Heartbeat
        } else {
            Control::ResyncRequest
        }
    }

    /// Returns the state of the open session.
    pub(crate) fn state(&self) -> State
        ensures { result ≡ state_of_course self.now.teaching }
    {
        if self.teaching {
            State::Teaching
        } else {
            State::Ready
        }
    }

    /// Returns the control message that ends a resync.
    pub(crate) fn finished(&self) -> Control
        ensures { result ≡ finished self.now.up_to_date }
    {
        if self.up_to_date {
            Control::ResyncFinished
        } else {
            Control::ResyncPartial
        }
    }

    /// Appends what a session of `version` adds on becoming ready: with version 2.0, a `Reopen` for each table.
    pub(crate) fn open(&self, version: Version, actions: &mut Vec<Action>) -> Result<(), Memory>
        ensures { OnOk result (actions.new.items ≡ actions.old.items ++ opening version self.now.shares) }
    {
        match version {
            Version::V20 => push_reopens(actions, self.shares.as_slice()),
            Version::V21 => Ok(()),
        }
    }

    /// Begins a resync: appends a `Reopen` for each table, and clears every quiet mark.
    pub(crate) fn begin_teaching(&mut self, actions: &mut Vec<Action>) -> Result<(), Memory>
        ensures reopens { OnOk result (actions.new.items ≡ actions.old.items ++ reopens self.old.shares) }
        ensures teaching { OnOk result (self.new ≡ teaching_anew self.old) }
    {
        push_reopens(actions, self.shares.as_slice())?;
        unquiet(self.shares.as_mut_slice());
        self.teaching = true;
        self.waits = false;
        Ok(())
    }

    /// Sets whether a batch of `table` is outstanding.
    pub(crate) fn set_out(&mut self, table: u64, out: bool)
        ensures { self.new ≡ record self.old { shares = out_set table out self.old.shares } }
    {
        set_out(self.shares.as_mut_slice(), table, out);
    }

    /// Marks `table` as quiet.
    pub(crate) fn set_quiet(&mut self, table: u64)
        ensures { self.new ≡ record self.old { shares = quiet_set table self.old.shares } }
    {
        set_quiet(self.shares.as_mut_slice(), table);
    }
}
