//! The events that an open session receives.

ghost use Rattle.std.specs.Prelude.{◌≡◌, [], IfOk, IfErr};
ghost use Rattle.session_core.specs.declared.event.Event.TheVariants as events;
ghost use Rattle.session_core.specs.declared.due.Due.TheVariants as dues;
ghost use Rattle.session_core.specs.Courses.{none_due, is_due, Answered};
ghost use Rattle.session_core.specs.Sessions.{SessionState, GoesOn, IsWhy};

use crate::action::{Action, only};
use crate::course::Course;
use crate::due::Due;
use crate::error::SessionError;
use crate::receiving::only_control;
use crate::share::all_quiet;
use peers_msg::Control;
use std::alloc::Global;
use table_types::{Batch, Memory, Settled};

impl Course {
    /// Handles a turn: asks the next table for a batch, if there is one.
    pub(crate) fn turn(&mut self, alloc: Global) -> Result<Vec<Action>, SessionError>
        ensures goes { (s : SessionState) → IfOk result (λ acts. GoesOn s self.old events.Turn acts.items self.new) }
        ensures refused { IfErr result (λ e. IsWhy (none_due self.old.due) e) }
    {
        if !self.none_due() {
            return Err(SessionError::Unasked);
        }
        match self.table_to_ask() {
            Some(table) => {
                let kind = self.kind();
                self.due.push_back(Due::Copy(table)).map_err(Memory::from)?;
                self.asked = Some(table);
                Ok(only(alloc, Action::Copy { table, kind })?)
            }
            None => Ok(Vec::new(alloc)),
        }
    }

    /// Handles a tick, at which only a session that stays does anything.
    pub(crate) fn tick(&mut self, alloc: Global) -> Result<Vec<Action>, SessionError>
        ensures goes { (s : SessionState) → IfOk result (λ acts. GoesOn s self.old events.Tick acts.items self.new) }
        ensures refused { IfErr result (λ e. IsWhy (none_due self.old.due) e) }
    {
        if !self.none_due() {
            return Err(SessionError::Unasked);
        }
        Ok(Vec::new(alloc))
    }

    /// Requests a resync.
    pub(crate) fn ask(&mut self, alloc: Global) -> Result<Vec<Action>, SessionError>
        ensures goes { (s : SessionState) → IfOk result (λ acts. GoesOn s self.old events.Ask acts.items self.new) }
        ensures refused { IfErr result (λ e. IsWhy (none_due self.old.due) e) }
    {
        if !self.none_due() {
            return Err(SessionError::Unasked);
        }
        Ok(only_control(alloc, Control::ResyncRequest)?)
    }

    /// Handles word that this node is up to date.
    pub(crate) fn caught_up(&mut self, alloc: Global) -> Result<Vec<Action>, SessionError>
        ensures goes { (s : SessionState) → IfOk result (λ acts. GoesOn s self.old events.CaughtUp acts.items self.new) }
        ensures refused { IfErr result (λ e. IsWhy (none_due self.old.due) e) }
    {
        if !self.none_due() {
            return Err(SessionError::Unasked);
        }
        self.catch_up();
        Ok(Vec::new(alloc))
    }

    /// Handles a batch that was copied from `table`: marks it as outstanding and asks for its lesson.
    pub(crate) fn copied(
        &mut self,
        alloc: Global,
        table: u64,
        batch: Batch,
    ) -> Result<Vec<Action>, SessionError>
        ensures goes { (s : SessionState) → IfOk result (λ acts. GoesOn s self.old (events.Copied table batch) acts.items self.new) }
        ensures refused { IfErr result (λ e. IsWhy (is_due (dues.Copy table) self.old.due) e) }
    {
        self.answer(Due::Copy(table))?;
        self.set_out(table, true);
        self.due.push_front(Due::Teach).map_err(Memory::from)?;
        Ok(only(alloc, Action::Teach(batch))?)
    }

    /// Handles the answer that `table` has nothing to teach. In a resync, marks the table as quiet, and ends the resync if
    /// all tables are.
    pub(crate) fn nothing(&mut self, alloc: Global, table: u64) -> Result<Vec<Action>, SessionError>
        ensures goes { (s : SessionState) → IfOk result (λ acts. GoesOn s self.old (events.Nothing table) acts.items self.new) }
        ensures refused { IfErr result (λ e. IsWhy (is_due (dues.Copy table) self.old.due) e) }
    {
        self.answer(Due::Copy(table))?;
        if !self.teaching {
            return Ok(Vec::new(alloc));
        }
        self.set_quiet(table);
        if !all_quiet(self.shares.as_slice()) {
            return Ok(Vec::new(alloc));
        }
        self.teaching = false;
        Ok(only_control(alloc, self.finished())?)
    }

    /// Handles the end of a lesson.
    pub(crate) fn written(&mut self, alloc: Global) -> Result<Vec<Action>, SessionError>
        ensures goes { IfOk result (λ acts. Answered self.old dues.Teach self.new × (acts.items ≡ [])) }
        ensures refused { IfErr result (λ e. IsWhy (is_due dues.Teach self.old.due) e) }
    {
        self.answer(Due::Teach)?;
        Ok(Vec::new(alloc))
    }

    /// Handles what an acknowledgement settled in `table`. Starts a deferred resync once no batch is outstanding,
    /// unless the session stays.
    pub(crate) fn settled(
        &mut self,
        alloc: Global,
        table: u64,
        settled: Settled,
    ) -> Result<Vec<Action>, SessionError>
        ensures goes { (s : SessionState) → IfOk result (λ acts. GoesOn s self.old (events.Settled table settled) acts.items self.new) }
        ensures refused { IfErr result (λ e. IsWhy (is_due (dues.Ack table) self.old.due) e) }
    {
        self.answer(Due::Ack(table))?;
        let mut actions = Vec::new(alloc);
        if settled == Settled::All {
            self.set_out(table, false);
            if self.waits && !self.is_held() {
                self.begin_teaching(&mut actions)?;
            }
        }
        Ok(actions)
    }
}
