//! The steps of a session that stays.

ghost use Rattle.std.specs.Prelude.{◌≡◌, ◌≢◌, ◌||◌, ◌++◌, [], ℕ, true, false, Err, IfOk, IfErr, OnOk, OnErr};
ghost use Rattle.known_state.specs.Known.{KnownState};
ghost use Rattle.std.specs.List.{list_any};
ghost use Rattle.session_core.specs.declared.event.Event.TheVariants as events;
ghost use Rattle.session_core.specs.declared.phase.Stage.TheVariants as stages;
ghost use Rattle.session_core.specs.declared.pace.Task.TheVariants as tasks;
ghost use Rattle.session_core.specs.declared.due.Due.TheVariants as dues;
ghost use Rattle.session_core.specs.declared.error.SessionError.{SessionError};
ghost use Rattle.session_core.specs.declared.error.SessionError.TheVariants as errors;
ghost use Rattle.session_core.specs.Phases.{Phase};
ghost use Rattle.session_core.specs.Phases as phases;
ghost use Rattle.session_core.specs.AskedCounts.{all_asked};
ghost use Rattle.session_core.specs.HeardCounts.{CountsEvent};
ghost use Rattle.session_core.specs.Courses.{is_due, none_due};
ghost use Rattle.session_core.specs.Sessions.{Keeps, Refuses, IsWhy, ended, phase_of, seen};
ghost use Rattle.session_core.specs.Paces.{has_left, has_passed, heartbeat_time, is_ahead};
ghost use Rattle.session_core.specs.Standing.{stood, brings_bytes, is_send, Listens, Does, TakesTurn, Writes, Stands, TicksAs, TakesTick, HandsOn, answer_of_refusal, word_of, any_left, heartbeats};

use crate::action::Action;
use crate::counts::Counts;
use crate::course::is_due;
use crate::due::Due;
use crate::error::SessionError;
use crate::event::Event;
use crate::leaving::reopening;
use crate::machine::Machine;
use crate::pace::{Pace, Task, any_left};
use crate::phase::Stage;
use crate::progress::{
    has_left, inferred, is_ahead, last_number, note_actions, note_copy, tables_to_leave,
};
use crate::receiving::push_control;
use crate::times;
use crate::times::has_passed;
use known_state::Known;
use peers_msg::Control;
use std::alloc::Global;
use table_types::{Batch, Items, Memory, Settled};

/// What a session remembers for as long as it stays, beside its machine.
#[derive(Drop)]
pub(crate) struct Stay {
    pub(crate) pace: Pace,
    /// How much it asked for so far.
    pub(crate) counts: Counts,
}

/// Returns whether an event brings bytes.
fn brings_bytes(event: &Event) -> bool
    ensures { result ≡ brings_bytes event.now }
{
    match event {
        Event::Bytes(bytes) => !bytes.as_slice().is_empty(),
        _ => false,
    }
}

/// Returns whether one of the actions sends bytes.
fn any_send(actions: &[Action]) -> bool
    ensures { result ≡ list_any is_send actions.now }
{
    for action in actions {
        if matches!(action, Action::Send(_)) {
            return true;
        }
    }
    false
}

/// Appends the rest of the actions.
fn append(actions: &mut Vec<Action>, rest: Vec<Action>) -> Result<(), Memory>
    ensures { OnOk result (actions.new.items ≡ actions.old.items ++ rest.items) }
{
    let mut rest = rest;
    actions.append(&mut rest)?;
    Ok(())
}

/// Does nothing. Fails with `Unasked` if an answer is due.
fn rest(machine: &Machine, alloc: Global) -> Result<Vec<Action>, SessionError>
    ensures rests { IfOk result (λ acts. (machine.now.course.due ≡ []) × (acts.items ≡ [])) }
    ensures refused { IfErr result (λ e. IsWhy (none_due machine.now.course.due) e) }
{
    if !machine.course.none_due() {
        return Err(SessionError::Unasked);
    }
    Ok(Vec::new(alloc))
}

/// Fails unless the end of a lesson is due next.
fn check_lesson(machine: &Machine) -> Result<(), SessionError>
    ensures stage { OnOk result (machine.now.stage ≡ stages.Open) }
    ensures due { OnOk result (is_due dues.Teach machine.now.course.due ≡ true) }
    ensures refused { IfErr result (λ e. (known : KnownState) → Refuses (phase_of machine.now.stage machine.now.course) (events.Written known) e) }
{
    match &machine.stage {
        Stage::Open if is_due(&machine.course.due, Due::Teach) => Ok(()),
        Stage::Open | Stage::New(_) | Stage::Hello(_, _) => Err(SessionError::Unasked),
        Stage::Ended => Err(SessionError::Ended),
    }
}

impl Stay {
    /// Hands the event on to the session.
    fn hand_on(
        &mut self,
        machine: &mut Machine,
        alloc: Global,
        event: Event,
        now: u64,
    ) -> Result<Vec<Action>, SessionError>
        ensures hands { IfOk result (λ acts. HandsOn (stood machine.old self.old) now event acts.items (stood machine.new self.new)) }
        ensures heard { OnOk result (CountsEvent event (phase_of machine.old.stage machine.old.course) machine.old.heard machine.new.heard) }
        ensures refused { IfErr result (λ e. Refuses (phase_of machine.old.stage machine.old.course) event e) }
        ensures counts { OnOk result (self.new.counts ≡ self.old.counts) }
        ensures kept { OnErr result (Keeps machine.old machine.new × (self.new ≡ self.old)) }
    {
        let hears = brings_bytes(&event);
        let lesson = matches!(event, Event::Written(_));
        let was_open = matches!(machine.stage, Stage::Open);
        let actions = machine.step(alloc, event)?;
        let sends = lesson || any_send(actions.as_slice());
        self.pace.note(sends, hears, was_open, now);
        Ok(actions)
    }

    /// Receives bytes, and notes the acknowledgements and the rows in them.
    fn listen(
        &mut self,
        machine: &mut Machine,
        alloc: Global,
        bytes: Items<u8>,
        now: u64,
    ) -> Result<Vec<Action>, SessionError>
        ensures listens { IfOk result (λ acts. Listens (stood machine.old self.old) now bytes acts.items (stood machine.new self.new)) }
        ensures heard { OnOk result (CountsEvent (events.Bytes bytes) (phase_of machine.old.stage machine.old.course) machine.old.heard machine.new.heard) }
        ensures refused { IfErr result (λ e. Refuses (phase_of machine.old.stage machine.old.course) (events.Bytes bytes) e) }
        ensures counts { OnOk result (self.new.counts ≡ self.old.counts) }
        ensures kept { OnErr result (Keeps machine.old machine.new × (self.new ≡ self.old)) }
    {
        let actions = self.hand_on(machine, alloc, Event::Bytes(bytes), now)?;
        note_actions(&mut self.pace.progress, actions.as_slice());
        Ok(actions)
    }

    /// Begins a resync. Fails with `Unasked` if an answer is due.
    fn begin_resync(
        &mut self,
        machine: &mut Machine,
        alloc: Global,
        now: u64,
    ) -> Result<Vec<Action>, SessionError>
        requires { machine.old.stage ≡ stages.Open }
        ensures begins { IfOk result (λ acts. Does tasks.Begin (stood machine.old self.old) machine.old.course now acts.items (stood machine.new self.new)) }
        ensures heard { OnOk result (machine.new.heard ≡ machine.old.heard) }
        ensures refused { IfErr result (λ e. IsWhy (none_due machine.old.course.due) e) }
        ensures counts { OnOk result (self.new.counts ≡ self.old.counts) }
        ensures kept { OnErr result (Keeps machine.old machine.new × (self.new ≡ self.old)) }
    {
        if !machine.course.none_due() {
            return Err(SessionError::Unasked);
        }
        let mut actions = Vec::new(alloc);
        machine.course.begin_resync(alloc, &mut actions)?;
        self.pace
            .note(any_send(actions.as_slice()), false, true, now);
        self.pace.reopened = Some(now);
        Ok(actions)
    }

    /// Takes a turn.
    fn turn(
        &mut self,
        machine: &mut Machine,
        alloc: Global,
        now: u64,
    ) -> Result<Vec<Action>, SessionError>
        ensures turns { IfOk result (λ acts. TakesTurn (phase_of machine.old.stage machine.old.course) (stood machine.old self.old) now acts.items (stood machine.new self.new)) }
        ensures heard { OnOk result (machine.new.heard ≡ machine.old.heard) }
        ensures refused { IfErr result (λ e. Refuses (phase_of machine.old.stage machine.old.course) events.Turn e) }
        ensures counts { OnOk result (self.new.counts ≡ self.old.counts) }
        ensures kept { OnErr result (Keeps machine.old machine.new × (self.new ≡ self.old)) }
    {
        match &machine.stage {
            Stage::Open => match self.pace.task(&machine.course, now) {
                Task::Copy => self.hand_on(machine, alloc, Event::Turn, now),
                Task::Rest => rest(machine, alloc),
                Task::Begin => self.begin_resync(machine, alloc, now),
            },
            Stage::New(_) | Stage::Hello(_, _) | Stage::Ended => {
                self.hand_on(machine, alloc, Event::Turn, now)
            }
        }
    }

    /// Handles the end of a lesson, and passes on the acknowledgement that the remote peer won't repeat.
    fn written(
        &mut self,
        machine: &mut Machine,
        alloc: Global,
        known: Known,
        now: u64,
    ) -> Result<Vec<Action>, SessionError>
        ensures writes { IfOk result (λ acts. Writes (phase_of machine.old.stage machine.old.course) (stood machine.old self.old) now known acts.items (stood machine.new self.new)) }
        ensures refused { IfErr result (λ e. Refuses (phase_of machine.old.stage machine.old.course) (events.Written known) e) }
        ensures counts { OnOk result (self.new.counts ≡ self.old.counts) }
        ensures kept { OnErr result (Keeps machine.old machine.new × (self.new ≡ self.old)) }
        ensures heard { OnOk result (machine.new.heard ≡ machine.old.heard) }
    {
        check_lesson(machine)?;
        let ack = inferred(self.pace.progress.as_slice(), machine.course.asked);
        let mut actions = Vec::new(alloc);
        if let Some((table, number)) = ack {
            machine.course.acknowledge(table, number, &mut actions)?;
        }
        self.hand_on(machine, alloc, Event::Written(known), now)?;
        Ok(actions)
    }

    /// Hands on a batch that was copied from `table`, and notes its number.
    fn copied(
        &mut self,
        machine: &mut Machine,
        alloc: Global,
        table: u64,
        batch: Batch,
        now: u64,
    ) -> Result<Vec<Action>, SessionError>
        ensures stands { IfOk result (λ acts. Stands (stood machine.old self.old) now (events.Copied table batch) acts.items (stood machine.new self.new)) }
        ensures heard { OnOk result (machine.new.heard ≡ machine.old.heard) }
        ensures refused { IfErr result (λ e. Refuses (phase_of machine.old.stage machine.old.course) (events.Copied table batch) e) }
        ensures counts { OnOk result (self.new.counts ≡ self.old.counts) }
        ensures kept { OnErr result (Keeps machine.old machine.new × (self.new ≡ self.old)) }
    {
        let number = last_number(&batch);
        let actions = self.hand_on(machine, alloc, Event::Copied(table, batch), now)?;
        note_copy(self.pace.progress.as_mut_slice(), table, number, now);
        Ok(actions)
    }

    /// Handles an acknowledgement that `table` refused. It is late and settles nothing, unless it is ahead.
    fn refused(
        &mut self,
        machine: &mut Machine,
        alloc: Global,
        table: u64,
        now: u64,
    ) -> Result<Vec<Action>, SessionError>
        ensures hands { IfOk result (λ acts. HandsOn (stood machine.old self.old) now (answer_of_refusal (is_ahead table self.old.pace.progress) table) acts.items (stood machine.new self.new)) }
        ensures heard { OnOk result (machine.new.heard ≡ machine.old.heard) }
        ensures refused { IfErr result (λ e. Refuses (phase_of machine.old.stage machine.old.course) (events.Refused table) e) }
        ensures counts { OnOk result (self.new.counts ≡ self.old.counts) }
        ensures kept { OnErr result (Keeps machine.old machine.new × (self.new ≡ self.old)) }
    {
        if is_ahead(self.pace.progress.as_slice(), table) {
            self.hand_on(machine, alloc, Event::Refused(table), now)
        } else {
            self.hand_on(machine, alloc, Event::Settled(table, Settled::Older), now)
        }
    }

    /// Makes the step at `event`, and returns the actions to perform, in order. After an error the session is over.
    pub(crate) fn on(
        &mut self,
        machine: &mut Machine,
        alloc: Global,
        event: Event,
        now: u64,
    ) -> Result<Vec<Action>, SessionError>
        ensures stands { IfOk result (λ acts. Stands (stood machine.old self.old) now event acts.items (stood machine.new self.new)) }
        ensures heard { OnOk result (CountsEvent event (phase_of machine.old.stage machine.old.course) machine.old.heard machine.new.heard) }
        ensures counted { IfOk result (λ acts. self.new.counts ≡ all_asked acts.items self.old.counts) }
        ensures refused { IfErr result (λ e. Refuses (phase_of machine.old.stage machine.old.course) event e) }
        ensures exactly { (e : SessionError) → e ≢ errors.Memory → Refuses (phase_of machine.old.stage machine.old.course) event e → result ≡ Err e }
        ensures ended { OnErr result ((seen machine.new ≡ ended (seen machine.old)) × (machine.new.heard ≡ machine.old.heard) × (self.new ≡ self.old)) }
    {
        let given = self.step(machine, alloc, event, now);
        match &given {
            Ok(actions) => self.counts.count_all(actions.as_slice()),
            Err(_) => machine.stage = Stage::Ended,
        }
        given
    }

    /// Makes the step at `event`, and returns the actions to perform, in order. After an error the stage and the course may be
    /// anything, and the caller must end the session.
    fn step(
        &mut self,
        machine: &mut Machine,
        alloc: Global,
        event: Event,
        now: u64,
    ) -> Result<Vec<Action>, SessionError>
        ensures stands { IfOk result (λ acts. Stands (stood machine.old self.old) now event acts.items (stood machine.new self.new)) }
        ensures heard { OnOk result (CountsEvent event (phase_of machine.old.stage machine.old.course) machine.old.heard machine.new.heard) }
        ensures refused { IfErr result (λ e. Refuses (phase_of machine.old.stage machine.old.course) event e) }
        ensures counts { OnOk result (self.new.counts ≡ self.old.counts) }
        ensures kept { OnErr result (Keeps machine.old machine.new × (self.new ≡ self.old)) }
    {
        match event {
            Event::Bytes(bytes) => self.listen(machine, alloc, bytes, now),
            Event::Turn => self.turn(machine, alloc, now),
            Event::Copied(table, batch) => self.copied(machine, alloc, table, batch, now),
            Event::Written(known) => self.written(machine, alloc, known, now),
            Event::Refused(table) => self.refused(machine, alloc, table, now),
            Event::Tick => self.tick(machine, alloc, now),
            Event::CaughtUp => self.caught_up(machine, alloc, now),
            Event::Ask => self.hand_on(machine, alloc, Event::Ask, now),
            Event::Opened => self.hand_on(machine, alloc, Event::Opened, now),
            Event::End => self.hand_on(machine, alloc, Event::End, now),
            Event::ReadFault => self.hand_on(machine, alloc, Event::ReadFault, now),
            Event::WriteFault => self.hand_on(machine, alloc, Event::WriteFault, now),
            Event::Nothing(table) => self.hand_on(machine, alloc, Event::Nothing(table), now),
            Event::Settled(table, settled) => {
                self.hand_on(machine, alloc, Event::Settled(table, settled), now)
            }
        }
    }

    /// Appends a heartbeat if one is owed.
    fn beat(&self, alloc: Global, actions: &mut Vec<Action>, now: u64) -> Result<(), Memory>
        ensures { OnOk result (actions.new.items ≡ actions.old.items ++ heartbeats (has_passed heartbeat_time self.now.pace.sent now)) }
    {
        if !has_passed(times::HEARTBEAT, self.pace.sent, now) {
            return Ok(());
        }
        push_control(alloc, actions, Control::Heartbeat)
    }

    /// Makes the step at a tick of an open session that isn't silent: reopens and leaves the tables that are overdue, forgets the names
    /// if there are any, and asks for a heartbeat if one is owed.
    fn tick_open(
        &mut self,
        machine: &mut Machine,
        alloc: Global,
        now: u64,
    ) -> Result<Vec<Action>, SessionError>
        requires { machine.old.stage ≡ stages.Open }
        ensures ticks { IfOk result (λ acts. TicksAs false (phases.Open machine.old.course) (stood machine.old self.old) now acts.items (stood machine.new self.new)) }
        ensures heard { OnOk result (machine.new.heard ≡ machine.old.heard) }
        ensures memory { IfErr result (λ e. e ≡ errors.Memory) }
        ensures counts { OnOk result (self.new.counts ≡ self.old.counts) }
        ensures kept { OnErr result (Keeps machine.old machine.new × (self.new ≡ self.old)) }
    {
        let progress = self.pace.progress.as_slice();
        let left = tables_to_leave(alloc, progress, machine.course.shares.as_slice(), now)?;
        let mut actions = reopening(alloc, left.as_slice())?;
        let mut rest = Vec::new(alloc);
        machine.course.leave_all(alloc, left.as_slice(), &mut rest)?;
        self.beat(alloc, &mut rest, now)?;
        let sends = any_send(rest.as_slice());
        append(&mut actions, rest)?;
        self.pace.note(sends, false, true, now);
        self.pace.leave(left.as_slice());
        if any_left(left.as_slice()) {
            machine.known.forget_names();
        }
        Ok(actions)
    }

    /// Makes the step at a tick of a session that isn't silent.
    fn tick_heard(
        &mut self,
        machine: &mut Machine,
        alloc: Global,
        now: u64,
    ) -> Result<Vec<Action>, SessionError>
        ensures ticks { IfOk result (λ acts. TicksAs false (phase_of machine.old.stage machine.old.course) (stood machine.old self.old) now acts.items (stood machine.new self.new)) }
        ensures heard { OnOk result (machine.new.heard ≡ machine.old.heard) }
        ensures memory { IfErr result (λ e. e ≡ errors.Memory) }
        ensures counts { OnOk result (self.new.counts ≡ self.old.counts) }
        ensures kept { OnErr result (Keeps machine.old machine.new × (self.new ≡ self.old)) }
    {
        match &machine.stage {
            Stage::Open => self.tick_open(machine, alloc, now),
            Stage::New(_) | Stage::Hello(_, _) | Stage::Ended => Ok(Vec::new(alloc)),
        }
    }

    /// Makes the step at a tick. After an error as `step`.
    fn tick(
        &mut self,
        machine: &mut Machine,
        alloc: Global,
        now: u64,
    ) -> Result<Vec<Action>, SessionError>
        ensures ticks { IfOk result (λ acts. TakesTick (stood machine.old self.old) now acts.items (stood machine.new self.new)) }
        ensures heard { OnOk result (machine.new.heard ≡ machine.old.heard) }
        ensures refused { IfErr result (λ e. Refuses (phase_of machine.old.stage machine.old.course) events.Tick e) }
        ensures counts { OnOk result (self.new.counts ≡ self.old.counts) }
        ensures kept { OnErr result (Keeps machine.old machine.new × (self.new ≡ self.old)) }
    {
        machine.check_tick()?;
        if has_passed(times::SILENCE, self.pace.heard, now) {
            machine.close(alloc)
        } else {
            self.tick_heard(machine, alloc, now)
        }
    }

    /// Hands on word that this node is up to date, unless a table was left.
    fn caught_up(
        &mut self,
        machine: &mut Machine,
        alloc: Global,
        now: u64,
    ) -> Result<Vec<Action>, SessionError>
        ensures hands { IfOk result (λ acts. HandsOn (stood machine.old self.old) now (word_of (has_left self.old.pace.progress)) acts.items (stood machine.new self.new)) }
        ensures heard { OnOk result (machine.new.heard ≡ machine.old.heard) }
        ensures refused { IfErr result (λ e. Refuses (phase_of machine.old.stage machine.old.course) events.CaughtUp e) }
        ensures counts { OnOk result (self.new.counts ≡ self.old.counts) }
        ensures kept { OnErr result (Keeps machine.old machine.new × (self.new ≡ self.old)) }
    {
        if has_left(self.pace.progress.as_slice()) {
            self.hand_on(machine, alloc, Event::Tick, now)
        } else {
            self.hand_on(machine, alloc, Event::CaughtUp, now)
        }
    }
}
