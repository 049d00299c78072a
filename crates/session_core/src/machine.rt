//! The steps of a session.

ghost use Rattle.std.specs.Prelude.{◌≡◌, ◌≢◌, ◌∷◌, [], true, Err, IfOk, IfErr, OnOk, OnErr, option_copied, option_map};
ghost use Rattle.session_core.specs.declared.action.Action.TheVariants as actions;
ghost use Rattle.session_core.specs.declared.error.SessionError.{SessionError};
ghost use Rattle.session_core.specs.declared.error.SessionError.TheVariants as errors;
ghost use Rattle.session_core.specs.declared.event.Event.TheVariants as events;
ghost use Rattle.session_core.specs.declared.halt.Halt.TheVariants as halts;
ghost use Rattle.session_core.specs.declared.phase.Greeter.TheVariants as greeters;
ghost use Rattle.session_core.specs.Phases as phases;
ghost use Rattle.session_core.specs.declared.phase.Stage.TheVariants as stages;
ghost use Rattle.session_core.specs.HeardCounts.{CountsEvent, CountsBytes};
ghost use Rattle.session_core.specs.Courses.{course_fed, none_due, acks_sent, acks_given, reading_of};
ghost use Rattle.session_core.specs.Sessions.{Goes, GoesOpen, Keeps, Concludes, Refuses, IsWhy, ended, is_asked, is_asked_open, is_hello, open_course, phase_of, seen, going, kind_of_fault, state_of};

use crate::action::{Action, confirms, only, push};
use crate::course::Course;
use crate::due::Due;
use crate::error::SessionError;
use crate::event::Event;
use crate::halt::Halt;
use crate::handshake::{Handshake, after, greeting};
use crate::heard::Heard;
use crate::phase::{Greeter, Stage};
use crate::state::State;
use known_state::Known;
use learner::Fault;
use peers_msg::{Breach, ErrorKind};
use std::alloc::Global;
use table_types::{Memory, Version};
use tolerant_intake::Reader;

/// A session as its steps change it. The course stays in place through all stages.
#[derive(Drop)]
pub(crate) struct Machine {
    pub(crate) stage: Stage,
    pub(crate) course: Course,
    /// What is known of the remote peer as a learner.
    pub(crate) known: Known,
    /// The fault in the remote peer's messages that ended the session.
    pub(crate) fault: Option<Fault>,
    /// Whether the session asked to send resync confirmed.
    pub(crate) confirmed: bool,
    /// The version that both peers speak, once the hello is done.
    pub(crate) version: Option<Version>,
    /// Whether status 502 ended the session, which had said version 2.1.
    pub(crate) fell_back: bool,
    /// What was counted of what the remote peer sent.
    pub(crate) heard: Heard,
}

/// Returns the error message that answers a fault.
fn kind_of(fault: Fault) -> ErrorKind
    ensures { result ≡ kind_of_fault fault }
{
    match fault {
        Fault::Breach(Breach::SizeLimit) => ErrorKind::SizeLimit,
        Fault::Breach(_) | Fault::Memory | Fault::Closed | Fault::EmptySlot | Fault::NoNumber => {
            ErrorKind::Protocol
        }
    }
}

impl Machine {
    /// Returns the state of the session.
    pub(crate) fn state(&self) -> State
        ensures { result ≡ state_of (phase_of self.now.stage self.now.course) }
    {
        match &self.stage {
            Stage::New(_) => State::New,
            Stage::Hello(_, _) => State::Hello,
            Stage::Open => self.course.state(),
            Stage::Ended => State::Ended,
        }
    }

    /// Returns what reads the remote peer's messages, while the session is open.
    pub(crate) fn reader(&self) -> Option<&Reader>
        ensures { option_copied result ≡ option_map reading_of (open_course (phase_of self.now.stage self.now.course)) }
    {
        match &self.stage {
            Stage::Open => Some(&self.course.reader),
            Stage::New(_) | Stage::Hello(_, _) | Stage::Ended => None,
        }
    }

    /// Makes the step at `event`, and returns the actions to perform, in order. After an error the session is over.
    pub(crate) fn on(&mut self, alloc: Global, event: Event) -> Result<Vec<Action>, SessionError>
        ensures goes { IfOk result (λ acts. Goes (seen self.old) event acts.items (seen self.new)) }
        ensures heard { OnOk result (CountsEvent event (phase_of self.old.stage self.old.course) self.old.heard self.new.heard) }
        ensures refused { IfErr result (λ e. Refuses (phase_of self.old.stage self.old.course) event e) }
        ensures exactly { (e : SessionError) → e ≢ errors.Memory → Refuses (phase_of self.old.stage self.old.course) event e → result ≡ Err e }
        ensures ended { OnErr result ((seen self.new ≡ ended (seen self.old)) × (self.new.heard ≡ self.old.heard)) }
    {
        let given = self.step(alloc, event);
        if given.is_err() {
            self.stage = Stage::Ended;
        }
        given
    }

    /// Fails if no tick may come: with `Ended` if the session is over, and with `Unasked` while an answer is due.
    pub(crate) fn check_tick(&self) -> Result<(), SessionError>
        ensures asked { OnOk result (is_asked (phase_of self.now.stage self.now.course) events.Tick ≡ true) }
        ensures refused { IfErr result (λ e. Refuses (phase_of self.now.stage self.now.course) events.Tick e) }
        ensures exactly { (e : SessionError) → e ≢ errors.Memory → Refuses (phase_of self.now.stage self.now.course) events.Tick e → result ≡ Err e }
    {
        match &self.stage {
            Stage::New(_) | Stage::Hello(_, _) => Ok(()),
            Stage::Open if self.course.none_due() => Ok(()),
            Stage::Open => Err(SessionError::Unasked),
            Stage::Ended => Err(SessionError::Ended),
        }
    }

    /// Makes the step at `event`, and returns the actions to perform, in order. After an error the stage and the course
    /// may be anything, and the caller must end the session.
    pub(crate) fn step(&mut self, alloc: Global, event: Event) -> Result<Vec<Action>, SessionError>
        ensures goes { IfOk result (λ acts. Goes (seen self.old) event acts.items (seen self.new)) }
        ensures heard { OnOk result (CountsEvent event (phase_of self.old.stage self.old.course) self.old.heard self.new.heard) }
        ensures refused { IfErr result (λ e. Refuses (phase_of self.old.stage self.old.course) event e) }
        ensures exactly { (e : SessionError) → e ≢ errors.Memory → Refuses (phase_of self.old.stage self.old.course) event e → result ≡ Err e }
        ensures kept { OnErr result (Keeps self.old self.new) }
    {
        match &mut self.stage {
            Stage::New(hello) => match event {
                Event::Opened => {
                    let actions = greeting(alloc, hello)?;
                    let greeter = Greeter::Connects(hello.version);
                    self.stage = Stage::Hello(greeter, Vec::new(alloc));
                    Ok(actions)
                }
                Event::Turn | Event::Tick | Event::Ask => Ok(Vec::new(alloc)),
                Event::CaughtUp => {
                    self.course.catch_up();
                    Ok(Vec::new(alloc))
                }
                Event::End | Event::ReadFault | Event::WriteFault => self.close(alloc),
                _ => Err(SessionError::Unasked),
            },
            Stage::Hello(_, _) => self.go_hello(alloc, event),
            Stage::Open => self.go_open(alloc, event),
            Stage::Ended => Err(SessionError::Ended),
        }
    }

    /// Makes the step of a session at `event`, while the hello or the status is incomplete.
    fn go_hello(&mut self, alloc: Global, event: Event) -> Result<Vec<Action>, SessionError>
        requires { is_hello self.old.stage ≡ true }
        ensures goes { IfOk result (λ acts. Goes (seen self.old) event acts.items (seen self.new)) }
        ensures heard { OnOk result (CountsEvent event (phase_of self.old.stage self.old.course) self.old.heard self.new.heard) }
        ensures refused { IfErr result (λ e. Refuses (phase_of self.old.stage self.old.course) event e) }
        ensures exactly { (e : SessionError) → e ≢ errors.Memory → Refuses (phase_of self.old.stage self.old.course) event e → result ≡ Err e }
        ensures kept { OnErr result (Keeps self.old self.new) }
    {
        let Stage::Hello(greeter, bytes) = &mut self.stage else {
            unreachable!()
        };
        match event {
            Event::Bytes(piece) => {
                bytes
                    .extend_from_slice(piece.as_slice())
                    .map_err(Memory::from)?;
                match greeter.receive(alloc, self.course.first_word(), bytes.as_slice())? {
                    Handshake::Incomplete => Ok(Vec::new(alloc)),
                    Handshake::Accepted {
                        used,
                        version,
                        answer,
                    } => {
                        let mut actions = answer;
                        self.course.open(version, &mut actions)?;
                        let rest = after(bytes.as_slice(), used);
                        let mut heard = self.heard;
                        let received = self.course.hear(alloc, rest, &mut heard, &mut actions);
                        self.conclude(alloc, Some(version), received, &mut actions)?;
                        self.heard = heard;
                        Ok(actions)
                    }
                    Handshake::Refused {
                        actions,
                        falls_back,
                    } => {
                        self.fell_back = falls_back || self.fell_back;
                        self.stage = Stage::Ended;
                        Ok(actions)
                    }
                }
            }
            Event::Turn | Event::Tick | Event::Ask => Ok(Vec::new(alloc)),
            Event::CaughtUp => {
                self.course.catch_up();
                Ok(Vec::new(alloc))
            }
            Event::End | Event::ReadFault | Event::WriteFault => self.close(alloc),
            _ => Err(SessionError::Unasked),
        }
    }

    /// Makes the step of an open session at `event`.
    fn go_open(&mut self, alloc: Global, event: Event) -> Result<Vec<Action>, SessionError>
        requires { self.old.stage ≡ stages.Open }
        ensures goes { IfOk result (λ acts. GoesOpen (seen self.old) self.old.course event acts.items (seen self.new)) }
        ensures heard { OnOk result (CountsEvent event (phases.Open self.old.course) self.old.heard self.new.heard) }
        ensures refused { IfErr result (λ e. IsWhy (is_asked_open self.old.course.due event) e) }
        ensures kept { OnErr result (Keeps self.old self.new) }
    {
        match event {
            Event::Turn => self.course.turn(alloc),
            Event::Tick => self.course.tick(alloc),
            Event::Ask => self.course.ask(alloc),
            Event::CaughtUp => self.course.caught_up(alloc),
            Event::Bytes(bytes) => self.receive(alloc, bytes.as_slice()),
            Event::Copied(table, batch) => self.course.copied(alloc, table, batch),
            Event::Nothing(table) => self.course.nothing(alloc, table),
            Event::Written(known) => {
                let actions = self.course.written(alloc)?;
                self.known = known;
                Ok(actions)
            }
            Event::Settled(table, settled) => self.course.settled(alloc, table, settled),
            Event::Refused(table) => {
                self.course.answer(Due::Ack(table))?;
                self.end_with(alloc, Action::Part(ErrorKind::Protocol))
            }
            Event::End | Event::ReadFault | Event::WriteFault => self.close(alloc),
            Event::Opened => Err(SessionError::Unasked),
        }
    }

    /// Receives the messages in `bytes`, unless an answer is due.
    fn receive(&mut self, alloc: Global, bytes: &[u8]) -> Result<Vec<Action>, SessionError>
        ensures goes { IfOk result (λ acts. GoesOpen (seen self.old) self.old.course (events.Bytes bytes.now) acts.items (seen self.new)) }
        ensures heard { OnOk result (CountsBytes self.old.course bytes.now self.old.heard self.new.heard) }
        ensures refused { IfErr result (λ e. IsWhy (none_due self.old.course.due) e) }
        ensures kept { OnErr result (Keeps self.old self.new) }
    {
        if !self.course.none_due() {
            return Err(SessionError::Unasked);
        }
        let mut actions = Vec::new(alloc);
        let mut heard = self.heard;
        let received = self.course.hear(alloc, bytes, &mut heard, &mut actions);
        self.conclude(alloc, self.version, received, &mut actions)?;
        self.heard = heard;
        Ok(actions)
    }

    /// Follows up the received messages: appends the acknowledgements that are due, or what ends a halted session. Both peers
    /// speak `version`.
    fn conclude(
        &mut self,
        alloc: Global,
        version: Option<Version>,
        received: Result<(), Halt>,
        actions: &mut Vec<Action>,
    ) -> Result<(), Memory>
        ensures goes { OnOk result (Concludes (record (seen self.old) { version = version }) self.old.course received actions.old.items actions.new.items (seen self.new)) }
        ensures memory { OnOk result (received ≢ Err halts.Memory) }
        ensures same { self.new.heard ≡ self.old.heard }
        ensures kept { OnErr result (Keeps self.old self.new) }
    {
        match received {
            Ok(()) => {
                self.course.send_acks(alloc, actions)?;
                self.stage = Stage::Open;
            }
            Err(Halt::Failed) => {
                push(actions, Action::Close)?;
                self.stage = Stage::Ended;
            }
            Err(Halt::Fault(fault)) => {
                push(actions, Action::Part(kind_of(fault)))?;
                self.fault = Some(fault);
                self.stage = Stage::Ended;
            }
            Err(Halt::Memory) => return Err(Memory),
        }
        self.confirmed = self.confirmed || confirms(actions.as_slice());
        self.version = version;
        Ok(())
    }

    /// Ends the session, and returns the action that closes the connection.
    pub(crate) fn close(&mut self, alloc: Global) -> Result<Vec<Action>, SessionError>
        ensures actions { IfOk result (λ acts. acts.items ≡ actions.Close ∷ []) }
        ensures session { OnOk result (self.new ≡ record self.old { stage = stages.Ended }) }
        ensures memory { IfErr result (λ e. e ≡ errors.Memory) }
        ensures kept { OnErr result (Keeps self.old self.new) }
    {
        self.end_with(alloc, Action::Close)
    }

    /// Ends the session, and returns this one action.
    fn end_with(&mut self, alloc: Global, action: Action) -> Result<Vec<Action>, SessionError>
        ensures actions { IfOk result (λ acts. acts.items ≡ action ∷ []) }
        ensures session { OnOk result (self.new ≡ record self.old { stage = stages.Ended }) }
        ensures memory { IfErr result (λ e. e ≡ errors.Memory) }
        ensures kept { OnErr result (Keeps self.old self.new) }
    {
        let actions = only(alloc, action)?;
        self.stage = Stage::Ended;
        Ok(actions)
    }
}
