//! Known states.

ghost use Rattle.std.specs.Prelude.{◌≡◌, ◌≢◌, true, Some, None, Err, IfSome, IfOk, IfErr, OnOk, OnErr, List};
ghost use Rattle.table_types.specs.declared.update.Update.{Update};
ghost use Rattle.peers_msg.specs.declared.message.Message.TheVariants as messages;
ghost use Rattle.peers_msg.specs.Borrowed.{owned_name, is_named};
ghost use Rattle.peers_msg.specs.Fitting.{fits, IsPlain};
ghost use Rattle.peers_msg.specs.Messages.{UpdateFields};
ghost use Rattle.peers_msg.specs.Received.{selected_table};
ghost use Rattle.known_state.specs.Effects.{refusal_of};
ghost use Rattle.known_state.specs.State.{Step, IsOwn};
ghost use Rattle.known_state.specs.declared.effect.Effect.TheVariants as effects;
ghost use Rattle.known_state.specs.Known.{known_of, KnownState, AreOwn, fresh_of, without_names, build_fault, built, Refuses, as_step_error, switch_refusal, update_refusal, IsTakenBy, IsLegalEffect, step_error_name};
ghost use Rattle.known_state.specs.LastNumbers.{AreRising};
ghost use Rattle.known_state.specs.declared.known.KnownError.{KnownError};
ghost use Rattle.known_state.specs.declared.known.KnownError.TheVariants as build_errors;
ghost use Rattle.known_state.specs.declared.known.StepError.{StepError};
ghost use Rattle.known_state.specs.declared.known.StepError.TheVariants as step_errors;

use crate::effect::{Effect, Refusal, ResolvedUpdate};
use crate::last_numbers::LastNumbers;
use crate::parts::{are_defined, are_known, repeats, repeats_last};
use crate::state::State;
use dict_slots::Slots;
use peers_msg::{Message, NameFieldRef, Received, UpdateMsg, is_own};
use std::alloc::Global;
use std::marker::Model;
use table_types::{Memory, Roster, TableDef};
use thiserror::Error;

/// Why a known state can't be built: the first cause that applies, in this order.
#[derive(Clone, Copy, Debug, PartialEq, Eq, Error)]
pub enum KnownError {
    /// An id isn't in the roster.
    #[error("a table that the roster lacks")]
    NoTable,
    /// A table that is selected or has a last number isn't defined.
    #[error("a table that isn't defined")]
    NotDefined,
    /// An id is defined twice, or has two last numbers.
    #[error("a table is defined twice, or has two last numbers")]
    Repeated,
    /// Out of memory.
    #[error("memory")]
    Memory,
}

impl From<Memory> for KnownError {
    ghost from_gives = { λ _ e. e ≡ build_errors.Memory };

    fn from(_refused: Memory) -> KnownError {
        KnownError::Memory
    }
}

/// Why a message isn't legal in a known state, which it leaves unchanged.
#[derive(Clone, Copy, Debug, PartialEq, Eq, Error)]
pub enum StepError {
    /// A switch to a table of the roster that isn't defined yet.
    #[error("a switch to a table that isn't defined yet")]
    NotDefined,
    /// An update with no table selected.
    #[error("an update with no table selected")]
    NoTable,
    /// An incremental update of a table that has no last number.
    #[error("an incremental update of a table without a number")]
    NoNumber,
    /// A name read from a slot that holds none.
    #[error("a name read from an empty slot")]
    EmptySlot,
    /// A definition that isn't the roster's, a switch to an id that isn't in the roster, or an update that doesn't fit
    /// its table.
    #[error("a table that isn't the roster's, or an update that doesn't fit")]
    Foreign,
    /// Out of memory.
    #[error("memory")]
    Memory,
}

impl StepError {
    /// Returns the error's name, as the source writes it: `NotDefined`, `NoTable` and so on.
    pub fn name(self) -> &'static str
        ensures { result.now ≡ step_error_name self }
    {
        match self {
            StepError::NotDefined => "NotDefined",
            StepError::NoTable => "NoTable",
            StepError::NoNumber => "NoNumber",
            StepError::EmptySlot => "EmptySlot",
            StepError::Foreign => "Foreign",
            StepError::Memory => "Memory",
        }
    }
}

impl From<Memory> for StepError {
    ghost from_gives = { λ _ e. e ≡ step_errors.Memory };

    fn from(_refused: Memory) -> StepError {
        StepError::Memory
    }
}

impl From<Refusal> for StepError {
    ghost from_gives = { λ refusal e. e ≡ as_step_error refusal };

    fn from(refusal: Refusal) -> StepError {
        match refusal {
            Refusal::NoNumber => StepError::NoNumber,
            Refusal::EmptySlot => StepError::EmptySlot,
            Refusal::Memory => StepError::Memory,
        }
    }
}

/// What a teacher knows of its learner (profile): the roster of the shared tables, the tables defined to the learner
/// and the one selected, the last number of each, and the slots of the dictionary of server names.
#[derive(Debug, Drop)]
pub struct Known {
    alloc: Global,
    roster: Roster,
    /// On the heap, since the slots take 4 KiB, and a known state moves from call to call.
    state: Box<State>,
}

impl Model for Known {
    ghost use Rattle.known_state.specs.Known.{KnownState, AreOwn};

    ghost Value = { KnownState };

    ghost view = { λ k. record { roster = k.roster; state = k.state.value } };

    ghost invariant = { λ k. AreOwn k.roster k.state.value.received.tables };
}

impl Known {
    /// Returns the known state with these parts.
    fn from_parts(alloc: Global, roster: Roster, state: State) -> Result<Known, Memory>
        requires { AreOwn roster state.received.tables }
        ensures { IfOk result (λ known. known ≡ record { roster = roster; state = state }) }
    {
        let state = Box::new(alloc, state)?;
        Ok(Known {
            alloc,
            roster,
            state,
        })
    }

    /// Returns the state of a learner that has received nothing.
    pub fn fresh(alloc: Global, roster: Roster) -> Result<Known, Memory>
        ensures { IfOk result (λ known. known ≡ fresh_of roster) }
    {
        Known::from_parts(alloc, roster, State::new(alloc))
    }

    /// Returns the state of a learner to which the tables `defined` were defined, with `selected` selected, and with
    /// these last numbers and slots.
    ///
    /// Errors, in this order: `NoTable` if an id isn't in the roster, `NotDefined` if a table that isn't defined is
    /// selected or has a last number, `Repeated` if an id is defined twice or has two last numbers, `Memory`.
    pub fn build(
        alloc: Global,
        roster: Roster,
        selected: Option<u64>,
        defined: Vec<u64>,
        last: Vec<(u64, u32)>,
        slots: Slots,
    ) -> Result<Known, KnownError>
        ensures built { IfOk result (λ known. (known ≡ built roster selected defined.items last.items slots)
            × (build_fault roster selected defined.items last.items ≡ None)) }
        ensures refused { IfErr result (λ e. e ≢ build_errors.Memory →
            build_fault roster selected defined.items last.items ≡ Some e) }
        ensures exactly { (e : KnownError) →
            build_fault roster selected defined.items last.items ≡ Some e → result ≡ Err e }
    {
        let (ids, last_numbers) = (defined.as_slice(), last.as_slice());
        if !are_known(&roster, selected, ids, last_numbers) {
            return Err(KnownError::NoTable);
        }
        if !are_defined(selected, ids, last_numbers) {
            return Err(KnownError::NotDefined);
        }
        if repeats(ids) || repeats_last(last_numbers) {
            return Err(KnownError::Repeated);
        }
        let received = Received::resume(alloc, &roster, ids, selected)?;
        let last_numbers = LastNumbers::of(alloc, last_numbers)?;
        let state = State::of(alloc, received, last_numbers, slots);
        Ok(Known::from_parts(alloc, roster, state)?)
    }

    /// Returns what a teacher of `roster` knows of a learner in `state`: the tables of the roster whose id stands for
    /// that very definition are defined, with their last numbers; the slots are the learner's, and the selected table
    /// stays selected if it is one of them.
    pub fn of_learner(alloc: Global, roster: Roster, state: &State) -> Result<Known, Memory>
        ensures known { IfOk result (λ known. known ≡ known_of roster state.now) }
        ensures rising { AreRising state.now.last_numbers }
    {
        let last_numbers = state
            .last_numbers()
            .own_part(alloc, state.received(), &roster)?;
        let slots = state.slots().copy(alloc)?;
        let received = state.received().own_part(alloc, &roster)?;
        let known = State::of(alloc, received, last_numbers, slots);
        Known::from_parts(alloc, roster, known)
    }

    /// Returns the roster.
    pub fn roster(&self) -> &Roster
        ensures roster { result.now ≡ self.now.roster }
        ensures own { AreOwn self.now.roster self.now.state.received.tables }
    {
        &self.roster
    }

    /// Returns the learner's state.
    pub fn state(&self) -> &State
        ensures { result.now ≡ self.now.state }
    {
        &self.state
    }

    /// Returns what the learner received: the tables defined, and the one selected.
    pub fn received(&self) -> &Received
        ensures { result.now ≡ self.now.state.received }
    {
        self.state.received()
    }

    /// Returns the last number of each table.
    pub fn last_numbers(&self) -> &LastNumbers
        ensures { result.now ≡ self.now.state.last_numbers }
    {
        self.state.last_numbers()
    }

    /// Returns the slots of the dictionary of server names.
    pub fn slots(&self) -> &Slots
        ensures { result.now ≡ self.now.state.slots }
    {
        self.state.slots()
    }

    /// Forgets the names: no slot is known to hold one any more, so a lesson writes each name before it reads it. Doesn't
    /// allocate.
    pub fn forget_names(&mut self)
        ensures { self.new ≡ without_names self.old }
    {
        self.state.forget_names();
    }

    /// Applies one message if it is legal in this state: it makes the step that the definition of `Step` says, and a
    /// definition is the roster's own. A refused message changes nothing.
    ///
    /// Errors, in this order: `NoTable`, `Foreign`, `NotDefined`, `NoNumber`, `EmptySlot`, `Memory`.
    pub fn after(&mut self, message: &Message) -> Result<(), StepError>
        ensures step { OnOk result ((us : List Update)
            × Step self.old.state message.now us self.new.state × IsOwn self.old.roster message.now) }
        ensures roster { self.new.roster ≡ self.old.roster }
        ensures refused { IfErr result (λ e. e ≢ step_errors.Memory → Refuses self.old message.now e) }
        ensures exactly { (e : StepError) → Refuses self.old message.now e → result ≡ Err e }
        ensures stays { OnErr result (self.new ≡ self.old) }
    {
        match self.refusal(message) {
            Some(error) => Err(error),
            None => Ok(self.follow(message.copy(self.alloc)?)?),
        }
    }

    /// Returns why `after` refuses a message, if it does: `NoTable`, `Foreign`, `NotDefined`, `NoNumber` or
    /// `EmptySlot`. Doesn't allocate.
    pub fn refusal(&self, message: &Message) -> Option<StepError>
        ensures refused { IfSome result (λ e. Refuses self.now message.now e) }
        ensures taken { result ≡ None → IsTakenBy self.now message.now }
    {
        match message {
            Message::Define(table) => self.refusal_of_definition(table),
            Message::Switch(id) => self.refusal_of_switch(*id),
            Message::Update(update) => self.refusal_of_update(update),
            Message::Control(_) | Message::Error(_) | Message::Ack { .. } | Message::Other(_) =>
                None,
        }
    }

    fn refusal_of_definition(&self, table: &TableDef) -> Option<StepError>
        ensures refused { IfSome result (λ e. Refuses self.now (messages.Define table.now) e) }
        ensures taken { result ≡ None → IsTakenBy self.now (messages.Define table.now) }
    {
        if is_own(&self.roster, table) {
            None
        } else {
            Some(StepError::Foreign)
        }
    }

    fn refusal_of_switch(&self, id: u64) -> Option<StepError>
        ensures { result ≡ switch_refusal self.now id }
    {
        let Some(_) = self.roster.table(id) else {
            return Some(StepError::Foreign);
        };
        let Some(_) = self.received().table(id) else {
            return Some(StepError::NotDefined);
        };
        None
    }

    fn refusal_of_update(&self, update: &UpdateMsg) -> Option<StepError>
        ensures { result ≡ update_refusal self.now update.now (selected_table self.now.state.received) }
    {
        let Some(table) = self.received().selected_table() else {
            return Some(StepError::NoTable);
        };
        let _id = table.id();
        if !update.fits(table) {
            return Some(StepError::Foreign);
        }
        match self.state().refusal(update.number(), update.name().lend()) {
            Some(refusal) => Some(StepError::from(refusal)),
            None => None,
        }
    }

    /// Applies one message that is known to be legal. Consumes the message: what it owns moves into the state without a
    /// copy. Allocates only for a definition and for the first number of a table. After `Memory` nothing has changed.
    pub fn follow(&mut self, message: Message) -> Result<(), Memory>
        requires { IsTakenBy self.old message }
        ensures step { OnOk result ((us : List Update)
            × Step self.old.state message us self.new.state × IsOwn self.old.roster message) }
        ensures roster { self.new.roster ≡ self.old.roster }
        ensures stays { OnErr result (self.new ≡ self.old) }
    {
        let effect = self.effect(message);
        self.state.make(effect)?;
        Ok(())
    }

    /// Applies an update that is known to be legal, given its number and its name field: what it does depends on nothing
    /// else. Copies the name if the update writes one. Allocates only for that name and for the first number of a table.
    /// After `Memory` nothing has changed.
    pub fn follow_update(
        &mut self,
        number: Option<u32>,
        field: NameFieldRef<'_>,
    ) -> Result<(), Memory>
        requires named { is_named (owned_name field) ≡ true }
        requires unrefused { refusal_of self.old.state number (owned_name field) ≡ None }
        ensures step { OnOk result ((u : UpdateFields) → u.number ≡ number → u.name ≡ owned_name field.entry →
            fits self.old.state.received (messages.Update u) ≡ true →
            (us : List Update) × Step self.old.state (messages.Update u) us self.new.state) }
        ensures roster { self.new.roster ≡ self.old.roster }
        ensures stays { OnErr result (self.new ≡ self.old) }
    {
        self.state.follow_update(number, field)?;
        Ok(())
    }

    /// Returns the effect of a message that fits in every state.
    fn nothing(&self, message: &Message) -> Effect
        requires { IsPlain message.now }
        ensures nothing { result ≡ effects.Nothing }
        ensures fits { fits self.now.state.received message.now ≡ true }
    {
        let fits = message.fits(self.received());
        prove!(fits);
        Effect::Nothing
    }

    /// Returns the effect of a message that is known to be legal.
    fn effect(&self, message: Message) -> Effect
        requires { IsTakenBy self.now message }
        ensures { IsLegalEffect self.now message result }
    {
        match message {
            Message::Define(table) => self.effect_of_definition(table),
            Message::Switch(id) => self.effect_of_switch(id),
            Message::Update(update) => self.effect_of_update(update),
            Message::Control(control) => self.nothing(&Message::Control(control)),
            Message::Error(kind) => self.nothing(&Message::Error(kind)),
            Message::Ack { table, number } => self.nothing(&Message::Ack { table, number }),
            Message::Other(other) => self.nothing(&Message::Other(other)),
        }
    }

    fn effect_of_definition(&self, table: TableDef) -> Effect
        requires { IsTakenBy self.now (messages.Define table) }
        ensures { IsLegalEffect self.now (messages.Define table) result }
    {
        let _id = table.id();
        Effect::Define(table)
    }

    fn effect_of_switch(&self, id: u64) -> Effect
        requires { IsTakenBy self.now (messages.Switch id) }
        ensures { IsLegalEffect self.now (messages.Switch id) result }
    {
        Effect::Select(id)
    }

    fn effect_of_update(&self, update: UpdateMsg) -> Effect
        requires { IsTakenBy self.now (messages.Update update) }
        ensures { IsLegalEffect self.now (messages.Update update) result }
    {
        match self.state().number(update.number()) {
            Some((table, number)) => {
                let (_, _, field) = update.into_parts();
                Effect::Update(ResolvedUpdate::of(table, number, field))
            }
            None => unreachable!(),
        }
    }

    /// Returns an equal state.
    pub fn copy(&self, alloc: Global) -> Result<Known, Memory>
        ensures copy { IfOk result (λ copy. copy ≡ self.now) }
        ensures own { AreOwn self.now.roster self.now.state.received.tables }
    {
        let roster = self.roster.copy(alloc)?;
        Known::from_parts(alloc, roster, self.state.copy(alloc)?)
    }
}
