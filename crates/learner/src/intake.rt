//! Taking a stream message by message.

ghost use Rattle.std.specs.Prelude.{◌≡◌, ◌<◌, ◌≤◌, [], true, IfOk, IfErr, OnOk, OnErr, IsSome, length};
ghost use Rattle.peers_msg.specs.declared.message.Message.TheVariants as messages;
ghost use Rattle.peers_msg.specs.BorrowedMessages.{owned_message};
ghost use Rattle.peers_msg.specs.Fitting.{fits};
ghost use Rattle.known_state.specs.Effects.{IsEffect};
ghost use Rattle.known_state.specs.declared.effect.Effect.TheVariants as effects;
ghost use Rattle.learner.specs.LocalTables.{selected_local};
ghost use Rattle.learner.specs.Acks.{AreRisingAcks};
ghost use Rattle.learner.specs.Intake.{begun, shut, with_unread, IntakeFeeds, IntakeNext, IsRefused, ack_of, due_acks};
ghost use Rattle.learner.specs.Front.{Looks, Shows, passed, stopped, with_effect};

use crate::advance::Advance;
use crate::fault::Fault;
use crate::local_tables::local_table;
use crate::taken::{LocalUpdateRef, Taken, TakenRef};
use known_state::{Effect, ResolvedUpdate, State};
use peers_msg::{Message, MessageRef, Received, Unread, UpdateRef, front};
use std::alloc::Global;
use std::collections::BTreeSet;
use std::marker::Model;
use table_types::{Memory, Roster, TableDef};

/// An intake takes the messages of a stream that arrives in pieces, cut anywhere, and resolves what they say of the
/// local tables (HAProxy, doc/peers-v2.0.txt, "Stick Table Messages").
#[derive(Drop)]
pub struct Intake {
    alloc: Global,
    roster: Roster,
    state: State,
    due: BTreeSet<u64>,
    /// The id of the local table that the selected table stands for.
    local: Option<u64>,
    /// The bytes that were fed and not read; none once the intake is closed.
    unread: Unread,
    closed: bool,
}

impl Model for Intake {
    ghost use Rattle.std.specs.Prelude.{◌≡◌};
    ghost use Rattle.learner.specs.Intake.{Taking};
    ghost use Rattle.learner.specs.LocalTables.{selected_local};

    ghost Value = { Taking };

    ghost view = { λ i. record { roster = i.roster; state = i.state; due = i.due.keys; unread = i.unread; closed = i.closed } };

    ghost invariant = { λ i. i.local ≡ selected_local i.roster i.state.received };
}

/// Returns the id of the local table that the selected table stands for.
fn selected_local(roster: &Roster, received: &Received) -> Option<u64>
    ensures { result ≡ selected_local roster.now received.now }
{
    match received.selected_table() {
        Some(table) => match local_table(roster.tables(), table) {
            Some(local) => Some(local.id()),
            None => None,
        },
        None => None,
    }
}

impl Intake {
    /// Returns an intake for the roster's tables that has been fed nothing. Doesn't allocate.
    pub fn new(alloc: Global, roster: Roster) -> Intake
        ensures { result ≡ begun roster }
    {
        Intake {
            alloc,
            roster,
            state: State::new(alloc),
            due: BTreeSet::new(alloc),
            local: None,
            unread: Unread::new(alloc),
            closed: false,
        }
    }

    /// Returns the local tables.
    pub fn roster(&self) -> &Roster
        ensures { result.now ≡ self.now.roster }
    {
        &self.roster
    }

    /// Returns the state after the messages read.
    pub fn state(&self) -> &State
        ensures { result.now ≡ self.now.state }
    {
        &self.state
    }

    /// Returns how many bytes were fed and not taken. If `next` returns `None`, they are those of an unfinished
    /// message; after a fault other than `Memory` there are none.
    pub fn waiting(&self) -> usize
        ensures { result ≡ length self.now.unread }
    {
        self.unread.len()
    }

    /// Returns the bytes that were fed and not taken.
    pub fn unread(&self) -> &[u8]
        ensures { result.now ≡ self.now.unread }
    {
        self.unread.as_slice()
    }

    /// Returns whether there was a fault.
    pub fn is_closed(&self) -> bool
        ensures { result ≡ self.now.closed }
    {
        self.closed
    }

    /// Closes the intake: every later call that takes bytes returns `Closed`. Drops the unread bytes.
    pub(crate) fn close(&mut self)
        ensures { self.new ≡ shut self.old }
    {
        self.unread = Unread::new(self.alloc);
        self.closed = true;
    }

    /// Takes the next piece of the stream, and holds all of it. Returns `Closed` after a fault. An empty piece needs no
    /// memory; after `Memory` nothing has changed.
    pub fn feed(&mut self, piece: &[u8]) -> Result<(), Fault>
        ensures { IntakeFeeds self.old piece.now result self.new }
    {
        if self.closed {
            return Err(Fault::Closed);
        }
        if !piece.is_empty() {
            self.unread.append(piece)?;
        }
        Ok(())
    }

    /// Does the same as `look_at`, with the unread bytes.
    pub fn look(&self) -> Result<Option<(TakenRef<'_>, Advance)>, Fault>
        ensures looks { Looks self.now result }
    {
        self.look_at(self.unread.as_slice())
    }

    /// Returns what the message at the front of `bytes` gives, and what moves the intake past it; `None` if the message
    /// isn't whole yet. Nothing changes yet.
    ///
    /// Allocates only for a definition and for a name that an update writes.
    pub(crate) fn look_at<'a>(
        &'a self,
        bytes: &'a [u8],
    ) -> Result<Option<(TakenRef<'a>, Advance)>, Fault>
        ensures looks { Looks (with_unread self.now bytes.now) result }
    {
        if self.closed {
            return Err(Fault::Closed);
        }
        match front(self.state.received(), bytes) {
            Ok(Some((message, used))) => match self.shown(message) {
                Ok((taken, effect)) => Ok(Some((taken, Advance { effect, used }))),
                Err(fault) => Err(fault),
            },
            Ok(None) => Ok(None),
            Err(breach) => Err(Fault::Breach(breach)),
        }
    }

    /// Returns what a message gives, and what it does to the state; or why it is refused. Nothing changes yet.
    ///
    /// Allocates only for a definition and for a name that an update writes.
    pub fn shown<'a>(&'a self, message: MessageRef<'a>) -> Result<(TakenRef<'a>, Effect), Fault>
        requires { fits self.now.state.received (owned_message message) ≡ true }
        ensures effect { IfOk result (λ shown. IsEffect self.now.state (owned_message message.entry) shown.1) }
        ensures shows { IfOk result (λ shown. Shows self.now (owned_message message.entry) shown.1 shown.0) }
        ensures refused { IfErr result (λ fault. IsRefused self.now.state (owned_message message.entry) fault) }
    {
        match message {
            MessageRef::Update(update) => self.update(update),
            MessageRef::Define(table) => {
                let table = table.to_owned(self.alloc)?;
                Ok((TakenRef::Passed, Effect::Define(table)))
            }
            MessageRef::Switch(id) => Ok((TakenRef::Passed, Effect::Select(id))),
            MessageRef::Control(control) => Ok((TakenRef::Said(control), Effect::Nothing)),
            MessageRef::Error(error) => Ok((TakenRef::Failed(error), Effect::Nothing)),
            MessageRef::Ack { table, number } => {
                Ok((TakenRef::Acked { table, number }, Effect::Nothing))
            }
            MessageRef::Other(_) => Ok((TakenRef::Passed, Effect::Nothing)),
        }
    }

    fn update<'a>(&'a self, update: UpdateRef<'a>) -> Result<(TakenRef<'a>, Effect), Fault>
        ensures effect { IfOk result (λ shown. IsEffect self.now.state (messages.Update update.entry) shown.1) }
        ensures shows { IfOk result (λ shown. Shows self.now (messages.Update update.entry) shown.1 shown.0) }
        ensures refused { IfErr result (λ fault. IsRefused self.now.state (messages.Update update.entry) fault) }
    {
        let name = self.state.name(update.name());
        match self.state.resolve(update.number(), update.name()) {
            Ok(resolved) => {
                let taken = match self.local {
                    Some(table) => {
                        TakenRef::Row(LocalUpdateRef::new(table, resolved.number, update, name))
                    }
                    None => TakenRef::Passed,
                };
                Ok((taken, Effect::Update(resolved)))
            }
            Err(refusal) => Err(Fault::from(refusal)),
        }
    }

    /// Moves past the message at the front. After `Memory` nothing has changed.
    pub fn pass(&mut self, advance: Advance) -> Result<(), Memory>
        requires { advance.used ≤ length self.old.unread }
        ensures passed { OnOk result (self.new ≡ passed self.old advance) }
        ensures stays { OnErr result (self.new ≡ self.old) }
    {
        let Advance { effect, used } = advance;
        self.make(effect)?;
        self.unread.advance(used);
        Ok(())
    }

    /// Applies an effect to the state and to what is due. After `Memory` nothing has changed.
    pub(crate) fn make(&mut self, effect: Effect) -> Result<(), Memory>
        ensures made { OnOk result (self.new ≡ with_effect self.old effect) }
        ensures stays { OnErr result (self.new ≡ self.old) }
    {
        match effect {
            Effect::Update(update) => self.remember(update),
            Effect::Define(table) => self.define(table),
            Effect::Select(id) => self.select(id),
            Effect::Nothing => Ok(()),
        }
    }

    fn define(&mut self, table: TableDef) -> Result<(), Memory>
        ensures made { OnOk result (self.new ≡ with_effect self.old (effects.Define table)) }
        ensures stays { OnErr result (self.new ≡ self.old) }
    {
        self.state.make(Effect::Define(table))?;
        self.local = selected_local(&self.roster, self.state.received());
        Ok(())
    }

    fn select(&mut self, id: u64) -> Result<(), Memory>
        ensures made { OnOk result (self.new ≡ with_effect self.old (effects.Select id)) }
        ensures stays { OnErr result (self.new ≡ self.old) }
    {
        self.state.make(Effect::Select(id))?;
        self.local = selected_local(&self.roster, self.state.received());
        Ok(())
    }

    /// Records the number of an update and the name that it writes, and makes its table due. After `Memory` nothing has
    /// changed.
    fn remember(&mut self, update: ResolvedUpdate) -> Result<(), Memory>
        ensures made { OnOk result (self.new ≡ with_effect self.old (effects.Update update)) }
        ensures stays { OnErr result (self.new ≡ self.old) }
    {
        let table = update.table;
        let is_new = self.due.insert(table)?;
        match self.state.make(Effect::Update(update)) {
            Ok(()) => Ok(()),
            Err(refused) if is_new => {
                self.due.remove(&table);
                Err(refused)
            }
            Err(refused) => Err(refused),
        }
    }

    /// Closes at a fault, unless it is out of memory.
    pub fn stop(&mut self, fault: Fault)
        ensures { self.new ≡ stopped self.old fault }
    {
        match fault {
            Fault::Memory | Fault::Closed => {}
            Fault::Breach(_) | Fault::NoNumber | Fault::EmptySlot => self.close(),
        }
    }

    /// Returns what the next message gives, or `None` if it isn't whole yet. Returns `Closed` after a fault. Returns
    /// `Memory` only if a whole message without a fault is at the front, and then nothing has changed.
    pub fn next(&mut self) -> Result<Option<Taken>, Fault>
        ensures next { IntakeNext self.old result self.new }
        ensures fewer { IfOk result (λ found. IsSome found → length self.new.unread < length self.old.unread) }
    {
        match self.look() {
            Ok(Some((taken, advance))) => {
                let taken = taken.to_owned(self.alloc)?;
                self.pass(advance)?;
                Ok(Some(taken))
            }
            Ok(None) => Ok(None),
            Err(fault) => {
                self.stop(fault);
                Err(fault)
            }
        }
    }

    /// Returns the acknowledgement of an id: of its last number, if it stands for a local table.
    fn ack(&self, id: u64) -> Option<Message>
        ensures { result ≡ ack_of self.now id }
    {
        let Some(table) = self.state.received().table(id) else {
            return None;
        };
        let Some(_) = local_table(self.roster.tables(), table) else {
            return None;
        };
        match self.state.last_numbers().last(id) {
            Some(number) => Some(Message::Ack { table: id, number }),
            None => None,
        }
    }

    /// Returns the acknowledgements that are due: one for each local table with a last number and an update since the
    /// last call, in ascending order of the sender's id. Afterwards none is due. After `Memory` nothing has changed.
    pub fn acks(&mut self) -> Result<Vec<Message>, Memory>
        ensures due { IfOk result (λ acks. acks.items ≡ due_acks self.old) }
        ensures rising { IfOk result (λ acks. AreRisingAcks acks.items) }
        ensures done { OnOk result (self.new ≡ record self.old { due = [] }) }
        ensures stays { OnErr result (self.new ≡ self.old) }
    {
        let most = self.due.len().min(self.state.received().count());
        let mut acks = Vec::with_capacity(self.alloc, most)?;
        for id in &self.due {
            if let Some(ack) = self.ack(*id) {
                acks.push(ack)?;
            }
        }
        self.due.clear();
        Ok(acks)
    }
}
