//! What a tolerant reader remembers beside what it takes.

ghost use Rattle.std.specs.Prelude.{◌≡◌, ◌<◌, ◌≤◌, false, Ok, Err, Some, None, IfOk, IfErr, IfSome, IsSome, OnOk, OnErr, length, option_copied};
ghost use Rattle.std.specs.BTreeMap.{insert_entry};
ghost use Rattle.std.specs.Ordering.{nat_cmp};
ghost use Rattle.peers_msg.specs.Reading.{frame_at};
ghost use Rattle.known_state.specs.declared.effect.Effect.TheVariants as effects;
ghost use Rattle.learner.specs.declared.fault.Fault.TheVariants as faults;
ghost use Rattle.learner.specs.Front.{Looks};
ghost use Rattle.learner.specs.Front as fronts;
ghost use Rattle.tolerant_intake.specs.Counts.{counted};
ghost use Rattle.tolerant_intake.specs.Tolerance.{nothing_passed, counted_for, loose_at, outlasting, selected_loose};
ghost use Rattle.tolerant_intake.specs.Policy.{loose_front, passage_of};
ghost use Rattle.tolerant_intake.specs.Planning.{IsPlan, Plans, left_after};
ghost use Rattle.tolerant_intake.specs.Reading.{Reads};

use crate::loose_table::{LooseTable, put_back, remove_other, remove_replaced, replaced_ids};
use crate::loose_update::loose_update_at;
use crate::passed_over::{Cause, PassedOver};
use crate::plan::Plan;
use crate::planning::{defines_further, plan_breach, plan_loose_update, plan_passed};
use known_state::{Effect, ResolvedUpdate};
use learner::{Advance, Fault, Intake, Taken, TakenRef};
use peers_msg::{Breach, Meaning, MessageRef, frame_at, front};
use std::alloc::Global;
use std::collections::BTreeMap;
use std::marker::Model;
use table_types::{Memory, TableDef};

/// What a tolerant reader remembers beside what it takes: the tables outside the profile, and what was passed over.
#[derive(Drop)]
pub struct Tolerance {
    /// The tables outside the profile, by the peer's ids.
    loose: BTreeMap<u64, LooseTable>,
    passed_over: PassedOver,
}

impl Model for Tolerance {
    ghost use Rattle.tolerant_intake.specs.Tolerance.{Tolerance};

    ghost Value = { Tolerance };

    ghost view = { λ l. record { loose = l.loose.entries; passed_over = l.passed_over } };
}

impl Tolerance {
    /// Returns what is remembered before anything came. Doesn't allocate.
    pub(crate) fn new(alloc: Global) -> Tolerance
        ensures { result ≡ nothing_passed }
    {
        Tolerance {
            loose: BTreeMap::new(alloc),
            passed_over: PassedOver::none(),
        }
    }

    /// Returns how often something was passed over, for each cause.
    pub(crate) fn passed_over(&self) -> PassedOver
        ensures { result ≡ self.now.passed_over }
    {
        self.passed_over
    }

    /// Returns the table outside the profile with the id `id`.
    pub(crate) fn loose(&self, id: u64) -> Option<&LooseTable>
        ensures { option_copied result ≡ loose_at self.now.loose id }
    {
        self.loose.get(&id)
    }

    /// Counts what was passed over, if there is a cause.
    fn count(&mut self, cause: Option<Cause>)
        ensures { self.new ≡ counted_for cause self.old }
    {
        if let Some(cause) = cause {
            self.passed_over = self.passed_over.counted(cause);
        }
    }

    /// Returns the selected table, if it is outside the profile.
    fn selected_loose(&self, intake: &Intake) -> Option<&LooseTable>
        ensures { option_copied result ≡ selected_loose self.now intake.now.state.received }
    {
        match intake.state().received().selected() {
            Some(id) => self.loose(id),
            None => None,
        }
    }

    /// Plans the message at the front, if it is an update of a table outside the profile; `bytes` are the unread ones.
    fn plan_loosely(
        &self,
        alloc: Global,
        intake: &Intake,
        bytes: &[u8],
    ) -> Result<Option<Plan>, Fault>
        requires going { intake.now.closed ≡ false }
        requires bytes { bytes.now ≡ intake.now.unread }
        ensures none { result ≡ Ok None → loose_front (selected_loose self.now intake.now.state.received) (frame_at intake.now.unread) ≡ None }
        ensures some { IfOk result (λ found. IfSome found (λ plan. IsPlan (passage_of self.now intake.now) intake.now plan)) }
        ensures stops { IfErr result (λ fault. Reads (Some self.now) intake.now (Err fault) (fronts.stopped intake.now fault) (Some self.now)) }
    {
        let Some(table) = self.selected_loose(intake) else {
            return Ok(None);
        };
        let Ok(Some((frame, rest))) = frame_at(bytes) else {
            return Ok(None);
        };
        let Meaning::Update { numbered, timed } = frame.meaning() else {
            return Ok(None);
        };
        let used = bytes.len() - rest.len();
        let types = table.types.as_slice();
        let update = loose_update_at(
            table.kind,
            table.key_length,
            types,
            numbered,
            timed,
            frame.body,
        );
        match update {
            Ok(update) => plan_loose_update(alloc, intake.state(), update, used),
            Err(breach) => Err(Fault::Breach(breach)),
        }
    }

    /// Plans a message that the strict intake takes.
    fn plan_taken(
        &self,
        alloc: Global,
        intake: &Intake,
        taken: TakenRef<'_>,
        advance: Advance,
    ) -> Result<Option<Plan>, Fault>
        requires looks { Looks intake.now (Ok (Some (taken, advance))) }
        requires strict { loose_front (selected_loose self.now intake.now.state.received) (frame_at intake.now.unread) ≡ None }
        ensures { Plans self.now intake.now result }
    {
        if defines_further(intake.state().received(), &advance.effect) {
            return Err(Fault::Breach(Breach::SizeLimit));
        }
        let taken = taken.to_owned(alloc)?;
        Ok(Some(Plan::Takes(taken, advance)))
    }

    /// Plans an update that the strict intake refuses, since it reads an empty slot.
    fn plan_empty(&self, intake: &Intake) -> Result<Option<Plan>, Fault>
        requires looks { Looks intake.now (Err faults.EmptySlot) }
        requires strict { loose_front (selected_loose self.now intake.now.state.received) (frame_at intake.now.unread) ≡ None }
        ensures { Plans self.now intake.now result }
    {
        let state = intake.state();
        let Ok(Some((message, used))) = front(state.received(), intake.unread()) else {
            unreachable!()
        };
        let MessageRef::Update(update) = message else {
            unreachable!()
        };
        match plan_passed(state, update.number(), Cause::Slot, used) {
            Some(plan) => Ok(Some(plan)),
            None => unreachable!(),
        }
    }

    /// Plans the message at the front, which the strict intake can't read; `bytes` are the unread ones.
    fn plan_unread(
        &self,
        alloc: Global,
        intake: &Intake,
        bytes: &[u8],
        breach: Breach,
    ) -> Result<Option<Plan>, Fault>
        requires bytes { bytes.now ≡ intake.now.unread }
        requires looks { Looks intake.now (Err (faults.Breach breach)) }
        requires strict { loose_front (selected_loose self.now intake.now.state.received) (frame_at intake.now.unread) ≡ None }
        ensures { Plans self.now intake.now result }
    {
        let Ok(Some((frame, rest))) = frame_at(bytes) else {
            return Err(Fault::Breach(breach));
        };
        let used = bytes.len() - rest.len();
        match plan_breach(alloc, intake, frame, breach, used) {
            Ok(Some(plan)) => Ok(Some(plan)),
            Ok(None) => Err(Fault::Breach(breach)),
            Err(fault) => Err(fault),
        }
    }

    /// Plans a message at which the strict intake stops with this fault; `bytes` are the unread ones.
    fn plan_fault(
        &self,
        alloc: Global,
        intake: &Intake,
        bytes: &[u8],
        fault: Fault,
    ) -> Result<Option<Plan>, Fault>
        requires bytes { bytes.now ≡ intake.now.unread }
        requires looks { Looks intake.now (Err fault) }
        requires strict { loose_front (selected_loose self.now intake.now.state.received) (frame_at intake.now.unread) ≡ None }
        ensures { Plans self.now intake.now result }
    {
        match fault {
            Fault::EmptySlot => self.plan_empty(intake),
            Fault::Breach(breach) => self.plan_unread(alloc, intake, bytes, breach),
            Fault::NoNumber => Err(Fault::NoNumber),
            Fault::Memory => Err(Fault::Memory),
            Fault::Closed => Err(Fault::Closed),
        }
    }

    /// Plans the message at the front; returns `None` if it isn't whole yet. Nothing changes yet.
    fn plan(&self, alloc: Global, intake: &Intake) -> Result<Option<Plan>, Fault>
        ensures { Plans self.now intake.now result }
    {
        if intake.is_closed() {
            return Err(Fault::Closed);
        }
        let bytes = intake.unread();
        if let Some(plan) = self.plan_loosely(alloc, intake, bytes)? {
            return Ok(Some(plan));
        }
        match intake.look() {
            Ok(Some((taken, advance))) => self.plan_taken(alloc, intake, taken, advance),
            Ok(None) => Ok(None),
            Err(fault) => self.plan_fault(alloc, intake, bytes, fault),
        }
    }

    /// Moves past a message that the strict intake takes. After `Memory` nothing has changed.
    fn take(&mut self, intake: &mut Intake, advance: Advance) -> Result<(), Memory>
        requires { advance.used ≤ length intake.old.unread }
        ensures taken { OnOk result ((intake.new ≡ fronts.passed intake.old advance) × (self.new ≡ left_after advance.effect intake.old.state.received self.old)) }
        ensures stays { OnErr result ((intake.new ≡ intake.old) × (self.new ≡ self.old)) }
    {
        let replaced = match &advance.effect {
            Effect::Define(table) => Some(replaced_ids(table, intake.state().received())),
            Effect::Nothing | Effect::Select(_) | Effect::Update(_) => None,
        };
        intake.pass(advance)?;
        if let Some(ids) = replaced {
            remove_replaced(&mut self.loose, ids);
        }
        Ok(())
    }

    /// Moves past an update that is passed over. After `Memory` nothing has changed.
    fn pass_over(
        &mut self,
        intake: &mut Intake,
        update: ResolvedUpdate,
        cause: Option<Cause>,
        used: usize,
    ) -> Result<(), Memory>
        requires { used ≤ length intake.old.unread }
        ensures passed { OnOk result ((intake.new ≡ fronts.passed intake.old (record { effect = effects.Update update; used = used })) × (self.new ≡ counted_for cause self.old)) }
        ensures stays { OnErr result ((intake.new ≡ intake.old) × (self.new ≡ self.old)) }
    {
        intake.pass(Advance {
            effect: Effect::Update(update),
            used,
        })?;
        self.count(cause);
        Ok(())
    }

    /// Moves past a definition for which `table` stands in. After `Memory` nothing has changed.
    fn replace(
        &mut self,
        intake: &mut Intake,
        table: TableDef,
        loose: LooseTable,
        cause: Cause,
        used: usize,
    ) -> Result<(), Memory>
        requires { used ≤ length intake.old.unread }
        ensures replaced { OnOk result ((intake.new ≡ fronts.passed intake.old (record { effect = effects.Define table; used = used }))
            × (self.new ≡ record { loose = insert_entry nat_cmp (outlasting table intake.old.state.received.tables self.old.loose) table.id loose; passed_over = counted cause self.old.passed_over })) }
        ensures stays { OnErr result ((intake.new ≡ intake.old) × (self.new ≡ self.old)) }
    {
        let ids = replaced_ids(&table, intake.state().received());
        let before = self.loose.insert(ids.0, loose)?;
        let advance = Advance {
            effect: Effect::Define(table),
            used,
        };
        match intake.pass(advance) {
            Ok(()) => {
                remove_other(&mut self.loose, ids);
                self.passed_over = self.passed_over.counted(cause);
                Ok(())
            }
            Err(refused) => {
                put_back(&mut self.loose, ids.0, before);
                Err(refused)
            }
        }
    }

    /// Does what is planned, and returns what the message gives. After `Memory` nothing has changed.
    fn make(&mut self, intake: &mut Intake, plan: Plan) -> Result<Taken, Memory>
        requires { IsPlan (passage_of self.old intake.old) intake.old plan }
        ensures made { IfOk result (λ taken. Reads (Some self.old) intake.old (Ok (Some taken)) intake.new (Some self.new)) }
        ensures fewer { OnOk result (length intake.new.unread < length intake.old.unread) }
        ensures stays { OnErr result (Reads (Some self.old) intake.old (Err faults.Memory) intake.new (Some self.new)) }
    {
        match plan {
            Plan::Takes(taken, advance) => {
                self.take(intake, advance)?;
                Ok(taken)
            }
            Plan::Counts {
                update,
                cause,
                used,
            } => {
                self.pass_over(intake, update, cause, used)?;
                Ok(Taken::Passed)
            }
            Plan::StandsIn {
                table,
                loose,
                cause,
                used,
            } => {
                self.replace(intake, table, loose, cause, used)?;
                Ok(Taken::Passed)
            }
        }
    }

    /// Returns what the next message gives, or `None` if it isn't whole yet. Looks once at a message that the strict intake
    /// takes, and once more, loosely, at one that it doesn't take.
    pub(crate) fn next(
        &mut self,
        alloc: Global,
        intake: &mut Intake,
    ) -> Result<Option<Taken>, Fault>
        ensures next { Reads (Some self.old) intake.old result intake.new (Some self.new) }
        ensures fewer { IfOk result (λ found. IsSome found → length intake.new.unread < length intake.old.unread) }
    {
        match self.plan(alloc, intake) {
            Ok(Some(plan)) => {
                let taken = self.make(intake, plan)?;
                Ok(Some(taken))
            }
            Ok(None) => Ok(None),
            Err(fault) => {
                intake.stop(fault);
                Err(fault)
            }
        }
    }
}
