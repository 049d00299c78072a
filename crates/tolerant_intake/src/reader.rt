//! Readers.

ghost use Rattle.std.specs.Prelude.{◌≡◌, ◌<◌, [], IfOk, IsSome, OnOk, OnErr, length, option_copied};
ghost use Rattle.learner.specs.Acks.{AreRisingAcks};
ghost use Rattle.learner.specs.Intake.{IntakeFeeds, due_acks};
ghost use Rattle.tolerant_intake.specs.Reading.{Reads, begun, loose_of, passed_by, tolerating};

use crate::loose_table::LooseTable;
use crate::passed_over::PassedOver;
use crate::tolerance::Tolerance;
use known_state::State;
use learner::{Fault, Intake, Taken};
use peers_msg::{Message, Received};
use std::alloc::Global;
use std::marker::Model;
use table_types::{Memory, Roster};

/// A reader takes the messages of a stream that arrives in pieces, cut anywhere (HAProxy, doc/peers-v2.0.txt, "Stick Table
/// Messages"). A strict one is an intake. A tolerant one passes over some messages at which an intake stops (profile):
///
/// * an update that reads its name from an empty slot, or that has a value out of its range and writes no name: its number
///   becomes its table's last, and its table is due;
/// * a definition outside the profile: another one stands in for it, which is no local table. Of its updates the number and
///   the name that they write are taken, and nothing else.
///
/// A tolerant reader stops with `SizeLimit` at a definition of a further id, once 1,024 ids stand for tables.
#[derive(Drop)]
pub struct Reader {
    alloc: Global,
    intake: Intake,
    /// `None` in a strict reader.
    tolerance: Option<Tolerance>,
}

impl Model for Reader {
    ghost use Rattle.tolerant_intake.specs.Reading.{Reading};

    ghost Value = { Reading };

    ghost view = { λ r. record { intake = r.intake; tolerance = r.tolerance } };
}

impl Reader {
    /// Returns a strict reader for a node that shares the roster's tables, which has been fed nothing. Doesn't allocate.
    pub fn new(alloc: Global, roster: Roster) -> Reader
        ensures { result ≡ begun roster }
    {
        Reader {
            alloc,
            intake: Intake::new(alloc, roster),
            tolerance: None,
        }
    }

    /// Makes the reader tolerant. Doesn't allocate.
    pub fn tolerate(self) -> Reader
        ensures { result ≡ tolerating self }
    {
        Reader {
            alloc: self.alloc,
            intake: self.intake,
            tolerance: Some(Tolerance::new(self.alloc)),
        }
    }

    /// Returns the local tables.
    pub fn roster(&self) -> &Roster
        ensures { result.now ≡ self.now.intake.roster }
    {
        self.intake.roster()
    }

    /// Returns the state after the messages read.
    pub fn state(&self) -> &State
        ensures { result.now ≡ self.now.intake.state }
    {
        self.intake.state()
    }

    /// Returns the definitions received. One outside the profile has another in its place, with its id and its name.
    pub fn received(&self) -> &Received
        ensures { result.now ≡ self.now.intake.state.received }
    {
        self.intake.state().received()
    }

    /// Returns what was kept of the table with the id `id`, if it is outside the profile.
    pub fn loose(&self, id: u64) -> Option<&LooseTable>
        ensures { option_copied result ≡ loose_of self.now.tolerance id }
    {
        match &self.tolerance {
            Some(tolerance) => tolerance.loose(id),
            None => None,
        }
    }

    /// Returns how often something was passed over, for each cause.
    pub fn passed_over(&self) -> PassedOver
        ensures { result ≡ passed_by self.now.tolerance }
    {
        match &self.tolerance {
            Some(tolerance) => tolerance.passed_over(),
            None => PassedOver::none(),
        }
    }

    /// Takes the next piece of the stream, and holds all of it. Returns `Closed` after a fault. An empty piece needs no
    /// memory; after `Memory` nothing has changed.
    pub fn feed(&mut self, piece: &[u8]) -> Result<(), Fault>
        ensures feeds { IntakeFeeds self.old.intake piece.now result self.new.intake }
        ensures stays { self.new.tolerance ≡ self.old.tolerance }
    {
        self.intake.feed(piece)
    }

    /// Returns what the next message gives, or `None` if it isn't whole yet; a message that is passed over gives `Passed`.
    /// Returns `Closed` after a fault. After `Memory` nothing has changed.
    pub fn next(&mut self) -> Result<Option<Taken>, Fault>
        ensures next { Reads self.old.tolerance self.old.intake result self.new.intake self.new.tolerance }
        ensures fewer { IfOk result (λ found. IsSome found → length self.new.intake.unread < length self.old.intake.unread) }
    {
        match &mut self.tolerance {
            Some(tolerance) => tolerance.next(self.alloc, &mut self.intake),
            None => self.intake.next(),
        }
    }

    /// Returns the acknowledgements that are due: one for each local table with a last number and an update since the last
    /// call, in ascending order of the sender's id. Afterwards none is due. After `Memory` nothing has changed.
    pub fn acks(&mut self) -> Result<Vec<Message>, Memory>
        ensures due { IfOk result (λ acks. acks.items ≡ due_acks self.old.intake) }
        ensures rising { IfOk result (λ acks. AreRisingAcks acks.items) }
        ensures done { OnOk result (self.new ≡ record self.old { intake = record self.old.intake { due = [] } }) }
        ensures stays { OnErr result (self.new ≡ self.old) }
    {
        self.intake.acks()
    }
}
