//! Learners.

ghost use Rattle.std.specs.Prelude.{◌≡◌, ◌≢◌, ◌↔◌, ◌≤◌, [], false, IfOk, IfErr, OnOk, OnErr, IsNone, IfSome, None, Ok, length, option_copied};
ghost use Rattle.std.specs.Map.{keys_of};
ghost use Rattle.std.specs.List.Sorted.{IsStrictlySortedBy};
ghost use Rattle.known_state.specs.Known.{known_of};
ghost use Rattle.known_state.specs.LastNumbers.{AreRising};
ghost use Rattle.learner.specs.Acks.{AreRisingAcks};
ghost use Rattle.learner.specs.Intake.{due_acks};
ghost use Rattle.table_types.specs.Keys.{key_cmp};
ghost use Rattle.learner.specs.Rows.{row_at, rows_at, index_of};
ghost use Rattle.learner.specs.Learning.{unlearned, IsCutOff, IsWaiting, LearnerFeeds};
ghost use Rattle.learner.specs.declared.fault.Fault.TheVariants as faults;
ghost use Rattle.learner.specs.InPlace.{LearnsPiece};

use crate::fault::Fault;
use crate::keeper::Keeper;
use known_state::Known;
use peers_msg::Message;
use std::alloc::Global;
use std::collections::BTreeMap;
use std::marker::Model;
use table_types::{Key, Memory, Moment, Roster, Row};

/// The bytes of the longest message: class and type, the length of its data in three bytes, and the data.
const LONGEST_MESSAGE: usize = 2 + 3 + 16_384;

/// A learner takes the bytes of a stream in any pieces, and keeps the rows of its local tables (HAProxy,
/// doc/peers-v2.0.txt, "Update Messages").
///
/// A table that the sender defines is local if a table of the roster has the same name, kind of keys, key length, data
/// types and periods; the updates of any other table are read and skipped (profile).
#[derive(Drop)]
pub struct Learner {
    alloc: Global,
    keeper: Keeper,
    /// The bytes of an unfinished message; none after a fault. There is room for the longest, so holding them needs no
    /// memory.
    held: Vec<u8>,
}

impl Model for Learner {
    ghost use Rattle.std.specs.Prelude.{◌≡◌, ◌≤◌, false, None, Ok, vec_capacity};
    ghost use Rattle.peers_msg.specs.Integers.{IsBytes};
    ghost use Rattle.peers_msg.specs.Reading.{message_at};
    ghost use Rattle.learner.specs.Learning.{Learning};
    ghost use Rattle.learner.specs.InPlace.{over};

    ghost Value = { Learning };

    ghost view = { λ l. over l.keeper l.held.items };

    ghost invariant = { λ l. (l.keeper.intake.closed ≡ false → message_at l.keeper.intake.state.received l.held.items ≡ Ok None)
        × IsBytes l.held.items
        × (16389 ≤ vec_capacity l.held) };
}

/// Returns copies of `rows` with their keys, in ascending order of key.
fn copies(alloc: Global, rows: &BTreeMap<Key, Row>) -> Result<Vec<(Key, Row)>, Memory>
    ensures rows { IfOk result (λ copies. copies.items ≡ rows.now.entries) }
    ensures rising { IfOk result (λ copies. IsStrictlySortedBy key_cmp (keys_of copies.items)) }
{
    let mut copies = Vec::with_capacity(alloc, rows.len())?;
    for (key, row) in rows.iter() {
        copies.push((key.copy(alloc)?, row.copy(alloc)?))?;
    }
    Ok(copies)
}

impl Learner {
    /// Returns a learner for the roster's tables that has been fed nothing and has no rows.
    pub fn new(alloc: Global, roster: Roster) -> Result<Learner, Memory>
        ensures { IfOk result (λ learner. learner ≡ unlearned roster) }
    {
        Ok(Learner {
            alloc,
            keeper: Keeper::new(alloc, roster)?,
            held: Vec::with_capacity(alloc, LONGEST_MESSAGE)?,
        })
    }

    /// Returns the learner's local tables.
    pub fn roster(&self) -> &Roster
        ensures { result.now ≡ self.now.intake.roster }
    {
        self.keeper.intake().roster()
    }

    /// Returns how many bytes were fed and not read: those of an unfinished message, and none after a fault.
    pub fn waiting(&self) -> usize
        ensures bytes { result ≡ length self.now.intake.unread }
        ensures unfinished { self.now.intake.closed ≡ false → IsWaiting self.now.intake }
    {
        self.held.len()
    }

    /// Takes the next piece of the stream at the moment `now`, and returns how many rows were put.
    ///
    /// * The first bytes of the piece are joined to an unfinished message. The others are read in place, and the bytes
    ///   of the message that they leave unfinished are held.
    /// * `Memory` is returned only for a whole message without a fault that comes before any fault. Holding bytes needs
    ///   no memory.
    /// * After any fault, including `Memory`, the rows, the state and the acknowledgements due are those of the
    ///   messages before it. Every later call returns `Closed`, and no bytes are held.
    pub fn feed(&mut self, piece: &[u8], now: Moment) -> Result<usize, Fault>
        ensures feeds { LearnerFeeds now self.old piece.now result self.new }
        ensures kept { IfErr result (λ fault. fault ≢ faults.Closed → IsCutOff now self.old piece.now self.new) }
        ensures empty { piece.now ≡ [] → self.old.intake.closed ≡ false → (result ≡ Ok 0) × (self.new ≡ self.old) }
    {
        if self.keeper.intake().is_closed() {
            return Err(Fault::Closed);
        }
        match self.learn_piece(piece, now) {
            Ok(count) => Ok(count),
            Err(fault) => {
                self.held.clear();
                Err(fault)
            }
        }
    }

    fn learn_piece(&mut self, piece: &[u8], now: Moment) -> Result<usize, Fault>
        requires { self.old.intake.closed ≡ false }
        ensures { LearnsPiece now self.old piece.now result self.new }
    {
        if self.held.is_empty() {
            self.learn_in_place(piece, now)
        } else {
            self.learn_joined(piece, now)
        }
    }

    /// Takes the whole messages in the piece, and holds the bytes of the unfinished one after them.
    fn learn_in_place(&mut self, piece: &[u8], now: Moment) -> Result<usize, Fault>
        requires { (self.old.intake.closed ≡ false) × (self.old.intake.unread ≡ []) }
        ensures learns { LearnsPiece now self.old piece.now result self.new }
        ensures few { IfOk result (λ count. count ≤ length piece.now) }
    {
        let progress = self.keeper.learn_all(piece, now)?;
        self.held
            .extend_from_slice(&piece[progress.used..])
            .unwrap();
        Ok(progress.rows)
    }

    /// Joins the first bytes of the piece to the unfinished message, and takes the others in place once it is whole.
    fn learn_joined(&mut self, piece: &[u8], now: Moment) -> Result<usize, Fault>
        requires { self.old.intake.closed ≡ false }
        ensures { LearnsPiece now self.old piece.now result self.new }
    {
        let before = self.held.len();
        let joined = piece.len().min(LONGEST_MESSAGE - before);
        self.held.extend_from_slice(&piece[..joined]).unwrap();
        let Some(first) = self.keeper.learn_message(self.held.as_slice(), now)? else {
            return Ok(0);
        };
        self.held.clear();
        let others = self.learn_in_place(&piece[first.used - before..], now)?;
        Ok(first.rows + others)
    }

    /// Returns the acknowledgements that are due: one for each local table with a last number and an update since the
    /// last call, in ascending order of the sender's id. Afterwards none is due. After `Memory` nothing has changed.
    pub fn acks(&mut self) -> Result<Vec<Message>, Memory>
        ensures due { IfOk result (λ acks. acks.items ≡ due_acks self.old.intake) }
        ensures rising { IfOk result (λ acks. AreRisingAcks acks.items) }
        ensures done { OnOk result (self.new ≡ record self.old { intake = record self.old.intake { due = [] } }) }
        ensures stays { OnErr result (self.new ≡ self.old) }
    {
        self.keeper.acks()
    }

    /// Returns the row of `key` in the local table with the id `table`.
    pub fn row(&self, table: u64, key: &Key) -> Option<&Row>
        ensures { option_copied result ≡ row_at key.now (rows_at self.now.intake.roster table self.now.rows) }
    {
        self.keeper.row(table, key)
    }

    /// Returns the rows of the local table with the id `table` by their keys; `None` if the roster lacks it.
    pub fn table(&self, table: u64) -> Option<&BTreeMap<Key, Row>>
        ensures rows { IfSome result (λ rows. rows.now.entries ≡ rows_at self.now.intake.roster table self.now.rows) }
        ensures exactly { IsNone result ↔ (index_of self.now.intake.roster table ≡ None) }
        ensures absent { IsNone result → rows_at self.now.intake.roster table self.now.rows ≡ [] }
    {
        self.keeper.table(table)
    }

    /// Returns copies of the rows of the local table with the id `table`, with their keys, in ascending order of key;
    /// none if the roster lacks it.
    pub fn rows(&self, table: u64) -> Result<Vec<(Key, Row)>, Memory>
        ensures rows { IfOk result (λ rows. rows.items ≡ rows_at self.now.intake.roster table self.now.rows) }
        ensures rising { IfOk result (λ rows. IsStrictlySortedBy key_cmp (keys_of rows.items)) }
    {
        match self.table(table) {
            Some(rows) => copies(self.alloc, rows),
            None => Ok(Vec::new(self.alloc)),
        }
    }

    /// Returns what a teacher of `roster` knows of this learner: the tables of the roster whose id stands for that very
    /// definition are defined, with the learner's last numbers of them; the slots are the learner's, and the selected
    /// table stays selected if it is one of them. All last numbers that the learner holds are in ascending order of id.
    pub fn known(&self, roster: &Roster) -> Result<Known, Memory>
        ensures known { IfOk result (λ known. known ≡ known_of roster.now self.now.intake.state) }
        ensures rising { IfOk result (λ _. AreRising self.now.intake.state.last_numbers) }
    {
        let roster = roster.copy(self.alloc)?;
        Known::of_learner(self.alloc, roster, self.keeper.intake().state())
    }
}
