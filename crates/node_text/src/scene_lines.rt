//! The lines of a scene, by their first word.
ghost use Rattle.std.specs.Prelude.{◌≡◌, ◌-◌, ◌^◌, ℕ, Some, true, Contains, IfOk, IfSome, OnErr};
ghost use Rattle.table_types.specs.SlotIds.{slot_count, is_slot};
ghost use Rattle.node_text.specs.Numbers.{from_one, number_of};

use crate::bytes::hexadecimal;
use crate::error::LineError;
use crate::limits::{push_within, set_once};
use crate::names::name;
use crate::numbers::{moment, number, number_from_one, number32};
use crate::scenes::Scene;
use crate::tables::{are_alike, table_of};
use crate::updates::update_of;
use std::alloc::Global;
use table_types::{Batch, Roster, SLOT_COUNT, TableDef};

impl Scene {
    /// Reads a line into the scene, from its first word and those after it.
    pub(crate) fn read_words(
        &mut self,
        alloc: Global,
        kind: &[u8],
        words: &[&[u8]],
    ) -> Result<(), LineError> {
        if kind == b"table".as_slice() {
            return self.read_table(alloc, words);
        }
        self.tables_ended = true;
        match kind {
            b"define" => self.read_define(words),
            b"select" => self.read_select(words),
            b"last" => self.read_last(words),
            b"slot" => self.read_slot(alloc, words),
            b"update" => self.read_update(alloc, words),
            b"moment" => self.read_moment(words),
            b"stream" => self.read_stream(alloc, words),
            b"prices" => self.read_prices(alloc, words),
            _ => Err(LineError::Refused),
        }
    }

    /// Reads a line `table`, which must come before all lines of other kinds.
    fn read_table(&mut self, alloc: Global, words: &[&[u8]]) -> Result<(), LineError> {
        if self.tables_ended {
            return Err(LineError::Refused);
        }
        let table = table_of(alloc, words)?;
        for other in &self.tables {
            if are_alike(&table, other) {
                return Err(LineError::Refused);
            }
        }
        push_within(&mut self.tables, Roster::MOST, table)
    }

    /// Reads a line `define ID`.
    fn read_define(&mut self, words: &[&[u8]]) -> Result<(), LineError> {
        let [id] = words else {
            return Err(LineError::Refused);
        };
        let id = self.table(id)?.id();
        if self.defined.contains(&id) {
            return Err(LineError::Refused);
        }
        self.defined.push(id)?;
        Ok(())
    }

    /// Reads a line `select ID`.
    fn read_select(&mut self, words: &[&[u8]]) -> Result<(), LineError> {
        let [id] = words else {
            return Err(LineError::Refused);
        };
        let id = self.defined_id(id)?;
        set_once(&mut self.selected, id)
    }

    /// Reads a line `last ID NUMBER`.
    fn read_last(&mut self, words: &[&[u8]]) -> Result<(), LineError> {
        let [id, last] = words else {
            return Err(LineError::Refused);
        };
        let id = self.defined_id(id)?;
        let last = number32(last).ok_or(LineError::Refused)?;
        for (other, _) in &self.last {
            if *other == id {
                return Err(LineError::Refused);
            }
        }
        self.last.push((id, last))?;
        Ok(())
    }

    /// Reads a line `slot SLOT NAME`.
    fn read_slot(&mut self, alloc: Global, words: &[&[u8]]) -> Result<(), LineError> {
        let [id, word] = words else {
            return Err(LineError::Refused);
        };
        let id = slot(id).ok_or(LineError::Refused)?;
        match self.slots.write(id, name(alloc, word)?) {
            None => Ok(()),
            Some(_) => Err(LineError::Refused),
        }
    }

    /// Reads a line `update`.
    fn read_update(&mut self, alloc: Global, words: &[&[u8]]) -> Result<(), LineError> {
        let [id, words @ ..] = words else {
            return Err(LineError::Refused);
        };
        let update = update_of(alloc, self.table(id)?, words)?;
        push_within(&mut self.updates, Batch::MOST, update)
    }

    /// Reads a line `moment MILLISECONDS`.
    fn read_moment(&mut self, words: &[&[u8]]) -> Result<(), LineError> {
        let [word] = words else {
            return Err(LineError::Refused);
        };
        let moment = moment(word).ok_or(LineError::Refused)?;
        set_once(&mut self.moment, moment)
    }

    /// Reads a line `stream HEXADECIMAL`.
    fn read_stream(&mut self, alloc: Global, words: &[&[u8]]) -> Result<(), LineError> {
        let [piece] = words else {
            return Err(LineError::Refused);
        };
        let piece = hexadecimal(alloc, piece)?.ok_or(LineError::Refused)?;
        self.stream.extend_from_slice(piece.as_slice())?;
        Ok(())
    }

    /// Reads a line `prices PRICES..`.
    fn read_prices(&mut self, alloc: Global, words: &[&[u8]]) -> Result<(), LineError> {
        let mut prices = Vec::new(alloc);
        for word in words {
            prices.push(number(word, u64::MAX).ok_or(LineError::Refused)?)?;
        }
        set_once(&mut self.prices, prices)
    }

    /// Returns the table whose id `word` writes.
    fn table(&self, word: &[u8]) -> Result<&TableDef, LineError> {
        let id = number(word, u64::MAX).ok_or(LineError::Refused)?;
        for table in &self.tables {
            if table.id() == id {
                return Ok(table);
            }
        }
        Err(LineError::Refused)
    }

    /// Reads the id of a defined table.
    fn defined_id(&self, word: &[u8]) -> Result<u64, LineError>
        ensures defined { IfOk result (λ id. Contains self.now.defined.items id) }
        ensures written { IfOk result (λ id. number_of word.now (2 ^ 64 - 1) ≡ Some id) }
        ensures refused { OnErr result ((id : ℕ) → number_of word.now (2 ^ 64 - 1) ≡ Some id →
            Contains self.now.defined.items id → ⊥) }
    {
        let id = number(word, u64::MAX).ok_or(LineError::Refused)?;
        if self.defined.contains(&id) {
            Ok(id)
        } else {
            Err(LineError::Refused)
        }
    }
}

/// Reads the id of a dictionary slot: 1 to 128.
fn slot(word: &[u8]) -> Option<u8>
    ensures exactly { result ≡ from_one (number_of word.now slot_count) }
    ensures slot { IfSome result (λ id. is_slot id ≡ true) }
{
    Some(number_from_one(word, SLOT_COUNT as u32)? as u8)
}
