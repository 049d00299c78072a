//! Which messages fit the definitions received.

ghost use Rattle.std.specs.Prelude.{◌≡◌, ◌^◌, ◌&&◌, nat_lt, IsTrue};
ghost use Rattle.table_types.specs.Updates.{is_optional_word, is_word};
ghost use Rattle.peers_msg.specs.Fitting.{name_fits, update_fits, IsPlain, has_shape, fits};

use crate::message::{MOST_DATA, Message, UpdateMsg};
use crate::name_field::NameField;
use crate::received::Received;
use crate::sizes::{definition_size, update_size};
use peers_encint::len;
use table_types::{TableDef, is_slot};

/// Returns `true`: every number of 32 bits fits the four bytes on the wire.
fn is_optional_word(number: Option<u32>) -> bool
    ensures { result ≡ is_optional_word number }
{
    match number {
        Some(number) => u64::from(number) < 1 << 32,
        None => true,
    }
}

fn name_fits(table: &TableDef, field: &NameField) -> bool
    ensures { result ≡ name_fits table.now field.now }
{
    match field {
        NameField::NotStored => !table.stores_name(),
        NameField::NoName => table.stores_name(),
        NameField::Held(slot) => table.stores_name() && is_slot(u64::from(*slot)),
        NameField::Written(slot, name) => {
            table.stores_name() && is_slot(u64::from(*slot)) && !name.as_slice().is_empty()
        }
    }
}

impl UpdateMsg {
    /// Returns whether the update fits the table: its key, values and name field have the table's shape and ranges.
    /// Doesn't check the life.
    pub fn fits(&self, table: &TableDef) -> bool
        ensures { result ≡ update_fits table.now self.now }
    {
        is_optional_word(self.number())
            && is_optional_word(self.life())
            && table.row_fits(self.key(), self.values())
            && name_fits(table, self.name())
    }
}

fn is_acknowledgement(table: u64, number: u32) -> bool
    ensures { result ≡ (nat_lt table (2 ^ 64) && is_word number) }
{
    u128::from(table) < 1 << 64 && u64::from(number) < 1 << 32
}

impl Message {
    /// Returns whether the message fits the definitions received: an update fits the selected table, a switch names the
    /// id of a table, and any other message always fits.
    #[tactic(auto, unfolding(crate::specs::Fitting::fits, crate::specs::Spelling::data_of))]
    pub fn fits(&self, received: &Received) -> bool
        ensures exact { result ≡ fits received.now self.now }
        ensures plain { IsPlain self.now → IsTrue result }
    {
        match self {
            Message::Control(_) | Message::Error(_) => true,
            Message::Define(table) => definition_size(table) <= MOST_DATA,
            Message::Switch(id) => received.table(*id).is_some() && len(*id) <= MOST_DATA,
            Message::Ack { table, number } => is_acknowledgement(*table, *number)
                && len(*table) <= 10,
            Message::Update(update) => match received.selected_table() {
                Some(table) => update.fits(table) && update_size(update) <= MOST_DATA,
                None => false,
            },
            Message::Other(other) => other.body().len() <= MOST_DATA,
        }
    }
}
