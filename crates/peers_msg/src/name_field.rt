//! The name field of an update, which carries a server's name through the dictionary.

ghost use Rattle.std.specs.Prelude.{◌≡◌, true, IfOk};
ghost use Rattle.peers_msg.specs.Borrowed.{owned_name, is_named};

use crate::name_field_ref::NameFieldRef;
use std::alloc::Global;
use table_types::{Memory, Name};

/// The name field of an update. The dictionary's slots, 1 to 128, belong to one direction of a session, whose tables
/// share them.
///
/// On the wire: an encoded length, 0 for no name; within that length an encoded slot, and, if the slot is written, an
/// encoded name length and the name.
#[derive(Debug, Drop)]
pub enum NameField {
    /// The table stores no server name: no bytes.
    NotStored,
    /// The row has no name: a length of 0.
    NoName,
    /// The name that this slot holds.
    Held(u8),
    /// The name, which is also written to this slot.
    Written(u8, Name),
}

impl NameField {
    /// Borrows the field.
    pub fn lend(&self) -> NameFieldRef<'_>
        ensures lent { owned_name result ≡ self.now }
        ensures named { is_named self.now ≡ true }
    {
        match self {
            NameField::NotStored => NameFieldRef::NotStored,
            NameField::NoName => NameFieldRef::NoName,
            NameField::Held(slot) => NameFieldRef::Held(*slot),
            NameField::Written(slot, name) => NameFieldRef::Written(*slot, name.as_slice()),
        }
    }

    /// Returns an equal copy. Fails if memory runs out.
    pub fn copy(&self, alloc: Global) -> Result<NameField, Memory>
        ensures { IfOk result (λ copy. copy ≡ self.now) }
    {
        Ok(match self {
            NameField::NotStored => NameField::NotStored,
            NameField::NoName => NameField::NoName,
            NameField::Held(slot) => NameField::Held(*slot),
            NameField::Written(slot, name) => NameField::Written(*slot, name.copy(alloc)?),
        })
    }
}
