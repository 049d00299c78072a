//! Owned copies of borrowed name fields.

ghost use Rattle.std.specs.Prelude.{◌≡◌, true, IfOk};
ghost use Rattle.peers_msg.specs.Borrowed.{owned_name, is_named};

use crate::name_field::NameField;
use crate::name_field_ref::NameFieldRef;
use std::alloc::Global;
use table_types::{Memory, Name};

impl<'a> NameFieldRef<'a> {
    /// Returns an equal owned name field. Allocates only for a written name, and fails if memory runs out. A written
    /// name must have 1 to 255 bytes without NUL, as in every update read.
    pub fn to_owned(self, alloc: Global) -> Result<NameField, Memory>
        requires { is_named (owned_name self) ≡ true }
        ensures { IfOk result (λ field. field ≡ owned_name self.entry) }
    {
        match self {
            NameFieldRef::NotStored => Ok(NameField::NotStored),
            NameFieldRef::NoName => Ok(NameField::NoName),
            NameFieldRef::Held(slot) => Ok(NameField::Held(slot)),
            NameFieldRef::Written(slot, name) => match Name::new(Vec::from_slice(alloc, name)?) {
                Some(name) => Ok(NameField::Written(slot, name)),
                None => unreachable!(),
            },
        }
    }
}
