//! Updates, borrowed.

ghost use Rattle.std.specs.Prelude.{◌≡◌, true, IfOk};
ghost use Rattle.peers_msg.specs.Borrowed.{owned_key, owned_name, is_named};
ghost use Rattle.peers_msg.specs.Messages.{is_small};

use crate::borrowed::key_ref::KeyRef;
use crate::borrowed::values_ref::ValuesRef;
use crate::message::UpdateMsg;
use crate::name_field_ref::NameFieldRef;
use std::alloc::Global;
use std::marker::Model;
use table_types::Memory;

/// An update of a row of the selected table, borrowed from the bytes of the message and from the table's definition
/// (HAProxy, doc/peers-v2.0.txt, "Update Messages").
#[derive(Debug, Drop)]
pub struct UpdateRef<'a> {
    number: Option<u32>,
    life: Option<u32>,
    key: KeyRef<'a>,
    values: ValuesRef<'a>,
    name: NameFieldRef<'a>,
}

impl<'a> Model for UpdateRef<'a> {
    ghost use Rattle.std.specs.Prelude.{◌≡◌, true};
    ghost use Rattle.peers_msg.specs.Borrowed.{owned_key, owned_name, is_named};
    ghost use Rattle.peers_msg.specs.Messages.{UpdateFields, is_small};

    ghost Value = { UpdateFields };

    ghost view = { λ u. record { number = u.number; life = u.life; key = owned_key u.key; values = u.values; name = owned_name u.name } };

    ghost invariant = { λ u. (is_small (owned_key u.key) u.values ≡ true) × (is_named (owned_name u.name) ≡ true) };
}

impl<'a> UpdateRef<'a> {
    /// Makes an update of its fields.
    #[inline(always)]
    pub(crate) fn new(
        number: Option<u32>,
        life: Option<u32>,
        key: KeyRef<'a>,
        values: ValuesRef<'a>,
        name: NameFieldRef<'a>,
    ) -> UpdateRef<'a>
        requires small { is_small (owned_key key) values ≡ true }
        requires named { is_named (owned_name name) ≡ true }
        ensures { result ≡ record { number = number; life = life; key = owned_key key.entry; values = values.entry; name = owned_name name.entry } }
    {
        UpdateRef {
            number,
            life,
            key,
            values,
            name,
        }
    }

    /// Returns the sender's number of the update, or `None` if it is one above the table's last.
    pub fn number(&self) -> Option<u32>
        ensures value { result ≡ self.now.number }
        ensures small { is_small self.now.key self.now.values ≡ true }
    {
        self.number
    }

    /// Returns the row's remaining life in milliseconds, or `None` if it isn't given.
    pub fn life(&self) -> Option<u32>
        ensures { result ≡ self.now.life }
    {
        self.life
    }

    /// Returns the row's key.
    pub fn key(&self) -> KeyRef<'a>
        ensures { owned_key result ≡ self.now.key }
    {
        self.key
    }

    /// Returns the values, in ascending order of id, without the server's name.
    pub fn values(&self) -> ValuesRef<'a>
        ensures { result ≡ self.now.values }
    {
        self.values.again()
    }

    /// Returns the name field, which carries the server's name.
    pub fn name(&self) -> NameFieldRef<'a>
        ensures value { owned_name result ≡ self.now.name }
        ensures named { is_named (owned_name result) ≡ true }
    {
        self.name
    }

    /// Returns an equal owned update. Allocates for a key of a string or bytes, for values and for a written name.
    /// Fails if memory runs out.
    pub fn to_owned(&self, alloc: Global) -> Result<UpdateMsg, Memory>
        ensures { IfOk result (λ update. update ≡ self.now) }
    {
        let key = self.key.to_owned(alloc)?;
        let values = self.values.to_owned(alloc)?;
        let name = self.name.to_owned(alloc)?;
        Ok(UpdateMsg::new(self.number, self.life, key, values, name))
    }
}
