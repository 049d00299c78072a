//! Messages.

ghost use Rattle.std.specs.Prelude.{◌≡◌, true, ◌↔◌, IfOk, IfSome, IsSome};
ghost use Rattle.peers_msg.specs.Messages.{UpdateFields, OtherFields, is_known_pair, is_other, is_small};

use crate::control::{Control, ErrorKind};
use crate::name_field::NameField;
use std::alloc::Global;
use std::marker::Model;
use table_types::{Items, Key, Memory, ShortList, TableDef, Value};

/// The most bytes that the data of a message may have (profile).
pub(crate) const MOST_DATA: usize = 16_384;

/// An update of a row of the selected table (HAProxy, doc/peers-v2.0.txt, "Update Messages").
///
/// It meets the limits for an update of any table: a key of at most 8,192 bytes and at most 20 values.
#[derive(Debug, Drop)]
pub struct UpdateMsg {
    number: Option<u32>,
    life: Option<u32>,
    key: Key,
    values: ShortList<Value>,
    name: NameField,
}

impl Model for UpdateMsg {
    ghost use Rattle.std.specs.Prelude.{◌≡◌, true};
    ghost use Rattle.peers_msg.specs.Messages.{UpdateFields, is_small};

    ghost Value = { UpdateFields };

    ghost view = { λ u. record { number = u.number; life = u.life; key = u.key; values = u.values; name = u.name } };

    ghost invariant = { λ u. is_small u.key u.values ≡ true };
}

impl UpdateMsg {
    /// Makes an update of its fields.
    ///
    /// * `number`: the sender's number of the update; `None` for an incremental update, whose number is one above the
    /// table's last;
    /// * `life`: the row's remaining life in milliseconds; `None` if not given;
    /// * `key`: at most 8,192 bytes;
    /// * `values`: at most 20, in ascending order of id, without the server's name.
    pub fn new(
        number: Option<u32>,
        life: Option<u32>,
        key: Key,
        values: ShortList<Value>,
        name: NameField,
    ) -> UpdateMsg
        requires { is_small key values ≡ true }
        ensures { result ≡ record { number = number; life = life; key = key; values = values; name = name } }
    {
        UpdateMsg {
            number,
            life,
            key,
            values,
            name,
        }
    }

    /// Returns the sender's number of the update, or `None` if it is one above the table's last.
    pub fn number(&self) -> Option<u32>
        ensures value { result ≡ self.now.number }
        ensures small { is_small self.now.key self.now.values ≡ true }
    {
        self.number
    }

    /// Returns the row's remaining life in milliseconds, or `None` if it isn't given.
    pub fn life(&self) -> Option<u32>
        ensures { result ≡ self.now.life }
    {
        self.life
    }

    /// Returns the row's key.
    pub fn key(&self) -> &Key
        ensures { result.now ≡ self.now.key }
    {
        &self.key
    }

    /// Returns the values, in ascending order of id, without the server's name.
    pub fn values(&self) -> &[Value]
        ensures { result.now ≡ self.now.values }
    {
        self.values.as_slice()
    }

    /// Returns the name field, which carries the server's name.
    pub fn name(&self) -> &NameField
        ensures { result.now ≡ self.now.name }
    {
        &self.name
    }

    /// Splits the update into its key, values and name field.
    pub fn into_parts(self) -> (Key, ShortList<Value>, NameField)
        ensures key { result.0 ≡ self.key }
        ensures values { result.1 ≡ self.values }
        ensures name { result.2 ≡ self.name }
    {
        let UpdateMsg {
            number: _,
            life: _,
            key,
            values,
            name,
        } = self;
        (key, values, name)
    }

    /// Returns an equal copy. Fails if memory runs out.
    pub fn copy(&self, alloc: Global) -> Result<UpdateMsg, Memory>
        ensures { IfOk result (λ copy. copy ≡ self.now) }
    {
        Ok(UpdateMsg {
            number: self.number,
            life: self.life,
            key: self.key.copy(alloc)?,
            values: self.values.copy(alloc)?,
            name: self.name.copy(alloc)?,
        })
    }
}

/// Returns whether a pair of class and type has a meaning of its own.
fn is_known_pair(class: u8, message_type: u8) -> bool
    ensures { result ≡ is_known_pair class message_type }
{
    match class {
        0 => message_type <= 4,
        1 => message_type <= 1,
        10 => 128 <= message_type && message_type <= 134,
        _ => false,
    }
}

/// A message whose pair of class and type has no meaning here. A learner skips it (profile).
///
/// Its body is empty if `message_type` is below 128, and has at most 16,384 bytes.
#[derive(Debug, Drop)]
pub struct Other {
    class: u8,
    message_type: u8,
    body: Items<u8>,
}

impl Model for Other {
    ghost use Rattle.std.specs.Prelude.{◌≡◌, true};
    ghost use Rattle.peers_msg.specs.Messages.{OtherFields, is_other};

    ghost Value = { OtherFields };

    ghost view = { λ o. record { class = o.class; message_type = o.message_type; body = o.body } };

    ghost invariant = { λ o. is_other (record { class = o.class; message_type = o.message_type; body = o.body }) ≡ true };
}

impl Other {
    /// Makes a message of its class, type and data. Returns `None` if the pair has a meaning of its own, if there are
    /// data but the type is below 128, or if there are more than 16,384 bytes of data.
    pub fn new(class: u8, message_type: u8, body: Vec<u8>) -> Option<Other>
        ensures made { IfSome result (λ o. o ≡ record { class = class; message_type = message_type; body = body.items }) }
        ensures exactly { IsSome result ↔ (is_other (record { class = class; message_type = message_type; body = body.items }) ≡ true) }
    {
        let most = if message_type < 128 { 0 } else { MOST_DATA };
        if is_known_pair(class, message_type) || body.len() > most {
            return None;
        }
        Some(Other {
            class,
            message_type,
            body: Items::new(body),
        })
    }

    /// Returns the message's class.
    pub fn class(&self) -> u8
        ensures value { result ≡ self.now.class }
        ensures other { is_other self.now ≡ true }
    {
        self.class
    }

    /// Returns the message's type.
    pub fn message_type(&self) -> u8
        ensures { result ≡ self.now.message_type }
    {
        self.message_type
    }

    /// Returns the message's data.
    pub fn body(&self) -> &[u8]
        ensures value { result.now ≡ self.now.body }
        ensures other { is_other self.now ≡ true }
    {
        self.body.as_slice()
    }

    /// Returns an equal copy. Fails if memory runs out.
    pub fn copy(&self, alloc: Global) -> Result<Other, Memory>
        ensures { IfOk result (λ copy. copy ≡ self.now) }
    {
        Ok(Other {
            class: self.class,
            message_type: self.message_type,
            body: self.body.copy(alloc)?,
        })
    }
}

/// A message of the peers protocol, version 2.1 (HAProxy, doc/peers-v2.0.txt, "Messages").
///
/// On the wire: a class byte and a type byte; after a type of 128 or more also an encoded data length and the data.
#[derive(Debug, Drop)]
pub enum Message {
    /// Class 0. No data.
    Control(Control),
    /// Class 1. No data.
    Error(ErrorKind),
    /// Class 10, type 130. Data: encoded table id, encoded name length, name, encoded key kind, encoded key length,
    /// encoded bitfield of the data types, encoded expire in ms; then for each rate, in ascending order of id, its
    /// encoded id and its encoded period in ms. Also selects the table.
    Define(TableDef),
    /// Class 10, type 131. Data: the encoded id of a defined table, which is now selected.
    Switch(u64),
    /// Class 10, type 132. Data: the encoded id that the sender of the updates gave the table, and the number of the
    /// last update received, in 4 bytes.
    Ack {
        /// The id that the sender of the updates gave the table.
        table: u64,
        /// The number of the last update received.
        number: u32,
    },
    /// Class 10, type 133: number and remaining life in 4 bytes each, key, values, name field. Type 134 has no number,
    /// type 128 no life, type 129 neither.
    Update(UpdateMsg),
    /// Any other class and type.
    Other(Other),
}

impl Message {
    /// Returns an equal copy. Fails if memory runs out.
    pub fn copy(&self, alloc: Global) -> Result<Message, Memory>
        ensures { IfOk result (λ copy. copy ≡ self.now) }
    {
        Ok(match self {
            Message::Control(control) => Message::Control(*control),
            Message::Error(kind) => Message::Error(*kind),
            Message::Define(table) => Message::Define(table.copy(alloc)?),
            Message::Switch(id) => Message::Switch(*id),
            Message::Ack { table, number } => Message::Ack {
                table: *table,
                number: *number,
            },
            Message::Update(update) => Message::Update(update.copy(alloc)?),
            Message::Other(other) => Message::Other(other.copy(alloc)?),
        })
    }
}
