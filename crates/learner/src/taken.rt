//! What a message gives to the keeper of the rows of local tables.

ghost use Rattle.std.specs.Prelude.{◌≡◌, true, IfOk, IfSome, length, option_map};
ghost use Rattle.std.specs.Option.{option_to_list};
ghost use Rattle.table_types.specs.Names.{is_name};
ghost use Rattle.table_types.specs.declared.update.Update.{Update};
ghost use Rattle.peers_msg.specs.Borrowed.{owned_key};
ghost use Rattle.known_state.specs.State.{resolved};
ghost use Rattle.learner.specs.Intake.{rows_of};
ghost use Rattle.learner.specs.Front.{owned};

use peers_msg::{Control, ErrorKind, KeyRef, UpdateRef, ValuesRef};
use std::alloc::Global;
use std::marker::Model;
use table_types::{Memory, Name, Update};

/// What a message gives to the keeper of the rows of a roster's tables.
#[derive(Debug, Drop)]
pub enum Taken {
    /// An update of a local table, under the local table's id, with its number and its name resolved.
    Row(Update),
    /// A definition, a switch, an update of another table, or a message that means nothing here.
    Passed,
    /// A control message.
    Said(Control),
    /// An error message.
    Failed(ErrorKind),
    /// An acknowledgement.
    Acked {
        /// The id that the sender of the updates gave the table.
        table: u64,
        /// The number of the last update that the acknowledgement's sender took.
        number: u32,
    },
}

impl Taken {
    /// Returns the update of a local table, if the message gave one.
    pub fn row(self) -> Option<Update>
        ensures { option_to_list result ≡ rows_of self }
    {
        match self {
            Taken::Row(update) => Some(update),
            Taken::Passed
            | Taken::Said(_)
            | Taken::Failed(_)
            | Taken::Acked {
                table: _,
                number: _,
            } => None,
        }
    }
}

/// An update of a local table, borrowed from the bytes of its message, with its number and its name resolved.
#[derive(Debug, Drop)]
pub struct LocalUpdateRef<'a> {
    table: u64,
    number: u32,
    update: UpdateRef<'a>,
    name: Option<&'a [u8]>,
}

impl<'a> Model for LocalUpdateRef<'a> {
    ghost use Rattle.std.specs.Prelude.{◌≡◌, true, IfSome, option_map};
    ghost use Rattle.table_types.specs.Names.{is_name};
    ghost use Rattle.table_types.specs.declared.update.Update.{Update};
    ghost use Rattle.known_state.specs.State.{resolved};

    ghost Value = { Update };

    ghost view = { λ u. resolved u.update u.table u.number (option_map (λ name. name.now) u.name) };

    ghost invariant = { λ u. IfSome u.name (λ name. is_name name.now ≡ true) };
}

/// Returns a copy of the name, if there is one.
fn named(alloc: Global, name: Option<&[u8]>) -> Result<Option<Name>, Memory>
    requires { IfSome name (λ name. is_name name.now ≡ true) }
    ensures { IfOk result (λ copy. copy ≡ option_map (λ name. name.now) name.entry) }
{
    match name {
        Some(name) => Ok(Some(Name::from_slice(alloc, name)?)),
        None => Ok(None),
    }
}

impl<'a> LocalUpdateRef<'a> {
    /// Returns the update of the local table with the id `table`, with `number` and `name`.
    pub(crate) fn new(
        table: u64,
        number: u32,
        update: UpdateRef<'a>,
        name: Option<&'a [u8]>,
    ) -> LocalUpdateRef<'a>
        requires { IfSome name (λ name. is_name name.now ≡ true) }
        ensures { result ≡ resolved update.entry table number (option_map (λ name. name.now) name.entry) }
    {
        LocalUpdateRef {
            table,
            number,
            update,
            name,
        }
    }

    /// Returns the local table's id.
    pub fn table(&self) -> u64
        ensures { result ≡ self.now.table }
    {
        self.table
    }

    /// Returns the update's number.
    pub fn number(&self) -> u32
        ensures { result ≡ self.now.number }
    {
        self.number
    }

    /// Returns the remaining life of the row in milliseconds; `None` if the update has none.
    pub fn life(&self) -> Option<u32>
        ensures { result ≡ self.now.life }
    {
        self.update.life()
    }

    /// Returns the row's key.
    pub fn key(&self) -> KeyRef<'a>
        ensures { owned_key result ≡ self.now.key }
    {
        self.update.key()
    }

    /// Returns the values in ascending order of id, without the server's name.
    pub fn values(&self) -> ValuesRef<'a>
        ensures { result ≡ self.now.values }
    {
        self.update.values()
    }

    /// Returns a copy of the server's name, if the row has one.
    pub fn name(&self, alloc: Global) -> Result<Option<Name>, Memory>
        ensures { IfOk result (λ name. name ≡ self.now.name) }
    {
        named(alloc, self.name)
    }

    /// Returns an equal update that owns its data.
    pub fn to_owned(&self, alloc: Global) -> Result<Update, Memory>
        ensures { IfOk result (λ update. update ≡ self.now) }
    {
        Ok(Update {
            table: self.table,
            number: self.number,
            life: self.life(),
            key: self.key().to_owned(alloc)?,
            values: self.values().to_owned(alloc)?,
            name: self.name(alloc)?,
        })
    }
}

/// The same as `Taken`, with an update borrowed from the bytes of its message.
#[derive(Debug, Drop)]
pub enum TakenRef<'a> {
    /// An update of a local table.
    Row(LocalUpdateRef<'a>),
    /// A definition, a switch, an update of another table, or a message that means nothing here.
    Passed,
    /// A control message.
    Said(Control),
    /// An error message.
    Failed(ErrorKind),
    /// An acknowledgement.
    Acked {
        /// The id that the sender of the updates gave the table.
        table: u64,
        /// The number of the last update that the acknowledgement's sender took.
        number: u32,
    },
}

impl<'a> TakenRef<'a> {
    /// Returns how many rows the message gives: one or none.
    pub fn rows(&self) -> usize
        ensures { result ≡ length (rows_of (owned self.now)) }
    {
        match self {
            TakenRef::Row(_) => 1,
            TakenRef::Passed
            | TakenRef::Said(_)
            | TakenRef::Failed(_)
            | TakenRef::Acked {
                table: _,
                number: _,
            } => 0,
        }
    }

    /// Returns the same with an owned update.
    pub fn to_owned(&self, alloc: Global) -> Result<Taken, Memory>
        ensures { IfOk result (λ taken. taken ≡ owned self.now) }
    {
        Ok(match self {
            TakenRef::Row(update) => Taken::Row(update.to_owned(alloc)?),
            TakenRef::Passed => Taken::Passed,
            TakenRef::Said(control) => Taken::Said(*control),
            TakenRef::Failed(error) => Taken::Failed(*error),
            TakenRef::Acked { table, number } => Taken::Acked {
                table: *table,
                number: *number,
            },
        })
    }
}
