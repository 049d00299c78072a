//! Messages, borrowed.

ghost use Rattle.std.specs.Prelude.{◌≡◌, IfOk};
ghost use Rattle.peers_msg.specs.BorrowedMessages.{owned_message};

use crate::borrowed::definition_ref::DefinitionRef;
use crate::borrowed::other_ref::OtherRef;
use crate::borrowed::update_ref::UpdateRef;
use crate::control::{Control, ErrorKind};
use crate::message::Message;
use std::alloc::Global;
use table_types::Memory;

/// A message of the peers protocol, version 2.1, borrowed from the received bytes (HAProxy, doc/peers-v2.0.txt,
/// "Messages"). It corresponds to a `Message`, without memory of its own.
#[derive(Debug, Drop)]
pub enum MessageRef<'a> {
    /// Class 0.
    Control(Control),
    /// Class 1.
    Error(ErrorKind),
    /// Class 10, type 130.
    Define(DefinitionRef<'a>),
    /// Class 10, type 131: the id of a defined table, which is now selected.
    Switch(u64),
    /// Class 10, type 132.
    Ack {
        /// The id that the sender of the updates gave the table.
        table: u64,
        /// The number of the last update received.
        number: u32,
    },
    /// Class 10, types 128, 129, 133 and 134.
    Update(UpdateRef<'a>),
    /// Any other class and type.
    Other(OtherRef<'a>),
}

impl<'a> MessageRef<'a> {
    /// Returns an equal owned message. Fails if memory runs out.
    pub fn to_owned(&self, alloc: Global) -> Result<Message, Memory>
        ensures { IfOk result (λ message. message ≡ owned_message self.now) }
    {
        Ok(match self {
            MessageRef::Control(control) => Message::Control(*control),
            MessageRef::Error(error) => Message::Error(*error),
            MessageRef::Define(table) => Message::Define(table.to_owned(alloc)?),
            MessageRef::Switch(id) => Message::Switch(*id),
            MessageRef::Ack { table, number } => Message::Ack {
                table: *table,
                number: *number,
            },
            MessageRef::Update(update) => Message::Update(update.to_owned(alloc)?),
            MessageRef::Other(other) => Message::Other(other.to_owned(alloc)?),
        })
    }
}
