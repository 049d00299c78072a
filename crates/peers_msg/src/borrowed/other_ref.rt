//! Messages that have no meaning here, borrowed.

ghost use Rattle.std.specs.Prelude.{◌≡◌, true, IfOk};
ghost use Rattle.peers_msg.specs.Messages.{is_other};

use crate::message::Other;
use std::alloc::Global;
use std::marker::Model;
use table_types::Memory;

/// A message whose pair of class and type has no meaning here, with its data borrowed from the received bytes.
#[derive(Debug, Drop)]
pub struct OtherRef<'a> {
    class: u8,
    message_type: u8,
    body: &'a [u8],
}

impl<'a> Model for OtherRef<'a> {
    ghost use Rattle.std.specs.Prelude.{◌≡◌, true};
    ghost use Rattle.peers_msg.specs.Messages.{OtherFields, is_other};

    ghost Value = { OtherFields };

    ghost view = { λ o. record { class = o.class; message_type = o.message_type; body = o.body.now } };

    ghost invariant = { λ o. is_other (record { class = o.class; message_type = o.message_type; body = o.body.now }) ≡ true };
}

impl<'a> OtherRef<'a> {
    /// Makes a message of its class, type and data.
    pub(crate) fn new(class: u8, message_type: u8, body: &'a [u8]) -> OtherRef<'a>
        requires { is_other (record { class = class; message_type = message_type; body = body.now }) ≡ true }
        ensures { result ≡ record { class = class; message_type = message_type; body = body.now } }
    {
        OtherRef {
            class,
            message_type,
            body,
        }
    }

    /// Returns the message's class.
    pub fn class(&self) -> u8
        ensures value { result ≡ self.now.class }
        ensures other { is_other self.now ≡ true }
    {
        self.class
    }

    /// Returns the message's type.
    pub fn message_type(&self) -> u8
        ensures { result ≡ self.now.message_type }
    {
        self.message_type
    }

    /// Returns the message's data.
    pub fn body(&self) -> &'a [u8]
        ensures { result.now ≡ self.now.body }
    {
        self.body
    }

    /// Returns an equal owned message. Fails if memory runs out.
    pub fn to_owned(&self, alloc: Global) -> Result<Other, Memory>
        ensures { IfOk result (λ other. other ≡ self.now) }
    {
        match Other::new(
            self.class,
            self.message_type,
            Vec::from_slice(alloc, self.body)?,
        ) {
            Some(other) => Ok(other),
            None => unreachable!(),
        }
    }
}
