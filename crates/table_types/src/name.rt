//! Names of tables, servers and peers.

ghost use Rattle.std.specs.Prelude.{◌≡◌, true, ◌↔◌, IsSome, IfSome, IfOk, IsTrue};
ghost use Rattle.table_types.specs.Names.{is_name};

use crate::items::Items;
use crate::memory::Memory;
use std::alloc::Global;
use std::marker::Model;

/// A name of 1 to 255 bytes, none of them NUL (the bounds are the profile's choices).
#[derive(Debug, Drop, PartialEq, Eq, PartialOrd, Ord)]
pub struct Name {
    bytes: Items<u8>,
}

impl Model for Name {
    ghost use Rattle.std.specs.Prelude.{List, ℕ, ◌≡◌, true};
    ghost use Rattle.table_types.specs.Names.{is_name};

    ghost Value = { List ℕ };

    ghost view = { λ a. a.bytes };

    ghost invariant = { λ a. is_name a.bytes ≡ true };

    ghost inverse = { λ bytes. record { bytes = bytes } };
}

/// Returns whether the bytes are a name: 1 to 255 of them, none NUL.
pub fn is_name(bytes: &[u8]) -> bool
    ensures { result ≡ is_name bytes.now }
{
    !bytes.is_empty() && bytes.len() <= 255 && !bytes.contains(&0)
}

impl Name {
    /// Makes a name of the bytes, or returns `None` if they aren't one.
    pub fn new(bytes: Vec<u8>) -> Option<Name>
        ensures named { IfSome result (λ name. name ≡ bytes.items) }
        ensures exactly { IsSome result ↔ (is_name bytes.items ≡ true) }
    {
        if is_name(bytes.as_slice()) {
            Some(Name {
                bytes: Items::new(bytes),
            })
        } else {
            None
        }
    }

    /// Makes a name of bytes that are one. Fails if memory runs out.
    pub fn from_slice(alloc: Global, bytes: &[u8]) -> Result<Name, Memory>
        requires { is_name bytes.now ≡ true }
        ensures { IfOk result (λ name. name ≡ bytes.now) }
    {
        match Name::new(Vec::from_slice(alloc, bytes)?) {
            Some(name) => Ok(name),
            None => unreachable!(),
        }
    }

    /// Returns the name's bytes.
    pub fn as_slice(&self) -> &[u8]
        ensures bytes { result.now ≡ self.now }
        ensures named { is_name self.now ≡ true }
    {
        self.bytes.as_slice()
    }

    /// Returns whether both are the same name.
    pub fn is_same(&self, other: &Name) -> bool
        ensures { IsTrue result ↔ (self.now ≡ other.now) }
    {
        self == other
    }

    /// Returns whether both are the same name, or both are `None`.
    pub fn are_same(one: &Option<Name>, other: &Option<Name>) -> bool
        ensures { IsTrue result ↔ (one.now ≡ other.now) }
    {
        match (one, other) {
            (Some(one), Some(other)) => one.is_same(other),
            (None, None) => true,
            _ => false,
        }
    }

    /// Returns an equal copy. Fails if memory runs out.
    pub fn copy(&self, alloc: Global) -> Result<Name, Memory>
        ensures { IfOk result (λ copy. copy ≡ self.now) }
    {
        Ok(Name {
            bytes: self.bytes.copy(alloc)?,
        })
    }

    /// Returns an equal copy of the name, if there is one. Fails if memory runs out.
    pub fn copy_of(alloc: Global, name: &Option<Name>) -> Result<Option<Name>, Memory>
        ensures { IfOk result (λ copy. copy ≡ name.now) }
    {
        match name {
            Some(name) => Ok(Some(name.copy(alloc)?)),
            None => Ok(None),
        }
    }
}
